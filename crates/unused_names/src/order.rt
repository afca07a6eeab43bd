// The order of positions in reports.
ghost use Rattle.std.specs.Prelude.{◌≡◌};
ghost use Rattle.std.specs.Ordering.{nat_cmp, ordering_then};
ghost use Rattle.unused_names.specs.Order.{path_of, position_cmp};

use analysis::Analysis;
use cs_base::Pos;
use std::cmp::Ordering;

// The path of the kept file with a number.
fn path_of(a: &Analysis, number: u32) -> &[u8]
    ensures { result.now ≡ path_of a.now.value.table number }
{
    match a.file(number) {
        Some(file) => file.path(),
        None => &[],
    }
}

/// Which of two positions comes first.
pub(crate) fn compare(a: &Analysis, p: Pos, q: Pos) -> Ordering
    ensures { result ≡ position_cmp a.now.value.table p q }
{
    match path_of(a, p.file).cmp(path_of(a, q.file)) {
        Ordering::Less => Ordering::Less,
        Ordering::Equal => in_files(p, q),
        Ordering::Greater => Ordering::Greater,
    }
}

// The same of positions in files of one path.
fn in_files(p: Pos, q: Pos) -> Ordering
    ensures { result ≡ ordering_then (nat_cmp p.file q.file) (nat_cmp p.at q.at) }
{
    match p.file.cmp(&q.file) {
        Ordering::Less => Ordering::Less,
        Ordering::Equal => p.at.cmp(&q.at),
        Ordering::Greater => Ordering::Greater,
    }
}
