// Paths of files that are not edited.
ghost use Rattle.std.specs.Prelude.{◌≡◌};
ghost use Rattle.include_tree.specs.PseudoFiles.{is_pseudo};
ghost use Rattle.analysis.specs.Places.{is_read_only_path};

use cs_base::Text;

// Whether this is the name of a pseudo file.
fn is_pseudo(path: &[u8]) -> bool
    ensures { result ≡ is_pseudo path.now }
{
    match path {
        [first, ..] => *first == b'<',
        [] => false,
    }
}

/// Whether a path is that of a pseudo file, or begins with one of the prefixes.
pub(crate) fn is_read_only_path(prefixes: &[Text], path: &[u8]) -> bool
    ensures { result ≡ is_read_only_path prefixes.now path.now }
{
    if is_pseudo(path) {
        return true;
    }
    for prefix in prefixes {
        if path.starts_with(prefix.bytes()) {
            return true;
        }
    }
    false
}
