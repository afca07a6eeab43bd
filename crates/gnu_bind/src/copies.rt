// Copies of what is known and of what a tree tells.
ghost use Rattle.std.specs.Prelude.{◌≡◌, IfOk};

use c_types::{Declaration, Indices, List, Shown};
use cs_base::Memory;
use std::alloc::Global;

fn declaration(d: &Declaration) -> Result<Declaration, Memory>
    ensures { IfOk result (λ e. e ≡ d.now) }
{
    Ok(Declaration {
        space: d.space,
        name_at: d.name_at,
        entity: d.entity,
        kind: d.kind,
        linkage: d.linkage,
        ctype: d.ctype.copied()?,
        depth: d.depth,
        from: d.from,
        to: d.to,
        listed: d.listed,
    })
}

pub(crate) fn declarations(
    alloc: Global,
    declared: &[Declaration],
) -> Result<Vec<Declaration>, Memory>
    ensures { IfOk result (λ v. v.items ≡ declared.now) }
{
    let mut copied = Vec::new(alloc);
    let count = declared.len();
    'declarations: for k in 0..count {
        copied.push(declaration(&declared[k])?)?;
    }
    Ok(copied)
}

fn list(alloc: Global, l: &List) -> Result<List, Memory>
    ensures { IfOk result (λ m. m ≡ l.now) }
{
    Ok(List {
        name: l.name,
        begin: l.begin,
        close: l.close,
        commas: Indices::new(Vec::from_slice(alloc, l.commas.as_slice())?),
    })
}

fn lists(alloc: Global, told: &[List]) -> Result<Vec<List>, Memory>
    ensures { IfOk result (λ v. v.items ≡ told.now) }
{
    let mut copied = Vec::new(alloc);
    let count = told.len();
    'lists: for k in 0..count {
        copied.push(list(alloc, &told[k])?)?;
    }
    Ok(copied)
}

pub(crate) fn shown(alloc: Global, told: &Shown) -> Result<Shown, Memory>
    ensures lists { IfOk result (λ s. s.lists.items ≡ told.now.lists.items) }
    ensures calls { IfOk result (λ s. s.calls.items ≡ told.now.calls.items) }
    ensures bare { IfOk result (λ s. s.bare.items ≡ told.now.bare.items) }
{
    Ok(Shown {
        lists: lists(alloc, told.lists.as_slice())?,
        calls: lists(alloc, told.calls.as_slice())?,
        bare: Vec::from_slice(alloc, told.bare.as_slice())?,
    })
}
