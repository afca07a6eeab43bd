// The old name where no unit processes it.
ghost use Rattle.std.specs.Prelude.{IfOk};
ghost use Rattle.analysis.specs.Parts.{IsPart};
ghost use Rattle.class_marks.specs.Keeping.{Keeps};
ghost use Rattle.unseen_names.specs.declared.words.Source.TheVariants as source;
ghost use Rattle.unseen_names.specs.Unseen.{AreUnseen, IsUnprocessed};
ghost use Rattle.unseen_names.specs.Words.{words_of};

use crate::idle::idle;
use crate::others::others;
use crate::place_order::sort;
use crate::processed::unprocessed;
use crate::reach::reached;
use crate::words::{Source, words_of};
use analysis::Analysis;
use cs_base::{Memory, Part};
use std::alloc::Global;

// The words of this spelling in `_Pragma` operators that no unit has.
fn in_pragmas(alloc: Global, a: &Analysis, name: &[u8]) -> Result<Vec<Part>, Memory>
    ensures { IfOk result (λ out. Keeps (IsUnprocessed a.now.value) (words_of a.now.value source.Pragmas name.now) out.items) }
{
    let words = words_of(alloc, a, Source::Pragmas, name)?;
    if words.is_empty() {
        return Ok(words);
    }
    unprocessed(alloc, a, &words)
}

/// The places where the name of the class of a part stands unseen, in their order.
pub fn unseen(alloc: Global, a: &Analysis, part: Part) -> Result<Vec<Part>, Memory>
    requires { IsPart a.now.value part }
    ensures { IfOk result (λ places. AreUnseen a.now.value part places.items) }
{
    let words = words_of(alloc, a, Source::Names, a.spelling(part))?;
    let apart = others(alloc, a, part, &words)?;
    let mut left = idle(alloc, a, apart)?;
    let quoted = in_pragmas(alloc, a, a.spelling(part))?;
    left.extend_from_slice(&quoted)?;
    let mut places = reached(alloc, a, part, left)?;
    sort(a, &mut places)?;
    Ok(places)
}
