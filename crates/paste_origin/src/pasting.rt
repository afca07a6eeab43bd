// The operator ## (ISO/IEC 9899:1999, 6.10.3.3).
ghost use Rattle.std.specs.Prelude.{◌≡◌, ◌++◌, ◌+◌, ◌<◌, ◌^◌, IfOk, length};
ghost use Rattle.cs_base.specs.Answer.{Gives};
ghost use Rattle.cs_base.specs.Spans.{AreSpans, origins_by};
ghost use Rattle.paste_origin.specs.Pasting.{glue_of, AreTraced};
ghost use Rattle.paste_origin.specs.Refusals.{paste_fault_of};

use crate::glue_refusal::GlueRefusal;
use cs_base::{Memory, Span, Tok};
use lexer::one_token;
use std::alloc::Global;

// The spellings of two tokens, one behind the other.
fn joined_text(alloc: Global, x: &Tok, y: &Tok) -> Result<Vec<u8>, Memory>
    ensures { IfOk result (λ text. text.items ≡ x.now.text ++ y.now.text) }
{
    let mut text = Vec::from_slice(alloc, x.text())?;
    text.extend_from_slice(y.text())?;
    Ok(text)
}

// The spans of two tokens' characters, those of `y` behind those of `x`.
fn joined_spans(alloc: Global, x: &Tok, y: &Tok) -> Result<Vec<Span>, Memory>
    requires { length x.now.text + length y.now.text < 2 ^ 32 }
    ensures answer { IfOk result (λ spans. origins_by (length x.now.text + length y.now.text) spans.items
        ≡ x.now.origins ++ y.now.origins) }
    ensures sound { IfOk result (λ spans. AreSpans (length x.now.text + length y.now.text) spans.items) }
{
    let mut spans = Vec::new(alloc);
    x.push_spans(0, &mut spans)?;
    y.push_spans(x.text().len() as u32, &mut spans)?;
    Ok(spans)
}

/// The token that `x ## y` makes of two tokens: their spellings and the origins of their characters
/// one behind the other, under the labels of `x`.
///
/// Refused: `NotOneToken` exactly where the spellings together are not one token (6.10.3.3
/// paragraph 3); a header name and a lone character of no other kind are none here. A token of 2^32
/// characters or more is answered by `Memory`. A refused call changes nothing.
pub fn glue(alloc: Global, x: &Tok, y: &Tok) -> Result<Tok, GlueRefusal>
    requires traced { AreTraced x.now y.now }
    ensures answer { Gives (λ t. t) paste_fault_of result (glue_of x.now y.now) }
{
    let text = joined_text(alloc, x, y)?;
    if text.len() > u32::MAX as usize {
        return Err(GlueRefusal::Memory);
    }
    match one_token(text.as_slice()) {
        None => Err(GlueRefusal::NotOneToken),
        Some(kind) => {
            let spans = joined_spans(alloc, x, y)?;
            Ok(Tok::with_spans(
                alloc,
                kind,
                text.as_slice(),
                spans.as_slice(),
                x.gap(),
                x.at(),
                x.line(),
                x.direct(),
            )?)
        }
    }
}
