// The report `tokens`.
ghost use Rattle.std.specs.Prelude.{◌≡◌, ◌++◌, IfOk, OnOk};
ghost use Rattle.query_report.specs.TokensText.{token_line, tokens_text};

use analysis::UnitText;
use cs_base::{Memory, Tok};
use std::alloc::Global;

/// The tokens of a unit in order, the spelling of each on a line of its own.
pub fn print_tokens(alloc: Global, t: &UnitText) -> Result<Vec<u8>, Memory>
    ensures { IfOk result (λ text. text.items ≡ tokens_text t.now) }
{
    let toks = t.toks();
    let mut text = Vec::new(alloc);
    for tok in toks {
        push_token(&mut text, tok)?;
    }
    Ok(text)
}

// Adds the line of a token.
fn push_token(text: &mut Vec<u8>, tok: &Tok) -> Result<(), Memory>
    ensures { OnOk result (text.new.items ≡ text.old.items ++ token_line tok.now) }
{
    text.extend_from_slice(tok.text())?;
    text.extend_from_slice(b"\n")?;
    Ok(())
}
