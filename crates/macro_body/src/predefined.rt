// What stands for `__LINE__` and `__FILE__` (6.10.8), and for `__COUNTER__` of GNU C.
ghost use Rattle.std.specs.Prelude.{◌≡◌, ◌<◌, ◌≤◌, ◌+◌, ◌++◌, ◌^◌, [], IfOk};
ghost use Rattle.std.specs.List.{flat_map};
ghost use Rattle.cs_base.specs.declared.tokens.Kind.TheVariants.{Str};
ghost use Rattle.cs_base.specs.Limits.{most_bytes};
ghost use Rattle.paste_origin.specs.Strings.{escaped};
ghost use Rattle.macro_body.specs.Substitution.{digit_origins, number_token, line_number, path_text, path_string};

use cs_base::{Kind, Memory, Pos, Tok};
use itoa::Buffer;
use std::alloc::Global;

/// The number that stands for `__LINE__` (6.10.8): the line of the name, counted from 1. `Memory` where memory
/// ran out.
pub fn line_number(alloc: Global, name: &Tok) -> Result<Tok, Memory>
    requires low { name.now.line ≤ most_bytes }
    ensures { IfOk result (λ t. t ≡ line_number name.now) }
{
    number_token(alloc, name, name.line())
}

/// A number in place of a name. Its characters come from the digits of that number in the file with number 0.
/// `Memory` where memory ran out.
pub fn number_token(alloc: Global, name: &Tok, number: u32) -> Result<Tok, Memory>
    requires low { number ≤ most_bytes }
    ensures { IfOk result (λ t. t ≡ number_token name.now number) }
{
    let mut buffer = Buffer::new();
    let text = buffer.format(number).as_bytes();
    let origins = digit_origins(alloc, 8 * number, text.len() as u32)?;
    Tok::new(
        alloc,
        Kind::Number,
        text,
        &origins,
        name.gap(),
        name.at(),
        name.line(),
        false,
    )
}

// The origins of so many digits, from this character on.
fn digit_origins(alloc: Global, at: u32, len: u32) -> Result<Vec<Option<Pos>>, Memory>
    requires fits { at + len < 2 ^ 32 }
    ensures { IfOk result (λ origins. origins.items ≡ digit_origins at len) }
{
    let mut origins = Vec::new(alloc);
    for k in 0..len {
        origins.push(Some(Pos {
            file: 0,
            at: at + k,
        }))?;
    }
    Ok(origins)
}

/// The string that stands for `__FILE__`: the path of the file, `"` and `\` escaped.
pub fn path_string(alloc: Global, path: &[u8], name: &Tok) -> Result<Tok, Memory>
    ensures { IfOk result (λ t. t ≡ path_string path.now name.now) }
{
    let text = path_text(alloc, path)?;
    Tok::new(
        alloc,
        Kind::Str,
        &text,
        &[],
        name.gap(),
        name.at(),
        name.line(),
        false,
    )
}

fn path_text(alloc: Global, path: &[u8]) -> Result<Vec<u8>, Memory>
    ensures { IfOk result (λ text. text.items ≡ path_text path.now) }
{
    let mut text = Vec::new(alloc);
    text.push(b'"')?;
    push_escaped_path(&mut text, path)?;
    text.push(b'"')?;
    Ok(text)
}

// Adds the characters of a path, as they stand in a string.
fn push_escaped_path(text: &mut Vec<u8>, path: &[u8]) -> Result<(), Memory>
    ensures { IfOk result (λ _. text.new.items ≡ text.old.items ++ flat_map (escaped Str) path.now) }
{
    for c in path {
        push_escaped(text, *c)?;
    }
    Ok(())
}

// Adds a character of a path.
fn push_escaped(text: &mut Vec<u8>, c: u8) -> Result<(), Memory>
    ensures { IfOk result (λ _. text.new.items ≡ text.old.items ++ escaped Str c) }
{
    if c == b'"' || c == b'\\' {
        text.push(b'\\')?;
    }
    text.push(c)?;
    Ok(())
}
