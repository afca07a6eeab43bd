// Paths, normalised by their text alone.
ghost use Rattle.std.specs.Prelude.{◌≡◌, ◌++◌, IfOk, OnOk};
ghost use Rattle.std.specs.List.{join_with_byte};
ghost use Rattle.std.specs.Str.{bytes_eq};
ghost use Rattle.cs_base.specs.Paths.{slash, normal_path_of, is_absolute, is_here, is_up, after_component, kept_of, components_of, path_of};
ghost use Rattle.cs_base.specs.Parts.{texts_of, stack_of, slashed};

use crate::no_memory::Memory;
use crate::texts::Text;
use std::alloc::Global;

#[tactic(auto, unfolding(crate::specs::Paths::normal_path_of))]
/// The normalised path: empty and `.` components go, `..` takes the component before it back, and stays
/// at the front of a relative path.
pub fn normal_path(alloc: Global, path: &[u8]) -> Result<Text, Memory>
    ensures { IfOk result (λ t. t ≡ normal_path_of path.now) }
{
    let absolute = is_absolute(path);
    let kept = kept_parts(alloc, path, absolute)?;
    let bytes = joined_parts(alloc, kept.as_slice(), absolute)?;
    Text::new(alloc, bytes.as_slice())
}

fn is_absolute(path: &[u8]) -> bool
    ensures { result ≡ is_absolute path.now }
{
    match path {
        [first, ..] => *first == b'/',
        [] => false,
    }
}

fn is_text(text: &[u8], other: &[u8]) -> bool
    ensures { result ≡ bytes_eq text.now other.now }
{
    text == other
}

// An empty component, or `.`.
fn is_here(part: &[u8]) -> bool
    ensures { result ≡ is_here part.now }
{
    is_text(part, b"") || is_text(part, b".")
}

// The component `..`.
fn is_up(part: &[u8]) -> bool
    ensures { result ≡ is_up part.now }
{
    is_text(part, b"..")
}

// The components that the path keeps, in order.
fn kept_parts<'a>(alloc: Global, path: &'a [u8], absolute: bool) -> Result<Vec<&'a [u8]>, Memory>
    ensures { IfOk result (λ kept. stack_of kept.items ≡ kept_of absolute (components_of path.now)) }
{
    let mut kept = Vec::new(alloc);
    for part in path.split(|b| *b == b'/') {
        keep(&mut kept, part, absolute)?;
    }
    Ok(kept)
}

// Lets the component follow those kept.
fn keep<'a>(kept: &mut Vec<&'a [u8]>, part: &'a [u8], absolute: bool) -> Result<(), Memory>
    ensures { OnOk result (stack_of kept.new.items ≡ after_component absolute (stack_of kept.old.items) part.now) }
{
    if is_here(part) {
        return Ok(());
    }
    if is_up(part) {
        match kept.last() {
            None => {
                if absolute {
                    return Ok(());
                }
            }
            Some(last) => {
                if !is_up(last) {
                    kept.pop();
                    return Ok(());
                }
            }
        }
    }
    kept.push(part)?;
    Ok(())
}

// The path of these components.
fn joined_parts(alloc: Global, parts: &[&[u8]], absolute: bool) -> Result<Vec<u8>, Memory>
    ensures { IfOk result (λ path. path.items ≡ path_of absolute (texts_of parts.now)) }
{
    let mut path = Vec::new(alloc);
    if absolute {
        path.push(b'/')?;
    }
    extend_joined(&mut path, parts)?;
    Ok(path)
}

// Adds the components with a slash between each two.
fn extend_joined(path: &mut Vec<u8>, parts: &[&[u8]]) -> Result<(), Memory>
    ensures { OnOk result (path.new.items ≡ path.old.items ++ join_with_byte slash (texts_of parts.now)) }
{
    match parts.split_first() {
        None => Ok(()),
        Some((first, more)) => {
            path.extend_from_slice(first)?;
            extend_parts(path, more)
        }
    }
}

// Adds the components, each behind a slash.
fn extend_parts(path: &mut Vec<u8>, parts: &[&[u8]]) -> Result<(), Memory>
    ensures { OnOk result (path.new.items ≡ path.old.items ++ slashed (texts_of parts.now)) }
{
    for part in parts {
        path.push(b'/')?;
        path.extend_from_slice(part)?;
    }
    Ok(())
}
