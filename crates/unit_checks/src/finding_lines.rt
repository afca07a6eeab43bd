// The lines that tell what stands against units.
ghost use Rattle.std.specs.Prelude.{◌≡◌, ◌++◌, decimal, OnOk};
ghost use Rattle.analysis.specs.ClassReport.{place_text};
ghost use Rattle.unit_checks.specs.Checked.{accepted_line, finding_line, finding_text, from_text, tail_text, token_text, unit_name};

use crate::findings::Finding;
use cs_base::{Memory, Place, Text};
use itoa::Buffer;

// Adds a number.
fn push_number(text: &mut Vec<u8>, number: u32) -> Result<(), Memory>
    ensures { OnOk result (text.new.items ≡ text.old.items ++ decimal number) }
{
    let mut digits = Buffer::new();
    text.extend_from_slice(digits.format(number).as_bytes())?;
    Ok(())
}

// Adds a place, as `PATH:LINE:COL`.
fn push_place(text: &mut Vec<u8>, place: &Place) -> Result<(), Memory>
    ensures { OnOk result (text.new.items ≡ text.old.items ++ place_text place.now) }
{
    text.extend_from_slice(place.path.bytes())?;
    text.extend_from_slice(b":")?;
    push_number(text, place.line)?;
    text.extend_from_slice(b":")?;
    push_number(text, place.column)
}

// Adds the token, if there is one.
fn push_token(text: &mut Vec<u8>, token: &Option<Text>) -> Result<(), Memory>
    ensures { OnOk result (text.new.items ≡ text.old.items ++ token_text token.now) }
{
    match token {
        Some(token) => {
            text.extend_from_slice(b": ")?;
            text.extend_from_slice(token.bytes())?;
            Ok(())
        }
        None => Ok(()),
    }
}

// Adds where it comes from, if that is told.
fn push_from(text: &mut Vec<u8>, from: &Option<Place>) -> Result<(), Memory>
    ensures { OnOk result (text.new.items ≡ text.old.items ++ from_text from.now) }
{
    match from {
        Some(place) => {
            text.extend_from_slice(b" from ")?;
            push_place(text, place)
        }
        None => Ok(()),
    }
}

// Adds the number and the path of a unit.
fn push_name(text: &mut Vec<u8>, number: u32, path: &[u8]) -> Result<(), Memory>
    ensures { OnOk result (text.new.items ≡ text.old.items ++ unit_name number path.now) }
{
    text.extend_from_slice(b"unit ")?;
    push_number(text, number)?;
    text.extend_from_slice(b" ")?;
    text.extend_from_slice(path)?;
    text.extend_from_slice(b": ")?;
    Ok(())
}

// Adds the token and where it comes from, and ends the line.
fn push_tail(text: &mut Vec<u8>, finding: &Finding) -> Result<(), Memory>
    ensures { OnOk result (text.new.items ≡ text.old.items ++ tail_text finding.now) }
{
    push_token(text, &finding.token)?;
    push_from(text, &finding.from)?;
    text.extend_from_slice(b"\n")?;
    Ok(())
}

// Adds what stands against it.
fn push_text(text: &mut Vec<u8>, finding: &Finding) -> Result<(), Memory>
    ensures { OnOk result (text.new.items ≡ text.old.items ++ finding_text finding.now) }
{
    push_place(text, &finding.place)?;
    text.extend_from_slice(b": ")?;
    text.extend_from_slice(finding.cause.words())?;
    push_tail(text, finding)
}

/// Adds the line of what stands against the unit with a number and a path.
pub(crate) fn push_finding(
    text: &mut Vec<u8>,
    number: u32,
    path: &[u8],
    finding: &Finding,
) -> Result<(), Memory>
    ensures { OnOk result (text.new.items ≡ text.old.items ++ finding_line number path.now finding.now) }
{
    push_name(text, number, path)?;
    push_text(text, finding)
}

/// Adds the line that says how many units are accepted.
pub(crate) fn push_accepted(text: &mut Vec<u8>, count: u32, all: u32) -> Result<(), Memory>
    ensures { OnOk result (text.new.items ≡ text.old.items ++ accepted_line count all) }
{
    text.extend_from_slice(b"accepted ")?;
    push_number(text, count)?;
    text.extend_from_slice(b" of ")?;
    push_number(text, all)?;
    text.extend_from_slice(b" units\n")?;
    Ok(())
}
