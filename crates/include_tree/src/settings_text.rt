// The pseudo file of a unit: its path, and its text by the standard, the settings that hold in it and the files that
// are included before its own (6.10.2, 6.10.8).
ghost use Rattle.std.specs.Prelude.{◌≡◌, ◌++◌, IfOk, map};
ghost use Rattle.std.specs.List.{flat_map};
ghost use Rattle.cs_base.specs.Units.{version_line, added_lines, fixed_lines, ended_line, setting_line, include_line, defines_of};
ghost use Rattle.source_files.specs.Files.{defines_path};

use cs_base::{Memory, Setting, Standard, Text, Unit};
use std::alloc::Global;

/// The path of the pseudo file of unit `number`.
pub fn defines_path(alloc: Global, number: u32) -> Result<Vec<u8>, Memory>
    ensures { IfOk result (λ path. path.items ≡ defines_path number) }
{
    let digits = number.to_string(alloc)?;
    let mut path = Vec::from_slice(alloc, b"<defines ")?;
    path.extend_from_slice(digits.as_bytes())?;
    path.push(b'>')?;
    Ok(path)
}

// The line that tells the standard.
fn version_line(standard: Standard) -> &'static [u8]
    ensures { result.now ≡ ended_line (version_line standard) }
{
    match standard {
        Standard::C99 | Standard::Gnu99 => b"#define __STDC_VERSION__ 199901L\n",
        Standard::C11 | Standard::Gnu11 => b"#define __STDC_VERSION__ 201112L\n",
    }
}

// The lines that it has more than the standard's own.
fn added_lines(standard: Standard) -> &'static [u8]
    ensures { result.now ≡ flat_map ended_line (added_lines standard) }
{
    if standard.is_gnu() {
        return b"#define _Pragma(__text)\n#define __has_include __has_include\n#define __has_include_next __has_include_next\n";
    }
    b""
}

// The lines that each one begins with.
#[tactic(auto, unfolding(cs_base::specs::Units::fixed_lines))]
fn fixed_lines(alloc: Global, standard: Standard) -> Result<Vec<u8>, Memory>
    ensures { IfOk result (λ text. text.items ≡ flat_map ended_line (fixed_lines standard)) }
{
    let mut text = Vec::from_slice(alloc, b"#define __STDC__ 1\n#define __STDC_HOSTED__ 1\n")?;
    text.extend_from_slice(version_line(standard))?;
    text.extend_from_slice(b"#define __DATE__ \"Jan  1 1970\"\n")?;
    text.extend_from_slice(b"#define __TIME__ \"00:00:00\"\n")?;
    text.extend_from_slice(added_lines(standard))?;
    Ok(text)
}

// Adds the line of a setting.
fn push_line(text: &mut Vec<u8>, setting: &Setting) -> Result<(), Memory>
    ensures { IfOk result (λ _. text.new.items ≡ text.old.items ++ ended_line (setting_line setting.now)) }
{
    match setting {
        Setting::Define(rest) => {
            text.extend_from_slice(b"#define ")?;
            text.extend_from_slice(rest.bytes())?;
        }
        Setting::Undefine(name) => {
            text.extend_from_slice(b"#undef ")?;
            text.extend_from_slice(name.bytes())?;
        }
    }
    text.push(b'\n')?;
    Ok(())
}

// Adds the lines of settings.
fn push_settings(text: &mut Vec<u8>, settings: &[Setting]) -> Result<(), Memory>
    ensures { IfOk result (λ _. text.new.items ≡ text.old.items ++ flat_map ended_line (map setting_line settings.now)) }
{
    for setting in settings {
        push_line(text, setting)?;
    }
    Ok(())
}

// Adds the include line of a file.
fn push_include(text: &mut Vec<u8>, path: &[u8]) -> Result<(), Memory>
    ensures { IfOk result (λ _. text.new.items ≡ text.old.items ++ ended_line (include_line path.now)) }
{
    text.extend_from_slice(b"#include \"")?;
    text.extend_from_slice(path)?;
    text.extend_from_slice(b"\"\n")?;
    Ok(())
}

// Adds the include lines of files.
fn push_includes(text: &mut Vec<u8>, includes: &[Text]) -> Result<(), Memory>
    ensures { IfOk result (λ _. text.new.items ≡ text.old.items ++ flat_map ended_line (map include_line includes.now)) }
{
    for path in includes {
        push_include(text, path.bytes())?;
    }
    Ok(())
}

/// The text of the pseudo file of a unit.
pub fn defines_text(alloc: Global, unit: &Unit) -> Result<Vec<u8>, Memory>
    ensures { IfOk result (λ text. text.items ≡ defines_of unit.now) }
{
    let mut text = fixed_lines(alloc, unit.standard())?;
    push_settings(&mut text, unit.settings())?;
    push_includes(&mut text, unit.includes())?;
    Ok(text)
}
