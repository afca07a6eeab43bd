// The text of a workspace.
ghost use Rattle.std.specs.Prelude.{◌≡◌, ◌≤◌, ◌++◌, Ok, IfOk, OnOk, length, map};
ghost use Rattle.std.specs.List.{flat_map};
ghost use Rattle.cs_base.specs.Units.{ended_line};
ghost use Rattle.cs_base.specs.Limits.{most_bytes};
ghost use Rattle.ws_file.specs.Reading.{workspace_of};
ghost use Rattle.ws_file.specs.Printing.{readonly_line, standard_lines, qpath_line, ipath_line, define_line, included_line, unit_lines, lines_text, workspace_text};

use crate::text_tests::is_text;
use crate::workspaces::Workspace;
use cs_base::{Memory, Setting, Standard, Text, Unit};
use std::alloc::Global;

/// The text of the workspace, which is read back as the same workspace where it fits into a file.
pub fn print_ws(alloc: Global, ws: &Workspace) -> Result<Vec<u8>, Memory>
    ensures answer { IfOk result (λ text. text.items ≡ workspace_text ws.now) }
    ensures read_back { IfOk result (λ text. length text.items ≤ most_bytes → workspace_of text.items ≡ Ok ws.now) }
{
    let mut text = Vec::new(alloc);
    add_prefixes(&mut text, ws.readonly())?;
    add_units(&mut text, ws.units())?;
    Ok(text)
}

fn add_prefixes(text: &mut Vec<u8>, prefixes: &[Text]) -> Result<(), Memory>
    ensures { OnOk result (text.new.items ≡ text.old.items ++ lines_text (map readonly_line prefixes.now)) }
{
    for prefix in prefixes {
        add_line(text, b"readonly ", prefix.bytes())?;
    }
    Ok(())
}

fn add_units(text: &mut Vec<u8>, units: &[Unit]) -> Result<(), Memory>
    ensures { OnOk result (text.new.items ≡ text.old.items ++ lines_text (flat_map unit_lines units.now)) }
{
    for unit in units {
        add_unit(text, unit)?;
    }
    Ok(())
}

fn add_unit(text: &mut Vec<u8>, unit: &Unit) -> Result<(), Memory>
    ensures { OnOk result (text.new.items ≡ text.old.items ++ lines_text (unit_lines unit.now)) }
{
    add_line(text, b"project ", unit.project().bytes())?;
    add_standard(text, unit.standard())?;
    add_quoted_directories(text, unit.qpath())?;
    add_directories(text, unit.ipath())?;
    add_settings(text, unit.settings())?;
    add_includes(text, unit.includes())?;
    add_line(text, b"file ", unit.path().bytes())
}

fn add_standard(text: &mut Vec<u8>, standard: Standard) -> Result<(), Memory>
    ensures { OnOk result (text.new.items ≡ text.old.items ++ lines_text (standard_lines standard)) }
{
    match standard {
        Standard::C99 => Ok(()),
        Standard::C11 => add_line(text, b"standard ", b"c11"),
        Standard::Gnu99 => add_line(text, b"standard ", b"gnu99"),
        Standard::Gnu11 => add_line(text, b"standard ", b"gnu11"),
    }
}

fn add_quoted_directories(text: &mut Vec<u8>, directories: &[Text]) -> Result<(), Memory>
    ensures { OnOk result (text.new.items ≡ text.old.items ++ lines_text (map qpath_line directories.now)) }
{
    for directory in directories {
        add_quoted_directory(text, directory.bytes())?;
    }
    Ok(())
}

fn add_quoted_directory(text: &mut Vec<u8>, directory: &[u8]) -> Result<(), Memory>
    ensures { OnOk result (text.new.items ≡ text.old.items ++ ended_line (qpath_line directory.now)) }
{
    if is_text(directory, b"") {
        return add_line(text, b"qpath ", b".");
    }
    add_line(text, b"qpath ", directory)
}

fn add_directories(text: &mut Vec<u8>, directories: &[Text]) -> Result<(), Memory>
    ensures { OnOk result (text.new.items ≡ text.old.items ++ lines_text (map ipath_line directories.now)) }
{
    for directory in directories {
        add_directory(text, directory.bytes())?;
    }
    Ok(())
}

fn add_directory(text: &mut Vec<u8>, directory: &[u8]) -> Result<(), Memory>
    ensures { OnOk result (text.new.items ≡ text.old.items ++ ended_line (ipath_line directory.now)) }
{
    if is_text(directory, b"") {
        return add_line(text, b"ipath ", b".");
    }
    add_line(text, b"ipath ", directory)
}

fn add_settings(text: &mut Vec<u8>, settings: &[Setting]) -> Result<(), Memory>
    ensures { OnOk result (text.new.items ≡ text.old.items ++ lines_text (map define_line settings.now)) }
{
    for setting in settings {
        add_setting(text, setting)?;
    }
    Ok(())
}

fn add_setting(text: &mut Vec<u8>, setting: &Setting) -> Result<(), Memory>
    ensures { OnOk result (text.new.items ≡ text.old.items ++ ended_line (define_line setting.now)) }
{
    match setting {
        Setting::Define(rest) => add_line(text, b"define ", rest.bytes()),
        Setting::Undefine(name) => add_line(text, b"undefine ", name.bytes()),
    }
}

fn add_includes(text: &mut Vec<u8>, includes: &[Text]) -> Result<(), Memory>
    ensures { OnOk result (text.new.items ≡ text.old.items ++ lines_text (map included_line includes.now)) }
{
    for path in includes {
        add_line(text, b"include ", path.bytes())?;
    }
    Ok(())
}

fn add_line(text: &mut Vec<u8>, word: &[u8], rest: &[u8]) -> Result<(), Memory>
    ensures { OnOk result (text.new.items ≡ text.old.items ++ ended_line (word.now ++ rest.now)) }
{
    text.extend_from_slice(word)?;
    text.extend_from_slice(rest)?;
    text.push(b'\n')?;
    Ok(())
}
