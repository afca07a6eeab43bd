// The files of the generated workspace, one after another.
ghost use Rattle.std.specs.Prelude.{◌≡◌, ◌∷◌, [], ◌++◌, IfOk, OnOk, IsNone};
ghost use Rattle.cs_base.specs.Outside.{bytes_at};
ghost use Rattle.cs_base.specs.World.{empty_world};
ghost use Rattle.generated.specs.Generated.{generated_files, unit_line, unit_path, unit_text};

use cs_base::{MemFiles, Memory};
use std::alloc::Global;
use std::format;

/// The workspace of so many units, as files in memory that let no read fail.
pub fn generate(alloc: Global, n: u32) -> Result<MemFiles, Memory>
    ensures { IfOk result (λ files. files ≡ record empty_world { files = generated_files n }) }
{
    let mut files = MemFiles::new(alloc);
    files.add("h.h", b"extern int total;\n#define TWICE(x) (2 * x)\n")?;
    let mut lines = Vec::new(alloc);
    for k in 0..n {
        add_unit(alloc, &mut files, &mut lines, k + 1)?;
    }
    files.add("w.cs", lines.as_slice())?;
    Ok(files)
}

// Adds the unit of the number, and its line.
fn add_unit(alloc: Global, files: &mut MemFiles, lines: &mut Vec<u8>, i: u32) -> Result<(), Memory>
    requires { IsNone (bytes_at (unit_path i) files.old.files) }
    ensures file { OnOk result (files.new ≡ record files.old { files = files.old.files ++ (unit_path i, unit_text i) ∷ [] }) }
    ensures line { OnOk result (lines.new.items ≡ lines.old.items ++ unit_line i) }
{
    let path = format!(in alloc; "u{i}.c")?;
    let text = format!(in alloc;
        "#include \"h.h\"\nint f{i}(int a) {{ return TWICE(a) + total; }}\n"
    )?;
    files.add(path.as_str(), text.as_bytes())?;
    lines.extend_from_slice(b"file ")?;
    lines.extend_from_slice(path.as_bytes())?;
    lines.extend_from_slice(b"\n")?;
    Ok(())
}
