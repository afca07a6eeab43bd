// A unit, preprocessed (5.1.1.2 phase 4).
ghost use Rattle.std.specs.Prelude.{◌≡◌, None, true, false, IfOk, IfErr, IsSome, OnErr, OnOk};
ghost use Rattle.std.specs.Str.{bytes_eq};
ghost use Rattle.cs_base.specs.Answer.{Gives};
ghost use Rattle.source_files.specs.Below.lexer.FileText.{file_text};
ghost use Rattle.cs_base.specs.Outside.{ReadsOnly};
ghost use Rattle.source_files.specs.Limits.{the_limits};
ghost use Rattle.source_files.specs.Files.{Source, Table, Made, defines_path, found_at, lines_path, numbered, asked};
ghost use Rattle.source_files.specs.Faults.{first_place};
ghost use Rattle.source_files.specs.Search.{can_be_asked};
ghost use Rattle.source_files.specs.Opening.{opening};
ghost use Rattle.include_tree.specs.Unit.{pseudo_path, with_defines, outer_file, main_file};
ghost use Rattle.source_files.specs.Tables.{AreFound, IsGrown, StaysHeld};
ghost use Rattle.include_tree.specs.Preprocessed.{preprocessed, with_text};
ghost use Rattle.include_tree.specs.Fronts.{start_state, HasBegun, AreFronts};
ghost use Rattle.unit_steps.specs.Keeping.{no_text, put_after};
ghost use Rattle.unit_steps.specs.Moments.{state_in, GoesOn, IsReady};
ghost use Rattle.source_files.specs.Sources.{source_at, unit_most, GivesOpening};
ghost use Rattle.include_tree.specs.GivenFiles.{unit_context};
ghost use Rattle.source_files.specs.Answers.{fault_of, IsNoReadFault, reads_of, ReadsOn, Keeps};

use crate::fronts::Fronts;
use crate::main_walk::walk_own;
use crate::settings_text::{defines_path, defines_text};
use crate::walking::walk_file;
use cs_base::{Files, Unit};
use source_files::{Cache, PreFault, ask_bytes, first_place, open_file};
use std::alloc::Global;
use unit_steps::{Progress, UnitText};

// So many more files may be open inside the pseudo file, and inside that of the unit.
const MOST_INSIDE: u32 = 199;

// The number of a file of a path that was met, opened for a unit.
fn open_met(alloc: Global, cache: &mut Cache, path: &[u8]) -> Result<u32, PreFault>
    requires { bytes_eq path.now lines_path ≡ false }
    ensures answer { GivesOpening result (opening the_limits file_text (first_place path.now) path.now cache.old.table) cache.new.table }
    ensures there { IfOk result (λ n. IsSome (source_at cache.new.table n)) }
    ensures keeps { Keeps cache.old cache.new }
    ensures no_read { IfErr result IsNoReadFault }
{
    match first_place(alloc, path) {
        Ok(place) => open_file(alloc, cache, path, &place),
        Err(_) => Err(PreFault::Memory),
    }
}

// The number of a pseudo file of a unit's own with this text, which is made unless its path was met.
fn make_own(alloc: Global, cache: &mut Cache, number: u32, text: Vec<u8>) -> Result<u32, PreFault>
    ensures answer { found_at (defines_path number) cache.old.table ≡ None → GivesOpening result (opening the_limits file_text (first_place (defines_path number)) (defines_path number)
        (numbered (defines_path number) (Made text.items) cache.old.table)) cache.new.table }
    ensures there { IfOk result (λ n. IsSome (source_at cache.new.table n)) }
    ensures keeps { Keeps cache.old cache.new }
    ensures no_read { IfErr result IsNoReadFault }
{
    let path = defines_path(alloc, number)?;
    if cache.has(&path) {
        return open_met(alloc, cache, &path);
    }
    cache.make(alloc, &path, text)
}

// The number of the pseudo file of the unit: that of the first unit whose text it has, or one of its own.
fn make_defines(alloc: Global, cache: &mut Cache, unit: &Unit, number: u32) -> Result<u32, PreFault>
    ensures answer { found_at (defines_path number) cache.old.table ≡ None → GivesOpening result (opening the_limits file_text (first_place (pseudo_path number unit.now cache.old.table))
        (pseudo_path number unit.now cache.old.table) (with_defines number unit.now cache.old.table)) cache.new.table }
    ensures there { IfOk result (λ n. IsSome (source_at cache.new.table n)) }
    ensures keeps { Keeps cache.old cache.new }
    ensures no_read { IfErr result IsNoReadFault }
{
    let text = defines_text(alloc, unit)?;
    match cache.made(&text) {
        Some(found) => match Vec::from_slice(alloc, found) {
            Ok(path) => open_met(alloc, cache, &path),
            Err(_) => Err(PreFault::Memory),
        },
        None => make_own(alloc, cache, number, text),
    }
}

// The items of the pseudo file of the unit, whose number is told.
fn walk_defines<F: Files>(
    alloc: Global,
    cache: &mut Cache,
    files: &mut F,
    p: &mut Progress,
    unit: &Unit,
    number: u32,
) -> Result<u32, PreFault>
    requires ready { IsReady p.old (unit_most cache.old.toks) }
    requires start { (table : Table) → state_in table p.old ≡ record (start_state unit.now.standard) { table = table } }
    requires nothing { p.old.text ≡ no_text }
    ensures answer { found_at (defines_path number) cache.old.table ≡ None → (source : Source) → AreFound source cache.new.table →
        Gives (λ _. (state_in cache.new.table p.new, p.new.text)) fault_of result (put_after p.old.text (outer_file (unit_context source unit.now cache.old.toks) (pseudo_path number unit.now cache.old.table)
        (state_in (with_defines number unit.now cache.old.table) p.old))) }
    ensures begun { IfOk result (λ n. p.new.behind ≡ None → HasBegun unit.now cache.new.table n (state_in cache.new.table p.new) p.new.text) }
    ensures goes_on { GoesOn p.old p.new result }
    ensures reads { ReadsOn (F.told files.old).held cache.old cache.new }
    ensures faults { ReadsOnly (F.told files.old) (F.told files.new) (reads_of result) }
{
    match make_defines(alloc, cache, unit, number) {
        Ok(defines) => match walk_file(alloc, cache, files, p, unit, defines, MOST_INSIDE) {
            Ok(()) => {
                let _numbers = cache.numbers();
                Ok(defines)
            }
            Err(fault) => Err(fault),
        },
        Err(fault) => Err(fault),
    }
}

// The number of the unit's own file, which is asked for and opened.
fn open_main<F: Files>(
    alloc: Global,
    cache: &mut Cache,
    files: &mut F,
    path: &[u8],
) -> Result<u32, PreFault>
    requires can { can_be_asked path.now ≡ true }
    ensures answer { (source : Source) → AreFound source cache.new.table →
        GivesOpening result (opening the_limits file_text (first_place path.now) path.now (asked source path.now cache.old.table)) cache.new.table }
    ensures there { IfOk result (λ n. IsSome (source_at cache.new.table n)) }
    ensures reads { ReadsOn (F.told files.old).held cache.old cache.new }
    ensures faults { ReadsOnly (F.told files.old) (F.told files.new) (reads_of result) }
{
    match ask_bytes(alloc, cache, files, path) {
        Ok(_there) => match first_place(alloc, path) {
            Ok(place) => open_file(alloc, cache, path, &place),
            Err(_) => Err(PreFault::Memory),
        },
        Err(fault) => Err(fault),
    }
}

// The items of the unit's own file, whose pseudo file has the number `pseudo`.
fn walk_main<F: Files>(
    alloc: Global,
    cache: &mut Cache,
    files: &mut F,
    fronts: &mut Fronts,
    p: &mut Progress,
    unit: &Unit,
    pseudo: u32,
) -> Result<(), PreFault>
    requires ready { IsReady p.old (unit_most cache.old.toks) }
    requires begun { p.old.behind ≡ None → HasBegun unit.now cache.old.table pseudo (state_in cache.old.table p.old) p.old.text }
    requires fronts { AreFronts cache.old.table fronts.old.all.items }
    ensures answer { (source : Source) → AreFound source cache.new.table → Gives (λ _. (state_in cache.new.table p.new, p.new.text)) fault_of result
        (put_after p.old.text (main_file (unit_context source unit.now cache.old.toks) unit.now.path (state_in cache.old.table p.old))) }
    ensures fronts { OnOk result (AreFronts cache.new.table fronts.new.all.items) }
    ensures goes_on { GoesOn p.old p.new result }
    ensures reads { ReadsOn (F.told files.old).held cache.old cache.new }
    ensures faults { ReadsOnly (F.told files.old) (F.told files.new) (reads_of result) }
{
    match open_main(alloc, cache, files, unit.path().bytes()) {
        Ok(main) => walk_own(alloc, cache, files, fronts, p, unit, pseudo, main),
        Err(fault) => Err(fault),
    }
}

/// Preprocesses unit `number`: first the pseudo file of its settings, and then the file of the unit; included files are
/// walked where their lines stand. The text of the unit, or its first fault. The pseudo file is that of the first unit
/// with the same text, whose standard, settings and files included before its own are equal; where none has it, the unit
/// gets one of its own, which has a number and is kept.
///
/// A file is read when its path is asked for the first time, and opened and kept when it is first included:
/// `cache` keeps both for the units that follow. A place is a path, a line and a column, both from 1: that
/// of the token or of the `#` at which the fault stands, that of the include line for a file that cannot be
/// opened, and line 1, column 1 for the unit's own file. A comment without end stands where it begins.
///
/// `Fault` is the first fault of the definition; `ReadFault` comes where a read failed, and names its path;
/// `Memory` where memory ran out, at any moment. After each of them the files that were read are kept, and
/// no tokens are counted, so that another unit, or the same one under another number, may follow. A number
/// whose pseudo file was made is used up: where it comes again, the pseudo file stays as it was made, and
/// nothing is said of the unit.
pub fn preprocess<F: Files>(
    alloc: Global,
    cache: &mut Cache,
    files: &mut F,
    unit: &Unit,
    number: u32,
) -> Result<UnitText, PreFault>
    // What is kept stays what the files hold, where that is told.
    ensures found { StaysHeld (F.told files.old).held cache.old.table cache.new.table }
    // The files that were read are kept, also after a refusal, and then no tokens are counted.
    ensures grown { IsGrown cache.old.table cache.new.table }
    ensures counted { OnErr result (cache.new.toks ≡ cache.old.toks) }
    // Where the pseudo file of the unit was not met yet: over every source that holds what is then kept.
    ensures answer { found_at (defines_path number) cache.old.table ≡ None → (source : Source) → AreFound source cache.new.table →
        Gives (with_text cache.new) fault_of result (preprocessed source number unit.now cache.old) }
    ensures faults { ReadsOnly (F.told files.old) (F.told files.new) (reads_of result) }
{
    let mut fronts = Fronts::new(alloc);
    preprocess_on(alloc, cache, files, &mut fronts, unit, number)
}

/// The same, where the units before left fronts, which are of what is kept: what the unit begins with as one of them says is
/// put in, and a front more may be kept. Behind a refusal nothing is said of them.
pub fn preprocess_on<F: Files>(
    alloc: Global,
    cache: &mut Cache,
    files: &mut F,
    fronts: &mut Fronts,
    unit: &Unit,
    number: u32,
) -> Result<UnitText, PreFault>
    requires fronts { AreFronts cache.old.table fronts.old.all.items }
    ensures fronts { OnOk result (AreFronts cache.new.table fronts.new.all.items) }
    // What is kept stays what the files hold, where that is told.
    ensures found { StaysHeld (F.told files.old).held cache.old.table cache.new.table }
    // The files that were read are kept, also after a refusal, and then no tokens are counted.
    ensures grown { IsGrown cache.old.table cache.new.table }
    ensures counted { OnErr result (cache.new.toks ≡ cache.old.toks) }
    // Where the pseudo file of the unit was not met yet: over every source that holds what is then kept.
    ensures answer { found_at (defines_path number) cache.old.table ≡ None → (source : Source) → AreFound source cache.new.table →
        Gives (with_text cache.new) fault_of result (preprocessed source number unit.now cache.old) }
    ensures faults { ReadsOnly (F.told files.old) (F.told files.new) (reads_of result) }
{
    let mut p = match Progress::begin(alloc, unit.standard().is_gnu(), cache.most()) {
        Ok(p) => p,
        Err(_) => return Err(PreFault::Memory),
    };
    let pseudo = match walk_defines(alloc, cache, files, &mut p, unit, number) {
        Ok(pseudo) => pseudo,
        Err(fault) => return Err(fault),
    };
    match walk_main(alloc, cache, files, fronts, &mut p, unit, pseudo) {
        Ok(()) => (),
        Err(fault) => return Err(fault),
    }
    cache.count(p.text.before());
    Ok(p.text.settled())
}
