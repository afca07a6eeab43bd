// Copies of texts, settings and units.
ghost use Rattle.std.specs.Prelude.{◌≡◌, IfOk};

use cs_base::{Memory, Setting, Text, Unit};
use std::alloc::Global;

pub fn copied_text(alloc: Global, text: &Text) -> Result<Text, Memory>
    ensures { IfOk result (λ copy. copy ≡ text.now) }
{
    Text::new(alloc, text.bytes())
}

pub fn copied_texts(alloc: Global, texts: &[Text]) -> Result<Vec<Text>, Memory>
    ensures { IfOk result (λ copy. copy.items ≡ texts.now) }
{
    let mut copies = Vec::new(alloc);
    for text in texts {
        copies.push(copied_text(alloc, text)?)?;
    }
    Ok(copies)
}

fn copied_setting(alloc: Global, setting: &Setting) -> Result<Setting, Memory>
    ensures { IfOk result (λ copy. copy ≡ setting.now) }
{
    match setting {
        Setting::Define(rest) => Ok(Setting::Define(copied_text(alloc, rest)?)),
        Setting::Undefine(name) => Ok(Setting::Undefine(copied_text(alloc, name)?)),
    }
}

pub fn copied_settings(alloc: Global, settings: &[Setting]) -> Result<Vec<Setting>, Memory>
    ensures { IfOk result (λ copy. copy.items ≡ settings.now) }
{
    let mut copies = Vec::new(alloc);
    for setting in settings {
        copies.push(copied_setting(alloc, setting)?)?;
    }
    Ok(copies)
}

fn copied_unit(alloc: Global, unit: &Unit) -> Result<Unit, Memory>
    ensures { IfOk result (λ copy. copy ≡ unit.now) }
{
    let project = copied_text(alloc, unit.project())?;
    let path = copied_text(alloc, unit.path())?;
    let qpath = copied_texts(alloc, unit.qpath())?;
    let ipath = copied_texts(alloc, unit.ipath())?;
    let settings = copied_settings(alloc, unit.settings())?;
    let includes = copied_texts(alloc, unit.includes())?;
    let standard = unit.standard();
    Ok(Unit::new(project, path, qpath, ipath, settings, includes, standard))
}

pub fn copied_units(alloc: Global, units: &[Unit]) -> Result<Vec<Unit>, Memory>
    ensures { IfOk result (λ copy. copy.items ≡ units.now) }
{
    let mut copies = Vec::new(alloc);
    for unit in units {
        copies.push(copied_unit(alloc, unit)?)?;
    }
    Ok(copies)
}
