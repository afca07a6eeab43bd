// The units of a workspace, each with its standard and the settings that hold in it.
ghost use Rattle.std.specs.Prelude.{◌≡◌, IsUtf8};

use crate::texts::Text;
use std::marker::Model;

/// A setting: `#define` with the rest of its line, or `#undef` with a name.
#[derive(Drop)]
pub enum Setting {
    Define(Text),
    Undefine(Text),
}

/// The standard that a unit is read by: ISO/IEC 9899:1999 or 9899:2011, or one of these with what gcc has more.
#[derive(Clone, Copy, Debug, PartialEq, Eq)]
pub enum Standard {
    C99,
    C11,
    Gnu99,
    Gnu11,
}

impl Standard {
    ghost use Rattle.cs_base.specs.Units.{is_gnu};

    /// C as gcc has it, with more than the standard.
    pub fn is_gnu(self) -> bool
        ensures { result ≡ is_gnu self }
    {
        match self {
            Standard::C99 | Standard::C11 => false,
            Standard::Gnu99 | Standard::Gnu11 => true,
        }
    }
}

/// A unit of a workspace. Contracts see the record of its parts.
#[derive(Drop)]
pub struct Unit {
    project: Text,
    path: Text,
    qpath: Vec<Text>,
    ipath: Vec<Text>,
    settings: Vec<Setting>,
    includes: Vec<Text>,
    standard: Standard,
}

impl Model for Unit {
    ghost use Rattle.cs_base.specs.Units.{UnitValue, unit, IsUnit};

    ghost Value = { UnitValue };

    ghost view = { λ u. unit u.project u.path u.qpath.items u.ipath.items u.settings.items u.includes.items u.standard };

    ghost invariant = { λ u. IsUnit (unit u.project u.path u.qpath.items u.ipath.items u.settings.items u.includes.items u.standard) };
}

impl Unit {
    ghost use Rattle.cs_base.specs.Units.{unit, IsUnit};

    /// A unit of these parts.
    pub fn new(
        project: Text,
        path: Text,
        qpath: Vec<Text>,
        ipath: Vec<Text>,
        settings: Vec<Setting>,
        includes: Vec<Text>,
        standard: Standard,
    ) -> Unit
        requires sound { IsUnit (unit project path qpath.items ipath.items settings.items includes.items standard) }
        ensures answer { result ≡ unit project path qpath.items ipath.items settings.items includes.items standard }
    {
        Unit {
            project,
            path,
            qpath,
            ipath,
            settings,
            includes,
            standard,
        }
    }

    /// The project that the unit belongs to.
    pub fn project(&self) -> &Text
        ensures answer { result.now ≡ self.now.project }
        ensures sound { IsUnit self.now }
    {
        &self.project
    }

    /// The path of its main source file.
    pub fn path(&self) -> &Text
        ensures answer { result.now ≡ self.now.path }
        ensures sound { IsUnit self.now }
        ensures utf8 { IsUtf8 result.now }
    {
        &self.path
    }

    /// The directories that includes of quoted names alone are looked for in, in order, before those of `ipath`.
    pub fn qpath(&self) -> &[Text]
        ensures answer { result.now ≡ self.now.qpath }
        ensures sound { IsUnit self.now }
    {
        self.qpath.as_slice()
    }

    /// The directories that its includes are looked for in, in order.
    pub fn ipath(&self) -> &[Text]
        ensures answer { result.now ≡ self.now.ipath }
        ensures sound { IsUnit self.now }
    {
        self.ipath.as_slice()
    }

    /// The settings that hold in it, in order.
    pub fn settings(&self) -> &[Setting]
        ensures answer { result.now ≡ self.now.settings }
        ensures sound { IsUnit self.now }
    {
        self.settings.as_slice()
    }

    /// The files that are included before its own, in order.
    pub fn includes(&self) -> &[Text]
        ensures answer { result.now ≡ self.now.includes }
        ensures sound { IsUnit self.now }
    {
        self.includes.as_slice()
    }

    /// The standard that it is read by.
    pub fn standard(&self) -> Standard
        ensures answer { result ≡ self.now.standard }
        ensures sound { IsUnit self.now }
    {
        self.standard
    }
}
