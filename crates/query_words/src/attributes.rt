// What may be asked of a class, besides how it is spelled.
ghost use Rattle.std.specs.Prelude.{◌≡◌};
ghost use Rattle.std.specs.Str.{bytes_eq};
ghost use Rattle.query_words.specs.Attributes.{attribute_of, has};

/// An attribute of a class.
#[derive(Clone, Copy, Debug, PartialEq, Eq)]
pub enum Attribute {
    /// The name of a macro that is defined.
    Macro,
    Function,
    Object,
    Typedef,
    Parameter,
    Enumerator,
    Tag,
    Member,
    Label,
    /// The name of an entity with external linkage.
    External,
    /// It stands in a file that is not edited.
    ReadOnly,
    /// It is declared and not used.
    Unused,
    /// It has a part of a token that has other parts too.
    Cut,
}

/// Which attributes something has.
#[derive(Clone, Copy, Debug, PartialEq, Eq)]
pub struct Facts {
    pub macro_: bool,
    pub function: bool,
    pub object: bool,
    pub typedef: bool,
    pub parameter: bool,
    pub enumerator: bool,
    pub tag: bool,
    pub member: bool,
    pub label: bool,
    pub external: bool,
    pub read_only: bool,
    pub unused: bool,
    pub cut: bool,
}

impl Facts {
    /// Whether the attribute is among them.
    pub fn has(&self, attribute: Attribute) -> bool
        ensures { result ≡ has self.now attribute }
    {
        match attribute {
            Attribute::Macro => self.macro_,
            Attribute::Function => self.function,
            Attribute::Object => self.object,
            Attribute::Typedef => self.typedef,
            Attribute::Parameter => self.parameter,
            Attribute::Enumerator => self.enumerator,
            Attribute::Tag => self.tag,
            Attribute::Member => self.member,
            Attribute::Label => self.label,
            Attribute::External => self.external,
            Attribute::ReadOnly => self.read_only,
            Attribute::Unused => self.unused,
            Attribute::Cut => self.cut,
        }
    }
}

fn is_text(word: &[u8], text: &[u8]) -> bool
    ensures { result ≡ bytes_eq word.now text.now }
{
    word == text
}

#[tactic(auto, unfolding(crate::specs::Attributes::attribute_of))]
/// The attribute with this name.
pub fn attribute_of(word: &[u8]) -> Option<Attribute>
    ensures { result ≡ attribute_of word.now }
{
    if is_text(word, b"macro") {
        Some(Attribute::Macro)
    } else if is_text(word, b"function") {
        Some(Attribute::Function)
    } else if is_text(word, b"object") {
        Some(Attribute::Object)
    } else if is_text(word, b"typedef") {
        Some(Attribute::Typedef)
    } else if is_text(word, b"parameter") {
        Some(Attribute::Parameter)
    } else if is_text(word, b"enumerator") {
        Some(Attribute::Enumerator)
    } else if is_text(word, b"tag") {
        Some(Attribute::Tag)
    } else if is_text(word, b"member") {
        Some(Attribute::Member)
    } else if is_text(word, b"label") {
        Some(Attribute::Label)
    } else if is_text(word, b"external") {
        Some(Attribute::External)
    } else if is_text(word, b"readonly") {
        Some(Attribute::ReadOnly)
    } else if is_text(word, b"unused") {
        Some(Attribute::Unused)
    } else if is_text(word, b"cut") {
        Some(Attribute::Cut)
    } else {
        None
    }
}
