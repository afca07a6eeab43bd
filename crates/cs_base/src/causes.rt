// Everything that a message can say of an input that is not accepted or an edit that is refused.
ghost use Rattle.std.specs.Prelude.{◌≡◌};

/// Why an input is not accepted, or what stands against an edit. `words` is what messages print.
#[derive(Clone, Copy, Debug, PartialEq, Eq)]
pub enum Cause {
    // Directive lines of no allowed form (6.10), in the order in which they are looked for.
    UnknownDirective,
    NoMacroName,
    BadMacroName,
    BadParameters,
    BadHash,
    BadPaste,
    BadVaArgs,
    NoHeader,
    // Source files and the include tree (5.1.1.2, 6.10.2).
    OpenComment,
    FileTooLarge,
    TooManyFiles,
    TooManyBytes,
    IncludeDepth,
    MissingFile,
    // Macro expansion (6.10.3).
    OpenCall,
    WrongArguments,
    NotOneToken,
    NotAString,
    TooMuchWork,
    TooDeep,
    // Directives that are reached (6.10).
    BadDirective,
    UnbalancedIf,
    ErrorDirective,
    DefinedFromMacro,
    // Controlling expressions (6.10.1).
    BadCondition,
    DivideByZero,
    Overflow,
    TooManyTokens,
    // Reading and binding (6.2, 6.5 to 6.9).
    Syntax,
    Undeclared,
    NoMember,
    NoLabel,
    Redeclared,
    TagRedefined,
    MixedLinkage,
    DesignatorAfterElision,
    // Offences against a renaming, in the order in which they are named at one place.
    ReadOnly,
    Reserved,
    Stringized,
    HeaderName,
    NotIdentifier,
    Occurs,
    Clash,
    TooLarge,
    ShadowedTypedef,
    // Offences against a reordering, after `ReadOnly`.
    NoPrototype,
    FunctionAsValue,
    InMacro,
    AcrossDirective,
    LineNumber,
    DeclarationInArgument,
    ParameterDependence,
    ArgumentCount,
    OddToken,
    // Offences against a renaming and a reordering, the last.
    AssemblerText,
    // Offences against a reordering where attributes count parameters.
    CountedParameter,
    // Offences against a new order of a macro's parameters, beside those that have these names too.
    NoParameters,
    InDirective,
    NotExpanded,
}

impl Cause {
    ghost use Rattle.cs_base.specs.Words.{words_of};
    ghost use Rattle.cs_base.specs.Order.{number_of, cause_of};

    /// The words that messages print.
    pub fn words(&self) -> &'static [u8]
        ensures { result.now ≡ words_of self.now }
    {
        match self {
            Cause::UnknownDirective
            | Cause::NoMacroName
            | Cause::BadMacroName
            | Cause::BadParameters
            | Cause::BadHash
            | Cause::BadPaste
            | Cause::BadVaArgs
            | Cause::NoHeader
            | Cause::BadDirective => b"bad directive",
            Cause::OpenComment => b"open comment",
            Cause::FileTooLarge => b"file too large",
            Cause::TooManyFiles => b"too many files",
            Cause::TooManyBytes => b"too many bytes",
            Cause::IncludeDepth => b"include depth",
            Cause::MissingFile => b"missing file",
            Cause::OpenCall => b"open call",
            Cause::WrongArguments => b"wrong arguments",
            Cause::NotOneToken => b"not one token",
            Cause::NotAString => b"not a string",
            Cause::TooMuchWork => b"too much work",
            Cause::TooDeep => b"too deep",
            Cause::UnbalancedIf => b"unbalanced if",
            Cause::ErrorDirective => b"error directive",
            Cause::DefinedFromMacro => b"defined from macro",
            Cause::BadCondition => b"bad condition",
            Cause::DivideByZero => b"divide by zero",
            Cause::Overflow => b"overflow",
            Cause::TooManyTokens => b"too many tokens",
            Cause::Syntax => b"syntax",
            Cause::Undeclared => b"undeclared",
            Cause::NoMember => b"no member",
            Cause::NoLabel => b"no label",
            Cause::Redeclared => b"redeclared",
            Cause::TagRedefined => b"tag redefined",
            Cause::MixedLinkage => b"mixed linkage",
            Cause::DesignatorAfterElision => b"designator after elision",
            Cause::ReadOnly => b"read-only",
            Cause::Reserved => b"reserved",
            Cause::Stringized => b"stringized",
            Cause::HeaderName => b"header name",
            Cause::NotIdentifier => b"not an identifier",
            Cause::Occurs => b"occurs",
            Cause::Clash => b"clash",
            Cause::TooLarge => b"too large",
            Cause::ShadowedTypedef => b"shadowed typedef",
            Cause::NoPrototype => b"no prototype",
            Cause::FunctionAsValue => b"function as value",
            Cause::InMacro => b"in a macro",
            Cause::AcrossDirective => b"across a directive",
            Cause::LineNumber => b"line number",
            Cause::DeclarationInArgument => b"declaration in argument",
            Cause::ParameterDependence => b"parameter dependence",
            Cause::ArgumentCount => b"argument count",
            Cause::OddToken => b"odd token",
            Cause::AssemblerText => b"assembler text",
            Cause::CountedParameter => b"counted parameter",
            Cause::NoParameters => b"no parameters",
            Cause::InDirective => b"in a directive",
            Cause::NotExpanded => b"not expanded",
        }
    }

    /// The number of the cause, which tells it: of two offences at one place the one of the lower number is named.
    pub fn number(&self) -> u32
        ensures numbered { result ≡ number_of self.now }
        ensures told { cause_of result ≡ self.now }
    {
        match self {
            Cause::ReadOnly => 1,
            Cause::Reserved => 2,
            Cause::NoPrototype => 3,
            Cause::FunctionAsValue => 4,
            Cause::NoParameters => 5,
            Cause::InMacro => 6,
            Cause::AcrossDirective => 7,
            Cause::InDirective => 8,
            Cause::LineNumber => 9,
            Cause::NotExpanded => 10,
            Cause::Stringized => 11,
            Cause::HeaderName => 12,
            Cause::NotIdentifier => 13,
            Cause::Occurs => 14,
            Cause::Clash => 15,
            Cause::TooLarge => 16,
            Cause::ShadowedTypedef => 17,
            Cause::DeclarationInArgument => 18,
            Cause::ParameterDependence => 19,
            Cause::ArgumentCount => 20,
            Cause::OddToken => 21,
            Cause::CountedParameter => 22,
            Cause::AssemblerText => 23,
            Cause::UnknownDirective => 24,
            Cause::NoMacroName => 25,
            Cause::BadMacroName => 26,
            Cause::BadParameters => 27,
            Cause::BadHash => 28,
            Cause::BadPaste => 29,
            Cause::BadVaArgs => 30,
            Cause::NoHeader => 31,
            Cause::OpenComment => 32,
            Cause::FileTooLarge => 33,
            Cause::TooManyFiles => 34,
            Cause::TooManyBytes => 35,
            Cause::IncludeDepth => 36,
            Cause::MissingFile => 37,
            Cause::OpenCall => 38,
            Cause::WrongArguments => 39,
            Cause::NotOneToken => 40,
            Cause::NotAString => 41,
            Cause::TooMuchWork => 42,
            Cause::TooDeep => 43,
            Cause::BadDirective => 44,
            Cause::UnbalancedIf => 45,
            Cause::ErrorDirective => 46,
            Cause::DefinedFromMacro => 47,
            Cause::BadCondition => 48,
            Cause::DivideByZero => 49,
            Cause::Overflow => 50,
            Cause::TooManyTokens => 51,
            Cause::Syntax => 52,
            Cause::Undeclared => 53,
            Cause::NoMember => 54,
            Cause::NoLabel => 55,
            Cause::Redeclared => 56,
            Cause::TagRedefined => 57,
            Cause::MixedLinkage => 58,
            Cause::DesignatorAfterElision => 59,
        }
    }
}
