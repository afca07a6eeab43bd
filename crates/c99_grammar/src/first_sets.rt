// Sets of classes with which several productions start.
ghost use Rattle.std.specs.Prelude.{◌≡◌};
ghost use Rattle.c99_grammar.specs.Classes.{among};
ghost use Rattle.c99_grammar.specs.First.{specifiers, words, qualifiers, modifiers, expressions, assignments, declarators, initializers, initializer_items, statements, members, every};

use crate::classes::Class;

/// Specifiers of a declaration (6.7) start with the class.
pub(crate) fn starts_specifier(class: Class) -> bool
    ensures { result ≡ among specifiers class }
{
    matches!(
        class,
        Class::Auto
            | Class::Char
            | Class::Const
            | Class::Double
            | Class::Enum
            | Class::Extern
            | Class::Float
            | Class::Inline
            | Class::Int
            | Class::Long
            | Class::Register
            | Class::Restrict
            | Class::Short
            | Class::Signed
            | Class::Static
            | Class::Struct
            | Class::Typedef
            | Class::Union
            | Class::Unsigned
            | Class::Void
            | Class::Volatile
            | Class::BoolWord
            | Class::ComplexWord
            | Class::ImaginaryWord
            | Class::TypedefName
    )
}

/// Words of basic types (6.7.2).
pub(crate) fn starts_word(class: Class) -> bool
    ensures { result ≡ among words class }
{
    matches!(
        class,
        Class::Char
            | Class::Double
            | Class::Float
            | Class::Int
            | Class::Long
            | Class::Short
            | Class::Signed
            | Class::Unsigned
            | Class::Void
            | Class::BoolWord
            | Class::ComplexWord
            | Class::ImaginaryWord
    )
}

/// Qualifiers (6.7.3).
pub(crate) fn starts_qualifier(class: Class) -> bool
    ensures { result ≡ among qualifiers class }
{
    matches!(class, Class::Const | Class::Restrict | Class::Volatile)
}

/// Words that stand in any number among specifiers.
pub(crate) fn starts_modifier(class: Class) -> bool
    ensures { result ≡ among modifiers class }
{
    matches!(
        class,
        Class::Auto
            | Class::Const
            | Class::Extern
            | Class::Inline
            | Class::Register
            | Class::Restrict
            | Class::Static
            | Class::Typedef
            | Class::Volatile
    )
}

/// Expressions (6.5).
pub(crate) fn starts_expression(class: Class) -> bool
    ensures { result ≡ among expressions class }
{
    matches!(
        class,
        Class::Sizeof
            | Class::LeftParen
            | Class::PlusPlus
            | Class::MinusMinus
            | Class::Amp
            | Class::Star
            | Class::Plus
            | Class::Minus
            | Class::Tilde
            | Class::Bang
            | Class::Identifier
            | Class::Constant
            | Class::CharConstant
            | Class::StringLiteral
    )
}

/// Assignment operators (6.5.16).
pub(crate) fn starts_assignment(class: Class) -> bool
    ensures { result ≡ among assignments class }
{
    matches!(
        class,
        Class::Eq
            | Class::StarEq
            | Class::SlashEq
            | Class::PercentEq
            | Class::PlusEq
            | Class::MinusEq
            | Class::ShiftLeftEq
            | Class::ShiftRightEq
            | Class::AmpEq
            | Class::CaretEq
            | Class::BarEq
    )
}

/// Declarators (6.7.5).
pub(crate) fn starts_declarator(class: Class) -> bool
    ensures { result ≡ among declarators class }
{
    matches!(
        class,
        Class::LeftParen | Class::Star | Class::Identifier | Class::TypedefName
    )
}

/// Initializers (6.7.8).
pub(crate) fn starts_initializer(class: Class) -> bool
    ensures { result ≡ among initializers class }
{
    matches!(
        class,
        Class::Sizeof
            | Class::LeftParen
            | Class::LeftBrace
            | Class::PlusPlus
            | Class::MinusMinus
            | Class::Amp
            | Class::Star
            | Class::Plus
            | Class::Minus
            | Class::Tilde
            | Class::Bang
            | Class::Identifier
            | Class::Constant
            | Class::CharConstant
            | Class::StringLiteral
    )
}

/// Items of an initializer list (6.7.8).
pub(crate) fn starts_initializer_item(class: Class) -> bool
    ensures { result ≡ among initializer_items class }
{
    matches!(
        class,
        Class::Sizeof
            | Class::LeftBracket
            | Class::LeftParen
            | Class::LeftBrace
            | Class::Dot
            | Class::PlusPlus
            | Class::MinusMinus
            | Class::Amp
            | Class::Star
            | Class::Plus
            | Class::Minus
            | Class::Tilde
            | Class::Bang
            | Class::Identifier
            | Class::Constant
            | Class::CharConstant
            | Class::StringLiteral
    )
}

/// Statements (6.8).
pub(crate) fn starts_statement(class: Class) -> bool
    ensures { result ≡ among statements class }
{
    matches!(
        class,
        Class::Break
            | Class::Case
            | Class::Continue
            | Class::Default
            | Class::Do
            | Class::For
            | Class::Goto
            | Class::If
            | Class::Return
            | Class::Sizeof
            | Class::Switch
            | Class::While
            | Class::LeftParen
            | Class::LeftBrace
            | Class::PlusPlus
            | Class::MinusMinus
            | Class::Amp
            | Class::Star
            | Class::Plus
            | Class::Minus
            | Class::Tilde
            | Class::Bang
            | Class::Semicolon
            | Class::Identifier
            | Class::Constant
            | Class::CharConstant
            | Class::StringLiteral
    )
}

/// Members of a structure, and external declarations.
pub(crate) fn starts_member(class: Class) -> bool
    ensures { result ≡ among members class }
{
    matches!(
        class,
        Class::Auto
            | Class::Char
            | Class::Const
            | Class::Double
            | Class::Enum
            | Class::Extern
            | Class::Float
            | Class::Inline
            | Class::Int
            | Class::Long
            | Class::Register
            | Class::Restrict
            | Class::Short
            | Class::Signed
            | Class::Static
            | Class::Struct
            | Class::Typedef
            | Class::Union
            | Class::Unsigned
            | Class::Void
            | Class::Volatile
            | Class::BoolWord
            | Class::ComplexWord
            | Class::ImaginaryWord
            | Class::Semicolon
            | Class::TypedefName
    )
}

/// All classes.
pub(crate) fn starts_every(_class: Class) -> bool
    ensures { result ≡ among every _class }
{
    true
}
