// With which classes each production starts.
ghost use Rattle.std.specs.Prelude.{◌≡◌, ◌∷◌};
ghost use Rattle.c99_tree.specs.declared.production.Production.TheVariants.{TranslationUnit, ExtRest, FunBody, Sassert, Main, StructSpec, SuRest, MemRest, Mdecl, EnumSpec, Enumerators, Pointer, Direct, Suffix, Params, Pdecl, Pdirect, Adecl, Designator, SizeLit, Primary, Post, BlockItem, ForInit};
ghost use Rattle.c99_grammar.specs.Classes.{among};
ghost use Rattle.c99_grammar.specs.First.{shared, added, by_c11, first, expressions, specifiers_added, declarations_added};
ghost use Rattle.c99_grammar.specs.Standard.{grammar};
ghost use Rattle.c99_grammar.specs.declared.classes.Class.TheVariants.{Semicolon};

use crate::classes::Class;
use crate::dialects::{Dialect, Edition};
use crate::first_sets::{
    starts_assignment, starts_declarator, starts_every, starts_expression, starts_initializer,
    starts_initializer_item, starts_member, starts_modifier, starts_qualifier, starts_specifier,
    starts_statement, starts_word,
};
use crate::gnu_first::starts_by_gnu;
use c99_tree::Production;

fn starts_translation_unit(class: Class) -> bool
    ensures { result ≡ among (shared TranslationUnit) class }
{
    matches!(
        class,
        Class::Semicolon
            | Class::End
            | Class::Auto
            | Class::Char
            | Class::Const
            | Class::Double
            | Class::Enum
            | Class::Extern
            | Class::Float
            | Class::Inline
            | Class::Int
            | Class::Long
            | Class::Register
            | Class::Restrict
            | Class::Short
            | Class::Signed
            | Class::Static
            | Class::Struct
            | Class::Typedef
            | Class::Union
            | Class::Unsigned
            | Class::Void
            | Class::Volatile
            | Class::BoolWord
            | Class::ComplexWord
            | Class::ImaginaryWord
            | Class::TypedefName
    )
}

fn starts_ext_rest(class: Class) -> bool
    ensures { result ≡ among (shared ExtRest) class }
{
    matches!(
        class,
        Class::LeftParen | Class::Star | Class::Semicolon | Class::Identifier | Class::TypedefName
    )
}

fn starts_fun_body(class: Class) -> bool
    ensures { result ≡ among (shared FunBody) class }
{
    matches!(
        class,
        Class::LeftBrace
            | Class::Auto
            | Class::Char
            | Class::Const
            | Class::Double
            | Class::Enum
            | Class::Extern
            | Class::Float
            | Class::Inline
            | Class::Int
            | Class::Long
            | Class::Register
            | Class::Restrict
            | Class::Short
            | Class::Signed
            | Class::Static
            | Class::Struct
            | Class::Typedef
            | Class::Union
            | Class::Unsigned
            | Class::Void
            | Class::Volatile
            | Class::BoolWord
            | Class::ComplexWord
            | Class::ImaginaryWord
            | Class::TypedefName
    )
}

fn starts_main(class: Class) -> bool
    ensures { result ≡ among (shared Main) class }
{
    matches!(
        class,
        Class::Char
            | Class::Double
            | Class::Enum
            | Class::Float
            | Class::Int
            | Class::Long
            | Class::Short
            | Class::Signed
            | Class::Struct
            | Class::Union
            | Class::Unsigned
            | Class::Void
            | Class::BoolWord
            | Class::ComplexWord
            | Class::ImaginaryWord
            | Class::TypedefName
    )
}

fn starts_struct_spec(class: Class) -> bool
    ensures { result ≡ among (shared StructSpec) class }
{
    matches!(class, Class::Struct | Class::Union)
}

fn starts_su_rest(class: Class) -> bool
    ensures { result ≡ among (shared SuRest) class }
{
    matches!(
        class,
        Class::LeftBrace | Class::Identifier | Class::TypedefName
    )
}

fn starts_mdecl(class: Class) -> bool
    ensures { result ≡ among (shared Mdecl) class }
{
    matches!(
        class,
        Class::LeftParen | Class::Star | Class::Colon | Class::Identifier | Class::TypedefName
    )
}

fn starts_enum_spec(class: Class) -> bool
    ensures { result ≡ among (shared EnumSpec) class }
{
    matches!(class, Class::Enum)
}

fn starts_enumerators(class: Class) -> bool
    ensures { result ≡ among (shared Enumerators) class }
{
    matches!(class, Class::Identifier | Class::TypedefName)
}

fn starts_pointer(class: Class) -> bool
    ensures { result ≡ among (shared Pointer) class }
{
    matches!(class, Class::Star)
}

fn starts_direct(class: Class) -> bool
    ensures { result ≡ among (shared Direct) class }
{
    matches!(
        class,
        Class::LeftParen | Class::Identifier | Class::TypedefName
    )
}

fn starts_suffix(class: Class) -> bool
    ensures { result ≡ among (shared Suffix) class }
{
    matches!(class, Class::LeftBracket | Class::LeftParen)
}

fn starts_params(class: Class) -> bool
    ensures { result ≡ among (shared Params) class }
{
    matches!(
        class,
        Class::Identifier
            | Class::Auto
            | Class::Char
            | Class::Const
            | Class::Double
            | Class::Enum
            | Class::Extern
            | Class::Float
            | Class::Inline
            | Class::Int
            | Class::Long
            | Class::Register
            | Class::Restrict
            | Class::Short
            | Class::Signed
            | Class::Static
            | Class::Struct
            | Class::Typedef
            | Class::Union
            | Class::Unsigned
            | Class::Void
            | Class::Volatile
            | Class::BoolWord
            | Class::ComplexWord
            | Class::ImaginaryWord
            | Class::TypedefName
    )
}

fn starts_pdecl(class: Class) -> bool
    ensures { result ≡ among (shared Pdecl) class }
{
    matches!(
        class,
        Class::LeftBracket | Class::LeftParen | Class::Star | Class::Identifier | Class::TypedefName
    )
}

fn starts_pdirect(class: Class) -> bool
    ensures { result ≡ among (shared Pdirect) class }
{
    matches!(
        class,
        Class::LeftBracket | Class::LeftParen | Class::Identifier | Class::TypedefName
    )
}

fn starts_adecl(class: Class) -> bool
    ensures { result ≡ among (shared Adecl) class }
{
    matches!(class, Class::LeftBracket | Class::LeftParen | Class::Star)
}

fn starts_designator(class: Class) -> bool
    ensures { result ≡ among (shared Designator) class }
{
    matches!(class, Class::LeftBracket | Class::Dot)
}

fn starts_size_lit(class: Class) -> bool
    ensures { result ≡ among (shared SizeLit) class }
{
    matches!(class, Class::LeftBrace)
}

fn starts_primary(class: Class) -> bool
    ensures { result ≡ among (shared Primary) class }
{
    matches!(
        class,
        Class::LeftParen
            | Class::Identifier
            | Class::Constant
            | Class::CharConstant
            | Class::StringLiteral
    )
}

fn starts_post(class: Class) -> bool
    ensures { result ≡ among (shared Post) class }
{
    matches!(
        class,
        Class::LeftBracket
            | Class::LeftParen
            | Class::Dot
            | Class::Arrow
            | Class::PlusPlus
            | Class::MinusMinus
    )
}

fn starts_block_item(class: Class) -> bool
    ensures { result ≡ among (shared BlockItem) class }
{
    starts_specifier(class) || starts_statement(class)
}

fn starts_expression_line(class: Class) -> bool
    ensures { result ≡ among (Semicolon ∷ expressions) class }
{
    matches!(
        class,
        Class::Semicolon
            | Class::Sizeof
            | Class::LeftParen
            | Class::PlusPlus
            | Class::MinusMinus
            | Class::Amp
            | Class::Star
            | Class::Plus
            | Class::Minus
            | Class::Tilde
            | Class::Bang
            | Class::Identifier
            | Class::Constant
            | Class::CharConstant
            | Class::StringLiteral
    )
}

fn starts_for_init(class: Class) -> bool
    ensures { result ≡ among (shared ForInit) class }
{
    starts_specifier(class) || starts_expression_line(class)
}

/// The production starts with the class by each edition.
pub(crate) fn starts_by_each(production: Production, class: Class) -> bool
    ensures { result ≡ among (shared production) class }
{
    match production {
        Production::TranslationUnit => starts_translation_unit(class),
        Production::External => starts_member(class),
        Production::ExtRest => starts_ext_rest(class),
        Production::ExtTail => starts_every(class),
        Production::FunBody => starts_fun_body(class),
        Production::Declaration => starts_specifier(class),
        Production::DeclRest => starts_ext_rest(class),
        Production::InitDecl => starts_declarator(class),
        Production::Sassert => false,
        Production::Specs => starts_specifier(class),
        Production::Main => starts_main(class),
        Production::Mod => starts_modifier(class),
        Production::Qual => starts_qualifier(class),
        Production::Word => starts_word(class),
        Production::StructSpec => starts_struct_spec(class),
        Production::SuRest => starts_su_rest(class),
        Production::Members => starts_member(class),
        Production::Member => starts_member(class),
        Production::MemRest => false,
        Production::Mdecl => starts_mdecl(class),
        Production::EnumSpec => starts_enum_spec(class),
        Production::EnRest => starts_su_rest(class),
        Production::Enumerators => starts_enumerators(class),
        Production::Enumerator => starts_enumerators(class),
        Production::Declarator => starts_declarator(class),
        Production::Pointer => starts_pointer(class),
        Production::Direct => starts_direct(class),
        Production::Suffix => starts_suffix(class),
        Production::Bound => starts_expression(class),
        Production::Params => starts_params(class),
        Production::Param => starts_specifier(class),
        Production::Pdecl => starts_pdecl(class),
        Production::Pdirect => starts_pdirect(class),
        Production::TypeName => starts_specifier(class),
        Production::Adecl => starts_adecl(class),
        Production::Adirect => starts_suffix(class),
        Production::Init => starts_initializer(class),
        Production::InitList => starts_initializer_item(class),
        Production::InitItem => starts_initializer_item(class),
        Production::Designator => starts_designator(class),
        Production::Expr => starts_expression(class),
        Production::Assign => starts_expression(class),
        Production::Asgop => starts_assignment(class),
        Production::Cond => starts_expression(class),
        Production::Lor => starts_expression(class),
        Production::Land => starts_expression(class),
        Production::Bor => starts_expression(class),
        Production::Bxor => starts_expression(class),
        Production::Band => starts_expression(class),
        Production::Equal => starts_expression(class),
        Production::Relate => starts_expression(class),
        Production::Shift => starts_expression(class),
        Production::Add => starts_expression(class),
        Production::Mul => starts_expression(class),
        Production::Cast => starts_expression(class),
        Production::CastRest => starts_initializer(class),
        Production::Unary => starts_expression(class),
        Production::SizeRest => starts_expression(class),
        Production::SizeLit => starts_size_lit(class),
        Production::Primary => starts_primary(class),
        Production::Post => starts_post(class),
        Production::Args => starts_expression(class),
        Production::Block => starts_size_lit(class),
        Production::BlockItem => starts_block_item(class),
        Production::Statement => starts_statement(class),
        Production::Sub => starts_statement(class),
        Production::ForInit => starts_for_init(class),
        _ => false,
    }
}

fn starts_added_specifier(class: Class) -> bool
    ensures { result ≡ among specifiers_added class }
{
    matches!(class, Class::Noreturn)
}

fn starts_added_declaration(class: Class) -> bool
    ensures { result ≡ among declarations_added class }
{
    matches!(class, Class::Noreturn | Class::StaticAssert)
}

fn starts_static_assertion(class: Class) -> bool
    ensures { result ≡ among (added Sassert) class }
{
    matches!(class, Class::StaticAssert)
}

fn starts_member_rest(class: Class) -> bool
    ensures { result ≡ among (added MemRest) class }
{
    matches!(
        class,
        Class::LeftParen
            | Class::Star
            | Class::Colon
            | Class::Semicolon
            | Class::Identifier
            | Class::TypedefName
    )
}

/// The production starts with the class by C11 and not by C99.
pub(crate) fn starts_added(production: Production, class: Class) -> bool
    ensures { result ≡ among (added production) class }
{
    match production {
        Production::TranslationUnit => starts_added_declaration(class),
        Production::External => starts_added_declaration(class),
        Production::FunBody => starts_added_declaration(class),
        Production::Declaration => starts_added_declaration(class),
        Production::Sassert => starts_static_assertion(class),
        Production::Specs => starts_added_specifier(class),
        Production::Mod => starts_added_specifier(class),
        Production::Members => starts_added_declaration(class),
        Production::Member => starts_added_declaration(class),
        Production::MemRest => starts_member_rest(class),
        Production::Params => starts_added_specifier(class),
        Production::Param => starts_added_specifier(class),
        Production::TypeName => starts_added_specifier(class),
        Production::BlockItem => starts_added_declaration(class),
        Production::ForInit => starts_added_declaration(class),
        _ => false,
    }
}

// The production starts with the class by the edition, and not by C99.
fn starts_by(production: Production, class: Class, edition: Edition) -> bool
    ensures { result ≡ among (by_c11 (added production) edition) class }
{
    match edition {
        Edition::C99 => false,
        Edition::C11 => starts_added(production, class),
    }
}

// The production starts with the class by the edition.
fn starts_by_edition(production: Production, class: Class, edition: Edition) -> bool
    ensures { result ≡ among (first production edition) class }
{
    starts_by_each(production, class) || starts_by(production, class, edition)
}

/// The production starts with the class by the dialect.
pub(crate) fn starts_with(production: Production, class: Class, dialect: Dialect) -> bool
    ensures { result ≡ among ((grammar dialect).first production) class }
{
    match dialect {
        Dialect::Iso(edition) => starts_by_edition(production, class, edition),
        Dialect::Gnu => starts_by_gnu(production, class),
    }
}
