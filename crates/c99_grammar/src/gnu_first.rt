// With which classes each production starts by GNU C.
ghost use Rattle.std.specs.Prelude.{◌≡◌};
ghost use Rattle.c99_tree.specs.declared.production.Production.TheVariants.{Association, Suffix, Pdecl, Pdirect, Adecl, Designator, Post, AutoDecl, Attr, AsmName, Operand, MemberPath, AsmPart, AsmOperand};
ghost use Rattle.c99_grammar.specs.Classes.{among};
ghost use Rattle.c99_grammar.specs.GnuFirst.{without_bracket, items_without_bracket, added_by_gnu, gnu_first, associations_of_gnu, definitions_of_gnu, declarations_of_gnu, specifiers_of_gnu, types_of_gnu, modifiers_of_gnu, members_of_gnu, expressions_of_gnu, primaries_of_gnu, block_items_of_gnu, statements_of_gnu, first_clauses_of_gnu, attribute_words_of_gnu};

use crate::classes::Class;
use crate::first::{starts_added, starts_by_each};
use crate::first_sets::starts_specifier;
use c99_tree::Production;

// A parenthesis.
fn is_suffix_without_bracket(class: Class) -> bool
    ensures { result ≡ among (without_bracket Suffix) class }
{
    matches!(class, Class::LeftParen)
}

// A declarator of a parameter.
fn is_pdecl_without_bracket(class: Class) -> bool
    ensures { result ≡ among (without_bracket Pdecl) class }
{
    matches!(
        class,
        Class::LeftParen | Class::Star | Class::Identifier | Class::TypedefName
    )
}

// Its direct part.
fn is_pdirect_without_bracket(class: Class) -> bool
    ensures { result ≡ among (without_bracket Pdirect) class }
{
    matches!(
        class,
        Class::LeftParen | Class::Identifier | Class::TypedefName
    )
}

// An abstract declarator.
fn is_adecl_without_bracket(class: Class) -> bool
    ensures { result ≡ among (without_bracket Adecl) class }
{
    matches!(class, Class::LeftParen | Class::Star)
}

// A dot.
fn is_designator_without_bracket(class: Class) -> bool
    ensures { result ≡ among (without_bracket Designator) class }
{
    matches!(class, Class::Dot)
}

// What follows an operand.
fn is_post_without_bracket(class: Class) -> bool
    ensures { result ≡ among (without_bracket Post) class }
{
    matches!(
        class,
        Class::LeftParen | Class::Dot | Class::Arrow | Class::PlusPlus | Class::MinusMinus
    )
}

// An item of an initializer list.
fn is_item_without_bracket(class: Class) -> bool
    ensures { result ≡ among items_without_bracket class }
{
    matches!(
        class,
        Class::Sizeof
            | Class::LeftParen
            | Class::LeftBrace
            | Class::Dot
            | Class::PlusPlus
            | Class::MinusMinus
            | Class::Amp
            | Class::Star
            | Class::Plus
            | Class::Minus
            | Class::Tilde
            | Class::Bang
            | Class::Identifier
            | Class::Constant
            | Class::CharConstant
            | Class::StringLiteral
    )
}

// The production starts with the class by each edition, and the class is no `[` that another one may follow.
fn starts_without_bracket(production: Production, class: Class) -> bool
    ensures { result ≡ among (without_bracket production) class }
{
    match production {
        Production::Suffix => is_suffix_without_bracket(class),
        Production::Pdecl => is_pdecl_without_bracket(class),
        Production::Pdirect => is_pdirect_without_bracket(class),
        Production::Adecl => is_adecl_without_bracket(class),
        Production::Adirect => is_suffix_without_bracket(class),
        Production::InitList => is_item_without_bracket(class),
        Production::InitItem => is_item_without_bracket(class),
        Production::Designator => is_designator_without_bracket(class),
        Production::Post => is_post_without_bracket(class),
        _ => starts_by_each(production, class),
    }
}

// What GNU C adds to definitions at file level.
fn starts_definitions(class: Class) -> bool
    ensures { result ≡ among definitions_of_gnu class }
{
    matches!(
        class,
        Class::Alignas
            | Class::Atomic
            | Class::Noreturn
            | Class::StaticAssert
            | Class::ThreadLocal
            | Class::AsmWord
            | Class::TypeofWord
            | Class::AttributeWord
            | Class::ExtensionWord
    )
}

// What GNU C adds to declarations.
fn starts_declarations(class: Class) -> bool
    ensures { result ≡ among declarations_of_gnu class }
{
    matches!(
        class,
        Class::Alignas
            | Class::Atomic
            | Class::Noreturn
            | Class::StaticAssert
            | Class::ThreadLocal
            | Class::TypeofWord
            | Class::AttributeWord
            | Class::ExtensionWord
            | Class::AutoTypeWord
    )
}

// What GNU C adds to specifiers.
fn starts_specifiers(class: Class) -> bool
    ensures { result ≡ among specifiers_of_gnu class }
{
    matches!(
        class,
        Class::Alignas
            | Class::Atomic
            | Class::Noreturn
            | Class::ThreadLocal
            | Class::TypeofWord
            | Class::AttributeWord
    )
}

// What GNU C adds to types.
fn starts_types(class: Class) -> bool
    ensures { result ≡ among types_of_gnu class }
{
    matches!(class, Class::TypeofWord)
}

// What GNU C adds to specifiers beside the type.
fn starts_modifiers(class: Class) -> bool
    ensures { result ≡ among modifiers_of_gnu class }
{
    matches!(
        class,
        Class::Alignas | Class::Noreturn | Class::ThreadLocal | Class::AttributeWord
    )
}

// What GNU C adds to members.
fn starts_members(class: Class) -> bool
    ensures { result ≡ among members_of_gnu class }
{
    matches!(
        class,
        Class::Alignas
            | Class::Atomic
            | Class::Noreturn
            | Class::StaticAssert
            | Class::ThreadLocal
            | Class::TypeofWord
            | Class::AttributeWord
            | Class::ExtensionWord
    )
}

// What GNU C adds to expressions.
fn starts_expressions(class: Class) -> bool
    ensures { result ≡ among expressions_of_gnu class }
{
    matches!(
        class,
        Class::Alignof
            | Class::Generic
            | Class::AmpAmp
            | Class::ExtensionWord
            | Class::RealPartWord
            | Class::VaArgWord
            | Class::OffsetofWord
            | Class::TypesCompatibleWord
    )
}

// What GNU C adds to primary expressions.
fn starts_primaries(class: Class) -> bool
    ensures { result ≡ among primaries_of_gnu class }
{
    matches!(
        class,
        Class::Generic | Class::VaArgWord | Class::OffsetofWord | Class::TypesCompatibleWord
    )
}

// What GNU C adds to items of blocks.
fn starts_block_items(class: Class) -> bool
    ensures { result ≡ among block_items_of_gnu class }
{
    matches!(
        class,
        Class::Alignas
            | Class::Alignof
            | Class::Atomic
            | Class::Generic
            | Class::Noreturn
            | Class::StaticAssert
            | Class::ThreadLocal
            | Class::AmpAmp
            | Class::AsmWord
            | Class::TypeofWord
            | Class::AttributeWord
            | Class::ExtensionWord
            | Class::LocalLabelWord
            | Class::AutoTypeWord
            | Class::RealPartWord
            | Class::VaArgWord
            | Class::OffsetofWord
            | Class::TypesCompatibleWord
    )
}

// What GNU C adds to statements.
fn starts_statements(class: Class) -> bool
    ensures { result ≡ among statements_of_gnu class }
{
    matches!(
        class,
        Class::Alignof
            | Class::Generic
            | Class::AmpAmp
            | Class::AsmWord
            | Class::AttributeWord
            | Class::ExtensionWord
            | Class::RealPartWord
            | Class::VaArgWord
            | Class::OffsetofWord
            | Class::TypesCompatibleWord
    )
}

// What GNU C adds to first clauses of `for`.
fn starts_first_clauses(class: Class) -> bool
    ensures { result ≡ among first_clauses_of_gnu class }
{
    matches!(
        class,
        Class::Alignas
            | Class::Alignof
            | Class::Atomic
            | Class::Generic
            | Class::Noreturn
            | Class::StaticAssert
            | Class::ThreadLocal
            | Class::AmpAmp
            | Class::TypeofWord
            | Class::AttributeWord
            | Class::ExtensionWord
            | Class::AutoTypeWord
            | Class::RealPartWord
            | Class::VaArgWord
            | Class::OffsetofWord
            | Class::TypesCompatibleWord
    )
}

// Words of attributes.
fn starts_attribute_words(class: Class) -> bool
    ensures { result ≡ among attribute_words_of_gnu class }
{
    matches!(
        class,
        Class::Const
            | Class::Inline
            | Class::Restrict
            | Class::Signed
            | Class::Volatile
            | Class::Identifier
            | Class::TypedefName
    )
}

// Associations of `_Generic` (C11 6.5.1.1), beside other specifiers.
fn starts_association_word(class: Class) -> bool
    ensures { result ≡ among associations_of_gnu class }
{
    matches!(
        class,
        Class::Default
            | Class::Alignas
            | Class::Atomic
            | Class::Noreturn
            | Class::ThreadLocal
            | Class::TypeofWord
            | Class::AttributeWord
    )
}

// Associations of `_Generic`.
fn starts_association(class: Class) -> bool
    ensures { result ≡ among (added_by_gnu Association) class }
{
    starts_association_word(class) || starts_specifier(class)
}

// A declaration of the type of its initializer.
fn starts_auto_decl(class: Class) -> bool
    ensures { result ≡ among (added_by_gnu AutoDecl) class }
{
    matches!(class, Class::AutoTypeWord)
}

// Attributes.
fn starts_attr(class: Class) -> bool
    ensures { result ≡ among (added_by_gnu Attr) class }
{
    matches!(class, Class::AttributeWord)
}

// An assembler name.
fn starts_asm_name(class: Class) -> bool
    ensures { result ≡ among (added_by_gnu AsmName) class }
{
    matches!(class, Class::AsmWord)
}

// A type or an expression in parentheses.
fn starts_operand(class: Class) -> bool
    ensures { result ≡ among (added_by_gnu Operand) class }
{
    matches!(class, Class::LeftParen)
}

// A member.
fn starts_member_path(class: Class) -> bool
    ensures { result ≡ among (added_by_gnu MemberPath) class }
{
    matches!(class, Class::Identifier | Class::TypedefName)
}

// A part of an asm statement.
fn starts_asm_part(class: Class) -> bool
    ensures { result ≡ among (added_by_gnu AsmPart) class }
{
    matches!(class, Class::Colon)
}

// An operand of an asm statement.
fn starts_asm_operand(class: Class) -> bool
    ensures { result ≡ among (added_by_gnu AsmOperand) class }
{
    matches!(class, Class::LeftBracket | Class::StringLiteral)
}

// The production starts with the class by GNU C, beside those.
fn starts_added_by_gnu(production: Production, class: Class) -> bool
    ensures { result ≡ among (added_by_gnu production) class }
{
    match production {
        Production::TranslationUnit => starts_definitions(class),
        Production::External => starts_definitions(class),
        Production::FunBody => starts_declarations(class),
        Production::Declaration => starts_declarations(class),
        Production::Sassert => starts_added(production, class),
        Production::Specs => starts_specifiers(class),
        Production::Main => starts_types(class),
        Production::Mod => starts_modifiers(class),
        Production::Members => starts_members(class),
        Production::Member => starts_members(class),
        Production::MemRest => starts_added(production, class),
        Production::Bound => starts_expressions(class),
        Production::Params => starts_specifiers(class),
        Production::Param => starts_specifiers(class),
        Production::TypeName => starts_specifiers(class),
        Production::Init => starts_expressions(class),
        Production::InitList => starts_expressions(class),
        Production::InitItem => starts_expressions(class),
        Production::Expr => starts_expressions(class),
        Production::Assign => starts_expressions(class),
        Production::Cond => starts_expressions(class),
        Production::Lor => starts_expressions(class),
        Production::Land => starts_expressions(class),
        Production::Bor => starts_expressions(class),
        Production::Bxor => starts_expressions(class),
        Production::Band => starts_expressions(class),
        Production::Equal => starts_expressions(class),
        Production::Relate => starts_expressions(class),
        Production::Shift => starts_expressions(class),
        Production::Add => starts_expressions(class),
        Production::Mul => starts_expressions(class),
        Production::Cast => starts_expressions(class),
        Production::CastRest => starts_expressions(class),
        Production::Unary => starts_expressions(class),
        Production::SizeRest => starts_expressions(class),
        Production::Primary => starts_primaries(class),
        Production::Args => starts_expressions(class),
        Production::BlockItem => starts_block_items(class),
        Production::Statement => starts_statements(class),
        Production::Sub => starts_statements(class),
        Production::ForInit => starts_first_clauses(class),
        Production::AutoDecl => starts_auto_decl(class),
        Production::Attr => starts_attr(class),
        Production::AttrItem => starts_attribute_words(class),
        Production::AttrWord => starts_attribute_words(class),
        Production::AsmName => starts_asm_name(class),
        Production::Operand => starts_operand(class),
        Production::Association => starts_association(class),
        Production::MemberPath => starts_member_path(class),
        Production::AsmPart => starts_asm_part(class),
        Production::AsmOperand => starts_asm_operand(class),
        _ => false,
    }
}

/// The production starts with the class by GNU C.
pub(crate) fn starts_by_gnu(production: Production, class: Class) -> bool
    ensures { result ≡ among (gnu_first production) class }
{
    starts_without_bracket(production, class) || starts_added_by_gnu(production, class)
}
