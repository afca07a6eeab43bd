// The tables of productions (Annex A.2), row by row as in specs/Grammar.antt.
ghost use Rattle.std.specs.Prelude.{◌≡◌, ◌<◌, length, map};
ghost use Rattle.c99_grammar.specs.Grammar.{table, externals, declarations, static_assertions, modifiers, member_lines, member_rests};
ghost use Rattle.c99_grammar.specs.GnuGrammar.{gnu_table};
ghost use Rattle.c99_grammar.specs.ItemsOf.{alternative_of};
ghost use Rattle.c99_grammar.specs.Standard.{grammar};

use crate::declarations::DECL_REST;
use crate::declarations::DECLARATION;
use crate::declarations::DECLARATION_OF_C11;
use crate::declarations::DESIGNATOR;
use crate::declarations::EN_REST;
use crate::declarations::ENUM_SPEC;
use crate::declarations::ENUMERATOR;
use crate::declarations::ENUMERATORS;
use crate::declarations::EXT_REST;
use crate::declarations::EXT_TAIL;
use crate::declarations::EXTERNAL;
use crate::declarations::EXTERNAL_OF_C11;
use crate::declarations::FUN_BODY;
use crate::declarations::INIT;
use crate::declarations::INIT_DECL;
use crate::declarations::INIT_ITEM;
use crate::declarations::INIT_LIST;
use crate::declarations::MAIN;
use crate::declarations::MDECL;
use crate::declarations::MEM_REST;
use crate::declarations::MEMBER;
use crate::declarations::MEMBER_OF_C11;
use crate::declarations::MEMBERS;
use crate::declarations::MOD;
use crate::declarations::MOD_OF_C11;
use crate::declarations::QUAL;
use crate::declarations::SASSERT;
use crate::declarations::SPECS;
use crate::declarations::STRUCT_SPEC;
use crate::declarations::SU_REST;
use crate::declarations::TRANSLATION_UNIT;
use crate::declarations::WORD;
use crate::declarators::ADECL;
use crate::declarators::ADIRECT;
use crate::declarators::BOUND;
use crate::declarators::DECLARATOR;
use crate::declarators::DIRECT;
use crate::declarators::PARAM;
use crate::declarators::PARAMS;
use crate::declarators::PDECL;
use crate::declarators::PDIRECT;
use crate::declarators::POINTER;
use crate::declarators::SUFFIX;
use crate::declarators::TYPE_NAME;
use crate::dialects::Dialect;
use crate::dialects::Edition;
use crate::expressions::ADD;
use crate::expressions::ARGS;
use crate::expressions::ASGOP;
use crate::expressions::ASSIGN;
use crate::expressions::BAND;
use crate::expressions::BOR;
use crate::expressions::BXOR;
use crate::expressions::CAST;
use crate::expressions::CAST_REST;
use crate::expressions::COND;
use crate::expressions::EQUAL;
use crate::expressions::EXPR;
use crate::expressions::LAND;
use crate::expressions::LOR;
use crate::expressions::MUL;
use crate::expressions::POST;
use crate::expressions::PRIMARY;
use crate::expressions::RELATE;
use crate::expressions::SHIFT;
use crate::expressions::SIZE_LIT;
use crate::expressions::SIZE_REST;
use crate::expressions::UNARY;
use crate::gnu_declarations::AUTO_DECL_OF_GNU;
use crate::gnu_declarations::DECL_REST_OF_GNU;
use crate::gnu_declarations::DECLARATION_OF_GNU;
use crate::gnu_declarations::DESIGNATOR_OF_GNU;
use crate::gnu_declarations::ENUM_SPEC_OF_GNU;
use crate::gnu_declarations::ENUMERATOR_OF_GNU;
use crate::gnu_declarations::EXT_TAIL_OF_GNU;
use crate::gnu_declarations::EXTERNAL_OF_GNU;
use crate::gnu_declarations::INIT_ITEM_OF_GNU;
use crate::gnu_declarations::INIT_OF_GNU;
use crate::gnu_declarations::MAIN_OF_GNU;
use crate::gnu_declarations::MDECL_OF_GNU;
use crate::gnu_declarations::MEMBER_OF_GNU;
use crate::gnu_declarations::MOD_OF_GNU;
use crate::gnu_declarations::OPERAND_OF_GNU;
use crate::gnu_declarations::QUAL_OF_GNU;
use crate::gnu_declarations::SASSERT_OF_GNU;
use crate::gnu_declarations::STRUCT_SPEC_OF_GNU;
use crate::gnu_declarations::SU_REST_OF_GNU;
use crate::gnu_declarators::ADIRECT_OF_GNU;
use crate::gnu_declarators::ASM_NAME_OF_GNU;
use crate::gnu_declarators::ATTR_ITEM_OF_GNU;
use crate::gnu_declarators::ATTR_OF_GNU;
use crate::gnu_declarators::ATTR_WORD_OF_GNU;
use crate::gnu_declarators::DECLARATOR_OF_GNU;
use crate::gnu_declarators::DIRECT_OF_GNU;
use crate::gnu_declarators::PDECL_OF_GNU;
use crate::gnu_declarators::PDIRECT_OF_GNU;
use crate::gnu_declarators::POINTER_OF_GNU;
use crate::gnu_declarators::SUFFIX_OF_GNU;
use crate::gnu_statements::ASM_OPERAND_OF_GNU;
use crate::gnu_statements::ASM_PART_OF_GNU;
use crate::gnu_statements::ASSOCIATION_OF_GNU;
use crate::gnu_statements::BLOCK_ITEM_OF_GNU;
use crate::gnu_statements::CAST_OF_GNU;
use crate::gnu_statements::CAST_REST_OF_GNU;
use crate::gnu_statements::COND_OF_GNU;
use crate::gnu_statements::MEMBER_PATH_OF_GNU;
use crate::gnu_statements::POST_OF_GNU;
use crate::gnu_statements::PRIMARY_OF_GNU;
use crate::gnu_statements::SIZE_LIT_OF_GNU;
use crate::gnu_statements::SIZE_REST_OF_GNU;
use crate::gnu_statements::STATEMENT_OF_GNU;
use crate::gnu_statements::UNARY_OF_GNU;
use crate::items::Alternative;
use crate::statements::BLOCK;
use crate::statements::BLOCK_ITEM;
use crate::statements::FOR_INIT;
use crate::statements::STATEMENT;
use crate::statements::SUB;
use c99_tree::Production;

// ---- Rows that C11 changes

fn externals(edition: Edition) -> &'static [Alternative]
    ensures rows { map alternative_of result.now ≡ externals edition }
    ensures few { length result.now < 200 }
{
    match edition {
        Edition::C99 => &EXTERNAL,
        Edition::C11 => &EXTERNAL_OF_C11,
    }
}

fn declarations(edition: Edition) -> &'static [Alternative]
    ensures rows { map alternative_of result.now ≡ declarations edition }
    ensures few { length result.now < 200 }
{
    match edition {
        Edition::C99 => &DECLARATION,
        Edition::C11 => &DECLARATION_OF_C11,
    }
}

fn static_assertions(edition: Edition) -> &'static [Alternative]
    ensures rows { map alternative_of result.now ≡ static_assertions edition }
    ensures few { length result.now < 200 }
{
    match edition {
        Edition::C99 => &[],
        Edition::C11 => &SASSERT,
    }
}

fn modifiers(edition: Edition) -> &'static [Alternative]
    ensures rows { map alternative_of result.now ≡ modifiers edition }
    ensures few { length result.now < 200 }
{
    match edition {
        Edition::C99 => &MOD,
        Edition::C11 => &MOD_OF_C11,
    }
}

fn member_lines(edition: Edition) -> &'static [Alternative]
    ensures rows { map alternative_of result.now ≡ member_lines edition }
    ensures few { length result.now < 200 }
{
    match edition {
        Edition::C99 => &MEMBER,
        Edition::C11 => &MEMBER_OF_C11,
    }
}

fn member_rests(edition: Edition) -> &'static [Alternative]
    ensures rows { map alternative_of result.now ≡ member_rests edition }
    ensures few { length result.now < 200 }
{
    match edition {
        Edition::C99 => &[],
        Edition::C11 => &MEM_REST,
    }
}

// The alternatives of a production by an edition of the standard.
fn iso_alternatives(production: Production, edition: Edition) -> &'static [Alternative]
    ensures rows { map alternative_of result.now ≡ table production edition }
    ensures few { length result.now < 200 }
{
    match production {
        Production::TranslationUnit => &TRANSLATION_UNIT,
        Production::External => externals(edition),
        Production::ExtRest => &EXT_REST,
        Production::ExtTail => &EXT_TAIL,
        Production::FunBody => &FUN_BODY,
        Production::Declaration => declarations(edition),
        Production::DeclRest => &DECL_REST,
        Production::InitDecl => &INIT_DECL,
        Production::Sassert => static_assertions(edition),
        Production::Specs => &SPECS,
        Production::Main => &MAIN,
        Production::Mod => modifiers(edition),
        Production::Qual => &QUAL,
        Production::Word => &WORD,
        Production::StructSpec => &STRUCT_SPEC,
        Production::SuRest => &SU_REST,
        Production::Members => &MEMBERS,
        Production::Member => member_lines(edition),
        Production::MemRest => member_rests(edition),
        Production::Mdecl => &MDECL,
        Production::EnumSpec => &ENUM_SPEC,
        Production::EnRest => &EN_REST,
        Production::Enumerators => &ENUMERATORS,
        Production::Enumerator => &ENUMERATOR,
        Production::Declarator => &DECLARATOR,
        Production::Pointer => &POINTER,
        Production::Direct => &DIRECT,
        Production::Suffix => &SUFFIX,
        Production::Bound => &BOUND,
        Production::Params => &PARAMS,
        Production::Param => &PARAM,
        Production::Pdecl => &PDECL,
        Production::Pdirect => &PDIRECT,
        Production::TypeName => &TYPE_NAME,
        Production::Adecl => &ADECL,
        Production::Adirect => &ADIRECT,
        Production::Init => &INIT,
        Production::InitList => &INIT_LIST,
        Production::InitItem => &INIT_ITEM,
        Production::Designator => &DESIGNATOR,
        Production::Expr => &EXPR,
        Production::Assign => &ASSIGN,
        Production::Asgop => &ASGOP,
        Production::Cond => &COND,
        Production::Lor => &LOR,
        Production::Land => &LAND,
        Production::Bor => &BOR,
        Production::Bxor => &BXOR,
        Production::Band => &BAND,
        Production::Equal => &EQUAL,
        Production::Relate => &RELATE,
        Production::Shift => &SHIFT,
        Production::Add => &ADD,
        Production::Mul => &MUL,
        Production::Cast => &CAST,
        Production::CastRest => &CAST_REST,
        Production::Unary => &UNARY,
        Production::SizeRest => &SIZE_REST,
        Production::SizeLit => &SIZE_LIT,
        Production::Primary => &PRIMARY,
        Production::Post => &POST,
        Production::Args => &ARGS,
        Production::Block => &BLOCK,
        Production::BlockItem => &BLOCK_ITEM,
        Production::Statement => &STATEMENT,
        Production::Sub => &SUB,
        Production::ForInit => &FOR_INIT,
        _ => &[],
    }
}

// .. by GNU C: its own ones, and else those of C11.
fn gnu_alternatives(production: Production) -> &'static [Alternative]
    ensures rows { map alternative_of result.now ≡ gnu_table production }
    ensures few { length result.now < 200 }
{
    match production {
        Production::External => &EXTERNAL_OF_GNU,
        Production::ExtTail => &EXT_TAIL_OF_GNU,
        Production::Declaration => &DECLARATION_OF_GNU,
        Production::DeclRest => &DECL_REST_OF_GNU,
        Production::Sassert => &SASSERT_OF_GNU,
        Production::Main => &MAIN_OF_GNU,
        Production::Mod => &MOD_OF_GNU,
        Production::Qual => &QUAL_OF_GNU,
        Production::StructSpec => &STRUCT_SPEC_OF_GNU,
        Production::SuRest => &SU_REST_OF_GNU,
        Production::Member => &MEMBER_OF_GNU,
        Production::Mdecl => &MDECL_OF_GNU,
        Production::EnumSpec => &ENUM_SPEC_OF_GNU,
        Production::Enumerator => &ENUMERATOR_OF_GNU,
        Production::Declarator => &DECLARATOR_OF_GNU,
        Production::Pointer => &POINTER_OF_GNU,
        Production::Direct => &DIRECT_OF_GNU,
        Production::Suffix => &SUFFIX_OF_GNU,
        Production::Pdecl => &PDECL_OF_GNU,
        Production::Pdirect => &PDIRECT_OF_GNU,
        Production::Adirect => &ADIRECT_OF_GNU,
        Production::Init => &INIT_OF_GNU,
        Production::InitItem => &INIT_ITEM_OF_GNU,
        Production::Designator => &DESIGNATOR_OF_GNU,
        Production::Cond => &COND_OF_GNU,
        Production::Cast => &CAST_OF_GNU,
        Production::CastRest => &CAST_REST_OF_GNU,
        Production::Unary => &UNARY_OF_GNU,
        Production::SizeRest => &SIZE_REST_OF_GNU,
        Production::SizeLit => &SIZE_LIT_OF_GNU,
        Production::Primary => &PRIMARY_OF_GNU,
        Production::Post => &POST_OF_GNU,
        Production::BlockItem => &BLOCK_ITEM_OF_GNU,
        Production::Statement => &STATEMENT_OF_GNU,
        Production::AutoDecl => &AUTO_DECL_OF_GNU,
        Production::Attr => &ATTR_OF_GNU,
        Production::AttrItem => &ATTR_ITEM_OF_GNU,
        Production::AttrWord => &ATTR_WORD_OF_GNU,
        Production::AsmName => &ASM_NAME_OF_GNU,
        Production::Operand => &OPERAND_OF_GNU,
        Production::Association => &ASSOCIATION_OF_GNU,
        Production::MemberPath => &MEMBER_PATH_OF_GNU,
        Production::AsmPart => &ASM_PART_OF_GNU,
        Production::AsmOperand => &ASM_OPERAND_OF_GNU,
        _ => iso_alternatives(production, Edition::C11),
    }
}

/// The alternatives of a production by a dialect, the first one first.
pub fn alternatives(production: Production, dialect: Dialect) -> &'static [Alternative]
    ensures rows { map alternative_of result.now ≡ (grammar dialect).table production }
    ensures few { length result.now < 200 }
{
    match dialect {
        Dialect::Iso(edition) => iso_alternatives(production, edition),
        Dialect::Gnu => gnu_alternatives(production),
    }
}
