// Declarations of GNU C, as gcc reads them: their rows of the table where they are not C11's.
use crate::classes::Class;
use crate::items::Ask::{Is, IsNot, IsOrBegins};
use crate::items::Item::{Act, Choice, Deep, Many, Maybe, Part};
use crate::items::Test::{Next, NextTwo, Otherwise, Own};
use crate::items::{Action, Alternative};
use crate::rows::{plain, sequence, some, token, when};
use c99_tree::Production::{
    Assign, Attr, AutoDecl, Cond, DeclRest, Declarator, Designator, EnRest, EnumSpec, Expr,
    ExtRest, FunBody, Init, InitDecl, InitList, MemRest, Members, Mod, Operand, Qual, Sassert,
    Specs, StructSpec, SuRest, TypeName, Word,
};

pub(crate) static EXTERNAL_OF_GNU: [Alternative; 4] = [
    plain![token![Semicolon]],
    plain![Part(Sassert)],
    plain![
        Many(Own, &token![ExtensionWord]),
        Part(Specs),
        Part(ExtRest)
    ],
    plain![
        token![AsmWord],
        token![LeftParen],
        some![token![StringLiteral]],
        token![RightParen],
        token![Semicolon]
    ],
];

pub(crate) static EXT_TAIL_OF_GNU: [Alternative; 2] = [
    when![Next(IsOrBegins(&[Class::LeftBrace], Specs)) => Part(FunBody)],
    when![
        Otherwise =>
        Act(Action::End),
        Maybe(&sequence![token![Eq], Deep(Init)]),
        Many(Own, &sequence![token![Comma], Many(Own, &Part(Attr)), Part(InitDecl)]),
        token![Semicolon]
    ],
];

pub(crate) static DECLARATION_OF_GNU: [Alternative; 3] = [
    plain![Part(Sassert)],
    plain![
        Many(Own, &token![ExtensionWord]),
        Part(Specs),
        Part(DeclRest)
    ],
    plain![Part(AutoDecl)],
];

pub(crate) static DECL_REST_OF_GNU: [Alternative; 2] = [
    plain![token![Semicolon]],
    plain![
        Part(InitDecl),
        Many(
            Own,
            &sequence![token![Comma], Many(Own, &Part(Attr)), Part(InitDecl)]
        ),
        token![Semicolon]
    ],
];

pub(crate) static AUTO_DECL_OF_GNU: [Alternative; 1] = [plain![
    token![AutoTypeWord],
    Many(Own, &Part(Qual)),
    token![Identifier TypedefName],
    Many(Own, &Part(Attr)),
    token![Eq],
    Deep(Init),
    Act(Action::Name),
    token![Semicolon]
]];

pub(crate) static MEMBER_OF_GNU: [Alternative; 3] = [
    plain![token![Semicolon]],
    plain![Part(Sassert)],
    plain![
        Many(Own, &token![ExtensionWord]),
        Part(Specs),
        Part(MemRest)
    ],
];

pub(crate) static SASSERT_OF_GNU: [Alternative; 1] = [plain![
    token![StaticAssert],
    token![LeftParen],
    Deep(Cond),
    Maybe(&sequence![token![Comma], some![token![StringLiteral]]]),
    token![RightParen],
    token![Semicolon]
]];

pub(crate) static MOD_OF_GNU: [Alternative; 11] = [
    plain![token![Typedef]],
    plain![token![Extern]],
    plain![token![Static]],
    plain![token![Auto]],
    plain![token![Register]],
    plain![token![Inline]],
    plain![token![Noreturn]],
    plain![Part(Qual)],
    plain![token![ThreadLocal]],
    plain![Part(Attr)],
    plain![token![Alignas], Part(Operand)],
];

pub(crate) static QUAL_OF_GNU: [Alternative; 4] = [
    plain![token![Const]],
    plain![token![Restrict]],
    plain![token![Volatile]],
    when![NextTwo(Is(&[Class::Atomic]), IsNot(&[Class::LeftParen])) => token![Atomic]],
];

pub(crate) static MAIN_OF_GNU: [Alternative; 6] = [
    plain![Part(Word), Many(Own, &Choice(&Part(Word), &Part(Mod)))],
    plain![Part(StructSpec), Many(Own, &Part(Mod))],
    plain![Part(EnumSpec), Many(Own, &Part(Mod))],
    plain![token![TypedefName], Many(Own, &Part(Mod))],
    plain![token![TypeofWord], Part(Operand), Many(Own, &Part(Mod))],
    when![
        NextTwo(Is(&[Class::Atomic]), Is(&[Class::LeftParen])) =>
        token![Atomic],
        token![LeftParen],
        Deep(TypeName),
        token![RightParen],
        Many(Own, &Part(Mod))
    ],
];

pub(crate) static OPERAND_OF_GNU: [Alternative; 2] = [
    when![
        NextTwo(Is(&[Class::LeftParen]), IsOrBegins(&[Class::LeftBracket], Specs)) =>
        token![LeftParen],
        Deep(TypeName),
        token![RightParen]
    ],
    plain![token![LeftParen], Deep(Expr), token![RightParen]],
];

pub(crate) static STRUCT_SPEC_OF_GNU: [Alternative; 1] = [plain![
    token![Struct Union],
    Many(Own, &Part(Attr)),
    Part(SuRest)
]];

pub(crate) static SU_REST_OF_GNU: [Alternative; 2] = [
    plain![
        token![Identifier TypedefName],
        Maybe(&sequence![token![LeftBrace], Maybe(&Deep(Members)), token![RightBrace]])
    ],
    plain![token![LeftBrace], Maybe(&Deep(Members)), token![RightBrace]],
];

pub(crate) static MDECL_OF_GNU: [Alternative; 2] = [
    plain![token![Colon], Deep(Cond), Many(Own, &Part(Attr))],
    plain![
        Part(Declarator),
        Maybe(&sequence![token![Colon], Deep(Cond)]),
        Many(Own, &Part(Attr))
    ],
];

pub(crate) static ENUM_SPEC_OF_GNU: [Alternative; 1] = [plain![
    token![Enum],
    Many(Own, &Part(Attr)),
    Part(EnRest)
]];

pub(crate) static ENUMERATOR_OF_GNU: [Alternative; 1] = [plain![
    token![Identifier TypedefName],
    Many(Own, &Part(Attr)),
    Maybe(&sequence![token![Eq], Deep(Cond)]),
    Act(Action::Name)
]];

pub(crate) static INIT_OF_GNU: [Alternative; 2] = [
    plain![
        token![LeftBrace],
        Maybe(&Deep(InitList)),
        token![RightBrace]
    ],
    plain![Part(Assign)],
];

pub(crate) static INIT_ITEM_OF_GNU: [Alternative; 3] = [
    plain![some![Part(Designator)], Maybe(&token![Eq]), Part(Init)],
    when![
        NextTwo(Is(&[Class::Identifier, Class::TypedefName]), Is(&[Class::Colon])) =>
        token![Identifier TypedefName],
        token![Colon],
        Part(Init)
    ],
    plain![Part(Init)],
];

pub(crate) static DESIGNATOR_OF_GNU: [Alternative; 2] = [
    plain![token![Dot], token![Identifier TypedefName]],
    when![
        NextTwo(Is(&[Class::LeftBracket]), IsNot(&[Class::LeftBracket])) =>
        token![LeftBracket],
        Deep(Cond),
        Maybe(&sequence![token![Ellipsis], Deep(Cond)]),
        token![RightBracket]
    ],
];
