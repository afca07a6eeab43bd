// External definitions (6.9), declarations (6.7 to 6.7.2) and initialization (6.7.8): their rows of the table.
use crate::classes::Class;
use crate::items::Ask::{Is, IsNot, IsOrBegins};
use crate::items::Item::{Act, Choice, Deep, EndOfText, Many, Maybe, Part};
use crate::items::Test::{Next, NextTwo, Otherwise, Own};
use crate::items::{Action, Alternative};
use crate::rows::{plain, sequence, some, token, when};
use c99_tree::Production::{
    Assign, BlockItem, Cond, DeclRest, Declaration, Declarator, Designator, EnRest, EnumSpec,
    Enumerator, Enumerators, ExtRest, ExtTail, External, FunBody, Init, InitDecl, InitItem,
    InitList, Main, Mdecl, MemRest, Member, Members, Mod, Qual, Sassert, Specs, StructSpec, SuRest,
    Word,
};

// ---- External definitions (6.9)

pub(crate) static TRANSLATION_UNIT: [Alternative; 1] = [plain![
    Many(Own, &Part(External)),
    EndOfText
]];

pub(crate) static EXTERNAL: [Alternative; 2] = [
    plain![token![Semicolon]],
    plain![Part(Specs), Part(ExtRest)],
];

pub(crate) static EXTERNAL_OF_C11: [Alternative; 3] = [
    plain![token![Semicolon]],
    plain![Part(Sassert)],
    plain![Part(Specs), Part(ExtRest)],
];

pub(crate) static EXT_REST: [Alternative; 2] = [
    plain![token![Semicolon]],
    plain![
        Part(Declarator),
        Act(Action::Declare),
        Act(Action::Again),
        Part(ExtTail)
    ],
];

pub(crate) static EXT_TAIL: [Alternative; 2] = [
    when![Next(IsOrBegins(&[Class::LeftBrace], Specs)) => Part(FunBody)],
    when![
        Otherwise =>
        Act(Action::End),
        Maybe(&sequence![token![Eq], Deep(Init)]),
        Many(Own, &sequence![token![Comma], Part(InitDecl)]),
        token![Semicolon]
    ],
];

pub(crate) static FUN_BODY: [Alternative; 1] = [plain![
    Many(Own, &Part(Declaration)),
    token![LeftBrace],
    Many(Own, &Deep(BlockItem)),
    Act(Action::End),
    token![RightBrace]
]];

pub(crate) static DECLARATION: [Alternative; 1] = [plain![Part(Specs), Part(DeclRest)]];

pub(crate) static DECLARATION_OF_C11: [Alternative; 2] = [
    plain![Part(Sassert)],
    plain![Part(Specs), Part(DeclRest)],
];

pub(crate) static SASSERT: [Alternative; 1] = [plain![
    token![StaticAssert],
    token![LeftParen],
    Deep(Cond),
    token![Comma],
    some![token![StringLiteral]],
    token![RightParen],
    token![Semicolon]
]];

pub(crate) static DECL_REST: [Alternative; 2] = [
    plain![token![Semicolon]],
    plain![
        Part(InitDecl),
        Many(Own, &sequence![token![Comma], Part(InitDecl)]),
        token![Semicolon]
    ],
];

pub(crate) static INIT_DECL: [Alternative; 1] = [plain![
    Part(Declarator),
    Act(Action::Declare),
    Maybe(&sequence![token![Eq], Deep(Init)])
]];

// ---- Declarations (6.7 to 6.7.2)

pub(crate) static SPECS: [Alternative; 1] = [plain![Many(Own, &Part(Mod)), Part(Main)]];

pub(crate) static MAIN: [Alternative; 4] = [
    plain![Part(Word), Many(Own, &Choice(&Part(Word), &Part(Mod)))],
    plain![Part(StructSpec), Many(Own, &Part(Mod))],
    plain![Part(EnumSpec), Many(Own, &Part(Mod))],
    plain![token![TypedefName], Many(Own, &Part(Mod))],
];

pub(crate) static MOD: [Alternative; 7] = [
    plain![token![Typedef]],
    plain![token![Extern]],
    plain![token![Static]],
    plain![token![Auto]],
    plain![token![Register]],
    plain![token![Inline]],
    plain![Part(Qual)],
];

pub(crate) static MOD_OF_C11: [Alternative; 8] = [
    plain![token![Typedef]],
    plain![token![Extern]],
    plain![token![Static]],
    plain![token![Auto]],
    plain![token![Register]],
    plain![token![Inline]],
    plain![token![Noreturn]],
    plain![Part(Qual)],
];

pub(crate) static QUAL: [Alternative; 3] = [
    plain![token![Const]],
    plain![token![Restrict]],
    plain![token![Volatile]],
];

pub(crate) static WORD: [Alternative; 12] = [
    plain![token![Void]],
    plain![token![Char]],
    plain![token![Short]],
    plain![token![Int]],
    plain![token![Long]],
    plain![token![Float]],
    plain![token![Double]],
    plain![token![Signed]],
    plain![token![Unsigned]],
    plain![token![BoolWord]],
    plain![token![ComplexWord]],
    plain![token![ImaginaryWord]],
];

pub(crate) static STRUCT_SPEC: [Alternative; 1] = [plain![token![Struct Union], Part(SuRest)]];

pub(crate) static SU_REST: [Alternative; 2] = [
    plain![
        token![Identifier TypedefName],
        Maybe(&sequence![token![LeftBrace], Deep(Members), token![RightBrace]])
    ],
    plain![token![LeftBrace], Deep(Members), token![RightBrace]],
];

pub(crate) static MEMBERS: [Alternative; 1] = [plain![some![Part(Member)]]];

pub(crate) static MEMBER: [Alternative; 2] = [
    plain![token![Semicolon]],
    plain![
        Part(Specs),
        Part(Mdecl),
        Many(Own, &sequence![token![Comma], Part(Mdecl)]),
        token![Semicolon]
    ],
];

pub(crate) static MEMBER_OF_C11: [Alternative; 3] = [
    plain![token![Semicolon]],
    plain![Part(Sassert)],
    plain![Part(Specs), Part(MemRest)],
];

pub(crate) static MEM_REST: [Alternative; 2] = [
    plain![token![Semicolon]],
    plain![
        Part(Mdecl),
        Many(Own, &sequence![token![Comma], Part(Mdecl)]),
        token![Semicolon]
    ],
];

pub(crate) static MDECL: [Alternative; 2] = [
    plain![token![Colon], Deep(Cond)],
    plain![
        Part(Declarator),
        Maybe(&sequence![token![Colon], Deep(Cond)])
    ],
];

pub(crate) static ENUM_SPEC: [Alternative; 1] = [plain![token![Enum], Part(EnRest)]];

pub(crate) static EN_REST: [Alternative; 2] = [
    plain![
        token![Identifier TypedefName],
        Maybe(&sequence![token![LeftBrace], Deep(Enumerators), token![RightBrace]])
    ],
    plain![token![LeftBrace], Deep(Enumerators), token![RightBrace]],
];

pub(crate) static ENUMERATORS: [Alternative; 1] = [plain![
    Part(Enumerator),
    Many(
        NextTwo(
            Is(&[Class::Comma]),
            Is(&[Class::Identifier, Class::TypedefName])
        ),
        &sequence![token![Comma], Part(Enumerator)]
    ),
    Maybe(&token![Comma])
]];

pub(crate) static ENUMERATOR: [Alternative; 1] = [plain![
    token![Identifier TypedefName],
    Maybe(&sequence![token![Eq], Deep(Cond)]),
    Act(Action::Name)
]];

// ---- Initialization (6.7.8)

pub(crate) static INIT: [Alternative; 2] = [
    plain![token![LeftBrace], Deep(InitList), token![RightBrace]],
    plain![Part(Assign)],
];

pub(crate) static INIT_LIST: [Alternative; 1] = [plain![
    Part(InitItem),
    Many(
        NextTwo(Is(&[Class::Comma]), IsNot(&[Class::RightBrace])),
        &sequence![token![Comma], Part(InitItem)]
    ),
    Maybe(&token![Comma])
]];

pub(crate) static INIT_ITEM: [Alternative; 2] = [
    plain![some![Part(Designator)], token![Eq], Part(Init)],
    plain![Part(Init)],
];

pub(crate) static DESIGNATOR: [Alternative; 2] = [
    plain![token![Dot], token![Identifier TypedefName]],
    plain![token![LeftBracket], Deep(Cond), token![RightBracket]],
];
