// Declarators and attributes of GNU C, as gcc reads them: their rows of the table where they are not C11's.
use crate::classes::Class;
use crate::items::Ask::{Is, IsNot};
use crate::items::Item::{Act, Choice, Deep, Many, Maybe, Part};
use crate::items::Test::{NextTwo, Own};
use crate::items::{Action, Alternative};
use crate::rows::{plain, sequence, some, token, when};
use c99_tree::Production::{
    Adecl, Args, AsmName, Attr, AttrItem, AttrWord, Bound, Declarator, Direct, Params, Pdecl,
    Pdirect, Pointer, Qual, Suffix,
};

pub(crate) static ATTR_OF_GNU: [Alternative; 2] = [
    plain![
        token![AttributeWord],
        token![LeftParen],
        token![LeftParen],
        Maybe(&Part(AttrItem)),
        Many(Own, &sequence![token![Comma], Maybe(&Part(AttrItem))]),
        token![RightParen],
        token![RightParen]
    ],
    when![
        NextTwo(Is(&[Class::LeftBracket]), Is(&[Class::LeftBracket])) =>
        token![LeftBracket],
        token![LeftBracket],
        Maybe(&Part(AttrItem)),
        Many(Own, &sequence![token![Comma], Maybe(&Part(AttrItem))]),
        token![RightBracket],
        token![RightBracket]
    ],
];

pub(crate) static ATTR_ITEM_OF_GNU: [Alternative; 1] = [plain![
    Part(AttrWord),
    Maybe(&sequence![token![Colon], token![Colon], token![Identifier TypedefName]]),
    Maybe(&sequence![token![LeftParen], Maybe(&Deep(Args)), token![RightParen]])
]];

pub(crate) static ATTR_WORD_OF_GNU: [Alternative; 6] = [
    plain![token![Identifier TypedefName]],
    plain![token![Const]],
    plain![token![Inline]],
    plain![token![Volatile]],
    plain![token![Signed]],
    plain![token![Restrict]],
];

pub(crate) static ASM_NAME_OF_GNU: [Alternative; 1] = [plain![
    token![AsmWord],
    token![LeftParen],
    some![token![StringLiteral]],
    token![RightParen]
]];

pub(crate) static DECLARATOR_OF_GNU: [Alternative; 1] = [plain![
    Many(Own, &Part(Pointer)),
    Part(Direct),
    Maybe(&Part(AsmName)),
    Many(Own, &Part(Attr))
]];

pub(crate) static POINTER_OF_GNU: [Alternative; 1] = [plain![
    token![Star],
    Many(Own, &Choice(&Part(Qual), &Part(Attr)))
]];

pub(crate) static DIRECT_OF_GNU: [Alternative; 2] = [
    plain![token![Identifier TypedefName], Many(Own, &Part(Suffix))],
    plain![
        token![LeftParen],
        Many(Own, &Part(Attr)),
        Deep(Declarator),
        token![RightParen],
        Many(Own, &Part(Suffix))
    ],
];

pub(crate) static SUFFIX_OF_GNU: [Alternative; 2] = [
    when![
        NextTwo(Is(&[Class::LeftBracket]), IsNot(&[Class::LeftBracket])) =>
        token![LeftBracket],
        Many(Own, &Choice(&Part(Qual), &token![Static])),
        Maybe(&Deep(Bound)),
        token![RightBracket]
    ],
    plain![
        token![LeftParen],
        Act(Action::Scope),
        Maybe(&Deep(Params)),
        Act(Action::End),
        Act(Action::Keep),
        token![RightParen]
    ],
];

pub(crate) static PDECL_OF_GNU: [Alternative; 2] = [
    plain![
        some![Part(Pointer)],
        Maybe(&Part(Pdirect)),
        Many(Own, &Part(Attr))
    ],
    plain![Part(Pdirect), Many(Own, &Part(Attr))],
];

pub(crate) static PDIRECT_OF_GNU: [Alternative; 3] = [
    plain![token![Identifier TypedefName], Many(Own, &Part(Suffix))],
    when![
        NextTwo(
            Is(&[Class::LeftParen]),
            Is(&[Class::LeftBracket, Class::LeftParen, Class::Star, Class::Identifier, Class::AttributeWord])
        ) =>
        token![LeftParen],
        Many(Own, &Part(Attr)),
        Deep(Pdecl),
        token![RightParen],
        Many(Own, &Part(Suffix))
    ],
    plain![some![Part(Suffix)]],
];

pub(crate) static ADIRECT_OF_GNU: [Alternative; 2] = [
    when![
        NextTwo(
            Is(&[Class::LeftParen]),
            Is(&[Class::LeftBracket, Class::LeftParen, Class::Star, Class::AttributeWord])
        ) =>
        token![LeftParen],
        Many(Own, &Part(Attr)),
        Deep(Adecl),
        token![RightParen],
        Many(Own, &Part(Suffix))
    ],
    plain![some![Part(Suffix)]],
];
