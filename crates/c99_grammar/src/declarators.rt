// Declarators and type names (6.7.5, 6.7.6): their rows of the table.
use crate::classes::Class;
use crate::items::Ask::{Is, IsNot};
use crate::items::Item::{Act, Choice, Deep, Many, Maybe, Part};
use crate::items::Test::{NextTwo, Own};
use crate::items::{Action, Alternative};
use crate::rows::{plain, sequence, some, token, when};
use c99_tree::Production::{
    Adecl, Adirect, Assign, Bound, Declarator, Direct, Param, Params, Pdecl, Pdirect, Pointer,
    Qual, Specs, Suffix,
};

pub(crate) static DECLARATOR: [Alternative; 1] = [plain![Many(Own, &Part(Pointer)), Part(Direct)]];

pub(crate) static POINTER: [Alternative; 1] = [plain![token![Star], Many(Own, &Part(Qual))]];

pub(crate) static DIRECT: [Alternative; 2] = [
    plain![token![Identifier TypedefName], Many(Own, &Part(Suffix))],
    plain![
        token![LeftParen],
        Deep(Declarator),
        token![RightParen],
        Many(Own, &Part(Suffix))
    ],
];

pub(crate) static SUFFIX: [Alternative; 2] = [
    plain![
        token![LeftBracket],
        Many(Own, &Choice(&Part(Qual), &token![Static])),
        Maybe(&Deep(Bound)),
        token![RightBracket]
    ],
    plain![
        token![LeftParen],
        Act(Action::Scope),
        Maybe(&Deep(Params)),
        Act(Action::End),
        Act(Action::Keep),
        token![RightParen]
    ],
];

pub(crate) static BOUND: [Alternative; 2] = [
    when![NextTwo(Is(&[Class::Star]), Is(&[Class::RightBracket])) => token![Star]],
    plain![Part(Assign)],
];

pub(crate) static PARAMS: [Alternative; 2] = [
    plain![
        token![Identifier],
        Act(Action::Name),
        Many(
            Own,
            &sequence![token![Comma], token![Identifier], Act(Action::Name)]
        )
    ],
    plain![
        Part(Param),
        Many(
            NextTwo(Is(&[Class::Comma]), IsNot(&[Class::Ellipsis])),
            &sequence![token![Comma], Part(Param)]
        ),
        Maybe(&sequence![token![Comma], token![Ellipsis]])
    ],
];

pub(crate) static PARAM: [Alternative; 1] = [plain![
    Part(Specs),
    Maybe(&Part(Pdecl)),
    Act(Action::Declare)
]];

pub(crate) static PDECL: [Alternative; 2] = [
    plain![some![Part(Pointer)], Maybe(&Part(Pdirect))],
    plain![Part(Pdirect)],
];

pub(crate) static PDIRECT: [Alternative; 3] = [
    plain![token![Identifier TypedefName], Many(Own, &Part(Suffix))],
    when![
        NextTwo(
            Is(&[Class::LeftParen]),
            Is(&[Class::LeftBracket, Class::LeftParen, Class::Star, Class::Identifier])
        ) =>
        token![LeftParen],
        Deep(Pdecl),
        token![RightParen],
        Many(Own, &Part(Suffix))
    ],
    plain![some![Part(Suffix)]],
];

pub(crate) static TYPE_NAME: [Alternative; 1] = [plain![Part(Specs), Maybe(&Part(Adecl))]];

pub(crate) static ADECL: [Alternative; 2] = [
    plain![some![Part(Pointer)], Maybe(&Part(Adirect))],
    plain![Part(Adirect)],
];

pub(crate) static ADIRECT: [Alternative; 2] = [
    when![
        NextTwo(
            Is(&[Class::LeftParen]),
            Is(&[Class::LeftBracket, Class::LeftParen, Class::Star])
        ) =>
        token![LeftParen],
        Deep(Adecl),
        token![RightParen],
        Many(Own, &Part(Suffix))
    ],
    plain![some![Part(Suffix)]],
];
