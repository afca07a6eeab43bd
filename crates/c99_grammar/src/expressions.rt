// Expressions (6.5): their rows of the table.
use crate::classes::Class;
use crate::items::Alternative;
use crate::items::Ask::{Begins, Is};
use crate::items::Item::{Deep, Many, Maybe, Part};
use crate::items::Test::{NextTwo, Own};
use crate::rows::{plain, sequence, some, token, when};
use c99_tree::Production::{
    Add, Args, Asgop, Assign, Band, Bor, Bxor, Cast, CastRest, Cond, Equal, Expr, InitList, Land,
    Lor, Mul, Post, Primary, Relate, Shift, SizeLit, SizeRest, Specs, TypeName, Unary,
};

pub(crate) static EXPR: [Alternative; 1] = [plain![
    Part(Assign),
    Many(Own, &sequence![token![Comma], Part(Assign)])
]];

pub(crate) static ASSIGN: [Alternative; 1] = [plain![
    Part(Cond),
    Maybe(&sequence![Part(Asgop), Deep(Assign)])
]];

pub(crate) static ASGOP: [Alternative; 11] = [
    plain![token![Eq]],
    plain![token![StarEq]],
    plain![token![SlashEq]],
    plain![token![PercentEq]],
    plain![token![PlusEq]],
    plain![token![MinusEq]],
    plain![token![ShiftLeftEq]],
    plain![token![ShiftRightEq]],
    plain![token![AmpEq]],
    plain![token![CaretEq]],
    plain![token![BarEq]],
];

pub(crate) static COND: [Alternative; 1] = [plain![
    Part(Lor),
    Maybe(&sequence![token![Question], Deep(Expr), token![Colon], Deep(Cond)])
]];

pub(crate) static LOR: [Alternative; 1] = [plain![
    Part(Land),
    Many(Own, &sequence![token![BarBar], Part(Land)])
]];

pub(crate) static LAND: [Alternative; 1] = [plain![
    Part(Bor),
    Many(Own, &sequence![token![AmpAmp], Part(Bor)])
]];

pub(crate) static BOR: [Alternative; 1] = [plain![
    Part(Bxor),
    Many(Own, &sequence![token![Bar], Part(Bxor)])
]];

pub(crate) static BXOR: [Alternative; 1] = [plain![
    Part(Band),
    Many(Own, &sequence![token![Caret], Part(Band)])
]];

pub(crate) static BAND: [Alternative; 1] = [plain![
    Part(Equal),
    Many(Own, &sequence![token![Amp], Part(Equal)])
]];

pub(crate) static EQUAL: [Alternative; 1] = [plain![
    Part(Relate),
    Many(Own, &sequence![token![EqEq BangEq], Part(Relate)])
]];

pub(crate) static RELATE: [Alternative; 1] = [plain![
    Part(Shift),
    Many(
        Own,
        &sequence![token![Less Greater LessEq GreaterEq], Part(Shift)]
    )
]];

pub(crate) static SHIFT: [Alternative; 1] = [plain![
    Part(Add),
    Many(Own, &sequence![token![ShiftLeft ShiftRight], Part(Add)])
]];

pub(crate) static ADD: [Alternative; 1] = [plain![
    Part(Mul),
    Many(Own, &sequence![token![Plus Minus], Part(Mul)])
]];

pub(crate) static MUL: [Alternative; 1] = [plain![
    Part(Cast),
    Many(Own, &sequence![token![Star Slash Percent], Part(Cast)])
]];

pub(crate) static CAST: [Alternative; 2] = [
    when![
        NextTwo(Is(&[Class::LeftParen]), Begins(Specs)) =>
        token![LeftParen],
        Deep(TypeName),
        token![RightParen],
        Part(CastRest)
    ],
    plain![Part(Unary)],
];

pub(crate) static CAST_REST: [Alternative; 2] = [
    plain![
        token![LeftBrace],
        Deep(InitList),
        token![RightBrace],
        Many(Own, &Part(Post))
    ],
    plain![Deep(Cast)],
];

pub(crate) static UNARY: [Alternative; 3] = [
    plain![
        token![PlusPlus MinusMinus Amp Star Plus Minus Tilde Bang],
        Deep(Cast)
    ],
    plain![token![Sizeof], Part(SizeRest)],
    plain![Part(Primary), Many(Own, &Part(Post))],
];

pub(crate) static SIZE_REST: [Alternative; 2] = [
    when![
        NextTwo(Is(&[Class::LeftParen]), Begins(Specs)) =>
        token![LeftParen],
        Deep(TypeName),
        token![RightParen],
        Maybe(&Part(SizeLit))
    ],
    plain![Deep(Unary)],
];

pub(crate) static SIZE_LIT: [Alternative; 1] = [plain![
    token![LeftBrace],
    Deep(InitList),
    token![RightBrace],
    Many(Own, &Part(Post))
]];

pub(crate) static PRIMARY: [Alternative; 5] = [
    plain![token![Identifier]],
    plain![token![Constant]],
    plain![token![CharConstant]],
    plain![some![token![StringLiteral]]],
    plain![token![LeftParen], Deep(Expr), token![RightParen]],
];

pub(crate) static POST: [Alternative; 6] = [
    plain![token![LeftBracket], Deep(Expr), token![RightBracket]],
    plain![token![LeftParen], Maybe(&Deep(Args)), token![RightParen]],
    plain![token![Dot], token![Identifier TypedefName]],
    plain![token![Arrow], token![Identifier TypedefName]],
    plain![token![PlusPlus]],
    plain![token![MinusMinus]],
];

pub(crate) static ARGS: [Alternative; 1] = [plain![
    Part(Assign),
    Many(Own, &sequence![token![Comma], Part(Assign)])
]];
