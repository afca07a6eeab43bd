// Expressions and statements of GNU C, as gcc reads them: their rows of the table where they are not C11's.
use crate::classes::Class;
use crate::items::Ask::{Is, IsNot, IsOrBegins};
use crate::items::Item::{Act, Choice, Deep, Many, Maybe, Part};
use crate::items::Test::{Next, NextTwo, Own};
use crate::items::{Action, Alternative};
use crate::rows::{plain, sequence, some, token, when};
use c99_tree::Production::{
    Args, AsmOperand, AsmPart, Assign, Association, Attr, Block, BlockItem, Cast, CastRest, Cond,
    Declaration, Expr, ForInit, InitList, Lor, MemberPath, Post, Primary, SizeLit, SizeRest, Specs,
    Statement, Sub, TypeName, Unary,
};

pub(crate) static COND_OF_GNU: [Alternative; 1] = [plain![
    Part(Lor),
    Maybe(&sequence![
        token![Question],
        Maybe(&Deep(Expr)),
        token![Colon],
        Deep(Cond)
    ])
]];

pub(crate) static CAST_OF_GNU: [Alternative; 2] = [
    when![
        NextTwo(Is(&[Class::LeftParen]), IsOrBegins(&[Class::LeftBracket], Specs)) =>
        token![LeftParen],
        Deep(TypeName),
        token![RightParen],
        Part(CastRest)
    ],
    plain![Part(Unary)],
];

pub(crate) static CAST_REST_OF_GNU: [Alternative; 2] = [
    plain![
        token![LeftBrace],
        Maybe(&Deep(InitList)),
        token![RightBrace],
        Many(Own, &Part(Post))
    ],
    plain![Deep(Cast)],
];

pub(crate) static UNARY_OF_GNU: [Alternative; 4] = [
    plain![
        token![PlusPlus MinusMinus Amp Star Plus Minus Tilde Bang ExtensionWord RealPartWord],
        Deep(Cast)
    ],
    plain![token![Sizeof Alignof], Part(SizeRest)],
    plain![Part(Primary), Many(Own, &Part(Post))],
    plain![token![AmpAmp], token![Identifier TypedefName]],
];

pub(crate) static SIZE_REST_OF_GNU: [Alternative; 2] = [
    when![
        NextTwo(Is(&[Class::LeftParen]), IsOrBegins(&[Class::LeftBracket], Specs)) =>
        token![LeftParen],
        Deep(TypeName),
        token![RightParen],
        Maybe(&Part(SizeLit))
    ],
    plain![Deep(Unary)],
];

pub(crate) static SIZE_LIT_OF_GNU: [Alternative; 1] = [plain![
    token![LeftBrace],
    Maybe(&Deep(InitList)),
    token![RightBrace],
    Many(Own, &Part(Post))
]];

pub(crate) static PRIMARY_OF_GNU: [Alternative; 9] = [
    plain![token![Identifier]],
    plain![token![Constant]],
    plain![token![CharConstant]],
    plain![some![token![StringLiteral]]],
    plain![
        token![LeftParen],
        Choice(&Deep(Expr), &Deep(Block)),
        token![RightParen]
    ],
    plain![
        token![Generic],
        token![LeftParen],
        Deep(Assign),
        some![sequence![token![Comma], Part(Association)]],
        token![RightParen]
    ],
    plain![
        token![VaArgWord],
        token![LeftParen],
        Deep(Assign),
        token![Comma],
        Deep(TypeName),
        token![RightParen]
    ],
    plain![
        token![OffsetofWord],
        token![LeftParen],
        Deep(TypeName),
        token![Comma],
        Part(MemberPath),
        token![RightParen]
    ],
    plain![
        token![TypesCompatibleWord],
        token![LeftParen],
        Deep(TypeName),
        token![Comma],
        Deep(TypeName),
        token![RightParen]
    ],
];

pub(crate) static ASSOCIATION_OF_GNU: [Alternative; 2] = [
    plain![token![Default], token![Colon], Deep(Assign)],
    plain![Deep(TypeName), token![Colon], Deep(Assign)],
];

pub(crate) static MEMBER_PATH_OF_GNU: [Alternative; 1] = [plain![
    token![Identifier TypedefName],
    Many(
        Own,
        &Choice(
            &sequence![token![Dot], token![Identifier TypedefName]],
            &sequence![token![LeftBracket], Deep(Expr), token![RightBracket]]
        )
    )
]];

pub(crate) static POST_OF_GNU: [Alternative; 6] = [
    when![
        NextTwo(Is(&[Class::LeftBracket]), IsNot(&[Class::LeftBracket])) =>
        token![LeftBracket],
        Deep(Expr),
        token![RightBracket]
    ],
    plain![token![LeftParen], Maybe(&Deep(Args)), token![RightParen]],
    plain![token![Dot], token![Identifier TypedefName]],
    plain![token![Arrow], token![Identifier TypedefName]],
    plain![token![PlusPlus]],
    plain![token![MinusMinus]],
];

pub(crate) static BLOCK_ITEM_OF_GNU: [Alternative; 7] = [
    when![
        NextTwo(Is(&[Class::Identifier, Class::TypedefName]), Is(&[Class::Colon])) =>
        Part(Statement)
    ],
    when![
        NextTwo(Is(&[Class::ExtensionWord]), IsOrBegins(&[Class::LeftBracket], Specs)) =>
        Part(Declaration)
    ],
    when![Next(Is(&[Class::ExtensionWord])) => Part(Statement)],
    plain![some![Part(Attr)], Deep(BlockItem)],
    plain![Part(Declaration)],
    plain![Part(Statement)],
    plain![
        token![LocalLabelWord],
        token![Identifier TypedefName],
        Many(
            Own,
            &sequence![token![Comma], token![Identifier TypedefName]]
        ),
        token![Semicolon]
    ],
];

pub(crate) static STATEMENT_OF_GNU: [Alternative; 18] = [
    when![
        NextTwo(Is(&[Class::Identifier, Class::TypedefName]), Is(&[Class::Colon])) =>
        token![Identifier TypedefName],
        token![Colon],
        Maybe(&Deep(BlockItem))
    ],
    plain![
        token![Case],
        Deep(Cond),
        Maybe(&sequence![token![Ellipsis], Deep(Cond)]),
        token![Colon],
        Maybe(&Deep(BlockItem))
    ],
    plain![token![Default], token![Colon], Maybe(&Deep(BlockItem))],
    plain![Part(Block)],
    plain![
        Act(Action::Scope),
        token![If],
        token![LeftParen],
        Deep(Expr),
        token![RightParen],
        Part(Sub),
        Maybe(&sequence![token![Else], Part(Sub)]),
        Act(Action::End)
    ],
    plain![
        Act(Action::Scope),
        token![Switch],
        token![LeftParen],
        Deep(Expr),
        token![RightParen],
        Part(Sub),
        Act(Action::End)
    ],
    plain![
        Act(Action::Scope),
        token![While],
        token![LeftParen],
        Deep(Expr),
        token![RightParen],
        Part(Sub),
        Act(Action::End)
    ],
    plain![
        Act(Action::Scope),
        token![Do],
        Part(Sub),
        token![While],
        token![LeftParen],
        Deep(Expr),
        token![RightParen],
        token![Semicolon],
        Act(Action::End)
    ],
    plain![
        Act(Action::Scope),
        token![For],
        token![LeftParen],
        Part(ForInit),
        Maybe(&Deep(Expr)),
        token![Semicolon],
        Maybe(&Deep(Expr)),
        token![RightParen],
        Part(Sub),
        Act(Action::End)
    ],
    when![
        NextTwo(Is(&[Class::Goto]), Is(&[Class::Identifier, Class::TypedefName])) =>
        token![Goto],
        token![Identifier TypedefName],
        token![Semicolon]
    ],
    plain![token![Continue], token![Semicolon]],
    plain![token![Break], token![Semicolon]],
    plain![token![Return], Maybe(&Deep(Expr)), token![Semicolon]],
    plain![token![Semicolon]],
    plain![Deep(Expr), token![Semicolon]],
    plain![token![Goto], token![Star], Deep(Expr), token![Semicolon]],
    plain![
        token![AsmWord],
        Many(Own, &token![Volatile Inline Goto]),
        token![LeftParen],
        some![token![StringLiteral]],
        Many(Own, &Part(AsmPart)),
        token![RightParen],
        token![Semicolon]
    ],
    plain![some![Part(Attr)], token![Semicolon]],
];

pub(crate) static ASM_PART_OF_GNU: [Alternative; 2] = [
    when![
        NextTwo(Is(&[Class::Colon]), Is(&[Class::Identifier, Class::TypedefName])) =>
        token![Colon],
        token![Identifier TypedefName],
        Many(Own, &sequence![token![Comma], token![Identifier TypedefName]])
    ],
    plain![
        token![Colon],
        Maybe(&sequence![
            Part(AsmOperand),
            Many(Own, &sequence![token![Comma], Part(AsmOperand)])
        ])
    ],
];

pub(crate) static ASM_OPERAND_OF_GNU: [Alternative; 1] = [plain![
    Maybe(&sequence![
        token![LeftBracket],
        token![Identifier TypedefName],
        token![RightBracket]
    ]),
    some![token![StringLiteral]],
    Maybe(&sequence![token![LeftParen], Deep(Expr), token![RightParen]])
]];
