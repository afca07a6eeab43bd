// Statements (6.8): their rows of the table.
use crate::classes::Class;
use crate::items::Ask::Is;
use crate::items::Item::{Act, Deep, Many, Maybe, Part};
use crate::items::Test::{NextTwo, Own};
use crate::items::{Action, Alternative};
use crate::rows::{plain, sequence, token, when};
use c99_tree::Production::{Block, BlockItem, Cond, Declaration, Expr, ForInit, Statement, Sub};

pub(crate) static BLOCK: [Alternative; 1] = [plain![
    token![LeftBrace],
    Act(Action::Scope),
    Many(Own, &Deep(BlockItem)),
    Act(Action::End),
    token![RightBrace]
]];

pub(crate) static BLOCK_ITEM: [Alternative; 3] = [
    when![
        NextTwo(Is(&[Class::Identifier, Class::TypedefName]), Is(&[Class::Colon])) =>
        Part(Statement)
    ],
    plain![Part(Declaration)],
    plain![Part(Statement)],
];

pub(crate) static STATEMENT: [Alternative; 15] = [
    when![
        NextTwo(Is(&[Class::Identifier, Class::TypedefName]), Is(&[Class::Colon])) =>
        token![Identifier TypedefName],
        token![Colon],
        Deep(Statement)
    ],
    plain![token![Case], Deep(Cond), token![Colon], Deep(Statement)],
    plain![token![Default], token![Colon], Deep(Statement)],
    plain![Part(Block)],
    plain![
        Act(Action::Scope),
        token![If],
        token![LeftParen],
        Deep(Expr),
        token![RightParen],
        Part(Sub),
        Maybe(&sequence![token![Else], Part(Sub)]),
        Act(Action::End)
    ],
    plain![
        Act(Action::Scope),
        token![Switch],
        token![LeftParen],
        Deep(Expr),
        token![RightParen],
        Part(Sub),
        Act(Action::End)
    ],
    plain![
        Act(Action::Scope),
        token![While],
        token![LeftParen],
        Deep(Expr),
        token![RightParen],
        Part(Sub),
        Act(Action::End)
    ],
    plain![
        Act(Action::Scope),
        token![Do],
        Part(Sub),
        token![While],
        token![LeftParen],
        Deep(Expr),
        token![RightParen],
        token![Semicolon],
        Act(Action::End)
    ],
    plain![
        Act(Action::Scope),
        token![For],
        token![LeftParen],
        Part(ForInit),
        Maybe(&Deep(Expr)),
        token![Semicolon],
        Maybe(&Deep(Expr)),
        token![RightParen],
        Part(Sub),
        Act(Action::End)
    ],
    plain![
        token![Goto],
        token![Identifier TypedefName],
        token![Semicolon]
    ],
    plain![token![Continue], token![Semicolon]],
    plain![token![Break], token![Semicolon]],
    plain![token![Return], Maybe(&Deep(Expr)), token![Semicolon]],
    plain![token![Semicolon]],
    plain![Deep(Expr), token![Semicolon]],
];

pub(crate) static SUB: [Alternative; 1] = [plain![
    Act(Action::Scope),
    Deep(Statement),
    Act(Action::End)
]];

pub(crate) static FOR_INIT: [Alternative; 3] = [
    plain![Part(Declaration)],
    plain![token![Semicolon]],
    plain![Deep(Expr), token![Semicolon]],
];
