// What a production is made of, as the code has it.
use crate::classes::Class;
use c99_tree::Production;

/// What a test asks of one token: its class is one of these, is none of these, or the production starts
/// with it.
#[derive(Clone, Copy)]
pub enum Ask {
    Is(&'static [Class]),
    IsNot(&'static [Class]),
    Begins(Production),
    IsOrBegins(&'static [Class], Production),
}

/// When something is read: where it starts, always, or where the next token or the next two are so.
#[derive(Clone, Copy)]
pub enum Test {
    Own,
    Otherwise,
    Next(Ask),
    NextTwo(Ask, Ask),
}

/// What is done between items.
#[derive(Clone, Copy)]
pub enum Action {
    Scope,
    End,
    Declare,
    Name,
    Keep,
    Again,
}

/// A token of one of these classes, a production, the end of the text, an action, one item after another,
/// the first of two that starts, at most once, any number of times, and a production one level deeper.
#[derive(Clone, Copy)]
pub enum Item {
    One(&'static [Class]),
    Part(Production),
    EndOfText,
    Act(Action),
    Then(&'static Item, &'static Item),
    Choice(&'static Item, &'static Item),
    Maybe(&'static Item),
    Many(Test, &'static Item),
    Deep(Production),
}

/// When an alternative is taken, and what is read then.
#[derive(Clone, Copy)]
pub struct Alternative {
    pub test: Test,
    pub body: Item,
}
