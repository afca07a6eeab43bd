// How the rows of the table are written.

// A token of one of these classes.
macro_rules! token {
    ($($class:ident)+) => {
        $crate::items::Item::One(&[$($crate::classes::Class::$class),+])
    };
}

// One item after another.
macro_rules! sequence {
    ($item:expr) => {
        $item
    };
    ($item:expr, $($more:expr),+) => {
        $crate::items::Item::Then(&$item, &$crate::rows::sequence![$($more),+])
    };
}

// An item once or more.
macro_rules! some {
    ($item:expr) => {
        $crate::items::Item::Then(
            &$item,
            &$crate::items::Item::Many($crate::items::Test::Own, &$item),
        )
    };
}

// Items that are read where they start.
macro_rules! plain {
    ($($item:expr),+) => {
        $crate::rows::when![$crate::items::Test::Own => $($item),+]
    };
}

// Items that are read where a test holds.
macro_rules! when {
    ($test:expr => $($item:expr),+) => {
        $crate::items::Alternative {
            test: $test,
            body: $crate::rows::sequence![$($item),+],
        }
    };
}

pub(crate) use plain;
pub(crate) use sequence;
pub(crate) use some;
pub(crate) use token;
pub(crate) use when;
