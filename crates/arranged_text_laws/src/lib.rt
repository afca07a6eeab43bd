//! What the tokens of texts keep where other texts come to stand before or behind them (ISO/IEC 9899:1999, 5.1.1.2
//! phases 2 and 3, 6.4 and 6.10), as they do where the items of lists change places in a file.
//!
//! No program stands here. Each law is the `ensures` of a function. `texts.rt`: a text settles where each of its pieces
//! ends in it and asks for nothing behind it: a lone quote does, as it might close there, and so do a header name and
//! an open comment. Then the tokens of it and of what stands behind it are those of both, one behind the other. So the
//! tokens of a file whose lists change places, by a cut of `list_cuts`, are its tokens in the new order, by the cut of
//! its tokens that this one gives; and its items, directive lines and runs of text lines, are those that it had.
//!
//! `files.rt` says the same by what is asked of tokens. A list of a file is given by the numbers of the tokens of its
//! items. Where `(` stands before each list in a text line, a comma or `)` behind each item, where no item begins with
//! `#` or ends with `/` or `(`, and no odd token stands in the lines of a list, the bytes of the items may come in
//! another order: the file has a text again, its tokens in that order, and the items that it had.
//!
//! Read `specs/Settling.antt`, `specs/Joining.antt` and `specs/Calm.antt`, then `specs/Marks.antt`, `specs/Along.antt`,
//! `specs/Seams.antt` and `specs/Weighed.antt`, then `specs/Arranging.antt`, `specs/Tokens.antt`, `specs/Runs.antt`,
//! `specs/FileItems.antt` and `texts.rt`; `specs/Lists.antt`, `specs/RunTokens.antt`, `specs/Moving.antt` and
//! `files.rt`.
#![tactic(auto)]

mod files;
mod texts;

pub use files::{
    files_may_move, moved_files_are_arranged, numbers_do_not_matter, run_tokens_are_text,
};
pub use texts::{files_are_arranged, items_stay, texts_join, texts_settle, tokens_are_arranged};
