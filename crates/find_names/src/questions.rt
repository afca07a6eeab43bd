// Which classes are in question.
ghost use Rattle.std.specs.Prelude.{◌≡◌, MatchBool};
ghost use Rattle.analysis.specs.Naming.{Names};
ghost use Rattle.analysis.specs.Parts.{AreMembers, IsPart};
ghost use Rattle.find_names.specs.FileTokens.{AreFileTokens};
ghost use Rattle.find_names.specs.Question.{IsInQuestion, IsKeywordClass, IsNameable, IsNamed, IsWholeKeyword};

use crate::file_tokens::{FileTokens, is_part};
use crate::keywords::is_keyword;
use analysis::Analysis;
use cs_base::Part;
use std::str;

// The part that a place names, where its path is text.
fn part_named(a: &Analysis, path: &[u8], line: u32, column: u32) -> Option<Part>
    ensures { Names a.now.value path.now line column result }
{
    let _files = a.files();
    match str::from_utf8(path) {
        Ok(path) => a.part_at(path, line, column),
        Err(_) => None,
    }
}

// Whether the place at which a part begins names the part.
fn is_named(a: &Analysis, part: Part) -> bool
    requires { IsPart a.now.value part }
    ensures { MatchBool result (IsNamed a.now.value part) (IsNamed a.now.value part → ⊥) }
{
    let (path, line, column) = a.place(part.start);
    match part_named(a, path, line, column) {
        Some(found) => is_part(found, part),
        None => false,
    }
}

// Whether some member of the class is named.
fn is_nameable(a: &Analysis, part: Part, members: &[Part]) -> bool
    requires { AreMembers a.now.value part members.now }
    ensures { MatchBool result (IsNameable a.now.value part) (IsNameable a.now.value part → ⊥) }
{
    for member in members {
        if is_named(a, *member) {
            return true;
        }
    }
    false
}

// Whether a part is a whole token that is a keyword.
fn is_whole_keyword(a: &Analysis, tokens: &FileTokens, part: Part) -> bool
    requires part { IsPart a.now.value part }
    requires tokens { AreFileTokens a.now.value tokens.now.spans.items }
    ensures { MatchBool result (IsWholeKeyword a.now.value part) (IsWholeKeyword a.now.value part → ⊥) }
{
    if !tokens.has(a, part) {
        return false;
    }
    is_keyword(a.workspace().units(), a.spelling(part))
}

// Whether some member of the class is one.
fn is_keyword_class(a: &Analysis, tokens: &FileTokens, part: Part, members: &[Part]) -> bool
    requires members { AreMembers a.now.value part members.now }
    requires tokens { AreFileTokens a.now.value tokens.now.spans.items }
    ensures { MatchBool result (IsKeywordClass a.now.value part) (IsKeywordClass a.now.value part → ⊥) }
{
    for member in members {
        if is_whole_keyword(a, tokens, *member) {
            return true;
        }
    }
    false
}

/// Whether the class of a part, which has these members, is in question.
pub(crate) fn is_in_question(
    a: &Analysis,
    tokens: &FileTokens,
    part: Part,
    members: &[Part],
) -> bool
    requires members { AreMembers a.now.value part members.now }
    requires tokens { AreFileTokens a.now.value tokens.now.spans.items }
    ensures { MatchBool result (IsInQuestion a.now.value part) (IsInQuestion a.now.value part → ⊥) }
{
    if is_keyword_class(a, tokens, part, members) {
        return false;
    }
    is_nameable(a, part, members)
}
