// Whether the members of a class may get another length.
ghost use Rattle.std.specs.Prelude.{ℕ, ◌≡◌, ◌^◌, ◌<◌, ◌≤◌, IsTrue, MatchBool, Some, length, slice_get};
ghost use Rattle.eclass_map.specs.ClassTable.{HasParts, IsAdded, character_count, members_of};
ghost use Rattle.eclass_map.specs.Positions.{end_of};
ghost use Rattle.eclass_map.specs.Resized.{IsNear, count_after, moved_to};
ghost use Rattle.eclass_map.specs.declared.token_list.Added.{Added as AnAdded};
ghost use Rattle.cs_base.specs.declared.positions.Part.{Part as APart};

use super::Classes;
use crate::token_list::Added;

const MOST: usize = 1 << 32;

impl Classes {
    /// Whether `resize` may give the members of a class so many characters: it may where neither the characters nor the
    /// place behind a token come to 2^32. The growth of all members is added to each place, so a table this close to
    /// the limit is refused early. Takes no memory.
    pub fn can_resize(&self, class: u32, len: u32) -> bool
        ensures short { IsTrue result → count_after class len self.now < 2 ^ 32 }
        ensures within { IsTrue result → (token : APart) → IsAdded self.now token → (moved_to class len self.now (end_of token)).at < 2 ^ 32 }
    {
        let all = self.places.len() as usize;
        let more = self.member_count(class) * len as usize;
        if more >= MOST || all + more >= MOST {
            return false;
        }
        are_near(&self.tokens, more)
    }

    // How many members a class has.
    fn member_count(&self, class: u32) -> usize
        requires { HasParts self.now }
        ensures answer { result ≡ length (members_of self.now class) }
        ensures few { result ≤ character_count self.now }
    {
        // Fewer than 2^32: each begins at a character.
        let _most = self.places.len();
        let mut count: usize = 0;
        let mut next = self.first_member(class);
        while let Some(part) = next {
            count += 1;
            next = self.next_member(part);
        }
        count
    }
}

// Whether each token ends so many characters before 2^32.
fn are_near(tokens: &[Added], more: usize) -> bool
    requires { more < 2 ^ 32 }
    ensures { MatchBool result ((k : ℕ) (r : AnAdded) → slice_get tokens.now k ≡ Some r → IsNear more r) (Unit {0}) }
{
    for token in tokens {
        if !is_near(token, more) {
            return false;
        }
    }
    true
}

fn is_near(token: &Added, more: usize) -> bool
    requires { more < 2 ^ 32 }
    ensures { MatchBool result (IsNear more token.now) (Unit {0}) }
{
    token.place.start.at as usize + token.place.len as usize + more < MOST
}
