// Which attributes a class has.
ghost use Rattle.std.specs.Prelude.{◌≡◌, MatchBool};
ghost use Rattle.analysis.specs.Parts.{AreMembers};
ghost use Rattle.analysis.specs.Below.eclass_map.ClassTable.{class_in};
ghost use Rattle.find_names.specs.FileTokens.{AreFileTokens};
ghost use Rattle.find_names.specs.Question.{IsClass};
ghost use Rattle.find_names.specs.RoleMarks.{AreRoleMarks};
ghost use Rattle.query_words.specs.Satisfying.{AreFacts};
ghost use Rattle.find_names.specs.Satisfying.{HasAttribute, IsCutClass};

use crate::file_tokens::FileTokens;
use crate::role_marks::RoleMarks;
use analysis::Analysis;
use class_marks::{any_read_only, class_roles};
use cs_base::Part;
use query_words::Facts;
use unused_names::is_unused_class;

// Whether some member of the class is no whole token.
fn is_cut(a: &Analysis, tokens: &FileTokens, part: Part, members: &[Part]) -> bool
    requires members { AreMembers a.now.value part members.now }
    requires tokens { AreFileTokens a.now.value tokens.now.spans.items }
    ensures { MatchBool result (IsCutClass a.now.value part) (IsCutClass a.now.value part → ⊥) }
{
    for member in members {
        if !tokens.has(a, *member) {
            return true;
        }
    }
    false
}

/// The attributes of the class of a first member, which has this number and these members.
pub(crate) fn facts_of(
    a: &Analysis,
    marks: &RoleMarks,
    tokens: &FileTokens,
    part: Part,
    class: Option<u32>,
    members: &[Part],
) -> Facts
    requires class { IsClass a.now.value part members.now }
    requires number { class ≡ class_in a.now.classes part }
    requires marks { AreRoleMarks a.now marks.now }
    requires tokens { AreFileTokens a.now.value tokens.now.spans.items }
    ensures { AreFacts (HasAttribute a.now.value part) result }
{
    let roles = class_roles(a, &marks.roles, part, class);
    let read_only = any_read_only(a, &marks.read_only, members);
    let unused = is_unused_class(a, roles.declares, roles.uses, read_only, part);
    let cut = is_cut(a, tokens, part, members);
    Facts {
        macro_: roles.defines,
        function: roles.function,
        object: roles.object,
        typedef: roles.typedef,
        parameter: roles.parameter,
        enumerator: roles.enumerator,
        tag: roles.tag,
        member: roles.member,
        label: roles.label,
        external: roles.external,
        read_only,
        unused,
        cut,
    }
}
