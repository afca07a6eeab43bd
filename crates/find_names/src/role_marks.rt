// What a query may ask of the names of all classes, and which files are read-only.
ghost use Rattle.std.specs.Prelude.{IfOk};
ghost use Rattle.find_names.specs.RoleMarks.{AreRoleMarks};

use analysis::Analysis;
use class_marks::{Roles, read_only_files, roles_of};
use cs_base::Memory;
use std::alloc::Global;

/// Of each class the roles of the names that touch it, and of each file whether it is read-only.
#[derive(Drop)]
pub(crate) struct RoleMarks {
    pub(crate) roles: Vec<Roles>,
    pub(crate) read_only: Vec<bool>,
}

/// Those of a workspace.
pub(crate) fn role_marks(alloc: Global, a: &Analysis) -> Result<RoleMarks, Memory>
    ensures { IfOk result (AreRoleMarks a.now) }
{
    let roles = roles_of(alloc, a)?;
    let read_only = read_only_files(alloc, a)?;
    Ok(RoleMarks { roles, read_only })
}
