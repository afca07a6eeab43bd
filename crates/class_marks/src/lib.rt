//! Marks on the classes of an analysis: which of them some name touches, by what the name does or is a name of.
//!
//! `marks_of` goes once over all names of a workspace that have a role (they declare, use or define something, or are
//! bound to an entity of a kind or with external linkage; ISO/IEC 9899:1999, 6.2.1 to 6.2.3, 6.10.3) and marks the
//! classes of their characters; who asks for many roles finds these classes once: `roles_of` gives each class all roles of
//! the names that touch it, of which `class_roles` tells. `is_marked` tells of a class whether some such name has a character of it, as `HasRole`
//! of `specs/Touching.antt` says. `has_read_only` looks at the files of all members of a class, each of which `read_only_files` asked
//! once. What is asked of the marks belongs to the crates above. Want of memory is answered `Memory`, and so are 2^32 tokens of one
//! unit; `is_marked`, `class_roles` and `has_read_only` take none. Read `specs/Roles.antt` and `specs/Touching.antt`, then `marks.rt`.
#![tactic(auto)]

mod all_roles;
mod marks;
mod read_only;
mod roles;

pub use all_roles::{Roles, class_roles, roles_of};
pub use marks::{class_number, class_number_near, is_class_marked, is_marked, marks_of};
pub use read_only::{any_read_only, has_read_only, read_only_files};
pub use roles::Role;
