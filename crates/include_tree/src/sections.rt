// The if-sections that are open in a file (6.10.1).
ghost use Rattle.std.specs.Prelude.{◌≡◌, ◌∷◌, [], IfOk, option_copied};
ghost use Rattle.include_tree.specs.Sections.{section, is_processed, is_alive, are_processed, group_if, group_of_else};
ghost use Rattle.include_tree.specs.OpenSections.{group_of, innermost_of, IsTaken};

use cs_base::{Memory, Pos};
use std::alloc::Global;
use std::marker::Model;

/// How it stands with the groups of a section: the present one is processed; none was yet; one was, and
/// the rest are skipped; or the section itself is skipped.
#[derive(Clone, Copy)]
pub enum Group {
    Processed,
    Awaited,
    Over,
    Skipped,
}

// The first group behind a condition that holds or not, and a later one where none was processed yet.
pub(crate) fn group_if(holds: bool) -> Group
    ensures { group_of result ≡ group_if holds }
{
    if holds {
        Group::Processed
    } else {
        Group::Awaited
    }
}

// The group behind `else`.
pub(crate) fn group_of_else(group: Group) -> Group
    ensures { group_of result ≡ group_of_else (group_of group) }
{
    match group {
        Group::Processed => Group::Over,
        Group::Awaited => Group::Processed,
        Group::Over => Group::Over,
        Group::Skipped => Group::Skipped,
    }
}

// The section is not skipped.
pub(crate) fn is_alive(group: Group) -> bool
    ensures { result ≡ is_alive (group_of group) }
{
    match group {
        Group::Processed => true,
        Group::Awaited => true,
        Group::Over => true,
        Group::Skipped => false,
    }
}

/// A section whose `endif` is still to come: where its `#` stands, its group, and whether its `else` came.
#[derive(Drop)]
pub struct OpenSection {
    opening: Pos,
    group: Group,
    after_else: bool,
}

impl Model for OpenSection {
    ghost use Rattle.include_tree.specs.Sections.{Section, section};
    ghost use Rattle.include_tree.specs.OpenSections.{group_of};

    ghost Value = { Section };

    ghost view = { λ s. section s.opening (group_of s.group) s.after_else };
}

impl OpenSection {
    pub(crate) fn new(opening: Pos, group: Group, after_else: bool) -> OpenSection
        ensures { result ≡ section opening (group_of group) after_else }
    {
        OpenSection {
            opening,
            group,
            after_else,
        }
    }

    pub(crate) fn opening(&self) -> Pos
        ensures { result ≡ self.now.opening }
    {
        self.opening
    }

    pub(crate) fn group(&self) -> Group
        ensures { group_of result ≡ self.now.group }
    {
        self.group
    }

    pub(crate) fn after_else(&self) -> bool
        ensures { result ≡ self.now.after_else }
    {
        self.after_else
    }

    // The present group is processed.
    fn is_processed(&self) -> bool
        ensures { result ≡ is_processed self.now.group }
    {
        match self.group {
            Group::Processed => true,
            Group::Awaited => false,
            Group::Over => false,
            Group::Skipped => false,
        }
    }
}

/// The sections that are open. Contracts see the list of them, the innermost first; it is kept at the end.
#[derive(Drop)]
pub struct Sections {
    stack: Vec<OpenSection>,
}

impl Model for Sections {
    ghost use Rattle.std.specs.Prelude.{List, reverse};
    ghost use Rattle.include_tree.specs.Sections.{Section};

    ghost Value = { List Section };

    ghost view = { λ s. reverse s.stack.items };
}

impl Sections {
    /// No section is open.
    pub(crate) fn new(alloc: Global) -> Sections
        ensures { result ≡ [] }
    {
        Sections {
            stack: Vec::new(alloc),
        }
    }

    /// The innermost section, if one is open.
    pub(crate) fn innermost(&self) -> Option<&OpenSection>
        ensures { option_copied result ≡ innermost_of self.now }
    {
        self.stack.last()
    }

    /// What stands inside these sections is processed.
    pub(crate) fn are_processed(&self) -> bool
        ensures { result ≡ are_processed self.now }
    {
        match self.innermost() {
            Some(section) => section.is_processed(),
            None => true,
        }
    }

    /// A section is opened inside the others.
    pub(crate) fn push(&mut self, section: OpenSection) -> Result<(), Memory>
        ensures { IfOk result (λ _. self.new ≡ section ∷ self.old) }
    {
        self.stack.push(section)?;
        Ok(())
    }

    /// The innermost section, taken away, if one is open.
    pub(crate) fn take(&mut self) -> Option<OpenSection>
        ensures { IsTaken result self.old self.new }
    {
        self.stack.pop()
    }
}
