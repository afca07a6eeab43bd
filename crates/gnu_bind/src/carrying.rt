// Where tokens of a front stand in another text that begins so.
ghost use Rattle.std.specs.Prelude.{◌≡◌, IfOk};
ghost use Rattle.std.specs.Option.{option_map};
ghost use Rattle.c_types.specs.Tags.{base_number};
ghost use Rattle.scope_bind.specs.Carried.{behind_front, carried, carried_frame};
ghost use Rattle.scope_bind.specs.Moved.{moved_body, moved_occurrence, moved_space, moved_type};

use c_types::{Base, Body, CType, Declaration, Frame, Occurrence, Scope, Space};
use cs_base::Memory;

/// From a front of so many tokens into a text of so many: tokens of the front stay, and what stands behind them goes to the
/// end.
#[derive(Clone, Copy)]
pub(crate) struct Way {
    pub front: u32,
    pub text: u32,
}

impl Way {
    pub(crate) fn at(self, k: u32) -> Result<u32, Memory>
        ensures { IfOk result (λ j. j ≡ behind_front self.front self.text k) }
    {
        if k < self.front {
            return Ok(k);
        }
        match self.text.checked_add(k - self.front) {
            Some(j) => Ok(j),
            None => Err(Memory),
        }
    }

    fn space(self, space: Space) -> Result<Space, Memory>
        ensures { IfOk result (λ s. s ≡ moved_space (behind_front self.front self.text) space) }
    {
        Ok(match space {
            Space::Ordinary => Space::Ordinary,
            Space::Tags => Space::Tags,
            Space::Members(n) => Space::Members(self.at(n)?),
            Space::Inner(n) => Space::Inner(self.at(n)?),
            Space::Unnamed(n) => Space::Unnamed(self.at(n)?),
            Space::Labels(n) => Space::Labels(self.at(n)?),
        })
    }

    fn number(self, base: Base) -> Result<u32, Memory>
        ensures { IfOk result (λ n. n ≡ behind_front self.front self.text (base_number base)) }
    {
        match base {
            Base::Structure(n) | Base::Union(n) | Base::Enumeration(n) => self.at(n),
            Base::Arithmetic | Base::Nothing | Base::Unknown => self.at(0),
        }
    }

    pub(crate) fn ctype(self, t: &CType) -> Result<CType, Memory>
        ensures { IfOk result (λ u. u ≡ moved_type (behind_front self.front self.text) t.now) }
    {
        let number = self.number(t.base())?;
        Ok(t.copied()?.renumbered(number))
    }

    pub(crate) fn declaration(self, d: &Declaration) -> Result<Declaration, Memory>
        ensures { IfOk result (λ e. e ≡ carried (behind_front self.front self.text) d.now) }
    {
        Ok(Declaration {
            space: self.space(d.space)?,
            name_at: self.at(d.name_at)?,
            entity: self.at(d.entity)?,
            kind: d.kind,
            linkage: d.linkage,
            ctype: self.ctype(&d.ctype)?,
            depth: d.depth,
            from: self.at(d.from)?,
            to: self.at(d.to)?,
            listed: d.listed,
        })
    }

    pub(crate) fn occurrence(self, o: Occurrence) -> Result<Occurrence, Memory>
        ensures { IfOk result (λ p. p ≡ moved_occurrence (behind_front self.front self.text) o) }
    {
        Ok(Occurrence {
            index: self.at(o.index)?,
            entity: self.at(o.entity)?,
            declares: o.declares,
        })
    }

    fn body(self, body: Option<Body>) -> Result<Option<Body>, Memory>
        ensures { IfOk result (λ b. b ≡ option_map (moved_body (behind_front self.front self.text)) body) }
    {
        Ok(match body {
            Some(body) => Some(Body {
                from: self.at(body.from)?,
                to: self.at(body.to)?,
            }),
            None => None,
        })
    }

    fn kept(self, list: Option<u32>) -> Result<Option<u32>, Memory>
        ensures { IfOk result (λ l. l ≡ option_map (behind_front self.front self.text) list) }
    {
        Ok(match list {
            Some(list) => Some(self.at(list)?),
            None => None,
        })
    }

    pub(crate) fn frame(self, f: &Frame) -> Result<Frame, Memory>
        ensures { IfOk result (λ g. g ≡ carried_frame (behind_front self.front self.text) f.now) }
    {
        Ok(Frame {
            label: f.label,
            nth: f.nth,
            token: self.at(f.token)?,
            scope: Scope {
                depth: f.scope.depth,
                to: self.at(f.scope.to)?,
            },
            body: self.body(f.body)?,
            listing: f.listing,
            alone: f.alone,
            has_body: f.has_body,
            base: self.ctype(&f.base)?,
            words: f.words,
            kept: self.kept(f.kept)?,
            owner: self.at(f.owner)?,
            given: self.ctype(&f.given)?,
            found: self.ctype(&f.found)?,
            position: f.position,
        })
    }
}
