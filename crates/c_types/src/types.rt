// Types as far as names depend on them (ISO/IEC 9899:1999, 6.2.5).
ghost use Rattle.std.specs.Prelude.{◌≡◌, ◌&&◌, not, IfOk, ◌∷◌};
ghost use Rattle.c_types.specs.Types.{plain, arithmetic, begins_pointer, is_array, is_plain, is_arithmetic, is_unknown, inner_of, pointer, array, function, is_pointing, is_function, is_nothing, is_record, lacking, target_of, adjusted, subscripted, result_of, called, pointed_to, tells_sum, sum_type, points_to_something, tells_members, chosen};
ghost use Rattle.c_types.specs.Tags.{renumbered};

use cs_base::Memory;
use std::alloc::Global;
use std::marker::Model;

/// What a type is derived from in the end. A structure, a union and an enumeration have a number; a tag
/// alone has enumerated type. `Unknown` is a type that no rule gives: that of some places in an initializer, and in
/// GNU C that of what a built-in function gives.
#[derive(Clone, Copy, Debug, PartialEq, Eq)]
pub enum Base {
    Arithmetic,
    Nothing,
    Structure(u32),
    Union(u32),
    Enumeration(u32),
    Unknown,
}

/// A derivation: a pointer to, an array of, or a function that returns.
#[derive(Clone, Copy, Debug, PartialEq, Eq)]
pub(crate) enum Derivation {
    Pointer,
    Array,
    Function,
}

/// A type. The derivations stand innermost first; contracts see the outermost first.
#[derive(Drop)]
pub struct CType {
    base: Base,
    derivations: Vec<Derivation>,
}

impl Model for CType {
    ghost use Rattle.std.specs.Prelude.{reverse};
    ghost use Rattle.c_types.specs.Types.{CType};

    ghost Value = { CType };

    ghost view = { λ t. record { base = t.base; derivations = reverse t.derivations.items } };
}

impl CType {
    pub fn plain(alloc: Global, base: Base) -> CType
        ensures { result ≡ plain base }
    {
        CType {
            base,
            derivations: Vec::new(alloc),
        }
    }

    pub fn base(&self) -> Base
        ensures { result ≡ self.now.base }
    {
        self.base
    }

    pub fn copied(&self) -> Result<CType, Memory>
        ensures { IfOk result (λ t. t ≡ self.now) }
    {
        Ok(CType {
            base: self.base,
            derivations: self.derivations.clone()?,
        })
    }

    fn derived(mut self, derivation: Derivation) -> Result<CType, Memory>
        ensures { IfOk result (λ t. t ≡ record self { derivations = derivation ∷ self.derivations }) }
    {
        self.derivations.push(derivation)?;
        Ok(self)
    }

    pub fn pointer(self) -> Result<CType, Memory>
        ensures { IfOk result (λ t. t ≡ pointer self) }
    {
        self.derived(Derivation::Pointer)
    }

    pub fn array(self) -> Result<CType, Memory>
        ensures { IfOk result (λ t. t ≡ array self) }
    {
        self.derived(Derivation::Array)
    }

    pub(crate) fn function(self) -> Result<CType, Memory>
        ensures { IfOk result (λ t. t ≡ function self) }
    {
        self.derived(Derivation::Function)
    }

    pub(crate) fn is_pointing(&self) -> bool
        ensures { result ≡ is_pointing self.now }
    {
        match self.derivations.last() {
            Some(Derivation::Pointer) => true,
            Some(Derivation::Array) => true,
            Some(Derivation::Function) => false,
            None => false,
        }
    }

    pub fn is_function(&self) -> bool
        ensures { result ≡ is_function self.now }
    {
        match self.derivations.last() {
            Some(Derivation::Function) => true,
            Some(_) => false,
            None => false,
        }
    }

    pub fn is_array(&self) -> bool
        ensures { result ≡ is_array self.now }
    {
        match self.derivations.last() {
            Some(Derivation::Array) => true,
            Some(_) => false,
            None => false,
        }
    }

    fn is_pointer(&self) -> bool
        ensures { result ≡ begins_pointer self.now.derivations }
    {
        match self.derivations.last() {
            Some(Derivation::Pointer) => true,
            Some(_) => false,
            None => false,
        }
    }

    fn is_plain(&self) -> bool
        ensures { result ≡ is_plain self.now }
    {
        match self.derivations.last() {
            Some(_) => false,
            None => true,
        }
    }

    pub fn is_record(&self) -> bool
        ensures { result ≡ is_record self.now }
    {
        self.is_plain() && matches!(self.base, Base::Structure(_) | Base::Union(_))
    }

    pub(crate) fn is_nothing(&self) -> bool
        ensures { result ≡ is_nothing self.now }
    {
        self.is_plain() && matches!(self.base, Base::Nothing)
    }

    pub fn is_arithmetic(&self) -> bool
        ensures { result ≡ is_arithmetic self.now }
    {
        self.is_plain() && matches!(self.base, Base::Arithmetic)
    }

    pub fn is_unknown(&self) -> bool
        ensures { result ≡ is_unknown self.now }
    {
        self.is_plain() && matches!(self.base, Base::Unknown)
    }

    /// Another one of its sort.
    pub fn renumbered(mut self, number: u32) -> CType
        ensures { result ≡ renumbered self number }
    {
        self.base = match self.base {
            Base::Structure(_) => Base::Structure(number),
            Base::Union(_) => Base::Union(number),
            Base::Enumeration(_) => Base::Enumeration(number),
            base => base,
        };
        self
    }

    /// Without its outermost derivation.
    pub fn inner(mut self) -> CType
        ensures { result ≡ inner_of self }
    {
        self.derivations.pop();
        self
    }

    fn into_arithmetic(mut self) -> CType
        ensures { result ≡ arithmetic }
    {
        self.derivations.clear();
        self.base = Base::Arithmetic;
        self
    }

    // What stands where the type does not give it.
    fn lacking(self) -> CType
        ensures { result ≡ lacking self }
    {
        if self.is_unknown() {
            self
        } else {
            self.into_arithmetic()
        }
    }

    /// What it points to, or its element.
    pub fn target(self) -> CType
        ensures { result ≡ target_of self }
    {
        if self.is_pointing() {
            self.inner()
        } else {
            self.lacking()
        }
    }

    /// The type of a parameter that is declared so.
    pub fn adjusted(self) -> Result<CType, Memory>
        ensures { IfOk result (λ t. t ≡ adjusted self) }
    {
        if self.is_array() {
            self.inner().pointer()
        } else if self.is_function() {
            self.pointer()
        } else {
            Ok(self)
        }
    }

    pub fn subscripted(self, inside: CType) -> CType
        ensures { result ≡ subscripted self inside }
    {
        if self.is_pointing() || (self.is_unknown() && !inside.is_pointing()) {
            self.target()
        } else {
            inside.target()
        }
    }

    fn result(self) -> CType
        ensures { result ≡ result_of self }
    {
        if self.is_function() {
            self.inner()
        } else {
            self.lacking()
        }
    }

    /// What a call of it gives.
    pub fn called(self) -> CType
        ensures { result ≡ called self }
    {
        if self.is_pointer() {
            self.inner().result()
        } else {
            self.result()
        }
    }

    pub fn pointed_to(self) -> CType
        ensures { result ≡ pointed_to self }
    {
        if self.is_function() {
            self
        } else {
            self.target()
        }
    }

    // The operand in front tells the type of the sum.
    fn tells_sum(&self, minus: bool, right: &CType) -> bool
        ensures { result ≡ tells_sum minus self.now right.now }
    {
        self.is_pointing() || (self.is_unknown() && !(right.is_pointing() && !minus))
    }

    /// The sum or difference of the two.
    pub fn sum(minus: bool, left: CType, right: CType) -> CType
        ensures { result ≡ sum_type minus left right }
    {
        if left.is_pointing() && (right.is_pointing() && minus) {
            left.into_arithmetic()
        } else if left.tells_sum(minus, &right) {
            left
        } else if right.is_pointing() {
            right
        } else {
            right.lacking()
        }
    }

    fn points_to_something(&self) -> Result<bool, Memory>
        ensures { IfOk result (λ b. b ≡ points_to_something self.now) }
    {
        Ok(self.is_pointing() && !self.copied()?.target().is_nothing())
    }

    // It tells of a structure or union.
    fn tells_members(&self) -> Result<bool, Memory>
        ensures { IfOk result (λ b. b ≡ tells_members self.now) }
    {
        if self.is_record() {
            return Ok(true);
        }
        self.points_to_something()
    }

    // It is unknown, and the other one does not tell of a structure or union.
    fn stays_unknown(&self, other: &CType) -> Result<bool, Memory>
        ensures { IfOk result (λ b. b ≡ (is_unknown self.now && not (tells_members other.now))) }
    {
        if self.is_unknown() {
            Ok(!other.tells_members()?)
        } else {
            Ok(false)
        }
    }

    /// The type of a conditional expression with these operands.
    pub fn chosen(second: CType, third: CType) -> Result<CType, Memory>
        ensures { IfOk result (λ t. t ≡ chosen second third) }
    {
        if second.tells_members()? {
            return Ok(second);
        }
        if second.stays_unknown(&third)? {
            Ok(second)
        } else {
            Ok(third)
        }
    }
}
