// Integers of the two types that a controlling expression knows (6.10.1 paragraph 3).
ghost use Rattle.std.specs.Prelude.{◌≡◌};

/// An integer of `intmax_t` or of `uintmax_t`, of 64 bits each.
#[derive(Clone, Copy, Debug, PartialEq, Eq)]
pub enum Integer {
    Signed(i64),
    Unsigned(u64),
}

impl Integer {
    ghost use Rattle.cond_eval.specs.Integers.{is_unsigned, is_nonzero, as_unsigned, converted, zero_of, truth};

    pub fn is_unsigned(self) -> bool
        ensures { result ≡ is_unsigned self }
    {
        match self {
            Integer::Signed(_) => false,
            Integer::Unsigned(_) => true,
        }
    }

    pub fn is_nonzero(self) -> bool
        ensures { result ≡ is_nonzero self }
    {
        match self {
            Integer::Signed(value) => value != 0,
            Integer::Unsigned(value) => value != 0,
        }
    }

    /// The value as one of the unsigned type.
    pub fn as_unsigned(self) -> u64
        ensures { result ≡ as_unsigned self }
    {
        match self {
            Integer::Signed(value) => value.cast_unsigned(),
            Integer::Unsigned(value) => value,
        }
    }

    /// The same, as unsigned where that is asked for.
    pub fn converted(self, unsigned: bool) -> Integer
        ensures { result ≡ converted unsigned self }
    {
        if unsigned {
            Integer::Unsigned(self.as_unsigned())
        } else {
            self
        }
    }

    /// Zero of the type.
    pub fn zero_of(unsigned: bool) -> Integer
        ensures { result ≡ zero_of unsigned }
    {
        if unsigned {
            Integer::Unsigned(0)
        } else {
            Integer::Signed(0)
        }
    }

    /// What a comparison or a logical operator gives (6.5.8, 6.5.9, 6.5.13, 6.5.14).
    pub fn truth(holds: bool) -> Integer
        ensures { result ≡ truth holds }
    {
        Integer::Signed(if holds { 1 } else { 0 })
    }
}
