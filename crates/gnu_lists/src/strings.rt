// What a string literal gives to the assembler.
ghost use Rattle.std.specs.Prelude.{◌≡◌, ◌+◌, ◌-◌, ◌*◌, ◌%◌, ◌≤◌, ◌==◌, ◌++◌, [], if◌then◌else◌, OnOk};
ghost use Rattle.std.specs.List.{list_any};
ghost use Rattle.gnu_lists.specs.Strings.{backslash, begins, begun_by, digit_of, given_at, given_by, goes_on, plain, simple, simple_in, step, unescaped, unquoted, value_of, with_digit};

use cs_base::Memory;

/// How far an escape sequence has come: none has begun, a backslash stood there, or its digits give so much so far; of octal
/// ones and those of a universal character name it is told how many may follow.
#[derive(Clone, Copy, Debug, PartialEq, Eq)]
pub(crate) enum Escape {
    Absent,
    Begun,
    Octal(u8, u8),
    Hexadecimal(u8),
    Universal(u8),
}

// The value of a hexadecimal digit, or 16 for another character.
fn digit_of(c: u8) -> u8
    ensures { result ≡ digit_of c }
{
    match c {
        b'0'..=b'9' => c - b'0',
        b'a'..=b'f' => c - b'a' + 10,
        b'A'..=b'F' => c - b'A' + 10,
        _ => 16,
    }
}

// The character that another one stands for behind a backslash.
fn simple(c: u8) -> u8
    ensures { result ≡ simple c }
{
    match c {
        b'n' => 10,
        b't' => 9,
        b'a' => 7,
        b'b' => 8,
        b'f' => 12,
        b'r' => 13,
        b'v' => 11,
        b'e' | b'E' => 27,
        _ => c,
    }
}

// What a character behind a backslash begins.
fn begun_by(c: u8) -> Escape
    ensures { result ≡ begun_by c }
{
    let digit = digit_of(c);
    if digit < 8 {
        return Escape::Octal(digit, 2);
    }
    if c == b'x' {
        return Escape::Hexadecimal(0);
    }
    if c == b'u' {
        return Escape::Universal(4);
    }
    if c == b'U' {
        return Escape::Universal(8);
    }
    Escape::Absent
}

// Whether a number goes on with a character.
fn goes_on(escape: Escape, c: u8) -> bool
    ensures { result ≡ goes_on escape c }
{
    match escape {
        Escape::Octal(_, left) => digit_of(c) < 8 && 0 < left,
        Escape::Hexadecimal(_) => digit_of(c) < 16,
        Escape::Universal(left) => digit_of(c) < 16 && 0 < left,
        Escape::Absent | Escape::Begun => false,
    }
}

// A number with one more digit of a base: its last eight bits.
fn with_low_digit(value: u8, base: u8, c: u8) -> u8
    requires { base ≤ 16 }
    ensures { result ≡ (value * base + digit_of c) % 256 }
{
    ((u32::from(value) * u32::from(base) + u32::from(digit_of(c))) % 256) as u8
}

// How many digits are left behind one.
fn less_one(left: u8) -> u8
    ensures { result ≡ left - 1 }
{
    if left > 0 { left - 1 } else { 0 }
}

fn with_digit(escape: Escape, c: u8) -> Escape
    ensures { result ≡ with_digit escape c }
{
    match escape {
        Escape::Octal(value, left) => Escape::Octal(with_low_digit(value, 8, c), less_one(left)),
        Escape::Hexadecimal(value) => Escape::Hexadecimal(with_low_digit(value, 16, c)),
        Escape::Universal(left) => Escape::Universal(less_one(left)),
        Escape::Absent => Escape::Absent,
        Escape::Begun => Escape::Begun,
    }
}

// Where no escape sequence has begun.
fn begins(c: u8) -> Escape
    ensures { result ≡ begins c }
{
    if c == b'\\' {
        Escape::Begun
    } else {
        Escape::Absent
    }
}

// A number with one more digit, or what begins behind it.
fn step_on(escape: Escape, c: u8) -> Escape
    ensures { result ≡ (if goes_on escape c then with_digit escape c else begins c) }
{
    if goes_on(escape, c) {
        with_digit(escape, c)
    } else {
        begins(c)
    }
}

// An escape sequence that has come so far, once a character is read.
fn step(escape: Escape, c: u8) -> Escape
    ensures { result ≡ step escape c }
{
    match escape {
        Escape::Absent => begins(c),
        Escape::Begun => begun_by(c),
        Escape::Octal(_, _) => step_on(escape, c),
        Escape::Hexadecimal(_) => step_on(escape, c),
        Escape::Universal(_) => step_on(escape, c),
    }
}

// What a number gives.
fn push_value(out: &mut Vec<u8>, escape: Escape) -> Result<(), Memory>
    ensures { OnOk result (out.new.items ≡ out.old.items ++ value_of escape) }
{
    match escape {
        Escape::Octal(value, _) => out.push(value)?,
        Escape::Hexadecimal(value) => out.push(value)?,
        Escape::Universal(_) => out.push(128)?,
        Escape::Absent => {}
        Escape::Begun => {}
    }
    Ok(())
}

fn push_plain(out: &mut Vec<u8>, c: u8) -> Result<(), Memory>
    ensures { OnOk result (out.new.items ≡ out.old.items ++ plain c) }
{
    if c != b'\\' {
        out.push(c)?;
    }
    Ok(())
}

// The character for which a simple escape sequence stands.
fn push_simple(out: &mut Vec<u8>, begun: Escape, c: u8) -> Result<(), Memory>
    ensures { OnOk result (out.new.items ≡ out.old.items ++ simple_in begun c) }
{
    match begun {
        Escape::Absent => out.push(simple(c))?,
        Escape::Begun => {}
        Escape::Octal(_, _) => {}
        Escape::Hexadecimal(_) => {}
        Escape::Universal(_) => {}
    }
    Ok(())
}

// What a number gives with the character behind it, where it has ended.
fn push_ended(out: &mut Vec<u8>, escape: Escape, c: u8) -> Result<(), Memory>
    ensures { OnOk result (out.new.items ≡ out.old.items ++ (if goes_on escape c then [] else value_of escape ++ plain c)) }
{
    if goes_on(escape, c) {
        return Ok(());
    }
    push_value(out, escape)?;
    push_plain(out, c)
}

// What is given where a character is read.
fn push_given_at(out: &mut Vec<u8>, escape: Escape, c: u8) -> Result<(), Memory>
    ensures { OnOk result (out.new.items ≡ out.old.items ++ given_at escape c) }
{
    match escape {
        Escape::Absent => push_plain(out, c),
        Escape::Begun => push_simple(out, begun_by(c), c),
        Escape::Octal(_, _) => push_ended(out, escape, c),
        Escape::Hexadecimal(_) => push_ended(out, escape, c),
        Escape::Universal(_) => push_ended(out, escape, c),
    }
}

// What a text gives behind its escape sequences.
fn push_unescaped(out: &mut Vec<u8>, text: &[u8]) -> Result<(), Memory>
    ensures { OnOk result (out.new.items ≡ out.old.items ++ unescaped text.now) }
{
    let mut escape = Escape::Absent;
    for k in 0..text.len() {
        push_given_at(out, escape, text[k])?;
        escape = step(escape, text[k]);
    }
    push_value(out, escape)
}

// A string without its quotes.
fn unquoted(text: &[u8]) -> &[u8]
    ensures { result.now ≡ unquoted text.now }
{
    if text.len() < 2 {
        b""
    } else {
        &text[1..text.len() - 1]
    }
}

fn has_backslash(text: &[u8]) -> bool
    ensures { result ≡ list_any (λ c. c == backslash) text.now }
{
    text.iter().any(|c| *c == b'\\')
}

/// Adds what a string literal gives to the assembler: what stands between its quotes, each escape sequence being the character
/// that it stands for.
pub fn push_given(out: &mut Vec<u8>, text: &[u8]) -> Result<(), Memory>
    ensures { OnOk result (out.new.items ≡ out.old.items ++ given_by text.now) }
{
    let inner = unquoted(text);
    if has_backslash(inner) {
        return push_unescaped(out, inner);
    }
    out.extend_from_slice(inner)?;
    Ok(())
}
