// The spellings of the tokens of a unit, each by a number.
ghost use Rattle.std.specs.Prelude.{ℕ, List, ◌≡◌, ◌≤◌, [], position, Some, IfOk};
ghost use Rattle.std.specs.Str.{bytes_eq};
ghost use Rattle.name_chains.specs.Spellings.{number_at, AreNumbers, AreNumbered, AreSigns, IsNumberOf};

use cs_base::{Memory, Tok};
use indexmap::IndexSet;
use std::alloc::Global;
use std::marker::Model;

// The spellings in order of their numbers.
#[derive(Drop)]
struct Spellings<'a> {
    spellings: IndexSet<&'a [u8]>,
}

impl<'a> Model for Spellings<'a> {
    ghost use Rattle.std.specs.Prelude.{ℕ, List, map};

    ghost Value = { List (List ℕ) };

    ghost view = { λ s. map (λ k. k.now) s.spellings.keys };
}

impl<'a> Spellings<'a> {
    ghost use Rattle.std.specs.Prelude.{length};

    fn new(alloc: Global) -> Spellings<'a>
        ensures { result ≡ [] }
    {
        Spellings {
            spellings: IndexSet::new(alloc),
        }
    }

    // The number of the spelling, which is a new one where the spelling is new.
    fn numbered(&mut self, spelling: &'a [u8]) -> Result<usize, Memory>
        ensures numbered { IfOk result (λ number. IsNumberOf self.old self.new spelling.now number) }
        ensures within { IfOk result (λ number. number ≤ length self.old) }
    {
        let (number, _) = self.spellings.insert_full(spelling)?;
        Ok(number)
    }
}

// No number of a byte is known.
fn no_signs() -> [u32; 256]
    ensures { (spellings : List (List ℕ)) → AreSigns result spellings }
{
    [0; 256]
}

// The number of the spelling, which is a new one where the spelling is new.
fn number_in<'a>(spellings: &mut Spellings<'a>, spelling: &'a [u8]) -> Result<u32, Memory>
    ensures { IfOk result (λ number. IsNumberOf spellings.old spellings.new spelling.now number) }
{
    let number = spellings.numbered(spelling)?;
    if number > u32::MAX as usize {
        return Err(Memory);
    }
    Ok(number as u32)
}

// The same. The numbers of bytes that are spellings of their own are kept beside, 0 where none is known: so the
// punctuators, which are half of the tokens, are not sought.
fn number_by<'a>(
    spellings: &mut Spellings<'a>,
    signs: &mut [u32; 256],
    spelling: &'a [u8],
) -> Result<u32, Memory>
    requires signs { AreSigns signs.old spellings.old }
    ensures signs { IfOk result (λ _. AreSigns signs.new spellings.new) }
    ensures number { IfOk result (λ number. IsNumberOf spellings.old spellings.new spelling.now number) }
{
    match spelling {
        [sign] => {
            let known = signs[*sign as usize];
            if known != 0 {
                return Ok(known);
            }
            let number = number_in(spellings, spelling)?;
            signs[*sign as usize] = number;
            Ok(number)
        }
        _ => number_in(spellings, spelling),
    }
}

// The numbers of the tokens, each of which is put among the spellings.
fn told<'a>(
    alloc: Global,
    toks: &'a [Tok],
    spellings: &mut Spellings<'a>,
) -> Result<Vec<u32>, Memory>
    requires empty { position (bytes_eq []) spellings.old ≡ Some 0 }
    ensures { IfOk result (λ numbers. AreNumbered toks.now numbers.items spellings.new) }
{
    let mut numbers = Vec::with_capacity(alloc, toks.len())?;
    let mut signs = no_signs();
    'toks: for tok in toks {
        let number = number_by(spellings, &mut signs, tok.text())?;
        numbers.push(number)?;
    }
    Ok(numbers)
}

/// The number of the spelling of token `k`.
pub(crate) fn number_at(numbers: &[u32], k: u32) -> u32
    ensures { result ≡ number_at numbers.now k }
{
    match numbers.get(k as usize) {
        Some(number) => *number,
        None => 0,
    }
}

/// For each token the number of its spelling: tokens that are spelled alike have one, and others have
/// different ones.
pub(crate) fn numbers_of(alloc: Global, toks: &[Tok]) -> Result<Vec<u32>, Memory>
    ensures { IfOk result (λ numbers. AreNumbers toks.now numbers.items) }
{
    let mut spellings = Spellings::new(alloc);
    // Number 0 is that of tokens that are not there.
    spellings.numbered(&[])?;
    told(alloc, toks, &mut spellings)
}
