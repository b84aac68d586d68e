// Test conditions for the card's bench: every condition of n bytes with one program variable, no
// monitor variables, no constants and no values at entry, in byte order.
#![tactic(auto)]

ghost use Rattle.std.specs.Prelude.{◌≡◌, ◌≤◌, ◌↔◌, true, false, drop, All, IsTrue, IfOk, IfErr};
ghost use Rattle.refusal.specs.declared.Refusal.TheVariants as refusal;
ghost use Rattle.bench.specs.Bench.{FirstAnswer, NextAnswer, in_range, is_given};

use crate::parts::Pending;
use refusal::Refusal;

mod parts;
mod search;

// The first condition of n bytes, with zeros behind them: 22 for n out of range.
#[tactic(auto, using(crate::proofs::Answering::first_some))]
pub fn first(n: u8) -> Result<[u8; 8], Refusal>
    ensures { FirstAnswer n result }
{
    let count = in_range(n)?;
    // There is a condition of each number of bytes.
    let bytes = search::complete([0; 8], 0, count, Pending::one_condition()).unwrap();
    Ok(bytes)
}

// The next one after a given one, if there is one: 22 for n out of range, then 26 for bytes that are
// not such a condition.
#[tactic(auto, using(crate::proofs::Answering::next_answer))]
pub fn next(n: u8, given: [u8; 8]) -> Result<Option<[u8; 8]>, Refusal>
    ensures { NextAnswer n given result }
{
    let count = in_range(n)?;
    if !is_given(given, count) {
        return Err(Refusal::NotListed);
    }
    Ok(search::following(given, 0, count, Pending::one_condition()))
}

// A number of bytes from 1 to 8.
fn in_range(n: u8) -> Result<usize, Refusal>
    ensures ok { IfOk result (λ count. (count ≡ n) × (in_range n ≡ true)) }
    ensures err { IfErr result (λ e. (e ≡ Refusal.OutOfRange) × (in_range n ≡ false)) }
{
    match n {
        1..=8 => Ok(usize::from(n)),
        _ => Err(Refusal::OutOfRange),
    }
}

// Whether the first n bytes are a test condition, with zeros behind them.
#[tactic(auto, using(crate::proofs::Answering::given_not))]
fn is_given(given: [u8; 8], n: usize) -> bool
    requires { n ≤ 8 }
    ensures { result ≡ is_given n given }
{
    search::accepts(given, n) && clear_from(&given, n)
}

// Whether all bytes from a place on are zero.
fn clear_from(bytes: &[u8; 8], at: usize) -> bool
    requires { at ≤ 8 }
    ensures { IsTrue result ↔ All (λ b. b ≡ 0) (drop at bytes.now) }
{
    bytes[at..].iter().all(|b| *b == 0)
}
