// Evaluating conditions and values over operator-first bytes, and counting what is evaluated of them.
// A cursor is a place and the count so far in one number, so that a tail call carries both; behind
// what is malformed its place is one past the end. A result is the cursor behind what was read, and
// its truth or word beside it. e lends the values: present program values, monitor variables, values
// kept at entry.

ghost use Rattle.std.specs.Prelude.{◌≡◌, ◌+◌, ◌/◌, ◌%◌, ◌^◌, ◌<◌, ◌≤◌, length};
ghost use Rattle.condition.specs.Word.{plus_word, minus_word, less_word, equal_word, within_word};
ghost use Rattle.condition.specs.Meaning.{lent};
ghost use Rattle.condition.specs.Walk.{Cursor, ConditionAt, ValueAt, Passes, condition_reader, value_reader, banks, Judged, Packed, negated, LiteralTried, VariableTried, LeafEvaluated, SimpleEvaluated};

use crate::{skip, word};

// How many words there are: a value's result is its cursor times W, and its word.
const W: usize = 4294967296;

// A cursor is its count times C, and its place. One past 65,534 bytes is still below C, and no count
// is over its place, so that a cursor and a word share a machine word. The place is the low part since
// it is asked for most; what has it at hand passes it on.
// Packed: a tail call carries both, and no struct comes back through memory, docs/DECISIONS.md 13, 126.
pub(crate) const C: usize = 65536;

// What an operator, a constant and a variable add to a cursor: one count, and their bytes.
const OPERATOR: usize = 65537;

const CONSTANT: usize = 65541;

const VARIABLE: usize = 65538;

// The cursor behind an operand, 0 where there is none, and its word.
// 0 for none: who reads one takes it on as it is or calls instead, docs/DECISIONS.md 13.
#[derive(Clone, Copy)]
pub(crate) struct Operand {
    pub next: usize,
    pub word: u32,
}

#[cycle(condition_value)]
pub(crate) fn condition(s: &&[u8], c: usize, e: &[&[u32]; 3]) -> usize
    requires { Cursor s.now.now c }
    ensures { ConditionAt (banks e.now) s.now.now c (result / 2) (result % 2) }
{
    let at = c % C;
    if at < s.len() {} else {
        return judged(s.len() + 1, false);
    }
    let o = s[at];
    // Comparisons are the most frequent, so a byte that is no operator is told behind them.
    if 3 < o {
        let l = leaf(s, c + OPERATOR, at + 1, e);
        let a = if l.next == 0 {
            opened(value(s, c + OPERATOR, e))
        } else {
            l
        };
        let l = leaf(s, a.next, a.next % C, e);
        let b = if l.next == 0 {
            opened(value(s, a.next, e))
        } else {
            l
        };
        if o == 4 {
            return less(a, b);
        }
        if o == 5 {
            return equal(a, b);
        }
        let l = leaf(s, b.next, b.next % C, e);
        let t = if l.next == 0 {
            opened(value(s, b.next, e))
        } else {
            l
        };
        if o == 6 {
            within(a, b, t)
        } else {
            judged(s.len() + 1, false)
        }
    } else {
        match o {
            0 => judged(c + OPERATOR, true),
            1 => negate(condition(s, c + OPERATOR, e)),
            // `and` and `or`. Their first operand is mostly simple; elsewhere trying that costs more.
            _ => {
                let q = simple(s, c + OPERATOR, at + 1, e);
                let a = if q == 0 {
                    condition(s, c + OPERATOR, e)
                } else {
                    q
                };
                if o == 2 {
                    if a % 2 == 1 {
                        condition(s, a / 2, e)
                    } else {
                        judged(pass_condition(s, a / 2, e), false)
                    }
                } else {
                    if a % 2 == 1 {
                        judged(pass_condition(s, a / 2, e), true)
                    } else {
                        condition(s, a / 2, e)
                    }
                }
            }
        }
    }
}

#[cycle(condition_value)]
pub(crate) fn value(s: &&[u8], c: usize, e: &[&[u32]; 3]) -> usize
    requires { Cursor s.now.now c }
    ensures { ValueAt (banks e.now) s.now.now c (result / 2 ^ 32) (result % 2 ^ 32) }
{
    let at = c % C;
    if at < s.len() {} else {
        return packed(s.len() + 1, 0);
    }
    match s[at] {
        20 => {
            let l = leaf(s, c + OPERATOR, at + 1, e);
            let a = if l.next == 0 {
                opened(value(s, c + OPERATOR, e))
            } else {
                l
            };
            let l = leaf(s, a.next, a.next % C, e);
            let b = if l.next == 0 {
                opened(value(s, a.next, e))
            } else {
                l
            };
            plus(a, b)
        }
        21 => {
            let l = leaf(s, c + OPERATOR, at + 1, e);
            let a = if l.next == 0 {
                opened(value(s, c + OPERATOR, e))
            } else {
                l
            };
            let l = leaf(s, a.next, a.next % C, e);
            let b = if l.next == 0 {
                opened(value(s, a.next, e))
            } else {
                l
            };
            minus(a, b)
        }
        22 => {
            let d = condition(s, c + OPERATOR, e);
            if d % 2 == 1 {
                let a = value(s, d / 2, e);
                packed(pass_value(s, a / W, e), word_of(a))
            } else {
                value(s, pass_value(s, d / 2, e), e)
            }
        }
        _ => {
            let l = leaf(s, c, at, e);
            if l.next == 0 {
                packed(s.len() + 1, 0)
            } else {
                packed(l.next, l.word)
            }
        }
    }
}

// `less` or `equal` of two leaves, judged without the cost of a recursive call; 0, which is behind
// nothing, where there is none. Few other operators have two leaves behind them, so it is told last.
fn simple(s: &&[u8], c: usize, at: usize, e: &[&[u32]; 3]) -> usize
    requires { Cursor s.now.now c × (at ≡ c % 65536) }
    ensures { SimpleEvaluated (banks e.now) s.now.now c result }
{
    if at + 4 < s.len() {} else {
        return 0;
    }
    let a = leaf(s, c + OPERATOR, at + 1, e);
    if a.next == 0 {
        return 0;
    }
    let b = leaf(s, a.next, a.next % C, e);
    if b.next == 0 {
        return 0;
    }
    match s[at] {
        4 => less(a, b),
        5 => equal(a, b),
        _ => 0,
    }
}

// A constant or a variable, read without the cost of a recursive call. The operators of variables
// stand in the order of the slices.
fn leaf(s: &&[u8], c: usize, at: usize, e: &[&[u32]; 3]) -> Operand
    requires { Cursor s.now.now c × (at ≡ c % 65536) }
    ensures { LeafEvaluated (banks e.now) s.now.now c result.next result.word }
{
    if at + 1 < s.len() {} else {
        return Operand { next: 0, word: 0 };
    }
    let o = usize::from(s[at]);
    if o == 16 {
        return literal(s, c, at);
    }
    if 17 <= o {} else {
        return Operand { next: 0, word: 0 };
    }
    if o <= 19 {} else {
        return Operand { next: 0, word: 0 };
    }
    variable(s, c, at, e[o - 17])
}

// The four bytes that follow, as a word, where there are so many.
fn literal(s: &&[u8], c: usize, at: usize) -> Operand
    requires { (length s.now.now ≤ 65534) × (at < length s.now.now) × (c < 2 ^ 32) }
    ensures { LiteralTried s.now.now c at result.next result.word }
{
    if at + 5 <= s.len() {
        Operand {
            next: c + CONSTANT,
            word: u32::from_be_bytes([s[at + 1], s[at + 2], s[at + 3], s[at + 4]]),
        }
    } else {
        Operand { next: 0, word: 0 }
    }
}

// The value of the variable whose number follows, where it is lent.
fn variable(s: &&[u8], c: usize, at: usize, values: &[u32]) -> Operand
    requires { (length s.now.now ≤ 65534) × (at + 1 < length s.now.now) × (c < 2 ^ 32) }
    ensures { VariableTried s.now.now c at values.now result.next result.word }
{
    let i = usize::from(s[at + 1]);
    if i < values.len() {
        Operand {
            next: c + VARIABLE,
            word: values[i],
        }
    } else {
        Operand { next: 0, word: 0 }
    }
}

// The cursor behind what is not reached: its count stays.
fn pass_condition(s: &&[u8], c: usize, e: &[&[u32]; 3]) -> usize
    requires { Cursor s.now.now c }
    ensures { Passes (condition_reader (lent (banks e.now))) s.now.now c result }
{
    skip::condition(s, c % C, e[0].len(), e[1].len(), e[2].len()) + c / C * C
}

fn pass_value(s: &&[u8], c: usize, e: &[&[u32]; 3]) -> usize
    requires { Cursor s.now.now c }
    ensures { Passes (value_reader (lent (banks e.now))) s.now.now c result }
{
    skip::value(s, c % C, e[0].len(), e[1].len(), e[2].len()) + c / C * C
}

fn judged(next: usize, holds: bool) -> usize
    requires { next < 2 ^ 32 }
    ensures { Judged next holds result }
{
    if holds { next * 2 + 1 } else { next * 2 }
}

fn packed(next: usize, w: u32) -> usize
    requires { next < 2 ^ 32 }
    ensures { Packed next w result }
{
    next * W + (w as usize)
}

fn word_of(r: usize) -> u32
    ensures { result ≡ r % 2 ^ 32 }
{
    (r % W) as u32
}

// A value's result, as an operand.
fn opened(r: usize) -> Operand
    ensures { (result.next ≡ r / 2 ^ 32) × (result.word ≡ r % 2 ^ 32) }
{
    Operand {
        next: r / W,
        word: word_of(r),
    }
}

fn negate(r: usize) -> usize
    requires { r / 2 < 2 ^ 32 }
    ensures { Judged (r / 2) (negated (r % 2)) result }
{
    judged(r / 2, r % 2 == 0)
}

fn less(a: Operand, b: Operand) -> usize
    requires { b.next < 2 ^ 32 }
    ensures { Judged b.next (less_word a.word b.word) result }
{
    judged(b.next, word::less(a.word, b.word))
}

fn equal(a: Operand, b: Operand) -> usize
    requires { b.next < 2 ^ 32 }
    ensures { Judged b.next (equal_word a.word b.word) result }
{
    judged(b.next, a.word == b.word)
}

fn within(a: Operand, b: Operand, k: Operand) -> usize
    requires { k.next < 2 ^ 32 }
    ensures { Judged k.next (within_word a.word b.word k.word) result }
{
    judged(k.next, word::within(a.word, b.word, k.word))
}

fn plus(a: Operand, b: Operand) -> usize
    requires { b.next < 2 ^ 32 }
    ensures { Packed b.next (plus_word a.word b.word) result }
{
    packed(b.next, word::plus(a.word, b.word))
}

fn minus(a: Operand, b: Operand) -> usize
    requires { b.next < 2 ^ 32 }
    ensures { Packed b.next (minus_word a.word b.word) result }
{
    packed(b.next, word::minus(a.word, b.word))
}
