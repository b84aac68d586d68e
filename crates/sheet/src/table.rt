// Tables of records that stand one behind the other.

ghost use Rattle.std.specs.Prelude.{◌≡◌, ◌≤◌, ◌+◌, ◌*◌, Bool, ℕ, List, map, drop};
ghost use Rattle.sheet.specs.declared.Pair.{Pair};
ghost use Rattle.sheet.specs.declared.Template.{Template};
ghost use Rattle.sheet.specs.declared.Transition.{Transition};
ghost use Rattle.sheet.specs.declared.Triple.{Triple};
ghost use Rattle.sheet.specs.Parts.{Paired};
ghost use Rattle.sheet.specs.Table.{Form, table, after, starts, fit, every};
ghost use Rattle.sheet.specs.Decode.{word_form, text_form, length_form, pair_count_form, transition_form, triple_form, pair_form, paired_form, template_form};

use crate::bytes::{number, text_size};

// What the records of a table are, and how many bytes each takes.
pub(crate) trait Records: Copy {
    ghost Value: { Type 0 };

    ghost form: { Self → Form Value };

    fn size(self, s: &[u8], at: usize) -> usize
        requires { at ≤ 8000000000 }
        ensures value { result ≡ (form self).size (drop at s.now) }
        ensures small { result ≤ 65537 };
}

// Conditions or actions, whose lengths take two bytes if they are wide.
#[derive(Clone, Copy)]
pub(crate) struct Texts {
    pub wide: bool,
}

impl Records for Texts {
    ghost Value = { List ℕ };

    ghost form = { λ t. text_form t.wide };

    fn size(self, s: &[u8], at: usize) -> usize {
        text_size(s, at, self.wide)
    }
}

// The lengths of conditions or actions, each with the bytes behind it.
#[derive(Clone, Copy)]
pub(crate) struct Lengths {
    pub wide: bool,
}

impl Records for Lengths {
    ghost Value = { ℕ };

    ghost form = { λ t. length_form t.wide };

    fn size(self, s: &[u8], at: usize) -> usize {
        text_size(s, at, self.wide)
    }
}

// The bytes of a word.
const WORD: usize = 4;

#[derive(Clone, Copy)]
pub(crate) struct Words;

impl Records for Words {
    ghost Value = { ℕ };

    ghost form = { λ _. word_form };

    fn size(self, _s: &[u8], _at: usize) -> usize {
        WORD
    }
}

#[derive(Clone, Copy)]
pub(crate) struct Transitions;

impl Records for Transitions {
    ghost Value = { Transition };

    ghost form = { λ _. transition_form };

    fn size(self, _s: &[u8], _at: usize) -> usize {
        6
    }
}

// Transitions with pairs.
#[derive(Clone, Copy)]
pub(crate) struct PairedTransitions;

impl Records for PairedTransitions {
    ghost Value = { Paired };

    ghost form = { λ _. paired_form };

    fn size(self, s: &[u8], at: usize) -> usize {
        7 + 2 * number(s, at + 6)
    }
}

// How many pairs each transition has.
#[derive(Clone, Copy)]
pub(crate) struct PairCounts;

impl Records for PairCounts {
    ghost Value = { ℕ };

    ghost form = { λ _. pair_count_form };

    fn size(self, s: &[u8], at: usize) -> usize {
        PairedTransitions.size(s, at)
    }
}

#[derive(Clone, Copy)]
pub(crate) struct Triples;

impl Records for Triples {
    ghost Value = { Triple };

    ghost form = { λ _. triple_form };

    fn size(self, _s: &[u8], _at: usize) -> usize {
        4
    }
}

#[derive(Clone, Copy)]
pub(crate) struct Pairs;

impl Records for Pairs {
    ghost Value = { Pair };

    ghost form = { λ _. pair_form };

    fn size(self, _s: &[u8], _at: usize) -> usize {
        2
    }
}

#[derive(Clone, Copy)]
pub(crate) struct Templates;

impl Records for Templates {
    ghost Value = { Template };

    ghost form = { λ _. template_form };

    fn size(self, _s: &[u8], _at: usize) -> usize {
        2
    }
}

// Whether each record of a table passes a test, which is given the record's place.
pub(crate) fn every<R: Records, F: Fn(usize) -> bool>(
    records: R,
    s: &[u8],
    at: usize,
    n: usize,
    test: F,
) -> bool
    requires small { (at ≤ 200000000) × (n ≤ 255) }
    requires callable { (a : ℕ) → a ≤ at + 65537 * n → F.pre test a }
    ensures { (p : R.Value → Bool) → ((a : ℕ) (b : Bool) → F.post test a b → b ≡ p ((R.form records).value (drop a s.now))) → result ≡ every p (table (R.form records) n s.now at) }
{
    let mut place = at;
    for _ in 0..n {
        if !test(place) {
            return false;
        }
        place += records.size(s, place);
    }
    true
}

// The place behind a table.
pub(crate) fn after<R: Records>(records: R, s: &[u8], at: usize, n: usize) -> usize
    requires { (at ≤ 200000000) × (n ≤ 255) }
    ensures place { result ≡ after (R.form records) n s.now at }
    ensures small { result ≤ at + 65537 * n }
{
    let mut place = at;
    for _ in 0..n {
        place += records.size(s, place);
    }
    place
}

// A number of each of n records, given the record's place: as many as there is room for, and zeros
// behind them.
pub(crate) fn numbers<R: Records, F: Fn(usize) -> u32, const W: usize>(
    records: R,
    s: &[u8],
    at: usize,
    n: usize,
    number: F,
) -> [u32; W]
    requires small { (at ≤ 7000000000) × (n ≤ 255) }
    requires callable { (a : ℕ) → a ≤ at + 65537 * n → F.pre number a }
    ensures { (f : ℕ → ℕ) → ((a b : ℕ) → F.post number a b → b ≡ f a) → result ≡ fit W 0 (map f (starts (R.form records) n s.now at)) }
{
    let mut out = [0; W];
    let mut place = at;
    for i in 0..n.min(W) {
        out[i] = number(place);
        place += records.size(s, place);
    }
    out
}
