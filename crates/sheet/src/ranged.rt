// Refusal 6: numbers in range.

ghost use Rattle.std.specs.Prelude.{◌≡◌, ◌≤◌, drop};
ghost use Rattle.sheet.specs.Table.{table, every};
ghost use Rattle.sheet.specs.Decode.{transition_form, triple_form, pair_form, paired_form, template_form};
ghost use Rattle.sheet.specs.Reading.{transition_ranged, triple_ranged, pair_ranged, template_ranged};
ghost use Rattle.sheet.specs.Walk.{templates_of, paired_ranged};

use crate::bytes::{byte, number};
use crate::names::Names;
use crate::records::{pair, template, transition, triple};
use crate::table::{PairedTransitions, Pairs, Templates, Transitions, Triples, every};
use crate::{Counts, Pair, Template, Transition, Triple};

#[tactic(auto, unfolding(crate::specs::Reading::transition_ranged))]
fn transition_ranged(t: Transition, n: Counts) -> bool
    ensures { result ≡ transition_ranged n t }
{
    (t.from < n.states)
        & ((t.kind <= 1)
            & ((t.unit < n.units)
                & ((t.condition < n.conditions) & ((t.action < n.actions) & (t.to < n.states)))))
}

#[tactic(auto, unfolding(crate::specs::Reading::triple_ranged))]
fn triple_ranged(t: Triple, n: Counts) -> bool
    ensures { result ≡ triple_ranged n t }
{
    (t.state < n.states)
        & ((t.unit < n.units)
            & ((t.precondition < n.conditions) & (t.postcondition < n.conditions)))
}

#[tactic(auto, unfolding(crate::specs::Reading::template_ranged))]
fn template_ranged(t: Template, n: Counts) -> bool
    ensures { result ≡ template_ranged n t }
{
    (t.unit < n.units) & (t.postcondition < n.conditions)
}

// Whether n transitions have their numbers in range.
pub(crate) fn transitions_ranged(s: &[u8], at: usize, n: usize, counts: Counts) -> bool
    requires { (at ≤ 100000000) × (n ≤ 255) }
    ensures { result ≡ every (transition_ranged counts) (table transition_form n s.now at) }
{
    every(
        Transitions,
        s,
        at,
        n,
        |place| transition_ranged(transition(s, place), counts),
    )
}

// The same of triples.
pub(crate) fn triples_ranged(s: &[u8], at: usize, n: usize, counts: Counts) -> bool
    requires { (at ≤ 100000000) × (n ≤ 255) }
    ensures { result ≡ every (triple_ranged counts) (table triple_form n s.now at) }
{
    every(
        Triples,
        s,
        at,
        n,
        |place| triple_ranged(triple(s, place), counts),
    )
}

// The same of templates.
pub(crate) fn templates_ranged(s: &[u8], at: usize, n: usize, counts: Counts) -> bool
    requires { (at ≤ 100000000) × (n ≤ 255) }
    ensures { result ≡ every (template_ranged counts) (table template_form n s.now at) }
{
    every(
        Templates,
        s,
        at,
        n,
        |place| template_ranged(template(s, place), counts),
    )
}

impl Names<'_> {
    // A pair of a transition.
    fn pair_ranged(&self, p: Pair, t: Transition) -> bool
        ensures { result ≡ pair_ranged self.now.counts (templates_of self.now) t p }
    {
        let n = self.counts;
        let k = usize::from(p.template);
        let unit = byte(self.s, self.last + k * 2);
        (t.kind == 0) & ((p.condition < n.conditions) & ((k < self.templates) & (unit == t.unit)))
    }

    // The pairs of a transition.
    fn pairs_ranged(&self, at: usize, n: usize, t: Transition) -> bool
        requires { (at ≤ 200000000) × (n ≤ 255) }
        ensures { result ≡ every (pair_ranged self.now.counts (templates_of self.now) t) (table pair_form n self.now.s.now at) }
    {
        every(
            Pairs,
            self.s,
            at,
            n,
            |place| self.pair_ranged(pair(self.s, place), t),
        )
    }

    fn one_paired_ranged(&self, at: usize) -> bool
        requires { at ≤ 150000000 }
        ensures { result ≡ paired_ranged self.now.counts (templates_of self.now) (paired_form.value (drop at self.now.s.now)) }
    {
        let t = transition(self.s, at);
        let pairs = number(self.s, at + 6);
        transition_ranged(t, self.counts) & self.pairs_ranged(at + 7, pairs, t)
    }

    // Whether n transitions with pairs have their numbers in range.
    pub(crate) fn paired_ranged(&self, at: usize, n: usize) -> bool
        requires { (at ≤ 100000000) × (n ≤ 255) }
        ensures { result ≡ every (paired_ranged self.now.counts (templates_of self.now)) (table paired_form n self.now.s.now at) }
    {
        every(
            PairedTransitions,
            self.s,
            at,
            n,
            |place| self.one_paired_ranged(place),
        )
    }
}
