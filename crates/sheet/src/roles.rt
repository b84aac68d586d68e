// Refusal 7: conditions in their roles.

ghost use Rattle.std.specs.Prelude.{◌≡◌, ◌≤◌, ◌<◌, MatchOption, slice_index, drop};
ghost use Rattle.condition.specs.Tree.{is_monitor, is_at_entry};
ghost use Rattle.sheet.specs.Table.{table, every};
ghost use Rattle.sheet.specs.Decode.{wide, text_form, transition_form, triple_form, pair_form, paired_form, template_form};
ghost use Rattle.sheet.specs.Walk.{names_in, guard_suits, triple_suits, pair_suits, paired_suits, template_suits};

use crate::bytes::number;
use crate::names::Conditions;
use crate::records::{condition_text, pair, template, transition, triple};
use crate::table::{PairedTransitions, Pairs, Templates, Transitions, Triples, every};
use crate::{Pair, Template, Transition, Triple};

impl Conditions<'_> {
    // The condition of this number, if there is one.
    fn get(&self, i: u8) -> Option<&[u8]>
        ensures { MatchOption result (self.now.count ≤ i) (λ t. (i < self.now.count) × (t.now ≡ (text_form (wide self.now.s.now)).value (drop (slice_index self.now.index i) self.now.s.now))) }
    {
        let k = usize::from(i);
        if k < self.count {
            Some(condition_text(self.s, self.index[k] as usize))
        } else {
            None
        }
    }

    // Whether it names a value at entry.
    fn names_entry(&self, i: u8) -> bool
        ensures { result ≡ names_in is_at_entry self.now i }
    {
        match self.get(i) {
            Some(s) => condition::condition_has_entry(s, self.lent),
            None => false,
        }
    }

    // Whether it names a monitor variable.
    fn names_monitor(&self, i: u8) -> bool
        ensures { result ≡ names_in is_monitor self.now i }
    {
        match self.get(i) {
            Some(s) => condition::condition_has_monitor(s, self.lent),
            None => false,
        }
    }

    fn guard_suits(&self, t: Transition) -> bool
        ensures { result ≡ guard_suits self.now t }
    {
        !self.names_entry(t.condition)
    }

    fn triple_suits(&self, t: Triple) -> bool
        ensures { result ≡ triple_suits self.now t }
    {
        !self.names_entry(t.precondition) & !self.names_monitor(t.postcondition)
    }

    fn pair_suits(&self, p: Pair) -> bool
        ensures { result ≡ pair_suits self.now p }
    {
        !self.names_entry(p.condition)
    }

    fn template_suits(&self, t: Template) -> bool
        ensures { result ≡ template_suits self.now t }
    {
        !self.names_monitor(t.postcondition)
    }

    // Whether the conditions of n transitions suit their role.
    pub(crate) fn guards_suit(&self, at: usize, n: usize) -> bool
        requires { (at ≤ 100000000) × (n ≤ 255) }
        ensures { result ≡ every (guard_suits self.now) (table transition_form n self.now.s.now at) }
    {
        every(
            Transitions,
            self.s,
            at,
            n,
            |place| self.guard_suits(transition(self.s, place)),
        )
    }

    // The same of both conditions of triples.
    pub(crate) fn triples_suit(&self, at: usize, n: usize) -> bool
        requires { (at ≤ 100000000) × (n ≤ 255) }
        ensures { result ≡ every (triple_suits self.now) (table triple_form n self.now.s.now at) }
    {
        every(
            Triples,
            self.s,
            at,
            n,
            |place| self.triple_suits(triple(self.s, place)),
        )
    }

    // The same of the postconditions of templates.
    pub(crate) fn templates_suit(&self, at: usize, n: usize) -> bool
        requires { (at ≤ 100000000) × (n ≤ 255) }
        ensures { result ≡ every (template_suits self.now) (table template_form n self.now.s.now at) }
    {
        every(
            Templates,
            self.s,
            at,
            n,
            |place| self.template_suits(template(self.s, place)),
        )
    }

    // The same of the conditions of pairs.
    fn pairs_suit(&self, at: usize, n: usize) -> bool
        requires { (at ≤ 200000000) × (n ≤ 255) }
        ensures { result ≡ every (pair_suits self.now) (table pair_form n self.now.s.now at) }
    {
        every(
            Pairs,
            self.s,
            at,
            n,
            |place| self.pair_suits(pair(self.s, place)),
        )
    }

    fn one_paired_suits(&self, at: usize) -> bool
        requires { at ≤ 150000000 }
        ensures { result ≡ paired_suits self.now (paired_form.value (drop at self.now.s.now)) }
    {
        let t = transition(self.s, at);
        let pairs = number(self.s, at + 6);
        self.guard_suits(t) & self.pairs_suit(at + 7, pairs)
    }

    // The same of transitions with pairs.
    pub(crate) fn paired_suit(&self, at: usize, n: usize) -> bool
        requires { (at ≤ 100000000) × (n ≤ 255) }
        ensures { result ≡ every (paired_suits self.now) (table paired_form n self.now.s.now at) }
    {
        every(
            PairedTransitions,
            self.s,
            at,
            n,
            |place| self.one_paired_suits(place),
        )
    }
}
