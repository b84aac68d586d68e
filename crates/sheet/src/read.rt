// Reading a sheet or a network: the first refusal that applies, if one does.

ghost use Rattle.std.specs.Prelude.{◌≡◌, ◌≤◌};
ghost use Rattle.sheet.specs.Bytes.{byte};
ghost use Rattle.sheet.specs.Decode.{common_of, conditions_at, actions_at, transition_form, triple_form, paired_form, template_form};
ghost use Rattle.sheet.specs.Reading.{sheet_layout, network_layout, lent_in, counts_of, counted, formed, ranged, roled, transitions_of, last_of, reading};
ghost use Rattle.sheet.specs.Answer.{reading_paper, answer};
ghost use Rattle.sheet.specs.Walk.{Finds, Numbered};

use crate::bytes::{byte, has_wide, number};
use crate::index::index;
use crate::names::{Conditions, Names};
use crate::spread::spread;
use crate::walk::Tables;
use crate::{Counts, formed, head, ranged, walk};
use condition::Lent;
use refusal::Refusal;

#[tactic(auto, unfolding(crate::specs::Decode::common_of))]
fn lent(s: &[u8]) -> Lent
    ensures { result ≡ lent_in (common_of s.now) }
{
    Lent {
        programs: number(s, 5),
        monitors: number(s, 6),
        kept: number(s, 5),
    }
}

#[tactic(auto, using(crate::proofs::Tables::length_records), unfolding(crate::specs::Decode::common_of))]
fn counts(s: &[u8]) -> Counts
    ensures { result ≡ counts_of (common_of s.now) }
{
    Counts {
        states: byte(s, 3),
        units: byte(s, 4),
        conditions: byte(s, 10),
        actions: byte(s, 11),
    }
}

fn texts_formed(s: &[u8], conditions: usize, actions: usize) -> bool
    requires { (conditions ≡ conditions_at s.now) × (actions ≡ actions_at s.now) × (conditions ≤ 70000000) × (actions ≤ 70000000) }
    ensures { result ≡ formed (common_of s.now) }
{
    let l = lent(s);
    formed::conditions_formed(s, conditions, number(s, 10), l, has_wide(s))
        & formed::actions_formed(s, actions, number(s, 11), l)
}

fn sheet_ranged(s: &[u8], t: Tables) -> bool
    requires { Finds transition_form triple_form s.now t }
    ensures { result ≡ ranged sheet_layout (common_of s.now) (transitions_of sheet_layout s.now) (last_of sheet_layout s.now) }
{
    let c = counts(s);
    ranged::transitions_ranged(s, t.transitions, number(s, 12), c)
        & ranged::triples_ranged(s, t.last, number(s, 13), c)
}

fn network_ranged(s: &[u8], t: Tables) -> bool
    requires { Finds paired_form template_form s.now t }
    ensures { result ≡ ranged network_layout (common_of s.now) (transitions_of network_layout s.now) (last_of network_layout s.now) }
{
    let c = counts(s);
    let templates = number(s, 13);
    let names = Names {
        s,
        counts: c,
        last: t.last,
        templates,
    };
    names.paired_ranged(t.transitions, number(s, 12))
        & ranged::templates_ranged(s, t.last, templates, c)
}

// The conditions by their number.
fn conditions(s: &[u8], at: usize) -> Conditions<'_>
    requires { (at ≤ 70000000) × (byte s.now 10 ≤ 161) }
    ensures { Numbered s.now at result }
{
    let count = number(s, 10);
    Conditions {
        s,
        index: index(s, at, count, has_wide(s)),
        count,
        lent: lent(s),
    }
}

fn sheet_roled(s: &[u8], t: Tables) -> bool
    requires { (Finds transition_form triple_form s.now t) × (byte s.now 10 ≤ 161) }
    ensures { result ≡ roled sheet_layout (common_of s.now) (transitions_of sheet_layout s.now) (last_of sheet_layout s.now) }
{
    let conditions = conditions(s, t.conditions);
    formed::actions_free(s, t.actions, number(s, 11), conditions.lent)
        & (conditions.guards_suit(t.transitions, number(s, 12))
            & conditions.triples_suit(t.last, number(s, 13)))
}

fn network_roled(s: &[u8], t: Tables) -> bool
    requires { (Finds paired_form template_form s.now t) × (byte s.now 10 ≤ 161) }
    ensures { result ≡ roled network_layout (common_of s.now) (transitions_of network_layout s.now) (last_of network_layout s.now) }
{
    let conditions = conditions(s, t.conditions);
    formed::actions_free(s, t.actions, number(s, 11), conditions.lent)
        & (conditions.paired_suit(t.transitions, number(s, 12))
            & conditions.templates_suit(t.last, number(s, 13)))
}

pub(crate) fn sheet(s: &[u8]) -> Result<(), Refusal>
    ensures { reading_paper result ≡ answer (reading sheet_layout s.now) }
{
    if head::whole(s) {} else {
        return Err(Refusal::Size);
    }
    if head::version_is(s, 1, 1) {} else {
        return Err(Refusal::Version);
    }
    if head::counts_hold(s, 64, 32, 64) {} else {
        return Err(Refusal::Counts);
    }
    let t = walk::sheet_tables(s);
    if walk::sheet_tabled(s, t) {} else {
        return Err(Refusal::Lengths);
    }
    if texts_formed(s, t.conditions, t.actions) {} else {
        return Err(Refusal::Grammar);
    }
    if sheet_ranged(s, t) {} else {
        return Err(Refusal::Ranges);
    }
    if sheet_roled(s, t) {} else {
        return Err(Refusal::Roles);
    }
    if spread(s, t.last, number(s, 13)) {
        Ok(())
    } else {
        Err(Refusal::Crowded)
    }
}

// The most conditions of a network.
fn most_conditions(w: bool) -> usize
    ensures { (result ≡ network_layout.conditions w) × (result ≤ 161) }
{
    if w { 161 } else { 65 }
}

#[tactic(auto, unfolding(crate::specs::Reading::counted))]
fn network_counts(s: &[u8]) -> bool
    ensures { result ≡ counted network_layout s.now }
{
    head::counts_hold(s, most_conditions(has_wide(s)), 33, 96)
}

pub(crate) fn network(s: &[u8]) -> Result<(), Refusal>
    ensures { reading_paper result ≡ answer (reading network_layout s.now) }
{
    if head::whole(s) {} else {
        return Err(Refusal::Size);
    }
    if head::version_is(s, 2, 3) {} else {
        return Err(Refusal::Version);
    }
    if network_counts(s) {} else {
        return Err(Refusal::Counts);
    }
    let t = walk::network_tables(s);
    if walk::network_tabled(s, t) {} else {
        return Err(Refusal::Lengths);
    }
    if texts_formed(s, t.conditions, t.actions) {} else {
        return Err(Refusal::Grammar);
    }
    if network_ranged(s, t) {} else {
        return Err(Refusal::Ranges);
    }
    if network_roled(s, t) {} else {
        return Err(Refusal::Roles);
    }
    Ok(())
}
