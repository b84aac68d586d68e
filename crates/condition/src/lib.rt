// Conditions, values and actions over operator-first bytes: judging them, evaluating them, carrying
// actions out, and counting what is evaluated. Every operation here answers for all bytes and all lent
// values.
#![tactic(auto)]

ghost use Rattle.std.specs.Prelude.{◌≡◌, ◌/◌, ◌%◌, true, [], take, ◌==◌};
ghost use Rattle.condition.specs.Tree.{condition_names, action_names, is_monitor, is_at_entry};
ghost use Rattle.condition.specs.Meaning.{environment};
ghost use Rattle.condition.specs.Answer.{condition_paper, condition_outcome, value_paper, value_outcome, condition_counted, value_counted, holds_from, count_from, action_paper, action_outcome, action_counted, done, performed_on, text_from, condition_which, action_which};

mod action;
mod evaluate;
mod skip;
mod word;

use crate::evaluate::C;
use refusal::Refusal;

// The most bytes of a condition or a value, and of an action.
pub const LONGEST: usize = 1024;

pub const LONGEST_ACTION: usize = 64;

// The most monitor variables.
pub const VARIABLES: usize = 4;

// How many values are lent of each kind: present program values, monitor variables, program values
// kept at entry.
#[derive(Clone, Copy)]
pub struct Lent {
    pub programs: usize,
    pub monitors: usize,
    pub kept: usize,
}

// What evaluating answers, and how many operators and operands were evaluated for it: none where it is
// refused.
#[derive(Clone, Copy)]
pub struct Counted<T> {
    pub answer: Result<T, Refusal>,
    pub count: u32,
}

impl<T> Counted<T> {
    fn refused(reason: Refusal) -> Counted<T>
        ensures { result ≡ record { answer = Err reason; count = 0 } }
    {
        Counted {
            answer: Err(reason),
            count: 0,
        }
    }
}

#[derive(Clone, Copy)]
pub struct Held {
    pub holds: bool,
    pub count: u32,
}

#[derive(Clone, Copy)]
pub struct Performed {
    pub answer: Result<(), Refusal>,
    pub variables: [u32; VARIABLES],
    pub count: u32,
}

// The first `count` values, or all where there are fewer.
pub fn front(values: &[u32], count: usize) -> &[u32]
    ensures { result.now ≡ take count values.now }
{
    if count < values.len() {
        &values[..count]
    } else {
        values
    }
}

// Evaluates a condition on its own: 4 for its length, 5 for bytes that are not exactly one, or its
// truth.
pub fn evaluate_condition<'a>(
    s: &[u8],
    program: &'a [u32],
    monitor: &'a [u32],
    kept: &'a [u32],
) -> Counted<bool>
    ensures { (condition_paper result.answer ≡ condition_outcome s.now (environment program.now monitor.now kept.now)) × (result.count ≡ condition_counted s.now (environment program.now monitor.now kept.now)) }
{
    if (1 <= s.len()) & (s.len() <= LONGEST) {} else {
        return Counted::refused(Refusal::Lengths);
    }
    let e = [program, monitor, kept];
    let r = evaluate::condition(&s, 0, &e);
    if r / 2 % C == s.len() {
        Counted {
            answer: Ok(r % 2 == 1),
            count: (r / 2 / C) as u32,
        }
    } else {
        Counted::refused(Refusal::Grammar)
    }
}

// Whether the bytes from a place on begin with a condition, for what is lent, that holds. What stands
// behind it does not matter.
pub fn holds_at<'a>(
    s: &[u8],
    at: usize,
    program: &'a [u32],
    monitor: &'a [u32],
    kept: &'a [u32],
) -> Held
    ensures { (result.holds ≡ holds_from s.now at (environment program.now monitor.now kept.now)) × (result.count ≡ count_from s.now at (environment program.now monitor.now kept.now)) }
{
    let r = found_at(s, at, program, monitor, kept);
    Held {
        holds: r % 2 == 1,
        count: (r / 2 / C) as u32,
    }
}

// The result of evaluating the condition there, or 0. Packed: who asks takes it apart once,
// docs/DECISIONS.md 126.
fn found_at<'a>(
    s: &[u8],
    at: usize,
    program: &'a [u32],
    monitor: &'a [u32],
    kept: &'a [u32],
) -> usize
    ensures { ((result % 2 == 1) ≡ holds_from s.now at (environment program.now monitor.now kept.now)) × (result / 2 / 65536 ≡ count_from s.now at (environment program.now monitor.now kept.now)) }
{
    if at < s.len() {} else {
        return 0;
    }
    // A cursor's places are counted from here, so that they stay below C in the longest bytes too.
    let rest = &s[at..];
    if rest.len() <= 65534 {} else {
        return 0;
    }
    let e = [program, monitor, kept];
    let r = evaluate::condition(&rest, 0, &e);
    if r / 2 % C <= rest.len() { r } else { 0 }
}

// Evaluates a value on its own, with the same refusals: its word.
pub fn evaluate_value<'a>(
    s: &[u8],
    program: &'a [u32],
    monitor: &'a [u32],
    kept: &'a [u32],
) -> Counted<u32>
    ensures { (value_paper result.answer ≡ value_outcome s.now (environment program.now monitor.now kept.now)) × (result.count ≡ value_counted s.now (environment program.now monitor.now kept.now)) }
{
    if (1 <= s.len()) & (s.len() <= LONGEST) {} else {
        return Counted::refused(Refusal::Lengths);
    }
    let e = [program, monitor, kept];
    let r = evaluate::value(&s, 0, &e);
    if r / 4294967296 % C == s.len() {
        Counted {
            answer: Ok((r % 4294967296) as u32),
            count: (r / 4294967296 / C) as u32,
        }
    } else {
        Counted::refused(Refusal::Grammar)
    }
}

// Carries an action out on the first `count` of four monitor variables. A refusal changes none.
pub fn perform<'a>(
    s: &[u8],
    program: &'a [u32],
    variables: [u32; VARIABLES],
    count: usize,
    kept: &'a [u32],
) -> Performed
    ensures { (action_paper result.answer ≡ done (action_outcome s.now (environment program.now (take count variables) kept.now))) × (result.variables ≡ performed_on count variables (action_outcome s.now (environment program.now (take count variables) kept.now))) × (result.count ≡ action_counted s.now (environment program.now (take count variables) kept.now)) }
{
    if s.len() <= LONGEST_ACTION {} else {
        return Performed {
            answer: Err(Refusal::Lengths),
            variables,
            count: 0,
        };
    }
    let mut present = variables;
    match action::run(s, program, &mut present, count, kept) {
        Some(evaluated) => Performed {
            answer: Ok(()),
            variables: present,
            count: evaluated,
        },
        None => Performed {
            answer: Err(Refusal::Grammar),
            variables: present,
            count: 0,
        },
    }
}

// Carries out, in place, the action whose length byte stands at a place, on the first `count` of four
// monitor variables: how much was evaluated of its values. What is refused changes none, and counts none.
pub fn perform_at(
    s: &[u8],
    at: usize,
    program: &[u32],
    variables: &mut [u32; VARIABLES],
    count: usize,
) -> u32
    ensures { (variables.new ≡ performed_on count variables.old (action_outcome (text_from s.now at) (environment program.now (take count variables.old) []))) × (result ≡ action_counted (text_from s.now at) (environment program.now (take count variables.old) [])) }
{
    let text = text_at(s, at);
    if text.len() <= LONGEST_ACTION {
        action::run(text, program, variables, count, &program[..0]).unwrap_or(0)
    } else {
        0
    }
}

// The text whose length byte stands at a place, none past the end.
fn text_at(s: &[u8], at: usize) -> &[u8]
    ensures { result.now ≡ text_from s.now at }
{
    if at < s.len() {} else {
        return &s[..0];
    }
    let rest = &s[at + 1..];
    let size = usize::from(s[at]);
    if size < rest.len() {
        &rest[..size]
    } else {
        rest
    }
}

// Whether the bytes are exactly one condition for so many variables.
pub fn is_condition(s: &[u8], lent: Lent) -> bool
    ensures { result ≡ condition_which (λ _. true) lent s.now }
{
    if (1 <= s.len()) & (s.len() <= LONGEST) {} else {
        return false;
    }
    let end = skip::condition(&s, 0, lent.programs, lent.monitors, lent.kept);
    end == s.len()
}

// Whether they are one that has a value-at-entry. What suits its role has none, so that is asked first:
// the one answer then does.
pub fn condition_has_entry(s: &[u8], lent: Lent) -> bool
    ensures { result ≡ condition_which (λ c. condition_names c is_at_entry) lent s.now }
{
    if is_condition(s, Lent { kept: 0, ..lent }) {
        false
    } else {
        is_condition(s, lent)
    }
}

// Whether they are one that has a monitor variable.
pub fn condition_has_monitor(s: &[u8], lent: Lent) -> bool
    ensures { result ≡ condition_which (λ c. condition_names c is_monitor) lent s.now }
{
    if is_condition(
        s,
        Lent {
            monitors: 0,
            ..lent
        },
    ) {
        false
    } else {
        is_condition(s, lent)
    }
}

// Whether the bytes are exactly a run of assignments for so many variables.
pub fn is_action(s: &[u8], lent: Lent) -> bool
    ensures { result ≡ action_which (λ _. true) lent s.now }
{
    if s.len() <= LONGEST_ACTION {} else {
        return false;
    }
    action::is_run(s, lent)
}

// Whether they are one that has a value-at-entry.
pub fn action_has_entry(s: &[u8], lent: Lent) -> bool
    ensures { result ≡ action_which (λ a. action_names a is_at_entry) lent s.now }
{
    if is_action(s, Lent { kept: 0, ..lent }) {
        false
    } else {
        is_action(s, lent)
    }
}
