// An event that is not refused: the transition that is taken, what an entry arms, what an exit judges.

ghost use Rattle.std.specs.Prelude.{◌≡◌, [], ◌+◌, ◌*◌, ◌<◌, ◌≤◌, min, length, set, take};
ghost use Rattle.std.proofs.lemmas.List.Edits.{sets};
ghost use Rattle.condition.specs.Meaning.{environment};
ghost use Rattle.step.specs.Calls.{most_calls, most_armed};
ghost use Rattle.engine.specs.Plan.{cell_of, candidate_of, post_of};
ghost use Rattle.engine.specs.Walk.{holds_by, count_by, found_in, found_count, armed_in, armed_count, low_in, low_count, main_after, variables_after, action_count_after, run_after, words, entered_in, exited_in, entered_count, exited_count};

use crate::{Advanced, Given, PLAN, Running, row};
use condition::{Held, VARIABLES};
use step::{ARMED, VALUES};

// The most numbers armed for a call, as a row has their count.
const MOST_ARMED: u32 = ARMED as u32;

// The unit of an exit's call, and where its words begin.
#[derive(Clone, Copy)]
pub(crate) struct Leaving {
    pub unit: u8,
    pub place: usize,
}

// The transition that is found, or 96, and how much was evaluated until it was. 96 and not an Option: it is
// also the place of none in the plan, so that a network reads its candidates there without a test.
#[derive(Clone, Copy)]
struct Found {
    transition: usize,
    count: u32,
}

// The main state behind a transition, and how much of its action was evaluated.
#[derive(Clone, Copy)]
struct Led {
    main: u8,
    count: u32,
}

// The lowest number that fails, or 256, and how much was evaluated to judge all of them. 256 and not an
// Option: a number of the row may be any word, and the lowest so far is then the lesser of two.
#[derive(Clone, Copy)]
struct Lowest {
    number: u16,
    count: u32,
}

// An entry: what it arms, and the values kept.
pub(crate) fn entered(
    s: &[u8],
    plan: &[u16; PLAN],
    run: Running,
    row: &mut [u32; 256],
    variables: &mut [u32; VARIABLES],
    given: Given,
    values: &[u32; VALUES],
) -> Advanced
    requires { (run.opened < most_calls) × (run.position < 4294967295) }
    ensures variables_after { words result.run row.new variables.new ≡ entered_in s.now plan.now (words run row.old variables.old) given values.now }
    ensures count_value { result.count ≡ entered_count s.now plan.now (words run row.old variables.old) given values.now }
{
    let program = condition::front(&values[..], usize::from(plan[1]));
    let monitor = condition::front(&variables[..], usize::from(plan[2]));
    let cell = cell_of(run.main, given.unit);
    let found = find(s, plan, usize::from(plan[8 + 2 * cell]), program, monitor);
    let at = 16 * usize::from(run.opened);
    let first = candidate(plan, cell, found.transition);
    row::put(row, at, given, run.position + 1, values);
    let asked = arm(s, plan, first, program, monitor, row, at);
    let to = moved(s, plan, found.transition, run.main, variables, values);
    Advanced {
        run: after(plan, run.position, to.main, run.opened + 1, 256, 0),
        count: found.count + asked + to.count,
    }
}

// An exit: what is armed for its call is judged, and its place is free.
pub(crate) fn exited(
    s: &[u8],
    plan: &[u16; PLAN],
    run: Running,
    row: &mut [u32; 256],
    variables: &mut [u32; VARIABLES],
    leaving: Leaving,
    values: &[u32; VALUES],
) -> Advanced
    requires { (leaving.place + 16 ≤ 16 * run.opened) × (run.opened ≤ most_calls) × (run.position < 4294967295) }
    ensures variables_after { words result.run row.new variables.new ≡ exited_in s.now plan.now (words run row.old variables.old) leaving.unit leaving.place values.now }
    ensures count_value { result.count ≡ exited_count s.now plan.now (words run row.old variables.old) leaving.unit leaving.place values.now }
{
    let program = condition::front(&values[..], usize::from(plan[1]));
    let monitor = condition::front(&variables[..], usize::from(plan[2]));
    let low = lowest_failing(s, plan, row, leaving.place, program, monitor);
    let entry = row[leaving.place + 7];
    row::close(row, leaving.place, usize::from(run.opened));
    let cell = cell_of(run.main, leaving.unit);
    let found = find(s, plan, usize::from(plan[9 + 2 * cell]), program, monitor);
    let to = moved(s, plan, found.transition, run.main, variables, values);
    Advanced {
        run: after(
            plan,
            run.position,
            to.main,
            run.opened - 1,
            low.number,
            entry,
        ),
        count: low.count + found.count + to.count,
    }
}

// What stands beside the calls and variables after an event, for the lowest number that fails and the
// position of the entry of its call.
fn after(plan: &[u16; PLAN], position: u32, main: u8, opened: u8, low: u16, entry: u32) -> Running
    requires { position < 4294967295 }
    ensures { result ≡ run_after plan.now position main opened low entry }
{
    let bad = plan[3];
    let next = position + 1;
    Running {
        main,
        opened,
        position: next,
        outcome: step::outcomes::outcome(bad, next, main, low, entry),
    }
}

pub(crate) fn cell_of(main: u8, unit: u8) -> usize
    ensures { (result ≡ cell_of main unit) × (result < 256) }
{
    (16 * usize::from(main) + usize::from(unit)) % 256
}

// The first candidate of an entry: of its state and unit, or of the transition that is taken.
fn candidate(plan: &[u16; PLAN], cell: usize, t: usize) -> usize
    requires { (cell < 256) × (t ≤ 96) }
    ensures { (result ≡ candidate_of plan.now cell t) × (result < 65536) }
{
    if plan[4] == 0 {
        usize::from(plan[936 + cell])
    } else {
        usize::from(plan[936 + t])
    }
}

// The first transition, from one on, whose condition holds; 96 where there is none.
fn find<'a>(
    s: &[u8],
    plan: &[u16; PLAN],
    first: usize,
    program: &'a [u32],
    monitor: &'a [u32],
) -> Found
    requires { first < 65536 }
    ensures { (result.transition ≡ found_in s.now plan.now first (environment program.now monitor.now [])) × (result.transition ≤ 96) × (result.count ≡ found_count s.now plan.now first (environment program.now monitor.now [])) }
{
    let mut t = first;
    let mut count = 0;
    while t < 96 {
        let guard = usize::from(plan[552 + 4 * t]);
        let held = holds(s, guard, program, monitor, &program[..0]);
        count += held.count;
        if held.holds {
            return Found {
                transition: t,
                count,
            };
        }
        t = t + 1 + usize::from(plan[555 + 4 * t]);
    }
    Found {
        transition: 96,
        count,
    }
}

// The main state after a transition, whose action is carried out on the variables, and how much of it
// was evaluated.
fn moved(
    s: &[u8],
    plan: &[u16; PLAN],
    t: usize,
    main: u8,
    variables: &mut [u32; VARIABLES],
    values: &[u32; VALUES],
) -> Led
    requires { t ≤ 96 }
    ensures { (result.main ≡ main_after plan.now t main) × (variables.new ≡ variables_after s.now plan.now t values.now variables.old) × (result.count ≡ action_count_after s.now plan.now t values.now variables.old) }
{
    if t < 96 {
        let at = usize::from(plan[553 + 4 * t]);
        let mut count = 0;
        if at == 0 {} else {
            let program = condition::front(&values[..], usize::from(plan[1]));
            count = condition::perform_at(s, at, program, variables, usize::from(plan[2]));
        }
        Led {
            main: (plan[554 + 4 * t] % 256) as u8,
            count,
        }
    } else {
        Led { main, count: 0 }
    }
}

// Stores the numbers of the candidates, from one on, whose condition holds: the first four, and how
// many. Answers how much was evaluated.
fn arm<'a>(
    s: &[u8],
    plan: &[u16; PLAN],
    first: usize,
    program: &'a [u32],
    monitor: &'a [u32],
    row: &mut [u32; 256],
    at: usize,
) -> u32
    requires { (first < 65536) × (at + 16 ≤ 256) }
    ensures value { result ≡ armed_count s.now plan.now first (environment program.now monitor.now []) }
    ensures row_after { row.new ≡ set (sets row.old (at + 3) (take most_armed (armed_in s.now plan.now first (environment program.now monitor.now [])))) (at + 2) (length (armed_in s.now plan.now first (environment program.now monitor.now []))) }
{
    let mut count: u32 = 0;
    let mut evaluated = 0;
    let mut to = at + 3;
    let mut i = first;
    while i < 384 {
        let asked = usize::from(plan[1192 + 3 * i]);
        let held = holds(s, asked, program, monitor, &program[..0]);
        evaluated += held.count;
        if held.holds {
            if count < MOST_ARMED {
                row[to] = u32::from(plan[1193 + 3 * i]);
                to += 1;
            }
            count += 1;
        }
        i = i + 1 + usize::from(plan[1194 + 3 * i]);
    }
    row[at + 2] = count;
    evaluated
}

// The lowest number armed for the call at a place whose postcondition fails, or 256; all of them are
// judged.
fn lowest_failing<'a>(
    s: &[u8],
    plan: &[u16; PLAN],
    row: &'a [u32; 256],
    at: usize,
    program: &'a [u32],
    monitor: &'a [u32],
) -> Lowest
    requires { at + 16 ≤ 256 }
    ensures { (result.number ≡ low_in s.now plan.now row.now at program.now monitor.now) × (result.count ≡ low_count s.now plan.now row.now at program.now monitor.now) }
{
    let all = &row[..];
    let kept = condition::front(&all[at + 8..at + 16], usize::from(plan[1]));
    let count = four(row[at + 2]);
    let mut number = 256;
    let mut evaluated = 0;
    for i in 0..count {
        let n = row[at + 3 + i];
        let held = holds(s, post(plan, n), program, monitor, kept);
        evaluated += held.count;
        if held.holds {} else {
            number = lesser(number, n);
        }
    }
    Lowest {
        number,
        count: evaluated,
    }
}

// At most four.
pub(crate) fn four(count: u32) -> usize
    ensures { (result ≡ min count most_armed) × (result ≤ most_armed) }
{
    (count as usize).min(ARMED)
}

fn lesser(low: u16, n: u32) -> u16
    ensures { result ≡ min low n }
{
    u32::from(low).min(n) as u16
}

// Where the postcondition of a number stands.
fn post(plan: &[u16; PLAN], n: u32) -> usize
    ensures { result ≡ post_of plan.now n }
{
    let i = n as usize;
    if i < 32 {
        usize::from(plan[520 + i])
    } else {
        0
    }
}

// Whether the condition at a place holds, and how much of it was evaluated; 0 stands for `true`.
fn holds<'a>(s: &[u8], at: usize, program: &'a [u32], monitor: &'a [u32], kept: &'a [u32]) -> Held
    ensures { (result.holds ≡ holds_by s.now at (environment program.now monitor.now kept.now)) × (result.count ≡ count_by s.now at (environment program.now monitor.now kept.now)) }
{
    if at == 0 {
        Held {
            holds: true,
            count: 1,
        }
    } else {
        condition::holds_at(s, at, program, monitor, kept)
    }
}
