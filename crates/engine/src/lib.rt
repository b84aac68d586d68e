// One event on a plan of a sheet or a network, in place: the open calls stand in a row of words, the
// monitor variables beside it.
#![tactic(auto)]

ghost use Rattle.std.specs.Prelude.{◌≡◌, ◌<◌, ◌≤◌};
ghost use Rattle.sheet.specs.Bytes.{byte, half};
ghost use Rattle.sheet.specs.Reading.{reading, sheet_layout, network_layout};
ghost use Rattle.sheet.specs.Answer.{reading_paper, answer};
ghost use Rattle.sheet.specs.Log.{log_reading, events_of};
ghost use Rattle.step.specs.Calls.{most_values};
ghost use Rattle.step.specs.Answers.{run_paper, unless_taken, unless_refused, ran_answer};
ghost use Rattle.engine.specs.Prepared.{sheet_into, network_into};
ghost use Rattle.engine.specs.Runs.{follow_in, follow_count, ends_by, sheet_run, sheet_count, network_run, network_count};
ghost use Rattle.step.specs.declared.RunAnswer.TheVariants as run;
ghost use Rattle.engine.specs.Walk.{words, answered, offer_in, event_count_in};

use condition::VARIABLES;
use refusal::Refusal;
use step::{CALLS, Counted, RunAnswer, VALUES, Verdict};

mod event;
mod follow;
pub mod pack;
mod plan;
mod row;

// The words of a plan, and the number of no transition and of no candidate: what a plan has everywhere
// before it is made. Words by their places, as those of a row of calls, and no structs: fixed memory, and
// an event of the structs that were there before took three times the instructions (docs/DECISIONS.md, 143).
pub const PLAN: usize = 2344;

pub const ABSENT: u16 = 1000;

// The most calls, as a state has their count.
const MOST_OPENED: u8 = CALLS as u8;

// What a state has beside its calls and its variables.
#[derive(Clone, Copy)]
pub struct Running {
    pub main: u8,
    pub opened: u8,
    pub position: u32,
    pub outcome: Option<Verdict>,
}

// An event, and how many values come with it.
#[derive(Clone, Copy)]
pub struct Given {
    pub kind: u8,
    pub unit: u8,
    pub number: u16,
    pub count: usize,
}

// What an event that is taken comes to: how much was evaluated, and what is beside the calls and
// variables.
#[derive(Clone, Copy)]
pub struct Advanced {
    pub count: u32,
    pub run: Running,
}

// Reads a sheet and puts it into a plan; what is refused leaves the plan as it was.
pub fn prepare_sheet(s: &[u8], plan: &mut [u16; PLAN]) -> Result<(), Refusal>
    ensures result_value { reading_paper result ≡ answer (reading sheet_layout s.now) }
    ensures plan_after { plan.new ≡ unless_taken (reading sheet_layout s.now) plan.old (sheet_into s.now plan.old) }
{
    sheet::read_sheet(s)?;
    plan::of_sheet(s, plan);
    Ok(())
}

// The same of a network.
pub fn prepare_network(s: &[u8], plan: &mut [u16; PLAN]) -> Result<(), Refusal>
    ensures result_value { reading_paper result ≡ answer (reading network_layout s.now) }
    ensures plan_after { plan.new ≡ unless_taken (reading network_layout s.now) plan.old (network_into s.now plan.old) }
{
    sheet::read_network(s)?;
    plan::of_network(s, plan);
    Ok(())
}

// Runs a log from the fresh state of a sheet.
pub fn run_sheet(s: &[u8], log: &[u8]) -> Counted
    ensures { (run_paper result.answer ≡ sheet_run s.now log.now) × (result.count ≡ sheet_count s.now log.now) }
{
    let mut plan = [ABSENT; PLAN];
    match prepare_sheet(s, &mut plan) {
        Ok(()) => run_planned(s, &plan, log),
        Err(reason) => unread(reason),
    }
}

// Runs a log from the fresh state of a network.
pub fn run_network(s: &[u8], log: &[u8]) -> Counted
    ensures { (run_paper result.answer ≡ network_run s.now log.now) × (result.count ≡ network_count s.now log.now) }
{
    let mut plan = [ABSENT; PLAN];
    match prepare_network(s, &mut plan) {
        Ok(()) => {
            let size = length_said(s);
            run_planned(s, &plan, log)
        }
        Err(reason) => unread(reason),
    }
}

// Reads a log and follows it.
fn run_planned(s: &[u8], plan: &[u16; PLAN], log: &[u8]) -> Counted
    requires { byte s.now 5 ≤ most_values }
    ensures answer_value { run_paper result.answer ≡ unless_refused (log_reading (byte s.now 5) log.now) (ran_answer ends_by (follow_in s.now plan.now (events_of (byte s.now 5) log.now))) }
    ensures count_value { result.count ≡ unless_taken (log_reading (byte s.now 5) log.now) 0 (follow_count s.now plan.now (events_of (byte s.now 5) log.now)) }
{
    let h = sheet::header_of(s);
    match sheet::read_log(log, h.programs) {
        Ok(_) => follow::follow(s, plan, log, h.programs),
        Err(reason) => unread(reason),
    }
}

// A run of which the sheet, the network or the log is refused.
fn unread(reason: Refusal) -> Counted
    ensures { result ≡ record { answer = run.Refused reason; count = 0 } }
{
    Counted {
        answer: RunAnswer::Refused(reason),
        count: 0,
    }
}

// How long a network says it is.
fn length_said(s: &[u8]) -> usize
    ensures { (result ≡ half s.now 0) × (result < 65536) }
{
    usize::from(sheet::byte_at(s, 0)) * 256 + usize::from(sheet::byte_at(s, 1))
}

// Offers one event: 9 to 15, or taken. A refused event alters nothing.
pub fn advance(
    s: &[u8],
    plan: &[u16; PLAN],
    run: Running,
    row: &mut [u32; 256],
    variables: &mut [u32; VARIABLES],
    given: Given,
    values: &[u32; VALUES],
) -> Result<Advanced, Refusal>
    ensures value { answered run result ≡ record { answer = (offer_in s.now plan.now (words run row.old variables.old) given values.now).answer; count = event_count_in s.now plan.now (words run row.old variables.old) given values.now; run = (offer_in s.now plan.now (words run row.old variables.old) given values.now).state.run } }
    ensures row_after { (row.new ≡ (offer_in s.now plan.now (words run row.old variables.old) given values.now).state.row) × (variables.new ≡ (offer_in s.now plan.now (words run row.old variables.old) given values.now).state.variables) }
{
    if run.opened <= MOST_OPENED {} else {
        return Err(Refusal::Unsound);
    }
    let place = row::place_of(row, usize::from(run.opened), u32::from(given.number));
    row::admit(plan, run, row, given, place)?;
    if given.kind == 0 {
        Ok(event::entered(s, plan, run, row, variables, given, values))
    } else {
        let leaving = event::Leaving {
            unit: given.unit,
            place,
        };
        Ok(event::exited(s, plan, run, row, variables, leaving, values))
    }
}
