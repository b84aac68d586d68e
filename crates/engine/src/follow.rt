// Following a log in place, record by record: each event's values are read off the log into the same
// eight words, those behind them staying zero.

ghost use Rattle.std.specs.Prelude.{◌≡◌, ◌+◌, ◌*◌, ◌≤◌, length};
ghost use Rattle.std.proofs.lemmas.List.Edits.{sets};
ghost use Rattle.sheet.specs.Bytes.{word};
ghost use Rattle.sheet.specs.Table.{table};
ghost use Rattle.sheet.specs.Decode.{word_form};
ghost use Rattle.sheet.specs.Log.{log_reading, events_of};
ghost use Rattle.step.specs.Calls.{most_values};
ghost use Rattle.step.specs.Answers.{run_paper, ran_answer};
ghost use Rattle.engine.specs.Runs.{start_in, follow_in, follow_count, ends_by, given_at};

use crate::{Given, PLAN, Running, advance};
use condition::VARIABLES;
use step::{Counted, RunAnswer, VALUES};

// Follows the records of a log, of so many values each, from the state before the first event.
pub(crate) fn follow(s: &[u8], plan: &[u16; PLAN], log: &[u8], programs: u8) -> Counted
    requires { (log_reading programs log.now ≡ 0) × (programs ≤ most_values) }
    ensures answer_value { run_paper result.answer ≡ ran_answer ends_by (follow_in s.now plan.now (events_of programs log.now)) }
    ensures count_value { result.count ≡ follow_count s.now plan.now (events_of programs log.now) }
{
    let count = usize::from(programs);
    let size = 4 + 4 * count;
    let end = sheet::word_at(log, 0) as usize;
    let mut run = started(s);
    let mut row = [0u32; 256];
    let mut variables = initial(s);
    let mut values = [0u32; VALUES];
    let mut i: u32 = 0;
    let mut total: u64 = 0;
    let mut at = 6;
    while at < end {
        let given = given_at(log, at, programs);
        read_values(log, at + 4, count, &mut values);
        i += 1;
        let next = match advance(s, plan, run, &mut row, &mut variables, given, &values) {
            Ok(next) => next,
            Err(reason) => {
                return counted(RunAnswer::RefusedAt(reason, i), total);
            }
        };
        total += u64::from(next.count);
        run = next.run;
        if let Some(v) = run.outcome {
            return counted(RunAnswer::Violated(v), total);
        }
        at += size;
    }
    counted(RunAnswer::Clean(run.position, run.main, run.opened), total)
}

fn counted(answer: RunAnswer, count: u64) -> Counted
    ensures { result ≡ record { answer = answer; count = count } }
{
    Counted { answer, count }
}

// What is beside calls and variables before the first event.
fn started(s: &[u8]) -> Running
    ensures { result ≡ (start_in s.now).run }
{
    let h = sheet::header_of(s);
    Running {
        main: h.start,
        opened: 0,
        position: 0,
        outcome: None,
    }
}

// The initial values of the variables.
fn initial(s: &[u8]) -> [u32; VARIABLES]
    ensures { result ≡ (start_in s.now).variables }
{
    let h = sheet::header_of(s);
    let w = sheet::words_at(s, 14, h.monitors);
    [w[0], w[1], w[2], w[3]]
}

// The record at a place, without its values.
fn given_at(log: &[u8], at: usize, programs: u8) -> Given
    requires { at + 4 ≤ length log.now }
    ensures { result ≡ given_at log.now at programs }
{
    Given {
        kind: log[at],
        unit: log[at + 1],
        number: u16::from_be_bytes([log[at + 2], log[at + 3]]),
        count: usize::from(programs),
    }
}

// Reads the n values from a place on; the words behind them stay as they were.
fn read_values(log: &[u8], at: usize, n: usize, values: &mut [u32; VALUES])
    requires { (at + 4 * n ≤ length log.now) × (n ≤ most_values) }
    ensures { values.new ≡ sets values.old 0 (table word_form n log.now at) }
{
    let mut here = at;
    for i in 0..n {
        values[i] = word_at(log, here);
        here += 4;
    }
}

// Four bytes, the highest first.
fn word_at(log: &[u8], at: usize) -> u32
    requires { at + 4 ≤ length log.now }
    ensures { result ≡ word log.now at }
{
    u32::from_be_bytes([log[at], log[at + 1], log[at + 2], log[at + 3]])
}
