// WATCH for those who embed it in C or Rust: each operation as a function with plain arguments.
#![tactic(auto)]

ghost use Rattle.std.specs.Prelude.{◌≡◌, ◌≤◌, length};
ghost use Rattle.std.proofs.lemmas.List.Edits.{sets};
ghost use Rattle.step.specs.Verdicts.{cause_state, cause_triple};
ghost use Rattle.step.specs.Answers.{run_paper};
ghost use Rattle.monitor.specs.Answers as OnSheet;
ghost use Rattle.network.specs.Answers as OnNetwork;
ghost use Rattle.translation.specs.Answer.{translated_paper, translated_of, buffer_of, card_of, card_buffer_of};
ghost use Rattle.lines.specs.Lines.{lines_of};
ghost use Rattle.embed.specs.Codes.{code_of, first_of, second_of, third_of, fourth_of, or_none, refusal_of, size_of};

use refusal::Refusal;
use step::{Cause, RunAnswer};

// An answer as five numbers.
#[derive(Clone, Copy)]
struct Numbers {
    code: u32,
    first: u32,
    second: u32,
    third: u32,
    fourth: u32,
}

// Runs a log from the fresh state of a sheet: answers the code of what it comes to, its numbers through
// the four behind the log, and how much was evaluated through the last.
#[unsafe(no_mangle)]
pub extern "C" fn watch_run(
    sheet: &[u8],
    log: &[u8],
    first: &mut u32,
    second: &mut u32,
    third: &mut u32,
    fourth: &mut u32,
    count: &mut u64,
) -> u32
    ensures value { result ≡ code_of (OnSheet.run_of sheet.now log.now) }
    ensures first_after { first.new ≡ first_of (OnSheet.run_of sheet.now log.now) }
    ensures second_after { second.new ≡ second_of (OnSheet.run_of sheet.now log.now) }
    ensures third_after { third.new ≡ third_of (OnSheet.run_of sheet.now log.now) }
    ensures fourth_after { fourth.new ≡ fourth_of (OnSheet.run_of sheet.now log.now) }
    ensures count_after { count.new ≡ OnSheet.run_count_of sheet.now log.now }
{
    let ran = monitor::run(sheet, log);
    let answer = ran.answer;
    let n = numbered(answer);
    *count = ran.count;
    *first = n.first;
    *second = n.second;
    *third = n.third;
    *fourth = n.fourth;
    n.code
}

// The same on a network.
#[unsafe(no_mangle)]
pub extern "C" fn watch_run_network(
    network: &[u8],
    log: &[u8],
    first: &mut u32,
    second: &mut u32,
    third: &mut u32,
    fourth: &mut u32,
    count: &mut u64,
) -> u32
    ensures value { result ≡ code_of (OnNetwork.run_of network.now log.now) }
    ensures first_after { first.new ≡ first_of (OnNetwork.run_of network.now log.now) }
    ensures second_after { second.new ≡ second_of (OnNetwork.run_of network.now log.now) }
    ensures third_after { third.new ≡ third_of (OnNetwork.run_of network.now log.now) }
    ensures fourth_after { fourth.new ≡ fourth_of (OnNetwork.run_of network.now log.now) }
    ensures count_after { count.new ≡ OnNetwork.run_count_of network.now log.now }
{
    let ran = network::run(network, log);
    let answer = ran.answer;
    let n = numbered(answer);
    *count = ran.count;
    *first = n.first;
    *second = n.second;
    *third = n.third;
    *fourth = n.fourth;
    n.code
}

// Translates a sheet: 0, with its network at the front of the buffer and how many bytes it has; or
// the refusal, with both as they were.
#[unsafe(no_mangle)]
pub extern "C" fn watch_translate(sheet: &[u8], out: &mut [u8], size: &mut usize) -> u32
    ensures value { result ≡ refusal_of (translated_of sheet.now out.old) }
    ensures out_after { out.new ≡ buffer_of sheet.now out.old }
    ensures size_after { size.new ≡ size_of (translated_of sheet.now out.old) size.old }
{
    hand_over(translation::translate(sheet, out), size)
}

// The same in the second form, for the card.
#[unsafe(no_mangle)]
pub extern "C" fn watch_translate_card(sheet: &[u8], out: &mut [u8], size: &mut usize) -> u32
    ensures value { result ≡ refusal_of (card_of sheet.now out.old) }
    ensures out_after { out.new ≡ card_buffer_of sheet.now out.old }
    ensures size_after { size.new ≡ size_of (card_of sheet.now out.old) size.old }
{
    hand_over(translation::translate_card(sheet, out), size)
}

// Writes the lines that the program prints for an input, as much of them as there is room for, and
// answers how many bytes they have: at most 300.
#[unsafe(no_mangle)]
pub extern "C" fn watch_lines(input: &[u8], out: &mut [u8]) -> usize
    ensures value { (result ≡ length (lines_of input.now)) × (result ≤ 300) }
    ensures out_after { out.new ≡ sets out.old 0 (lines_of input.now) }
{
    lines::lines(input, out)
}

// What translating answered: the refusal, or 0 and how many bytes there are.
fn hand_over(answer: Result<usize, Refusal>, size: &mut usize) -> u32
    ensures { (result ≡ refusal_of (translated_paper answer)) × (size.new ≡ size_of (translated_paper answer) size.old) }
{
    match answer {
        Ok(n) => {
            *size = n;
            0
        }
        Err(reason) => u32::from(reason.number()),
    }
}

fn numbered(answer: RunAnswer) -> Numbers
    ensures { (result.code ≡ code_of (run_paper answer)) × (result.first ≡ first_of (run_paper answer)) × (result.second ≡ second_of (run_paper answer)) × (result.third ≡ third_of (run_paper answer)) × (result.fourth ≡ fourth_of (run_paper answer)) }
{
    match answer {
        RunAnswer::Violated(v) => {
            let cause = v.cause;
            Numbers {
                code: 1,
                first: v.position,
                second: state(cause),
                third: triple(cause),
                fourth: v.entry,
            }
        }
        RunAnswer::Clean(n, q, k) => Numbers {
            code: 0,
            first: n,
            second: u32::from(q),
            third: u32::from(k),
            fourth: 0,
        },
        RunAnswer::Refused(reason) => Numbers {
            code: 2,
            first: u32::from(reason.number()),
            second: 0,
            third: 0,
            fourth: 0,
        },
        RunAnswer::RefusedAt(reason, record) => Numbers {
            code: 3,
            first: u32::from(reason.number()),
            second: record,
            third: 0,
            fourth: 0,
        },
    }
}

fn state(cause: Cause) -> u32
    ensures { result ≡ or_none (cause_state cause) }
{
    match cause {
        Cause::BadState(q) => u32::from(q),
        Cause::Triple(_) => 256,
        Cause::Both(q, _) => u32::from(q),
    }
}

fn triple(cause: Cause) -> u32
    ensures { result ≡ or_none (cause_triple cause) }
{
    match cause {
        Cause::BadState(_) => 256,
        Cause::Triple(t) => u32::from(t),
        Cause::Both(_, t) => u32::from(t),
    }
}
