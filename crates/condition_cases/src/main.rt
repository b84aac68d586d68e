// Evaluates, carries out and judges framed conditions, values and actions from standard input, and
// prints a line for each. reference/CASES.md has the format of the frames and of the lines.
#![tactic(auto)]

use condition::Lent;
use frames::{Frame, Frames, LentWords, Reader};
use std::io;
use std::io::{BufWriter, Read, Write};

// What is asked of an expression.
#[derive(Drop)]
enum Question {
    Condition,
    Value,
    Action,
    IsCondition,
    IsAction,
}

// A question, the expression, and the values that are lent to it.
#[derive(Drop)]
struct Case<'a> {
    question: Question,
    text: &'a [u8],
    programs: LentWords<'a>,
    monitors: LentWords<'a>,
    kept: LentWords<'a>,
}

impl<'a> Frame<'a> for Case<'a> {
    fn read(page: &mut Reader<'a>) -> Option<Case<'a>> {
        let question = match page.byte()? {
            0 => Question::Condition,
            1 => Question::Value,
            2 => Question::Action,
            3 => Question::IsCondition,
            4 => Question::IsAction,
            _ => return None,
        };
        let size = page.short()?;
        Some(Case {
            question,
            text: page.part(usize::from(size))?,
            programs: page.lent_words()?,
            monitors: page.lent_words()?,
            kept: page.lent_words()?,
        })
    }
}

// Reads at most 64 pages of frames, and answers one after the other.
fn main(rt: HostRuntime) -> io::Result<()> {
    let mut input = Vec::new(rt.alloc());
    rt.stdin().take(frames::INPUT).read_to_end(&mut input)?;
    let mut out = BufWriter::new(rt.alloc(), rt.stdout())?;
    for page in input.chunks(frames::PAGE) {
        for case in Frames::<Case>::new(page) {
            answer(&mut out, &case)?;
        }
    }
    out.flush()
}

fn answer<W: Write>(out: &mut W, case: &Case) -> io::Result<()> {
    let text = case.text;
    let lent = Lent {
        programs: case.programs.len(),
        monitors: case.monitors.len(),
        kept: case.kept.len(),
    };
    match case.question {
        Question::Condition => print_condition(out, case),
        Question::Value => print_value(out, case),
        Question::Action => print_performed(out, case),
        Question::IsCondition => writeln!(
            out,
            "{}{}{}",
            u8::from(condition::is_condition(text, lent)),
            u8::from(condition::condition_has_entry(text, lent)),
            u8::from(condition::condition_has_monitor(text, lent))
        ),
        Question::IsAction => writeln!(
            out,
            "{}{}",
            u8::from(condition::is_action(text, lent)),
            u8::from(condition::action_has_entry(text, lent))
        ),
    }
}

fn print_condition<W: Write>(out: &mut W, case: &Case) -> io::Result<()> {
    let found = condition::evaluate_condition(
        case.text,
        &case.programs.read(),
        &case.monitors.read(),
        &case.kept.read(),
    );
    match found.answer {
        Ok(holds) => write!(out, "{holds}")?,
        Err(refusal) => write!(out, "{refusal}")?,
    }
    writeln!(out, " count {}", found.count)
}

fn print_value<W: Write>(out: &mut W, case: &Case) -> io::Result<()> {
    let found = condition::evaluate_value(
        case.text,
        &case.programs.read(),
        &case.monitors.read(),
        &case.kept.read(),
    );
    match found.answer {
        Ok(word) => write!(out, "{}", word.cast_signed())?,
        Err(refusal) => write!(out, "{refusal}")?,
    }
    writeln!(out, " count {}", found.count)
}

// The variables after an action: as many as were lent, and 0 is lent for each that is missing.
fn print_performed<W: Write>(out: &mut W, case: &Case) -> io::Result<()> {
    let mut variables = [0; condition::VARIABLES];
    for (variable, word) in variables.iter_mut().zip(case.monitors.read().iter()) {
        *variable = *word;
    }
    let count = case.monitors.len();
    let done = condition::perform(
        case.text,
        &case.programs.read(),
        variables,
        count,
        &case.kept.read(),
    );
    match done.answer {
        Ok(()) => {
            write!(out, "done")?;
            for word in done.variables.iter().take(count) {
                write!(out, " {}", word.cast_signed())?;
            }
        }
        Err(refusal) => write!(out, "{refusal}")?,
    }
    writeln!(out, " count {}", done.count)
}
