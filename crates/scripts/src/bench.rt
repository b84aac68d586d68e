// What the frames of a script lay out, and what is done with it.

use crate::Engine;
use crate::frame::{Action, Event};
use crate::lines::{CallAt, Judged, Named};
use crate::set::Setting;
use std::io;
use std::io::Write;
use step::{Cause, Counted, RunAnswer};

#[derive(Drop)]
pub(crate) struct Bench<E: Engine> {
    state: E::State,
    saved: E::State,
}

impl<E: Engine> Bench<E> {
    pub(crate) fn new() -> Bench<E> {
        Bench {
            state: E::zero(),
            saved: E::zero(),
        }
    }

    pub(crate) fn carry_out<W: Write>(
        &mut self,
        out: &mut W,
        text: &[u8],
        action: Action<'_, E>,
    ) -> io::Result<()> {
        match action {
            Action::Fresh => self.start(out, text)?,
            Action::Set(setting) => self.set(setting),
            Action::Save => self.saved = self.state,
            Action::Restore => self.state = self.saved,
            Action::Offer(event) => {
                self.offer(out, text, &event)?;
            }
            Action::Take(event) => self.state = self.offer(out, text, &event)?,
            Action::Run(log) => print_run(out, E::run(text, log))?,
            Action::Own(own) => E::answer_own(out, self.state, own)?,
        }
        Ok(())
    }

    // Makes the fresh state the state.
    fn start<W: Write>(&mut self, out: &mut W, text: &[u8]) -> io::Result<()> {
        let made = E::fresh(text);
        match made.reading {
            Ok(()) => write!(out, "accepted")?,
            Err(refusal) => write!(out, "{refusal}")?,
        }
        self.state = made.state;
        print_state::<E, W>(out, &made.state)
    }

    fn set(&mut self, setting: Setting) {
        self.state = match E::field(setting.field) {
            Some(field) => {
                let mut shared = E::shared(&self.state);
                shared.set(field, setting);
                E::with_shared(self.state, shared)
            }
            None => E::with_own(self.state, setting),
        };
    }

    // The state that comes back.
    fn offer<W: Write>(&self, out: &mut W, text: &[u8], event: &Event) -> io::Result<E::State> {
        let offered = E::offer(text, self.state, event.record, &event.values);
        match offered.answer {
            Ok(()) => write!(out, "taken")?,
            Err(refusal) => write!(out, "{refusal}")?,
        }
        write!(out, " count {}", offered.count)?;
        print_state::<E, W>(out, &offered.state)?;
        Ok(offered.state)
    }
}

fn print_run<W: Write>(out: &mut W, ran: Counted) -> io::Result<()> {
    match ran.answer {
        RunAnswer::Violated(verdict) => {
            write!(out, "{}", Judged(verdict))?;
            match verdict.cause {
                Cause::BadState(_) => write!(out, " entry -")?,
                Cause::Triple(_) | Cause::Both(_, _) => write!(out, " entry {}", verdict.entry)?,
            }
        }
        RunAnswer::Clean(events, state, opened) => {
            write!(out, "clean {events} state {state} open {opened}")?;
        }
        RunAnswer::Refused(refusal) => write!(out, "{refusal}")?,
        RunAnswer::RefusedAt(refusal, record) => write!(out, "{refusal} at {record}")?,
    }
    writeln!(out, " count {}", ran.count)
}

// A state whole, and the end of the line: each field that is not zero, then the verdict.
fn print_state<E: Engine, W: Write>(out: &mut W, state: &E::State) -> io::Result<()> {
    let shared = E::shared(state);
    write!(out, "{}", Named("m", u32::from(shared.main)))?;
    for (i, word) in shared.variables.iter().enumerate() {
        if *word != 0 {
            write!(out, " x{i}={}", word.cast_signed())?;
        }
    }
    write!(out, "{}", Named("o", u32::from(shared.opened)))?;
    for (i, call) in shared.calls.iter().enumerate() {
        write!(out, "{}", CallAt(i, call))?;
        E::print_behind_call(out, state, i)?;
    }
    E::print_behind_calls(out, state)?;
    write!(out, "{}", Named("p", shared.position))?;
    if let Some(verdict) = shared.outcome {
        write!(out, " {} entry {}", Judged(verdict), verdict.entry)?;
    }
    writeln!(out)
}
