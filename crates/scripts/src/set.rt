// Setting one field of a state.

ghost use Rattle.std.specs.Prelude.{◌≡◌, ◌%◌};

use crate::Shared;
use step::{Call, Cause, Verdict};

// The fields that a state has in both engines: those of a call are at the place i, the last four make a
// verdict or change it.
#[derive(Clone, Copy)]
pub enum Field {
    Main,
    Variable,
    Opened,
    CallNumber,
    CallUnit,
    CallEntry,
    CallKept,
    Position,
    NoVerdict,
    BadState,
    Triple,
    Both,
    VerdictEntry,
}

// The number of a field, its places, and its value. What does not fit the field is cut to its low bytes.
#[derive(Clone, Copy)]
pub struct Setting {
    pub field: u8,
    pub i: u8,
    pub j: u8,
    pub value: u32,
}

impl Setting {
    pub fn low_byte(self) -> u8
        ensures { result ≡ self.value % 256 }
    {
        (self.value % 256) as u8
    }

    pub fn low_short(self) -> u16
        ensures { result ≡ self.value % 65536 }
    {
        (self.value % 65536) as u16
    }
}

impl Shared {
    // A place that is not there sets nothing.
    pub(crate) fn set(&mut self, field: Field, to: Setting) {
        match field {
            Field::Main => self.main = to.low_byte(),
            Field::Variable => {
                if let Some(variable) = self.variables.get_mut(usize::from(to.i)) {
                    *variable = to.value;
                }
            }
            Field::Opened => self.opened = to.low_byte(),
            Field::CallNumber | Field::CallUnit | Field::CallEntry | Field::CallKept => {
                if let Some(call) = self.calls.get_mut(usize::from(to.i)) {
                    set_call(call, field, to);
                }
            }
            Field::Position => self.position = to.value,
            Field::NoVerdict => self.outcome = None,
            Field::BadState => self.judge(to.value, Cause::BadState(to.i)),
            Field::Triple => self.judge(to.value, Cause::Triple(to.i)),
            Field::Both => self.judge(to.value, Cause::Both(to.i, to.j)),
            Field::VerdictEntry => {
                if let Some(verdict) = &mut self.outcome {
                    verdict.entry = to.value;
                }
            }
        }
    }

    fn judge(&mut self, position: u32, cause: Cause) {
        self.outcome = Some(Verdict {
            position,
            cause,
            entry: 0,
        });
    }
}

fn set_call(call: &mut Call, field: Field, to: Setting) {
    match field {
        Field::CallNumber => call.number = to.low_short(),
        Field::CallUnit => call.unit = to.low_byte(),
        Field::CallEntry => call.entry = to.value,
        Field::CallKept => {
            if let Some(kept) = call.kept.get_mut(usize::from(to.j)) {
                *kept = to.value;
            }
        }
        _ => {}
    }
}
