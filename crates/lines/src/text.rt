// Answers as text. Each writer stores where there is room and answers the next place.

ghost use Rattle.std.specs.Prelude.{◌≡◌, ◌++◌, ◌≤◌, ◌<◌, length};
ghost use Rattle.step.specs.declared.RunAnswer.TheVariants.{Violated, Clean};
ghost use Rattle.lines.specs.Text.{decimal, digit};
ghost use Rattle.lines.specs.Walk.{Puts, line_of};

use step::{Cause, RunAnswer, Verdict};

// A line for an answer.
pub(crate) fn line(out: &mut [u8], at: usize, answer: RunAnswer) -> usize
    requires { at ≤ 1000 }
    ensures { Puts out.old out.new at (line_of answer) result 150 }
{
    match answer {
        RunAnswer::Violated(v) => violated(out, at, v),
        RunAnswer::Clean(n, q, k) => clean(out, at, n, q, k),
        RunAnswer::Refused(reason) => {
            let next = named(out, at, b"refused ", u32::from(reason.number()));
            text(out, next, b"\n")
        }
        RunAnswer::RefusedAt(reason, record) => {
            let next = named(out, at, b"refused ", u32::from(reason.number()));
            let next = named(out, next, b" at ", record);
            text(out, next, b"\n")
        }
    }
}

fn violated(out: &mut [u8], at: usize, v: Verdict) -> usize
    requires { at ≤ 1000 }
    ensures { Puts out.old out.new at (line_of (Violated v)) result 150 }
{
    let cause = v.cause;
    let next = named(out, at, b"violated ", v.position);
    match cause {
        Cause::BadState(q) => {
            let next = named(out, next, b" state ", u32::from(q));
            text(out, next, b" triple - entry -\n")
        }
        Cause::Triple(t) => {
            let next = text(out, next, b" state -");
            let next = named(out, next, b" triple ", u32::from(t));
            let next = named(out, next, b" entry ", v.entry);
            text(out, next, b"\n")
        }
        Cause::Both(q, t) => {
            let next = named(out, next, b" state ", u32::from(q));
            let next = named(out, next, b" triple ", u32::from(t));
            let next = named(out, next, b" entry ", v.entry);
            text(out, next, b"\n")
        }
    }
}

fn clean(out: &mut [u8], at: usize, n: u32, q: u8, k: u8) -> usize
    requires { at ≤ 1000 }
    ensures { Puts out.old out.new at (line_of (Clean n q k)) result 150 }
{
    let next = named(out, at, b"clean ", n);
    let next = named(out, next, b" state ", u32::from(q));
    let next = named(out, next, b" open ", u32::from(k));
    text(out, next, b"\n")
}

// A name, and a number in decimal behind it.
fn named(out: &mut [u8], at: usize, name: &[u8], n: u32) -> usize
    requires { (at ≤ 2000) × (length name.now ≤ 10) }
    ensures { Puts out.old out.new at (name.now ++ decimal n) result 30 }
{
    let next = text(out, at, name);
    number(out, next, n)
}

// A number in decimal, without zeros in front.
fn number(out: &mut [u8], at: usize, n: u32) -> usize
    requires { at ≤ 2100 }
    ensures { Puts out.old out.new at (decimal n) result 10 }
{
    if n < 10 {
        return text(out, at, &[digit(n)]);
    }
    let next = number(out, at, n / 10);
    text(out, next, &[digit(n % 10)])
}

// A digit in ASCII.
fn digit(d: u32) -> u8
    requires { d < 10 }
    ensures { result ≡ digit d }
{
    b'0' + d as u8
}

pub(crate) fn text(out: &mut [u8], at: usize, t: &[u8]) -> usize
    requires { (at ≤ 3000) × (length t.now ≤ 20) }
    ensures { Puts out.old out.new at t.now result 20 }
{
    for (i, byte) in t.iter().enumerate() {
        if at + i < out.len() {
            out[at + i] = *byte;
        }
    }
    at + t.len()
}
