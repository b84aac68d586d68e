// Translates framed sheets from standard input into buffers, and prints for each buffer the answer
// and every byte it holds afterwards. reference/CASES.md has the format of the frames and lines.
#![tactic(auto)]

use frames::{Frame, Frames, Reader};
use refusal::Refusal;
use std::io;
use std::io::{BufWriter, Read, Write};

// For whom a sheet is translated.
#[derive(Clone, Copy)]
enum Form {
    Network,
    Card,
}

// A sheet, and the buffers: of each the length in two bytes, and its first byte.
#[derive(Drop)]
struct Case<'a> {
    form: Form,
    text: &'a [u8],
    buffers: &'a [u8],
}

impl<'a> Frame<'a> for Case<'a> {
    fn read(page: &mut Reader<'a>) -> Option<Case<'a>> {
        let form = match page.byte()? {
            2 => Form::Network,
            3 => Form::Card,
            _ => return None,
        };
        let size = page.short()?;
        let text = page.part(usize::from(size))?;
        let count = page.byte()?;
        Some(Case {
            form,
            text,
            buffers: page.part(3 * usize::from(count))?,
        })
    }
}

// Reads at most 64 pages of frames, and answers one after the other.
fn main(rt: HostRuntime) -> io::Result<()> {
    let mut input = Vec::new(rt.alloc());
    rt.stdin().take(frames::INPUT).read_to_end(&mut input)?;
    let mut out = BufWriter::new(rt.alloc(), rt.stdout())?;
    for page in input.chunks(frames::PAGE) {
        for case in Frames::<Case>::new(page) {
            answer(&mut out, case)?;
        }
    }
    out.flush()
}

// Translates the sheet into each buffer.
fn answer<W: Write>(out: &mut W, case: Case) -> io::Result<()> {
    let (buffers, _) = case.buffers.as_chunks::<3>();
    for [high, low, first] in buffers {
        let mut room = pattern(*first);
        let size = usize::from(u16::from_be_bytes([*high, *low]));
        let answer = match case.form {
            Form::Network => translation::translate(case.text, &mut room[..size]),
            Form::Card => translation::translate_card(case.text, &mut room[..size]),
        };
        print_answer(out, answer)?;
        print_bytes(out, &room[..size])?;
        writeln!(out)?;
    }
    Ok(())
}

// What a buffer holds before the call: each byte is 7 more than the one before it.
fn pattern(first: u8) -> [u8; 65536] {
    let mut room = [0; 65536];
    let mut next = first;
    for byte in &mut room {
        *byte = next;
        next = next.wrapping_add(7);
    }
    room
}

fn print_answer<W: Write>(out: &mut W, answer: Result<usize, Refusal>) -> io::Result<()> {
    match answer {
        Ok(n) => write!(out, "written {n}"),
        Err(refusal) => write!(out, "{refusal}"),
    }
}

// A space and two digits for each byte; nothing where there is none.
fn print_bytes<W: Write>(out: &mut W, bytes: &[u8]) -> io::Result<()> {
    if !bytes.is_empty() {
        write!(out, " ")?;
    }
    for byte in bytes {
        write!(out, "{byte:02x}")?;
    }
    Ok(())
}
