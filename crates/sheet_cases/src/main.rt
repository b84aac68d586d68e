// Reads framed sheets, networks and logs from standard input, and prints a line for each.
// reference/CASES.md has the format of the frames and of the lines.
#![tactic(auto)]

use frames::{Frame, Frames, Reader};
use refusal::Refusal;
use sheet::Places;
use std::io;
use std::io::{BufWriter, Read, Write};

// What is to be read. A log is read for a number of program variables.
#[derive(Drop)]
enum Case<'a> {
    Sheet(&'a [u8]),
    Network(&'a [u8]),
    Log(u8, &'a [u8]),
}

impl<'a> Frame<'a> for Case<'a> {
    fn read(page: &mut Reader<'a>) -> Option<Case<'a>> {
        let kind = page.byte()?;
        let programs = page.byte()?;
        let size = page.short()?;
        let text = page.part(usize::from(size))?;
        match kind {
            0 => Some(Case::Sheet(text)),
            1 => Some(Case::Network(text)),
            2 => Some(Case::Log(programs, text)),
            _ => None,
        }
    }
}

// Reads at most 64 pages of frames, and answers one after the other.
fn main(rt: HostRuntime) -> io::Result<()> {
    let mut input = Vec::new(rt.alloc());
    rt.stdin().take(frames::INPUT).read_to_end(&mut input)?;
    let mut out = BufWriter::new(rt.alloc(), rt.stdout())?;
    for page in input.chunks(frames::PAGE) {
        for case in Frames::<Case>::new(page) {
            answer(&mut out, case)?;
        }
    }
    out.flush()
}

fn answer<W: Write>(out: &mut W, case: Case) -> io::Result<()> {
    match case {
        Case::Sheet(text) => print_reading(out, sheet::read_sheet(text), sheet::sheet_places(text)),
        Case::Network(text) => print_reading(
            out,
            sheet::read_network(text),
            sheet::network_places(text),
        ),
        Case::Log(programs, text) => print_log(out, sheet::read_log(text, programs)),
    }
}

fn print_reading<W: Write>(
    out: &mut W,
    reading: Result<(), Refusal>,
    places: Places,
) -> io::Result<()> {
    match reading {
        Ok(()) => {
            let Places {
                transitions,
                last,
                ..
            } = places;
            writeln!(out, "accepted {transitions} {last}")
        }
        Err(refusal) => writeln!(out, "{refusal}"),
    }
}

fn print_log<W: Write>(out: &mut W, reading: Result<usize, Refusal>) -> io::Result<()> {
    match reading {
        Ok(n) => writeln!(out, "records {n}"),
        Err(refusal) => writeln!(out, "{refusal}"),
    }
}
