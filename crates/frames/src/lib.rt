// Frames of bytes, in which the programs of cases read what they are asked. Numbers are big-endian.
#![tactic(auto)]

ghost use Rattle.std.specs.Prelude.{◌≡◌, ◌↔◌, ℕ, List, ◌∷◌, ◌+◌, ◌*◌, ◌/◌, ◌<◌, ◌≤◌, length, take, drop, slice_index, MatchOption, IfSome, IsSome};
ghost use Rattle.std.specs.Int.{w16, w32, from_be_bytes};
ghost use Rattle.std.specs.Iterator.{at_most};

use arrayvec::ArrayVec;
use std::marker::{Model, PhantomData};

// How many bytes a page of frames has. No frame goes over its end.
pub const PAGE: usize = 65536;

// The most bytes that a program reads: 64 pages. Each `main` reads them itself, since no library asks for
// memory.
pub const INPUT: u64 = 64 * 65536;

// Words with their number before them in one byte.
pub type Words = ArrayVec<u32, 255>;

// The bytes of a page that are still to be read. Where there are too few, nothing is read.
#[derive(Drop)]
pub struct Reader<'a> {
    rest: &'a [u8],
}

impl<'a> Model for Reader<'a> {
    ghost Value = { List ℕ };

    ghost view = { λ r. r.rest.now };
}

impl<'a> Reader<'a> {
    pub fn new(bytes: &'a [u8]) -> Reader<'a>
        ensures { result ≡ bytes.now }
    {
        Reader { rest: bytes }
    }

    pub fn array<const N: usize>(&mut self) -> Option<[u8; N]>
        ensures read { MatchOption result (self.new ≡ self.old) (λ bytes. (bytes ≡ take N self.old) × (self.new ≡ drop N self.old)) }
        ensures enough { IsSome result ↔ (N ≤ length self.old) }
    {
        let (bytes, rest) = self.rest.split_first_chunk::<N>()?;
        self.rest = rest;
        Some(*bytes)
    }

    pub fn part(&mut self, n: usize) -> Option<&'a [u8]>
        ensures read { MatchOption result (self.new ≡ self.old) (λ bytes. (bytes.now ≡ take n self.old) × (self.new ≡ drop n self.old)) }
        ensures enough { IsSome result ↔ (n ≤ length self.old) }
    {
        let (bytes, rest) = self.rest.split_at_checked(n)?;
        self.rest = rest;
        Some(bytes)
    }

    pub fn byte(&mut self) -> Option<u8>
        ensures read { MatchOption result (self.new ≡ self.old) (λ n. self.old ≡ n ∷ self.new) }
        ensures enough { IsSome result ↔ (1 ≤ length self.old) }
    {
        let (byte, rest) = self.rest.split_first()?;
        self.rest = rest;
        Some(*byte)
    }

    pub fn short(&mut self) -> Option<u16>
        ensures read { MatchOption result (self.new ≡ self.old) (λ n. (n ≡ from_be_bytes w16 (take 2 self.old)) × (self.new ≡ drop 2 self.old)) }
        ensures enough { IsSome result ↔ (2 ≤ length self.old) }
    {
        Some(u16::from_be_bytes(self.array()?))
    }

    pub fn word(&mut self) -> Option<u32>
        ensures read { MatchOption result (self.new ≡ self.old) (λ n. (n ≡ from_be_bytes w32 (take 4 self.old)) × (self.new ≡ drop 4 self.old)) }
        ensures enough { IsSome result ↔ (4 ≤ length self.old) }
    {
        Some(u32::from_be_bytes(self.array()?))
    }

    // A number in one byte, and so many words. Where one is missing, those before it are gone.
    pub fn words(&mut self) -> Option<Words>
        ensures read { IfSome result (λ words. (length words.items ≡ slice_index self.old 0) × (self.new ≡ drop (1 + 4 * length words.items) self.old)) }
        ensures no_more { length self.new ≤ length self.old }
    {
        let mut words = Words::new();
        for _ in 0..self.byte()? {
            words.push(self.word()?);
        }
        Some(words)
    }

    // The same words, still lent.
    pub fn lent_words(&mut self) -> Option<LentWords<'a>>
        ensures read { IfSome result (λ words. (length words.bytes.now ≡ 4 * slice_index self.old 0) × (self.new ≡ drop (1 + length words.bytes.now) self.old)) }
        ensures no_more { length self.new ≤ length self.old }
    {
        let count = self.byte()?;
        let bytes = self.part(4 * usize::from(count))?;
        Some(LentWords { bytes })
    }
}

// Words that stand in a page, and are read where they are asked for: a frame that is handed on brings no copies.
#[derive(Clone, Copy)]
pub struct LentWords<'a> {
    bytes: &'a [u8],
    ghost few: { length bytes.now ≤ 1020 },
}

impl<'a> LentWords<'a> {
    pub fn len(&self) -> usize
        ensures { result ≡ length self.now.bytes.now / 4 }
    {
        self.bytes.len() / 4
    }

    pub fn read(&self) -> Words
        ensures { length result.items ≡ length self.now.bytes.now / 4 }
    {
        let mut words = Words::new();
        for i in 0..self.len() {
            let at = 4 * i;
            let four = [
                self.bytes[at],
                self.bytes[at + 1],
                self.bytes[at + 2],
                self.bytes[at + 3],
            ];
            words.push(u32::from_be_bytes(four));
        }
        words
    }
}

// What a program is asked by one frame.
pub trait Frame<'a>: Sized + Drop {
    // The frame that begins here; none where it is cut short or no frame begins so.
    fn read(page: &mut Reader<'a>) -> Option<Self>
        ensures { IfSome result (λ _. length page.new < length page.old) };
}

// The frames of a page, one after the other, up to what is none.
#[derive(Drop)]
pub struct Frames<'a, F> {
    page: Reader<'a>,
    kind: PhantomData<F>,
}

impl<'a, F: Frame<'a>> Frames<'a, F> {
    pub fn new(page: &'a [u8]) -> Frames<'a, F>
        ensures { result.page ≡ page.now }
    {
        Frames {
            page: Reader::new(page),
            kind: PhantomData,
        }
    }
}

impl<'a, F: Frame<'a>> Iterator for Frames<'a, F> {
    type Item = F;

    ghost remaining = { λ s. at_most (length s.page) };

    fn next(&mut self) -> Option<F> {
        F::read(&mut self.page)
    }
}
