// Why an input, a state or an event is turned away: each reason has the number that it is known by.
#![tactic(auto)]

ghost use Rattle.std.specs.Prelude.{◌≡◌};
ghost use Rattle.refusal.specs.Numbers.{number_of};

use std::fmt;

// In the order of their numbers.
#[derive(Clone, Copy, Debug, PartialEq, Eq)]
pub enum Refusal {
    // Reading a sheet or a network; evaluating has the fourth and fifth too.
    Size = 1,
    Version = 2,
    Counts = 3,
    Lengths = 4,
    Grammar = 5,
    Ranges = 6,
    Roles = 7,
    Crowded = 8,
    // Offering an event.
    Unsound = 9,
    Judged = 10,
    Unfit = 11,
    LastPosition = 12,
    AlreadyOpen = 13,
    Full = 14,
    NotOpen = 15,
    // Reading a log.
    LogHead = 16,
    LogPrograms = 17,
    LogRecords = 18,
    // Translating.
    ShortBuffer = 19,
    TooLong = 21,
    // Listing test conditions.
    OutOfRange = 22,
    NotListed = 26,
}

impl Refusal {
    // The number that the reason is known by.
    pub fn number(self) -> u8
        ensures { result ≡ number_of self }
    {
        self as u8
    }
}

impl fmt::Display for Refusal {
    fn fmt<W: fmt::Write>(&self, f: &mut fmt::Formatter<W>) -> fmt::Result {
        write!(f, "refused {}", self.number())
    }
}
