// Why a call is turned away.
ghost use Rattle.std.specs.Prelude.{◌≡◌, Some};
ghost use Rattle.question.specs.declared.refusals.Refusal.TheVariants.{NoMemory};
ghost use Rattle.question.specs.Refusals.{number, place, refusal_line};
ghost use Rattle.question.specs.declared.refusals.Refusal.TheVariants.{NoMemory};

use std::alloc::AllocError;
use std::fmt;

// A case for each refusal, with its place where that varies. The numbers are 1 to 9, in this order.
#[derive(Clone, Copy, PartialEq, Eq, Debug)]
pub enum Refusal {
    // What is lent is cut short, or holds too many: its length.
    CutShort(u64),
    // A question is none: the least line at fault, or 4 for the row and the count of lines.
    NoQuestion(u64),
    // A report is none: which.
    NoReport(u64),
    // The lent row for a question is shorter than 50 numbers: its length.
    NoRoomForQuestion(u64),
    // The widest question has more than 32 lines: at 33.
    TooWide,
    // There is no room for the next row: how many stand.
    NoRoomForRow(u64),
    // A table has more than 4,096 rows or 4 columns: which.
    TableTooLarge(u64),
    // The lent room for tables is shorter than 64 numbers: its length.
    NoRoomForTables(u64),
    // There is no memory: at 0.
    NoMemory,
}

impl Refusal {
    // The number that a refusal is told by.
    pub fn number(self) -> u64
        ensures { result ≡ number self }
    {
        match self {
            Refusal::CutShort(_) => 1,
            Refusal::NoQuestion(_) => 2,
            Refusal::NoReport(_) => 3,
            Refusal::NoRoomForQuestion(_) => 4,
            Refusal::TooWide => 5,
            Refusal::NoRoomForRow(_) => 6,
            Refusal::TableTooLarge(_) => 7,
            Refusal::NoRoomForTables(_) => 8,
            Refusal::NoMemory => 9,
        }
    }

    // The place that is told with it.
    pub fn place(self) -> u64
        ensures { result ≡ place self }
    {
        match self {
            Refusal::CutShort(place)
            | Refusal::NoQuestion(place)
            | Refusal::NoReport(place)
            | Refusal::NoRoomForQuestion(place)
            | Refusal::NoRoomForRow(place)
            | Refusal::TableTooLarge(place)
            | Refusal::NoRoomForTables(place) => place,
            Refusal::TooWide => 33,
            Refusal::NoMemory => 0,
        }
    }
}

// Where memory that is asked for is not there.
impl From<AllocError> for Refusal {
    ghost from_gives = { λ _ e. e ≡ NoMemory };

    fn from(_none: AllocError) -> Self {
        Self::NoMemory
    }
}

// As a program prints it: refused 2 at 4.
impl fmt::Display for Refusal {
    ghost output = { λ e. Some (refusal_line e) };

    fn fmt<W: fmt::Write>(&self, f: &mut fmt::Formatter<W>) -> fmt::Result {
        let number = self.number();
        let place = self.place();
        write!(f, "refused {number} at {place}")
    }
}
