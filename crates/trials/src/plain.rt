// A question of any number of lines, its row and its lines: what the second way works on, and how it is lent.
use std::alloc::{AllocError, Global};
use std::fmt;

#[derive(Clone, Copy, PartialEq, Eq, PartialOrd, Ord)]
pub enum Term {
    Number(u64),
    Variable(u64),
}

impl Term {
    pub fn is_variable(self) -> bool {
        matches!(self, Term::Variable(_))
    }

    // The number that it is, and 0 for a variable.
    pub fn number(self) -> u64 {
        match self {
            Term::Number(n) => n,
            Term::Variable(_) => 0,
        }
    }
}

// As a term is lent: its kind, and its number or variable.
impl From<[u64; 2]> for Term {
    fn from([kind, number]: [u64; 2]) -> Self {
        if kind == 1 {
            Term::Variable(number)
        } else {
            Term::Number(number)
        }
    }
}

impl From<Term> for [u64; 2] {
    fn from(term: Term) -> Self {
        match term {
            Term::Number(n) => [0, n],
            Term::Variable(x) => [1, x],
        }
    }
}

// As a program prints it: 7 or x0.
// Not the crate's own: what is tried is told apart from what tries it.
impl fmt::Display for Term {
    fn fmt<W: fmt::Write>(&self, f: &mut fmt::Formatter<W>) -> fmt::Result {
        match *self {
            Term::Number(n) => write!(f, "{n}"),
            Term::Variable(x) => write!(f, "x{x}"),
        }
    }
}

// A line of a question. A row of a table is a line of numbers.
#[derive(Clone, PartialEq, Eq, PartialOrd, Ord, Drop)]
pub struct Line {
    pub table: u64,
    pub terms: Vec<Term>,
}

impl Line {
    // A row of a table.
    pub fn of_numbers(heap: Global, table: u64, row: &[u64]) -> Result<Self, AllocError> {
        let terms = row.iter().map(|n| Term::Number(*n)).collect(heap)?;
        Ok(Line { table, terms })
    }

    // The line that stands in ten lent numbers.
    pub fn taken_in(heap: Global, numbers: &[u64; 10]) -> Result<Self, AllocError> {
        let terms = numbers[2..10]
            .as_chunks::<2>()
            .0
            .iter()
            .take(numbers[1] as usize)
            .map(|term| Term::from(*term))
            .collect(heap)?;
        Ok(Line {
            table: numbers[0],
            terms,
        })
    }

    // Whether two lines are over the same table, with as many terms.
    pub fn is_like(&self, other: &Line) -> bool {
        self.table == other.table && self.terms.len() == other.terms.len()
    }
}

// A use of a report: R0 x0 x2.
impl fmt::Display for Line {
    fn fmt<W: fmt::Write>(&self, f: &mut fmt::Formatter<W>) -> fmt::Result {
        let report = self.table;
        write!(f, "R{report}")?;
        for term in &self.terms {
            write!(f, " {term}")?;
        }
        Ok(())
    }
}

#[derive(Clone, Drop)]
pub struct Plain {
    pub row: Vec<Term>,
    pub lines: Vec<Line>,
}

impl Plain {
    // As it is lent, with a number where nothing is looked at.
    pub fn lent(&self, soil: u64) -> [u64; 50] {
        let mut numbers = [soil; 50];
        numbers[0] = self.row.len() as u64;
        put_terms(&mut numbers[1..9], &self.row);
        numbers[9] = self.lines.len() as u64;
        let rooms = numbers[10..50].as_chunks_mut::<10>().0;
        for (room, line) in rooms.iter_mut().zip(self.lines.iter()) {
            room[0] = line.table;
            room[1] = line.terms.len() as u64;
            put_terms(&mut room[2..10], &line.terms);
        }
        numbers
    }

    // As it is left at the front of 52 numbers, with 7 behind it.
    pub fn left(&self) -> [u64; 52] {
        let mut numbers = [7; 52];
        numbers[0..50].copy_from_slice(&self.lent(0));
        numbers
    }
}

// Puts the terms at the front of a room.
fn put_terms(room: &mut [u64], terms: &[Term]) {
    let pairs = room.as_chunks_mut::<2>().0;
    for (pair, term) in pairs.iter_mut().zip(terms) {
        *pair = (*term).into();
    }
}
