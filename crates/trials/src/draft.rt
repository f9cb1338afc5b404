// Questions over tables of two columns, made line by line.
use super::plain::{Line, Plain, Term};
use std::alloc::{AllocError, Global};

// The variable x0, x1 and so on.
pub fn x(i: u64) -> Term {
    Term::Variable(i)
}

pub fn n(number: u64) -> Term {
    Term::Number(number)
}

// A question with a row and no line yet.
pub fn row(heap: Global, terms: &[Term]) -> Result<Plain, AllocError> {
    Ok(Plain {
        row: Vec::from_slice(heap, terms)?,
        lines: Vec::new(heap),
    })
}

impl Plain {
    // The question with a line of two terms more.
    pub fn and(mut self, table: u64, first: Term, second: Term) -> Result<Self, AllocError> {
        let heap = *self.lines.allocator();
        let terms = Vec::from_array(heap, [first, second])?;
        self.lines.push(Line { table, terms })?;
        Ok(self)
    }
}

// A question of two lines that have nothing in common: as a report it has sixteen uses for four lines.
pub fn pair(heap: Global, terms: &[Term]) -> Result<Plain, AllocError> {
    row(heap, terms)?.and(0, x(0), x(1))?.and(0, x(2), x(3))
}
