// Calls of `answer` with a room of 7s beside what is expected: what is told, every number of the rows, and every number behind them.
use super::shown::Numbers;
use answer::answer;
use question::Refusal;
use std::alloc::{AllocError, Global};
use std::fmt;

// How many rows stand, or why they do not.
pub type Told = Result<u64, Refusal>;

// The number that is told, 0 where all rows stand, and the count or the place with it.
// Numbers, as they are expected: what a refusal's number is stands here for itself, and not by the library's word.
fn as_numbers(told: Told) -> [u64; 2] {
    match told {
        Ok(count) => [0, count],
        Err(refusal) => [refusal.number(), refusal.place()],
    }
}

// The numbers of a question and of tables, as they are lent.
#[derive(Clone, Copy)]
pub struct Call<'a> {
    pub question: &'a [u64],
    pub tables: &'a [u64],
}

impl Call<'_> {
    pub fn told(&self, heap: Global, room: &mut [u64]) -> Told {
        answer(heap, self.question, self.tables, room)
    }

    // Whether the call tells that, and leaves the numbers at the front of a room of that size.
    fn leaves(
        &self,
        heap: Global,
        expected: [u64; 2],
        mut numbers: Vec<u64>,
        room: usize,
    ) -> Result<bool, AllocError> {
        let mut out = vec![in heap; 7; room]?;
        let said = self.told(heap, &mut out);
        numbers.resize(room, 7)?;
        Ok(as_numbers(said) == expected && out == numbers)
    }

    // Whether the call tells the rows and leaves as many as there is room for.
    pub fn gives(&self, heap: Global, rows: &[Vec<u64>], room: usize) -> Result<bool, AllocError> {
        let mut numbers = Vec::new(heap);
        let mut expected = [0, rows.len() as u64];
        for (i, row) in rows.iter().enumerate() {
            if numbers.len().saturating_add(row.len()) > room {
                expected = [6, i as u64];
                break;
            }
            numbers.extend_from_slice(row)?;
        }
        self.leaves(heap, expected, numbers, room)
    }

    // Whether the call is turned away as expected, and leaves the room as it was.
    pub fn turns_away(
        &self,
        heap: Global,
        expected: [u64; 2],
        room: usize,
    ) -> Result<bool, AllocError> {
        self.leaves(heap, expected, Vec::new(heap), room)
    }
}

impl fmt::Display for Call<'_> {
    fn fmt<W: fmt::Write>(&self, f: &mut fmt::Formatter<W>) -> fmt::Result {
        let question = Numbers(self.question);
        let tables = Numbers(self.tables);
        write!(f, "{question}\n  tables{tables}")
    }
}

// How many numbers all rows take.
pub fn size(rows: &[Vec<u64>]) -> usize {
    rows.iter()
        .fold(0, |size: usize, row| size.saturating_add(row.len()))
}
