// What `answer` tells and writes for random questions and tables beside all values for all variables, in rooms that are large enough and in rooms that are not.
use super::counts::Count;
use super::dice::Dice;
use super::lent::{draw_count, lent_tables, rows_of};
use super::plain::{Line, Plain, Term};
use super::questions::{Asked, draw_kind};
use super::reading::{count_maps, images, terms_of};
use super::rooms::{Call, size};
use std::alloc::{AllocError, Global};
use std::{fmt, io};

// A question for which more values than this would have to be tried is left out.
const MOST: u64 = 70000;

// What was compared.
#[derive(Clone, Copy, Default)]
struct Tally {
    questions: Count,
    rows: Count,
    // How many have no row; of an empty row, how many have it and how many do not.
    none: Count,
    empty: Count,
    no_empty: Count,
    // How many rooms were too small.
    small: Count,
    // How many have a variable twice in a line, a variable twice in the row, a number in the row, a line whose table has no row of its width.
    twice: Count,
    twice_in_row: Count,
    numbered: Count,
    missing: Count,
    differ: Count,
}

impl fmt::Display for Tally {
    fn fmt<W: fmt::Write>(&self, f: &mut fmt::Formatter<W>) -> fmt::Result {
        let questions = self.questions;
        let rows = self.rows;
        let none = self.none;
        write!(f, "answer: {questions} questions with {rows} rows, ")?;
        let empty = self.empty;
        let no_empty = self.no_empty;
        writeln!(
            f,
            "{none} with none; the empty row: {empty} times, not: {no_empty}"
        )?;
        writeln!(f, "rooms that are too small: {}", self.small)?;
        let twice = self.twice;
        let twice_in_row = self.twice_in_row;
        write!(
            f,
            "a variable twice in a line: {twice}, in the row: {twice_in_row}; "
        )?;
        let numbered = self.numbered;
        let missing = self.missing;
        write!(
            f,
            "a number in the row: {numbered}; no table for a line: {missing}"
        )
    }
}

// The rows that the question answers, by all values for all variables: in order and each once.
fn second_way(heap: Global, question: &Plain, rows: &[Line]) -> Result<Vec<Vec<u64>>, AllocError> {
    let mut found = Vec::new(heap);
    for image in images(heap, question, rows)?.iter() {
        found.push(image.iter().map(|term| term.number()).collect(heap)?)?;
    }
    found.sort_unstable();
    Ok(found)
}

// Whether a line or a row has one variable at two places.
fn has_twice(terms: &[Term]) -> bool {
    terms.iter().enumerate().any(|(i, term)| term.is_variable()
        && terms.iter().skip(i + 1).any(|again| again == term))
}

impl Tally {
    fn count_in(&mut self, question: &Plain, rows: &[Line], found: &[Vec<u64>]) {
        let lines = &question.lines;
        let row = &question.row;
        self.questions.add(1);
        self.rows.add(found.len() as u64);
        self.none.add_if(!row.is_empty() && found.is_empty());
        self.empty.add_if(row.is_empty() && !found.is_empty());
        self.no_empty.add_if(row.is_empty() && found.is_empty());
        self.twice
            .add_if(lines.iter().any(|line| has_twice(&line.terms)));
        self.twice_in_row.add_if(has_twice(row));
        self.numbered
            .add_if(row.iter().any(|term| !term.is_variable()));
        self.missing.add_if(
            !lines
                .iter()
                .all(|line| rows.iter().any(|row| row.is_like(line))),
        );
    }

    // Whether the rows are given in a room for all of them, in one too small by a number, and in a smaller one.
    fn given_in_all_rooms(
        &mut self,
        heap: Global,
        dice: &mut Dice,
        call: &Call<'_>,
        rows: &[Vec<u64>],
    ) -> Result<bool, AllocError> {
        let size = size(rows);
        let spare = if dice.once_in(2) { 0 } else { dice.below(6) };
        let large = size.saturating_add(spare as usize);
        let mut same = call.gives(heap, rows, large)?;
        if size > 0 {
            let smaller = dice.below(size as u64) as usize;
            let by_one = call.gives(heap, rows, size - 1)?;
            let by_more = call.gives(heap, rows, smaller)?;
            same = same && by_one && by_more;
            self.small.add(2);
        }
        Ok(same)
    }

    // One question more, unless it would take too long.
    fn try_question(&mut self, rt: &HostRuntime, dice: &mut Dice, asked: &Asked) -> io::Result<()> {
        let heap = rt.alloc();
        let mut tables = Vec::new(heap);
        let count = draw_count(dice);
        asked.draw_tables(heap, dice, count, &mut tables)?;
        let rows = rows_of(heap, &tables)?;
        let values = terms_of(heap, &rows)?.len();
        let terms = terms_of(heap, &asked.question.lines)?.len();
        if count_maps(values, terms) > MOST {
            return Ok(());
        }
        let found = second_way(heap, &asked.question, &rows)?;
        self.count_in(&asked.question, &rows, &found);
        let question = asked.lent(heap, dice)?;
        let mut lent = lent_tables(heap, &tables)?;
        // So many are drawn: there is no list.
        for _ in 0..dice.below(3) {
            lent.push(7)?;
        }
        let call = Call {
            question: &question,
            tables: &lent,
        };
        if !self.given_in_all_rooms(heap, dice, &call, &found)? {
            self.differ.add(1);
            println!(rt; "differs: answer of{call}")?;
        }
        Ok(())
    }
}

// Draws so many questions, and prints what was compared.
pub fn try_all(rt: &HostRuntime, count: u64) -> io::Result<u64> {
    let mut dice = Dice::new(5342896174203571);
    let mut tally = Tally::default();
    // So many are drawn: there is no list.
    for _ in 0..count {
        let shape = draw_kind(&mut dice);
        let asked = Asked::draw(rt.alloc(), &mut dice, shape)?;
        tally.try_question(rt, &mut dice, &asked)?;
    }
    println!(rt; "{tally}")?;
    Ok(tally.differ.number())
}
