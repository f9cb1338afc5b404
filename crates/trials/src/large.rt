// Tables of 4,096 rows, as many as there may be. Here the second way goes line by line: every value so far beside every row.
use super::counts::Count;
use super::dice::Dice;
use super::draft::x;
use super::draw::draw_cell;
use super::lent::{Table, lent_tables, rows_of};
use super::plain::{Line, Plain, Term};
use super::reading::Map;
use super::rooms::{Call, size};
use super::shown::Numbers;
use std::alloc::{AllocError, Global};
use std::io;

// What the variables x0 to x7 are put as.
type Values = Map<8>;

// What was compared.
#[derive(Clone, Copy, Default)]
struct Tally {
    questions: Count,
    rows: Count,
    differ: Count,
}

// What a question and its tables are drawn from.
#[derive(Drop)]
struct Kind {
    // How many terms each line has, each over a table of its own.
    widths: Vec<u64>,
    // The cells are so many numbers, from the least one on.
    values: u64,
    least: u64,
}

impl Kind {
    // One to three lines. Those of several have x0 in common, and few rows for each number of it.
    fn draw(heap: Global, dice: &mut Dice) -> Result<Self, AllocError> {
        let lines = dice.from_to(1, 3) as usize;
        let least = if dice.once_in(3) { 4294967290 } else { 0 };
        if lines == 1 {
            let values = match dice.below(3) {
                0 => 3,
                1 => 70,
                _ => 9000,
            };
            return Ok(Kind {
                widths: vec![in heap; dice.from_to(0, 4)]?,
                values,
                least,
            });
        }
        // Three widths are drawn whatever the number of lines.
        let mut widths: Vec<u64> = (0..3).map(|_| dice.from_to(1, 3)).collect(heap)?;
        widths.truncate(lines);
        Ok(Kind {
            widths,
            values: dice.from_to(2500, 9000),
            least,
        })
    }

    // The cells of a row; now and then one is the one before it again. Four are drawn whatever the width.
    fn draw_row(&self, heap: Global, dice: &mut Dice, width: u64) -> Result<Vec<u64>, AllocError> {
        let mut row = Vec::new(heap);
        let mut last = self.least;
        // Four are drawn: there is no list.
        for i in 0..4u64 {
            if i == 0 || !dice.once_in(4) {
                last = dice.below(self.values).saturating_add(self.least);
            }
            row.push(last)?;
        }
        row.truncate(width as usize);
        Ok(row)
    }

    // A table for each line.
    fn draw_tables(&self, heap: Global, dice: &mut Dice) -> Result<Vec<Table>, AllocError> {
        let mut tables = Vec::new(heap);
        for (number, width) in self.widths.iter().enumerate() {
            let table = Table::made(heap, number as u64, 4096, *width, |_| {
                self.draw_row(heap, dice, *width)
            })?;
            tables.push(table)?;
        }
        Ok(tables)
    }

    // A term of a line. Most variables stand in one line alone; those of several lines have x0 in common.
    fn draw_term(&self, dice: &mut Dice, table: u64, place: u64) -> Term {
        if self.widths.len() == 1 {
            if dice.once_in(6) {
                return Term::Number(dice.below(3).saturating_add(self.least));
            }
            return x(dice.below(4));
        }
        if dice.once_in(6) {
            return x(dice.below(8));
        }
        match table {
            // One expression for each table: no function is picked.
            0 => x(1 + place % 2),
            1 => x(3 + place % 2),
            _ => x(5 + place % 2),
        }
    }

    // A line over a table, with x0 at one of its places.
    // The table's width, which tells how many terms are drawn.
    fn draw_line(
        &self,
        heap: Global,
        dice: &mut Dice,
        table: u64,
        width: u64,
    ) -> Result<Line, AllocError> {
        let common = dice.below(width);
        let terms = (0..width)
            .map(|i| {
                if i == common {
                    x(0)
                } else {
                    self.draw_term(dice, table, i)
                }
            })
            .collect(heap)?;
        Ok(Line { table, terms })
    }

    fn draw_question(&self, heap: Global, dice: &mut Dice) -> Result<Plain, AllocError> {
        let mut lines = Vec::new(heap);
        for (table, width) in self.widths.iter().enumerate() {
            lines.push(self.draw_line(heap, dice, table as u64, *width)?)?;
        }
        let row = if self.widths.contains(&0) {
            Vec::new(heap)
        } else {
            draw_row(heap, dice, &lines)?
        };
        Ok(Plain { row, lines })
    }
}

// The row: x0, and then any terms of the lines.
fn draw_row(heap: Global, dice: &mut Dice, lines: &[Line]) -> Result<Vec<Term>, AllocError> {
    let second = draw_cell(dice, lines);
    let third = draw_cell(dice, lines);
    let fourth = draw_cell(dice, lines);
    let mut row = Vec::from_array(heap, [x(0), second, third, fourth])?;
    row.truncate(dice.from_to(1, 4) as usize);
    Ok(row)
}

// Puts the values that also put the line as one of the rows behind the others.
fn push_with(
    more: &mut Vec<Values>,
    values: &[Values],
    line: &Line,
    rows: &[Line],
) -> Result<(), AllocError> {
    for value in values {
        for row in rows {
            if line.table == row.table
                && let Some(next) = value.with(&line.terms, &row.terms)
            {
                more.push(next)?;
            }
        }
    }
    Ok(())
}

// All values that also put the line as one of the rows.
fn with_line(
    heap: Global,
    values: &[Values],
    line: &Line,
    tables: &[Table],
) -> Result<Vec<Values>, AllocError> {
    let mut more = Vec::new(heap);
    // The rows of one table at a time: those of all take three times the memory.
    for table in tables.chunks(1) {
        push_with(&mut more, values, line, &rows_of(heap, table)?)?;
    }
    Ok(more)
}

fn second_way(
    heap: Global,
    question: &Plain,
    tables: &[Table],
) -> Result<Vec<Vec<u64>>, AllocError> {
    let mut values = vec![in heap; Values::new()]?;
    for line in &question.lines {
        values = with_line(heap, &values, line, tables)?;
    }
    let mut found = Vec::new(heap);
    for value in &values {
        let row = question.row.iter().map(|term| value.image(*term).number());
        found.push(row.collect(heap)?)?;
    }
    found.sort_unstable();
    found.dedup();
    Ok(found)
}

impl Tally {
    fn try_question(&mut self, rt: &HostRuntime, dice: &mut Dice) -> io::Result<()> {
        let heap = rt.alloc();
        let kind = Kind::draw(heap, dice)?;
        let tables = kind.draw_tables(heap, dice)?;
        let question = kind.draw_question(heap, dice)?;
        let found = second_way(heap, &question, &tables)?;
        let question = question.lent(0);
        let tables = lent_tables(heap, &tables)?;
        let call = Call {
            question: &question,
            tables: &tables,
        };
        let size = size(&found);
        let all = call.gives(heap, &found, size)?;
        let but_one = call.gives(heap, &found, size.saturating_sub(1))?;
        self.questions.add(1);
        self.rows.add(found.len() as u64);
        if !all || !but_one {
            self.differ.add(1);
            println!(rt; "differs: 4096 rows beside{}", Numbers(&question))?;
        }
        Ok(())
    }
}

// Draws so many questions, and prints what was compared.
pub fn try_all(rt: &HostRuntime, count: u64) -> io::Result<u64> {
    let mut dice = Dice::new(60127043185229);
    let mut tally = Tally::default();
    // So many are drawn: there is no list.
    for _ in 0..count {
        tally.try_question(rt, &mut dice)?;
    }
    let questions = tally.questions;
    let rows = tally.rows;
    println!(rt; "tables of 4096 rows: {questions} questions with {rows} rows")?;
    Ok(tally.differ.number())
}
