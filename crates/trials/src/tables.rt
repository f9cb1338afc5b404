// Random tables: what the question answers from them beside what the question over the reports answers from what the reports hold, by trying all values.
use super::asked::Request;
use super::dice::Dice;
use super::over_reports::held;
use super::plain::{Line, Plain, Term};
use super::reading::images;
use std::alloc::{AllocError, Global};

// A row of a table with so many columns.
// The width is that of the row; the values are what is drawn from.
fn draw_table_row(
    heap: Global,
    dice: &mut Dice,
    table: u64,
    width: u64,
    values: u64,
) -> Result<Line, AllocError> {
    let terms = (0..width)
        .map(|_| Term::Number(dice.below(values)))
        .collect(heap)?;
    Ok(Line { table, terms })
}

// Rows for tables 0, 1 and 2, each a line of numbers.
pub fn draw_tables(
    heap: Global,
    dice: &mut Dice,
    widths: &[u64; 3],
) -> Result<Vec<Line>, AllocError> {
    let mut rows = Vec::new(heap);
    let values = dice.from_to(2, 4);
    for (table, width) in widths.iter().enumerate() {
        // So many are drawn: there is no list.
        for _ in 0..dice.from_to(0, 6) {
            rows.push(draw_table_row(heap, dice, table as u64, *width, values)?)?;
        }
    }
    Ok(rows)
}

// Whether every row of the first is one of the second.
// It compares lists by what they hold, whatever the order, so no `==`.
pub fn all_among(rows: &[Vec<Term>], others: &[Vec<Term>]) -> bool {
    rows.iter().all(|row| others.contains(row))
}

// Whether the question and what is found answer the same; also how many rows are answered.
pub fn answers_agree(
    heap: Global,
    request: &Request,
    found: &Plain,
    tables: &[Line],
) -> Result<(bool, u64), AllocError> {
    let asked = images(heap, &request.question, tables)?;
    let reported = held(heap, &request.reports, tables)?;
    let told = images(heap, found, &reported)?;
    let same = all_among(&asked, &told) && all_among(&told, &asked);
    Ok((same, asked.len() as u64))
}
