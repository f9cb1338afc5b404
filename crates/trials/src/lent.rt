// Tables, and how they are lent.
use super::dice::Dice;
use super::plain::Line;
use super::questions::Asked;
use std::alloc::{AllocError, Global};

// A table as it is lent: its number, its counts of rows and columns, and its rows. A table at fault has other counts than its rows have.
#[derive(Drop)]
pub struct Table {
    pub number: u64,
    pub height: u64,
    // The layout has both, and a table of no rows has a width too.
    pub width: u64,
    pub rows: Vec<Vec<u64>>,
}

impl Table {
    // A table that has counts alone.
    pub fn empty(heap: Global, number: u64, height: u64, width: u64) -> Self {
        Table {
            number,
            height,
            width,
            rows: Vec::new(heap),
        }
    }

    // A table of so many rows, each made from its place.
    // The height and the width are those of the table that is made.
    pub fn made<F: FnMut(u64) -> Result<Vec<u64>, AllocError>>(
        heap: Global,
        number: u64,
        height: u64,
        width: u64,
        mut make_row: F,
    ) -> Result<Self, AllocError>
        requires { F.IsAlwaysCallable make_row }
    {
        let mut table = Table::empty(heap, number, height, width);
        // So many are made: there is no list.
        for place in 0..height {
            table.rows.push(make_row(place)?)?;
        }
        Ok(table)
    }

    // A table of up to twenty rows, some of which stand twice.
    // The width is that of the table; the values are what is drawn from.
    fn draw(
        heap: Global,
        dice: &mut Dice,
        values: &[u64],
        number: u64,
        width: u64,
    ) -> Result<Self, AllocError> {
        let height = dice.from_to(0, 20);
        let mut row = draw_row(heap, dice, values, width)?;
        Table::made(heap, number, height, width, |_| {
            if !dice.once_in(5) {
                row = draw_row(heap, dice, values, width)?;
            }
            row.clone()
        })
    }

    // Lends the table behind others.
    fn lend(&self, lent: &mut Vec<u64>) -> Result<(), AllocError> {
        lent.extend_from_slice(&[self.number, self.height, self.width])?;
        for row in &self.rows {
            lent.extend_from_slice(row)?;
        }
        Ok(())
    }
}

// Mostly small; now and then about 2^32, where numbers of a question end, or the largest.
fn draw_value(dice: &mut Dice) -> u64 {
    match dice.below(10) {
        0 => dice.from_to(4294967295, 4294967300),
        1 => dice.from_to(4294967296, 4294967311),
        2 => dice.from_to(18446744073709551614, 18446744073709551615),
        _ => dice.below(4),
    }
}

// The two to five numbers that the cells are drawn from.
fn draw_values(heap: Global, dice: &mut Dice) -> Result<Vec<u64>, AllocError> {
    let mut values: Vec<u64> = (0..5u64).map(|_| draw_value(dice)).collect(heap)?;
    values.truncate(dice.from_to(2, 5) as usize);
    Ok(values)
}

// Four cells are drawn whatever the width.
// The width is that of the row; the values are what is drawn from.
fn draw_row(
    heap: Global,
    dice: &mut Dice,
    values: &[u64],
    width: u64,
) -> Result<Vec<u64>, AllocError> {
    let mut row: Vec<u64> = (0..4u64)
        .map(|_| dice.one_of(values).copied().unwrap_or(0))
        .collect(heap)?;
    row.truncate(width as usize);
    Ok(row)
}

impl Asked {
    // The number and the width of the i-th table: mostly those of a line, now and then another width, or a number that is one of a line's but for 2^32.
    fn draw_name(&self, dice: &mut Dice, i: u64) -> (u64, u64) {
        let other = dice.once_in(6);
        let table = if other { dice.below(4) } else { i % 3 };
        let width = match self.shape.widths.get(table as usize) {
            Some(width) if !dice.once_in(16) => *width,
            _ => dice.from_to(0, 4),
        };
        let number = self.first.saturating_add(table);
        if dice.once_in(30) {
            (number.saturating_add(4294967296), width)
        } else {
            (number, width)
        }
    }

    // So many tables more.
    // How many tables are drawn.
    pub fn draw_tables(
        &self,
        heap: Global,
        dice: &mut Dice,
        count: u64,
        tables: &mut Vec<Table>,
    ) -> Result<(), AllocError> {
        let values = draw_values(heap, dice)?;
        // So many are drawn: there is no list.
        for i in 0..count {
            let (number, width) = self.draw_name(dice, i);
            tables.push(Table::draw(heap, dice, &values, number, width)?)?;
        }
        Ok(())
    }
}

// Mostly some tables; now and then none or sixteen.
pub fn draw_count(dice: &mut Dice) -> u64 {
    match dice.below(30) {
        0 => 0,
        1 => 16,
        2 | 3 => dice.from_to(1, 2),
        _ => dice.from_to(3, 6),
    }
}

// The tables with their count in front.
pub fn lent_tables(heap: Global, tables: &[Table]) -> Result<Vec<u64>, AllocError> {
    let mut lent = Vec::new(heap);
    lent.push(tables.len() as u64)?;
    for table in tables {
        table.lend(&mut lent)?;
    }
    Ok(lent)
}

// The rows of all tables, each a line of numbers.
pub fn rows_of(heap: Global, tables: &[Table]) -> Result<Vec<Line>, AllocError> {
    let mut rows = Vec::new(heap);
    for table in tables {
        for row in &table.rows {
            rows.push(Line::of_numbers(heap, table.number, &row)?)?;
        }
    }
    Ok(rows)
}
