// Tables in text: one row a line, its cells decimal numbers with commas between them.
ghost use Rattle.std.specs.Prelude.{◌≡◌, ◌-◌, ◌*◌, ◌^◌, ◌<◌, IfOk, vec_len};
ghost use Rattle.wire.specs.Tables.{digit_more, cell_number, line_row, grid, next_row, table_of, Told};
ghost use Rattle.wire.specs.Texts.{before_end, Pushed, Grown};
ghost use Rattle.wire.specs.declared.tables.TableFault.TheVariants.{NoMemory};

use std::alloc::{AllocFailed, Global};

#[derive(Drop)]
pub struct Table {
    // Rows of no columns are counted too, which the cells can't tell.
    pub rows: u64,
    pub columns: u64,
    // Row by row.
    pub cells: Vec<u64>,
}

// Why a text is not read as a table.
#[derive(Clone, Copy, PartialEq, Eq, Debug)]
pub enum TableFault {
    // The first line at fault, counted from 1: a cell is no number below 2^64, or there are more or fewer than in the line before.
    Line(u64),
    NoMemory,
}

impl<T: Drop> From<AllocFailed<T>> for TableFault {
    ghost from_gives = { λ _ fault. fault ≡ NoMemory };

    fn from(_refused: AllocFailed<T>) -> TableFault {
        TableFault::NoMemory
    }
}

// A line without the byte that may stand at its end.
fn without(line: &[u8], end: u8) -> &[u8]
    ensures { result.now ≡ before_end end line.now }
{
    line.strip_suffix(&[end]).unwrap_or(line)
}

fn with_digit(n: u64, byte: u8) -> Option<u64>
    ensures { result ≡ digit_more n byte }
{
    let digit = char::from(byte).to_digit(10)?;
    n.checked_mul(10)?.checked_add(u64::from(digit))
}

// Reads a decimal number below 2^64. (The library's `parse` would take a plus sign too.)
pub fn read_number(cell: &[u8]) -> Option<u64>
    ensures { result ≡ cell_number cell.now }
{
    if cell.is_empty() {
        return None;
    }
    let mut n = 0;
    for byte in cell {
        n = with_digit(n, *byte)?;
    }
    Some(n)
}

// Puts the row of a line behind the cells. Where the line is at fault, some of its cells may stand there.
fn push_row(cells: &mut Vec<u64>, line: &[u8], at: u64) -> Result<(), TableFault>
    ensures { Pushed at cells.old.items (line_row line.now) cells.new.items result }
{
    if line.is_empty() {
        return Ok(());
    }
    for cell in line.split(|byte| *byte == b',') {
        cells.push(read_number(cell).ok_or(TableFault::Line(at))?)?;
    }
    Ok(())
}

impl Table {
    // Puts the row of the next line behind the others. A carriage return right before the line's end is not of the line.
    // Where the line is at fault, some of its cells may stand there.
    fn push_line(&mut self, line: &[u8]) -> Result<(), TableFault>
        requires { self.old.rows < 2 ^ 64 - 1 }
        ensures { Grown (grid self.old) (next_row (grid self.old) (before_end 10 line.now)) (grid self.new) result }
    {
        let before = self.cells.len();
        let row = without(without(line, b'\n'), b'\r');
        push_row(&mut self.cells, row, self.rows + 1)?;
        let width = (self.cells.len() - before) as u64;
        if self.rows > 0 && width != self.columns {
            return Err(TableFault::Line(self.rows + 1));
        }
        // The count is the answer.
        self.rows += 1;
        self.columns = width;
        Ok(())
    }
}

// Reads a table. Lines end with byte 10, but the last need not.
pub fn read_table(heap: Global, text: &[u8]) -> Result<Table, TableFault>
    ensures told { Told (table_of text.now) result }
    ensures size { IfOk result (λ table. vec_len table.cells ≡ table.rows * table.columns) }
{
    let mut table = Table {
        rows: 0,
        columns: 0,
        cells: Vec::new(heap),
    };
    for line in text.split_inclusive(|byte| *byte == b'\n') {
        table.push_line(line)?;
    }
    Ok(table)
}
