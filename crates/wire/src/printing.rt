// Rows as the text of a table, one row a line.
ghost use Rattle.std.specs.Prelude.{◌≡◌, [], ◌∷◌, ◌++◌, string_bytes, OnOk};
ghost use Rattle.question.specs.Tables.{rows_in};
ghost use Rattle.wire.specs.Tables.{row_text, table_text};

use std::fmt;

// Adds the cells of a row, those behind the first each behind a comma.
fn write_row(text: &mut String, row: &[u64]) -> fmt::Result
    ensures { OnOk result (string_bytes text.new ≡ string_bytes text.old ++ row_text row.now) }
{
    let Some((first, others)) = row.split_first() else {
        return Ok(());
    };
    write!(text, "{first}")?;
    for cell in others {
        write!(text, ",{cell}")?;
    }
    Ok(())
}

// Adds rows of so many columns, which lie one after another in the numbers. Where there are too few numbers the last rows are short.
pub fn write_rows(text: &mut String, rows: usize, columns: usize, numbers: &[u64]) -> fmt::Result
    ensures { OnOk result (string_bytes text.new ≡ string_bytes text.old ++ table_text (rows_in rows columns numbers.now)) }
{
    // No chunks: rows may have no columns, and may be short.
    let mut rest = numbers;
    for _ in 0..rows {
        let (row, others) = rest.split_at(columns.min(rest.len()));
        write_row(text, row)?;
        writeln!(text, "")?;
        rest = others;
    }
    Ok(())
}
