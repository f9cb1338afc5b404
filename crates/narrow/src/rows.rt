// Rows put in order without repeated ones, and keyed by a column.
ghost use Rattle.std.specs.Prelude.{◌≡◌, ℕ, ◌<◌, IfOk, slice_index};
ghost use Rattle.join.specs.Order.{Sorted, cells};
ghost use Rattle.narrow.specs.Rows.{Keyed, SameRows, with_front};

use join::{Row, put_in_order};
use std::alloc::{AllocError, Global};

// The rows in order, those that are repeated left out.
pub(crate) fn in_order(mut rows: Vec<Row>) -> Vec<Row>
    ensures { Sorted result.items × SameRows rows.items result.items }
{
    put_in_order(&mut rows);
    rows.dedup();
    rows
}

// The row with the number of a column in front.
fn key_row(row: &Row, column: usize) -> Row
    requires { column < 5 }
    ensures { (c : ℕ) → c < 5 → slice_index result c ≡ with_front (slice_index row.now column) (cells row.now) c }
{
    [row[column], row[1], row[2], row[3], row[4]]
}

// The keys of the rows with a number in front, by a column, in order.
pub(crate) fn keyed(
    heap: Global,
    rows: &[Row],
    number: u64,
    column: usize,
) -> Result<Vec<Row>, AllocError>
    requires { column < 5 }
    ensures { IfOk result (λ v. Sorted v.items × Keyed rows.now number column v.items) }
{
    let mut keys = Vec::new(heap);
    for row in rows {
        if row[0] == number {
            keys.push(key_row(row, column))?;
        }
    }
    Ok(in_order(keys))
}
