// A line's rows with its free slots left out.
ghost use Rattle.std.specs.Prelude.{◌≡◌, ◌<◌, true, is_ok, IfOk};
ghost use Rattle.join.specs.Order.{Sorted, cells};
ghost use Rattle.join.specs.Slots.{SlotsBelow, slot};
ghost use Rattle.narrow.specs.Joining.{Merged, Shortened, WithinBoth};

use super::pairs::pair;
use super::rows::in_order;
use join::{Row, Setting, SlotLine, row_under};
use std::alloc::{AllocError, Global};

// Puts the new line's row behind the others, if the line can be the row.
fn push_shortened(
    out: &mut Vec<Row>,
    line: &SlotLine,
    new: &SlotLine,
    row: &Row,
    setting: &Setting,
) -> Result<(), AllocError>
    requires { (SlotsBelow 24 line.now) × ((SlotsBelow 24 new.now) × (WithinBoth line.now line.now new.now)) }
    ensures { is_ok result ≡ true → Shortened line.now new.now setting.now.k setting.now.env (cells row.now) out.old.items out.new.items }
{
    if let Some(vals) = pair(line, line, row, row, setting) {
        out.push(row_under(new, &vals))?;
    }
    Ok(())
}

// The rows after a line is made into one with fewer slots, in order.
pub(crate) fn project(
    heap: Global,
    rows: &[Row],
    line: &SlotLine,
    new: &SlotLine,
    setting: &Setting,
) -> Result<Vec<Row>, AllocError>
    requires slots { (SlotsBelow 24 line.now) × ((SlotsBelow 24 new.now) × ((WithinBoth line.now line.now new.now) × (slot line.now 0 < setting.now.k))) }
    ensures { IfOk result (λ v. Sorted v.items × Merged rows.now line.now line.now new.now setting.now.k setting.now.env v.items) }
{
    let mut out = Vec::new(heap);
    let number = setting.env[line[0]];
    for row in rows {
        if row[0] == number {
            push_shortened(&mut out, line, new, row, setting)?;
        } else {
            out.push(*row)?;
        }
    }
    Ok(in_order(out))
}
