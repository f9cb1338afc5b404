// Values under which two lines stand on two rows.
ghost use Rattle.std.specs.Prelude.{◌≡◌, ℕ, ◌<◌, ◌≤◌, true, false, slice_index};
ghost use Rattle.join.specs.Order.{Value, cells};
ghost use Rattle.join.specs.Slots.{SlotsBelow, slot};
ghost use Rattle.narrow.specs.Joining.{Both};
ghost use Rattle.narrow.specs.Rows.{Fits};

use join::{Row, Setting, SlotLine, Values, row_under};

// Puts the row's numbers into the line's slots from k on.
// The bound of 24 is the environment's: a line of slots may have any.
fn put_row(vals: &mut Values, line: &SlotLine, row: &Row, k: usize)
    requires { SlotsBelow 24 line.now }
    ensures low { (j : ℕ) → j < k → slice_index vals.new j ≡ slice_index vals.old j }
    ensures put { (v : Value) → Fits line.now (cells row.now) v → (c : ℕ) → c < 5 → k ≤ slot line.now c → slice_index vals.new (slot line.now c) ≡ v (slot line.now c) }
    ensures stays { (v : Value) → Fits line.now (cells row.now) v → (j : ℕ) → slice_index vals.old j ≡ v j → slice_index vals.new j ≡ v j }
{
    for (c, s) in line.iter().enumerate() {
        if *s >= k {
            vals[*s] = row[c];
        }
    }
}

// Whether the row is what the line is under the values.
// The bound of 24 is asked here too, for the same reason.
fn fits(line: &SlotLine, row: &Row, vals: &Values) -> bool
    requires { SlotsBelow 24 line.now }
    ensures yes { result ≡ true → Fits line.now (cells row.now) (cells vals.now) }
    ensures no { result ≡ false → Fits line.now (cells row.now) (cells vals.now) → ⊥ }
{
    row_under(line, vals) == *row
}

// The values that begin as given under which two lines are two rows, if there are any: those of their slots are pinned.
pub(crate) fn pair(
    first: &SlotLine,
    second: &SlotLine,
    row: &Row,
    other: &Row,
    setting: &Setting,
) -> Option<Values>
    requires { (SlotsBelow 24 first.now) × (SlotsBelow 24 second.now) }
    ensures { Both first.now second.now (cells row.now) (cells other.now) setting.now.k setting.now.env result }
{
    let mut vals = setting.env;
    put_row(&mut vals, first, row, setting.k);
    put_row(&mut vals, second, other, setting.k);
    if !fits(first, row, &vals) {
        return None;
    }
    if !fits(second, other, &vals) {
        return None;
    }
    Some(vals)
}
