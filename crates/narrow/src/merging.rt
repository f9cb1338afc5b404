// Two lines' rows joined into those of the new line, beside the rows of the other lines.
ghost use Rattle.std.specs.Prelude.{◌≡◌, ℕ, ◌<◌, true, false, ◌≢◌, ◌⊎◌, length, IfSome, is_ok, IfOk, slice_index};
ghost use Rattle.join.specs.Order.{Sorted, cells, row_at};
ghost use Rattle.join.specs.Slots.{SlotsBelow, slot};
ghost use Rattle.join.specs.FirstValues.{Names};
ghost use Rattle.narrow.specs.Rows.{with_front};
ghost use Rattle.narrow.specs.Joining.{Joined, Matched, Merged, Others, Paired, WithinBoth};

use super::pairs::pair;
use super::rows::{in_order, keyed};
use join::{Row, Setting, SlotLine, lower, row_under};
use std::alloc::{AllocError, Global};

// How many rows a step may make; with more, it is given up.
const MOST: usize = 262144;

// Whether a step makes too many rows: more than it may, or many for each row that it has gone through.
fn too_many(made: usize, through: usize) -> bool {
    made > MOST || made / 8 > through.saturating_add(512)
}

// The row with another number in front.
fn numbered(row: &Row, number: u64) -> Row
    ensures { (c : ℕ) → c < 5 → slice_index result c ≡ with_front number (cells row.now) c }
{
    [number, row[1], row[2], row[3], row[4]]
}

// Whether a number is neither of two. Kept: its clauses tell more than the parts of a failed `&&`.
fn neither(number: u64, x: u64, y: u64) -> bool
    ensures yes { result ≡ true → (number ≢ x) × (number ≢ y) }
    ensures no { result ≡ false → (number ≡ x) ⊎ (number ≡ y) }
{
    number != x && number != y
}

// Puts the rows with other numbers in front behind the others.
fn push_others(out: &mut Vec<Row>, rows: &[Row], x: u64, y: u64) -> Result<(), AllocError>
    ensures { is_ok result ≡ true → Others rows.now x y out.old.items out.new.items }
{
    for row in rows {
        if neither(row[0], x, y) {
            out.push(*row)?;
        }
    }
    Ok(())
}

// The column of a line that names the slot.
fn column_of(line: &SlotLine, s: usize) -> usize
    requires { Names line.now s }
    ensures { (result < 5) × (slot line.now result ≡ s) }
{
    line.iter().position(|t| *t == s).unwrap()
}

// Two lines and the new one that they become, which has no other slots.
#[derive(Clone, Copy)]
pub(crate) struct TwoLines<'a> {
    pub(crate) first: &'a SlotLine,
    pub(crate) second: &'a SlotLine,
    pub(crate) new: &'a SlotLine,
    pub(crate) setting: &'a Setting,
    ghost low_first: { SlotsBelow 24 first.now },
    ghost low_second: { SlotsBelow 24 second.now },
    ghost low_new: { SlotsBelow 24 new.now },
    ghost within: { ∥ WithinBoth first.now second.now new.now ∥₁ },
}

impl TwoLines<'_> {
    // Puts the new line's row behind the others, if the lines stand together on the row and the row of the key at p.
    fn push_pair(
        &self,
        out: &mut Vec<Row>,
        row: &Row,
        keys: &[Row],
        p: usize,
    ) -> Result<(), AllocError>
        requires { p < length keys.now }
        ensures { is_ok result ≡ true → Matched self.now.first.now self.now.second.now self.now.new.now self.now.setting.now.k self.now.setting.now.env (cells row.now) keys.now (λ q. q ≡ p) out.old.items out.new.items }
    {
        let other = numbered(&keys[p], self.setting.env[self.second[0]]);
        if let Some(vals) = pair(self.first, self.second, row, &other, self.setting) {
            out.push(row_under(self.new, &vals))?;
        }
        Ok(())
    }

    // Puts the new line's rows behind the others for a row of the first line, by the keys with its number.
    fn push_pairs(
        &self,
        out: &mut Vec<Row>,
        row: &Row,
        keys: &[Row],
        column: usize,
    ) -> Result<(), AllocError>
        requires { (Sorted keys.now) × (column < 5) }
        ensures { is_ok result ≡ true → Matched self.now.first.now self.now.second.now self.now.new.now self.now.setting.now.k self.now.setting.now.env (cells row.now) keys.now
            (λ q. row_at keys.now q 0 ≡ slice_index row.now column) out.old.items out.new.items }
    {
        let x = row[column];
        let start = lower(keys, &[x, 0, 0, 0, 0]);
        // The index is needed: what is said of a pair names the key's place.
        for p in start..keys.len() {
            if keys[p][0] > x {
                return Ok(());
            }
            self.push_pair(out, row, keys, p)?;
        }
        Ok(())
    }

    // The new line's rows, by the rows and the keys; None if they are too many.
    fn pair_all(
        &self,
        heap: Global,
        rows: &[Row],
        keys: &[Row],
        column: usize,
    ) -> Result<Option<Vec<Row>>, AllocError>
        requires { (Sorted keys.now) × (column < 5) }
        ensures { IfOk result (λ o. IfSome o (λ v. Paired self.now.first.now self.now.second.now self.now.new.now self.now.setting.now.k self.now.setting.now.env rows.now (length rows.now) keys.now column v.items)) }
    {
        let mut out = Vec::new(heap);
        let mut through = 0usize;
        let number = self.setting.env[self.first[0]];
        for row in rows {
            if row[0] == number {
                self.push_pairs(&mut out, row, keys, column)?;
                through = through.saturating_add(1);
            }
            if too_many(out.len(), through) {
                return Ok(None);
            }
        }
        Ok(Some(out))
    }

    // The new line's rows, both lines' rows joined by a slot that they name; None if they are too many.
    fn joined(&self, heap: Global, rows: &[Row], s: usize) -> Result<Option<Vec<Row>>, AllocError>
        requires { (Names self.now.first.now s) × ((Names self.now.second.now s) × ((slot self.now.first.now 0 < self.now.setting.now.k) × (slot self.now.second.now 0 < self.now.setting.now.k))) }
        ensures { IfOk result (λ o. IfSome o (λ v. Joined rows.now self.now.first.now self.now.second.now self.now.new.now self.now.setting.now.k self.now.setting.now.env v.items)) }
    {
        let number = self.setting.env[self.second[0]];
        let keys = keyed(heap, rows, number, column_of(self.second, s))?;
        self.pair_all(heap, rows, &keys, column_of(self.first, s))
    }

    // The rows after two lines are made into one, in order; None if they are too many.
    pub(crate) fn merge(
        &self,
        heap: Global,
        rows: &[Row],
        s: usize,
    ) -> Result<Option<Vec<Row>>, AllocError>
        requires { (Names self.now.first.now s) × ((Names self.now.second.now s) × ((slot self.now.first.now 0 < self.now.setting.now.k) × (slot self.now.second.now 0 < self.now.setting.now.k))) }
        ensures { IfOk result (λ o. IfSome o (λ v. Sorted v.items × Merged rows.now self.now.first.now self.now.second.now self.now.new.now self.now.setting.now.k self.now.setting.now.env v.items)) }
    {
        let Some(mut out) = self.joined(heap, rows, s)? else {
            return Ok(None);
        };
        let env = &self.setting.env;
        push_others(&mut out, rows, env[self.first[0]], env[self.second[0]])?;
        Ok(Some(in_order(out)))
    }
}
