// The rows of all values under which every line stands, put out in order.
ghost use Rattle.std.specs.Prelude.{◌≡◌, ℕ, ◌+◌, ◌^◌, ◌<◌, ◌≤◌, length, slice_index};
ghost use Rattle.join.specs.Slots.{slot};
ghost use Rattle.join.specs.RowsOut.{AllShown, PutOut};

use super::asking::{Join, Setting};
use super::slots::Values;

// There is one row more, and no room for it: so many stand.
#[derive(Clone, Copy, Debug, PartialEq, Eq)]
pub struct NoRoomAfter(pub usize);

// Numbers have 64 bits, which a slice of arrays does not tell of its numbers.
fn all_small(numbers: &[u64])
    ensures { (p : ℕ) → slice_index numbers.now p < 2 ^ 64 }
{}

// One row behind those that stand.
fn put_row(out: &mut [u64], at: usize, row: &[usize], env: &Values)
    requires { (at + length row.now ≤ length out.old) × ((c : ℕ) → c < length row.now → slot row.now c < 24) }
    ensures put { (c : ℕ) → c < length row.now → slice_index out.new (at + c) ≡ slice_index env.now (slot row.now c) }
    ensures before { (p : ℕ) → p < at → slice_index out.new p ≡ slice_index out.old p }
    ensures behind { (p : ℕ) → at + length row.now ≤ p → slice_index out.new p ≡ slice_index out.old p }
{
    for (c, s) in row.iter().enumerate() {
        out[at + c] = env[*s];
    }
}

impl Join<'_> {
    // All rows answered, in order and each once, as far as there is room.
    pub fn put_out(&self, row: &[usize], out: &mut [u64]) -> Result<usize, NoRoomAfter>
        requires asked { (AllShown row.now self.now.setting.now.k self.now.setting.now.shown) × ((c : ℕ) → c < length row.now → slot row.now c < self.now.setting.now.shown) }
        ensures { PutOut (record { rows = self.now.rows.now; lines = self.now.lines.now; k = self.now.setting.now.k; env = self.now.setting.now.env; row = row.now }) out.old out.new result }
    {
        all_small(self.rows.as_flattened());
        let Setting { k, env, .. } = self.setting;
        if row.is_empty() {
            let answered = self.first(*k, env, None);
            return Ok(usize::from(answered.is_some()));
        }
        let mut count = 0;
        let mut at = 0;
        let mut last = None;
        // Each row is asked for by the one before it: there is no list.
        while let Some(next) = self.first(*k, env, last.as_ref()) {
            if out.len() - at < row.len() {
                return Err(NoRoomAfter(count));
            }
            put_row(out, at, row, &next);
            at += row.len();
            count += 1;
            last = Some(next);
        }
        Ok(count)
    }
}
