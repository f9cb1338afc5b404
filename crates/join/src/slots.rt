// Whether a line's row stands among the rows, and what the rows leave for a slot.
ghost use Rattle.std.specs.Prelude.{◌≡◌, ℕ, ◌+◌, ◌<◌, ◌≤◌, true, false, [], length, slice_index_or};
ghost use Rattle.join.specs.Order.{Value, Sorted, cells};
ghost use Rattle.join.specs.Slots.{Agree, AllStand, Blank, Bound, LineBound, SlotsBelow, Stands, under};
ghost use Rattle.join.specs.FirstValues.{HasSlot, Names};

use super::asking::Join;
use super::order::{Row, lower};

// The slots of a line's five columns.
pub type SlotLine = [usize; 5];

// The values of the slots, of which there are no more than 24.
pub type Values = [u64; 24];

// The row of a line's slots. Written out: a closure for `map` is no shorter, and asks for the bound of each slot.
// The bound of 24 is the environment's: a line of slots may have any.
pub fn row_under(line: &SlotLine, env: &Values) -> Row
    requires { SlotsBelow 24 line.now }
    ensures { result ≡ under line.now env.now }
{
    [
        env[line[0]],
        env[line[1]],
        env[line[2]],
        env[line[3]],
        env[line[4]],
    ]
}

// Whether a line's slots are all below k.
fn known(line: &SlotLine, k: usize) -> bool
    ensures yes { result ≡ true → SlotsBelow k line.now }
    ensures no { result ≡ false → SlotsBelow k line.now → ⊥ }
{
    line.iter().all(|s| *s < k)
}

// Whether a column of the line names the slot.
pub fn names(line: &SlotLine, k: usize) -> bool
    ensures yes { result ≡ true → Names line.now k }
    ensures no { result ≡ false → Names line.now k → ⊥ }
{
    line.contains(&k)
}

// Whether a line names the slot.
fn named(lines: &[SlotLine], k: usize) -> bool
    ensures yes { result ≡ true → HasSlot lines.now k }
    ensures no { result ≡ false → HasSlot lines.now k → ⊥ }
{
    lines.iter().any(|line| names(line, k))
}

// Whether a line's row stands in the table.
fn present(rows: &[Row], line: &SlotLine, env: &Values) -> bool
    requires { (Sorted rows.now) × (SlotsBelow 24 line.now) }
    ensures yes { result ≡ true → Stands rows.now line.now (cells env.now) }
    ensures no { result ≡ false → Stands rows.now line.now (cells env.now) → ⊥ }
{
    rows.binary_search(&row_under(line, env)).is_ok()
}

impl Join<'_> {
    // The least value from env[k] on that the slot k can have in this line, given those below k; or no more than that value where the line does not tell.
    // The bound of 24 is asked here too, for the same reason.
    fn line_bound(&self, line: &SlotLine, k: usize, env: &Values) -> Option<u64>
        requires below { SlotsBelow 24 line.now }
        requires slots { (k < 24) × (Blank (k + 1) env.now) }
        ensures { LineBound self.now.rows.now line.now k env.now result }
    {
        let key = row_under(line, env);
        let row = self.rows.get(lower(self.rows, &key))?;
        // The index is needed: the line, the row and the key are read at it.
        for c in 0..5 {
            let s = line[c];
            if s > k {
                return Some(env[k]);
            }
            if s == k {
                return Some(row[c]);
            }
            if row[c] != key[c] {
                return None;
            }
        }
        Some(env[k])
    }

    // Whether every line whose slots are all below k stands.
    pub(crate) fn ready(&self, k: usize, env: &Values) -> bool
        ensures yes { result ≡ true → (i : ℕ) → i < length self.now.lines.now → SlotsBelow k (slice_index_or self.now.lines.now i []) → Stands self.now.rows.now (slice_index_or self.now.lines.now i []) (cells env.now) }
        ensures no { result ≡ false → (v : Value) → Agree k env.now v → AllStand self.now.rows.now self.now.lines.now v → ⊥ }
    {
        for line in self.lines {
            if known(line, k) && !present(self.rows, line, env) {
                return false;
            }
        }
        true
    }

    // The least value from env[k] on that the slot k can have in every line, as far as one look tells.
    pub(crate) fn bound(&self, k: usize, env: &Values) -> Option<u64>
        requires { (k < 24) × (Blank (k + 1) env.now) }
        ensures { Bound self.now.rows.now self.now.lines.now k env.now result }
    {
        let mut high = env[k];
        for line in self.lines {
            if names(line, k) {
                let least = self.line_bound(line, k, env)?;
                high = high.max(least);
            }
        }
        Some(high)
    }

    // Whether the slot is not shown and no line names it.
    pub(crate) fn spare(&self, k: usize) -> bool
        ensures yes { result ≡ true → (self.now.setting.now.shown ≤ k) × (HasSlot self.now.lines.now k → ⊥) }
        ensures no { result ≡ false → self.now.setting.now.shown ≤ k → HasSlot self.now.lines.now k }
    {
        k >= self.setting.shown && !named(self.lines, k)
    }
}
