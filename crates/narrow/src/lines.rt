// The line that two lines become, and the lines that are left.
ghost use Rattle.std.specs.Prelude.{◌≡◌, ℕ, ◌<◌, ◌≤◌, true, false, ◌≢◌, ◌⊎◌, [], length, IfSome, vec_len, slice_index_or};
ghost use Rattle.join.specs.Slots.{SlotsBelow, slot};
ghost use Rattle.join.specs.FirstValues.{AllBelow, Names};
ghost use Rattle.narrow.specs.Joining.{Apart, Either, Free, Gathered, Replaced, number};

use join::{Setting, SlotLine, names};

// Whether the slot is shown, or another line than the two names it.
fn wanted(lines: &[SlotLine], a: usize, b: usize, shown: usize, j: usize) -> bool
    ensures yes { result ≡ true → Free lines.now a b shown j → ⊥ }
    ensures no { result ≡ false → Free lines.now a b shown j }
{
    if j < shown {
        return true;
    }
    for (i, line) in lines.iter().enumerate() {
        if i != a && i != b && names(line, j) {
            return true;
        }
    }
    false
}

// Whether the new line has the slot.
fn kept(lines: &[SlotLine], a: usize, b: usize, shown: usize, j: usize) -> bool
    requires { (a < length lines.now) × (b < length lines.now) }
    ensures yes { result ≡ true → Either (slice_index_or lines.now a []) (slice_index_or lines.now b []) j × (Free lines.now a b shown j → ⊥) }
    ensures no { result ≡ false → (Either (slice_index_or lines.now a []) (slice_index_or lines.now b []) j → ⊥) ⊎ Free lines.now a b shown j }
{
    if !names(&lines[a], j) && !names(&lines[b], j) {
        return false;
    }
    wanted(lines, a, b, shown, j)
}

// The line that two lines become, if it has at most four slots besides its number's.
pub(crate) fn gather(lines: &[SlotLine], a: usize, b: usize, setting: &Setting) -> Option<SlotLine>
    requires { (a < length lines.now) × ((b < length lines.now) × (AllBelow setting.now.n lines.now)) }
    ensures { IfSome result (λ new. Gathered lines.now a b setting.now.shown setting.now.k new) }
{
    let mut new = [lines[a][0]; 5];
    // How many columns the new line has.
    let mut w = 1;
    // The slots by number, which need not stand in a list.
    for j in setting.k..setting.n {
        if kept(lines, a, b, setting.shown, j) {
            if w >= 5 {
                return None;
            }
            new[w] = j;
            w += 1;
        }
    }
    Some(new)
}

// Whether a line's number is known and is not one of two lines'.
fn line_apart(line: &SlotLine, first: &SlotLine, second: &SlotLine, setting: &Setting) -> bool
    requires { (SlotsBelow 24 line.now) × ((SlotsBelow 24 first.now) × (SlotsBelow 24 second.now)) }
    ensures yes { result ≡ true → (slot line.now 0 < setting.now.k)
        × (number setting.now.env line.now ≢ number setting.now.env first.now)
        × (number setting.now.env line.now ≢ number setting.now.env second.now) }
{
    let own = setting.env[line[0]];
    line[0] < setting.k && own != setting.env[first[0]] && own != setting.env[second[0]]
}

// Whether the two lines' numbers are known and no other line has one of them.
pub(crate) fn apart(lines: &[SlotLine], a: usize, b: usize, setting: &Setting) -> bool
    requires { (a < length lines.now) × ((b < length lines.now) × (AllBelow 24 lines.now)) }
    ensures { result ≡ true → Apart lines.now a b setting.now.k setting.now.env }
{
    if lines[a][0] >= setting.k || lines[b][0] >= setting.k {
        return false;
    }
    for (i, line) in lines.iter().enumerate() {
        if i != a && i != b && !line_apart(line, &lines[a], &lines[b], setting) {
            return false;
        }
    }
    true
}

// Puts the new line in the place of the line a, and leaves the line b out.
pub(crate) fn replace(lines: &mut Vec<SlotLine>, a: usize, b: usize, new: &SlotLine)
    requires { (a < b) × (b < vec_len lines.old) }
    ensures { Replaced lines.old.items a b new.now lines.new.items }
{
    lines[a] = *new;
    lines.remove(b);
}
