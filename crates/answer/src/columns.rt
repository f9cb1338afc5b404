// A question's row and lines as slots, each line's columns in the order of their slots.
ghost use Rattle.std.specs.Prelude.{◌≡◌, ℕ, ◌+◌, ◌<◌, ◌≤◌, length, map, get_or, slice_index, slice_index_or};
ghost use Rattle.std.specs.List.{range_with_len};
ghost use Rattle.question.specs.Lent.{terms_of, line_of, lines_of};
ghost use Rattle.answer.specs.Terms.{place_in};
ghost use Rattle.answer.specs.Plan.{places, no_line};
ghost use Rattle.answer.specs.Columns.{column_at, InOrder, LineInOrder, LineSlots, IsPlannedLine, order_of};

use super::codes::Codes;
use arrayvec::ArrayVec;
use join::SlotLine;
use question::{Line, Lines, Terms};

// A column, and the slot of its term.
#[derive(Clone, Copy, Default)]
pub(crate) struct Column {
    pub(crate) place: usize,
    pub(crate) slot: usize,
}

// A line as slots, that of its number first, and its columns in the order of their slots.
#[derive(Default, Drop)]
pub(crate) struct PlannedLine {
    pub(crate) slots: SlotLine,
    pub(crate) columns: ArrayVec<Column, 4>,
}

// The slots of the terms of a row.
// At most four terms is asked here: terms that are lent may be more.
pub(crate) fn row_slots(codes: &Codes, terms: Terms<'_, 16>) -> ArrayVec<usize, 4>
    requires { length (terms_of terms) ≤ 4 }
    ensures { result.items ≡ places (place_in codes.now.list.items) (terms_of terms.entry) }
{
    let mut slots = ArrayVec::new();
    for term in terms {
        slots.push(codes.slot(term));
    }
    slots
}

// The columns of a line's terms as they come.
// At most four terms is asked here too, and of the next.
fn columns(codes: &Codes, terms: Terms<'_, 16>) -> ArrayVec<Column, 4>
    requires { length (terms_of terms) ≤ 4 }
    ensures { result.items ≡ map (column_at (place_in codes.now.list.items) (terms_of terms.entry)) (range_with_len 0 (length (terms_of terms.entry))) }
{
    let mut columns = ArrayVec::new();
    for (place, term) in terms.enumerate() {
        let slot = codes.slot(term);
        columns.push(Column { place, slot });
    }
    columns
}

// The columns of a line's terms in the order of their slots.
fn in_order(codes: &Codes, terms: Terms<'_, 16>) -> ArrayVec<Column, 4>
    requires { length (terms_of terms) ≤ 4 }
    ensures { InOrder (place_in codes.now.list.items) (terms_of terms.entry) result.items }
{
    let mut columns = columns(codes, terms);
    columns.sort_unstable_by_key(|column| column.slot);
    columns
}

// The five slots of a line: that of its number, those of its columns, and 0s.
fn line_slots(id: usize, columns: &[Column]) -> SlotLine
    requires { length columns.now ≤ 4 }
    ensures first { slice_index result 0 ≡ id }
    ensures slots { (c : ℕ) → c < length columns.now → slice_index result (c + 1) ≡ slice_index (map (λ column. column.slot) columns.now) c }
    ensures zeros { (c : ℕ) → length columns.now ≤ c → c < 4 → slice_index result (c + 1) ≡ 0 }
{
    let mut slots = [id, 0, 0, 0, 0];
    // Each stands one place later, behind the number's.
    for (c, column) in columns.iter().enumerate() {
        slots[c + 1] = column.slot;
    }
    slots
}

impl PlannedLine {
    // The line with the number id.
    fn of(codes: &Codes, id: usize, line: &Line<'_, 16>) -> PlannedLine
        ensures { IsPlannedLine (place_in codes.now.list.items) (line_of line.now).cells id result }
    {
        let columns = in_order(codes, line.terms());
        PlannedLine {
            slots: line_slots(id, &columns),
            columns,
        }
    }
}

// The lines of a question.
pub(crate) fn planned_lines(codes: &Codes, lines: Lines<'_, 16>) -> ArrayVec<PlannedLine, 4>
    requires { length (lines_of lines) ≤ 4 }
    ensures long { length result.items ≡ length (lines_of lines.entry) }
    ensures each { (i : ℕ) (d : _) → i < length (lines_of lines.entry) → IsPlannedLine (place_in codes.now.list.items) (get_or (lines_of lines.entry) i no_line).cells i (slice_index_or result.items i d) }
{
    let mut slots = ArrayVec::new();
    for (i, line) in lines.enumerate() {
        slots.push(PlannedLine::of(codes, i, &line));
    }
    slots
}
