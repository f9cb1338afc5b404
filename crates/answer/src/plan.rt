// A question as a plan for the join: its terms have slots, and each line's columns the order of their slots.
ghost use Rattle.std.specs.Prelude.{◌≡◌, ℕ, ◌<◌, length, IfOk, slice_index_or};
ghost use Rattle.question.specs.Lent.{question_of};
ghost use Rattle.answer.specs.Plan.{Planned, Joinable, no_line};
ghost use Rattle.answer.specs.Columns.{Ascending};
ghost use Rattle.answer.specs.Taking.{FitsLine};
ghost use Rattle.answer.specs.Planning.{plan_in};

use super::codes::{Codes, Kind};
use super::columns::{PlannedLine, planned_lines, row_slots};
use arrayvec::ArrayVec;
use join::{Setting, SlotLine};
use question::Question;
use std::alloc::{AllocError, Global};

// A question as slots: how many there are and what is known of them, its lines and its row.
#[derive(Drop)]
pub(crate) struct SlotPlan {
    pub(crate) setting: Setting,
    pub(crate) lines: ArrayVec<PlannedLine, 4>,
    pub(crate) row: ArrayVec<usize, 4>,
}

impl SlotPlan {
    // The plan of a question: numbers have the first slots, then come the row's variables, then the others.
    pub(crate) fn of(question: &Question<'_>) -> SlotPlan
        ensures planned { Planned (question_of question.now) (plan_in result) }
        ensures joinable { Joinable (plan_in result) }
        ensures many { length result.lines.items ≡ length (question_of question.now).lines }
        ensures orders { (i : ℕ) (d : _) → i < length (question_of question.now).lines → FitsLine (slice_index_or (question_of question.now).lines i no_line).cells (slice_index_or result.lines.items i d).columns.items }
        ensures ascending { Ascending (question_of question.now) (plan_in result) }
    {
        let row = question.row();
        let lines = question.lines();
        let mut codes = Codes::line_numbers();
        codes.put_terms(row, Kind::Numbers);
        codes.put_lines(lines, Kind::Numbers);
        let k = codes.count();
        let env = codes.values();
        codes.put_terms(row, Kind::Variables);
        let shown = codes.count();
        codes.put_lines(lines, Kind::Variables);
        let n = codes.count();
        let setting = Setting { n, shown, k, env };
        SlotPlan {
            setting,
            lines: planned_lines(&codes, lines),
            row: row_slots(&codes, row),
        }
    }
    // The lines as slots alone, for the join.
    pub(crate) fn slots(&self, heap: Global) -> Result<Vec<SlotLine>, AllocError>
        ensures { IfOk result (λ lines. lines.items ≡ (plan_in self.now).lines) }
    {
        let mut lines = Vec::with_capacity(heap, self.lines.len())?;
        // Kept as a loop: with map and collect the proof did not close, since the closure's array stays unknown.
        for line in &self.lines {
            lines.push(line.slots)?;
        }
        Ok(lines)
    }
}
