// A question answered from lent tables: every row once, in order.
ghost use Rattle.std.specs.Prelude.{◌≡◌, Some, None, drop, MatchResult, slice_index};
ghost use Rattle.question.specs.Layout.{question_in};
ghost use Rattle.question.specs.Lent.{question_of};
ghost use Rattle.answer.specs.Plan.{Joinable};
ghost use Rattle.answer.specs.Planning.{plan_in};
ghost use Rattle.answer.specs.Laws.{asked_by};
ghost use Rattle.answer.specs.Answered.{answer_refusal, RowsOut, Meant};

use super::copies::copy_tables;
use super::plan::SlotPlan;
use super::tables::{Tables, check_tables};
use join::{Join, NoRoomAfter, Row};
use narrow::narrow;
use question::{Question, Refusal};
use std::alloc::Global;

// The question and the tables, or how they are turned away.
fn checked<'a>(
    question: &'a [u64],
    tables: &'a [u64],
) -> Result<(Question<'a>, Tables<'a>), Refusal>
    ensures { MatchResult result
        (λ p. (answer_refusal question.now tables.now ≡ None) × (question_of p.0 ≡ question_in question.now) × (p.1.count ≡ slice_index tables.now 0) × (p.1.left.now ≡ drop 1 tables.now))
        (λ e. answer_refusal question.now tables.now ≡ Some e) }
{
    if question.len() < 50 {
        return Err(Refusal::CutShort(question.len() as u64));
    }
    let whole = Tables::whole(tables)?;
    let question = Question::checked(question)?;
    check_tables(tables)?;
    Ok((question, whole))
}

// Puts out the rows that the plan gives over the copied tables, the lines narrowed first.
fn put_rows(heap: Global, plan: &SlotPlan, rows: Vec<Row>, out: &mut [u64]) -> Result<u64, Refusal>
    requires { Joinable (plan_in plan.now) }
    ensures { RowsOut (asked_by (plan_in plan.now) rows.items) out.old out.new result }
{
    let mut lines = plan.slots(heap)?;
    let left = narrow(heap, rows, &mut lines, &plan.setting)?;
    let join = Join {
        rows: &left,
        lines: &lines,
        setting: &plan.setting,
    };
    match join.put_out(&plan.row, out) {
        Ok(count) => Ok(count as u64),
        Err(NoRoomAfter(count)) => Err(Refusal::NoRoomForRow(count as u64)),
    }
}

// Answers the question from the tables: every row once, in order, one after another from the front of out. It says how many.
pub fn answer(
    heap: Global,
    question: &[u64],
    tables: &[u64],
    out: &mut [u64],
) -> Result<u64, Refusal>
    ensures { Meant question.now tables.now out.old out.new result }
{
    let (question, tables) = checked(question, tables)?;
    let plan = SlotPlan::of(&question);
    let rows = copy_tables(heap, &question, &plan.lines, tables)?;
    put_rows(heap, &plan, rows, out)
}
