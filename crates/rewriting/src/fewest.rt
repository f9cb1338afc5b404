// The fewest uses of reports that answer a question, found and written down.
ghost use Rattle.std.specs.Prelude.{◌≡◌, ◌≤◌, length};
ghost use Rattle.std.specs.Option.{option_map};
ghost use Rattle.question.specs.Layout.{question_in};
ghost use Rattle.question.specs.Reports.{reports_in};
ghost use Rattle.question.specs.Lent.{question_of};
ghost use Rattle.reports.specs.Widest.{widest};
ghost use Rattle.reports.specs.Lent.{reports_of};
ghost use Rattle.reports.specs.Uses.{lines_kept};
ghost use Rattle.rewriting.specs.Found.{will_do, find};
ghost use Rattle.rewriting.specs.Answer.{reply_of, left_by, find_refusal, find_says, find_leaves, Numbered, Meant};

use super::reply::Reply;
use containment::reads_into;
use minimization::{LentCandidates, PartialTest};
use question::{Lines, Question, Refusal};
use reports::{Reports, Uses, expand_uses, widest};

// Whether some uses of the reports will do: the question can be read into what they stand for.
#[derive(Clone, Copy)]
struct WillDo<'q, 'r> {
    question: Question<'q>,
    reports: Reports<'r>,
}

impl<'q, 'r> PartialTest for WillDo<'q, 'r> {
    ghost decides = { λ s. will_do (reports_of s.reports) 16 16 (question_of s.question) };

    ghost ready = { λ _. Unit {0} };

    ghost takes = { λ _ _. Unit {0} };

    fn passes(&self, lines: &Lines<'_, 16>) -> bool {
        let expanded = expand_uses(&self.reports, lines);
        let put_in = expanded.lines();
        reads_into(&self.question, &put_in)
    }
}

// Writes the question over the first of the fewest of the uses that will do to the front of out, and counts them; none if none will do.
// The room for fifty numbers is asked: whoever lends it has looked.
fn write_fewest(test: &WillDo<'_, '_>, uses: &Uses, out: &mut [u64]) -> Option<u64>
    requires wide { lines_kept uses.now ≡ (widest (reports_of test.now.reports) (question_of test.now.question)).lines }
    requires room { 50 ≤ length out.old }
    ensures told { result ≡ option_map (λ p. length p.lines) (find (reports_of test.now.reports) 16 16 (question_of test.now.question)) }
    ensures written { out.new ≡ left_by (find (reports_of test.now.reports) 16 16 (question_of test.now.question)) out.old }
{
    let question = test.question;
    let candidates = LentCandidates {
        test,
        lines: uses.lines(),
    };
    let most = question.lines().count_left();
    let chosen = candidates.first_of_sizes(most)?;
    let lines = chosen.lines();
    question.write_with(&lines, out);
    Some(lines.count_left() as u64)
}

// How many uses of the reports answer the question at least, if any do, or how the call is turned away; it writes the question over the reports that they make.
fn found(question: &[u64], reports: &[u64], out: &mut [u64]) -> Result<Option<u64>, Refusal>
    ensures told { reply_of result ≡ find_says question.now reports.now out.old }
    ensures written { out.new ≡ find_leaves question.now reports.now out.old }
    ensures meant { Meant question.now reports.now out.old out.new (reply_of result) }
{
    let (question, reports) = Reports::checked(question, reports)?;
    if out.len() < 50 {
        return Err(Refusal::NoRoomForQuestion(out.len() as u64));
    }
    let uses = widest(&question, &reports)?;
    Ok(write_fewest(&WillDo { question, reports }, &uses, out))
}

// Finds the fewest uses of the reports that answer the question, and of those the first, and writes the question over the reports that they make.
pub fn find(question: &[u64], reports: &[u64], out: &mut [u64]) -> Reply
    ensures told { result ≡ find_says question.now reports.now out.old }
    ensures numbered { Numbered result (find_refusal question.now reports.now out.old) (find (reports_in reports.now) 16 16 (question_in question.now)) }
    ensures written { out.new ≡ find_leaves question.now reports.now out.old }
    ensures meant { Meant question.now reports.now out.old out.new result }
{
    Reply::from(found(question, reports, out))
}
