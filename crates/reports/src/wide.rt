// The widest question over reports: the uses of every reading of each report into the question's lines.
ghost use Rattle.std.specs.Prelude.{◌≡◌, ◌<◌, map, length, MatchResult};
ghost use Rattle.question.specs.declared.refusals.Refusal.TheVariants.{TooWide};
ghost use Rattle.question.specs.Lent.{lines_of, question_of};
ghost use Rattle.reports.specs.Widest.{use_of, all_readings, widest, IsTooWide};
ghost use Rattle.reports.specs.Uses.{lines_kept, Keeps, insert_all};
ghost use Rattle.reports.specs.Lent.{reports_of};
ghost use Rattle.reports.specs.Made.{own_part};

use super::checked::Reports;
use super::made::OwnReading;
use super::put::line_put;
use super::uses::Uses;
use question::{Lines, Question, Refusal};

// The readings of a report into the lines of a question; the number is the report's.
#[derive(Clone, Copy)]
struct Readings<'r, 'q> {
    number: u64,
    report: Question<'r>,
    question: Question<'q>,
    ghost small: { number < 4294967296 },
}

impl<'r, 'q> Readings<'r, 'q> {
    // Keeps the uses that the report has by all readings past the one given that put these lines, the last of the report's, as lines of the question.
    fn keep_uses(
        &self,
        lines: Lines<'_, 16>,
        reading: &OwnReading,
        uses: &mut Uses,
    ) -> Result<(), Refusal>
        ensures { Keeps result uses.new (insert_all (map (use_of self.now.number (question_of self.now.report)) (all_readings (lines_of lines.entry) (question_of self.now.question).lines (own_part reading.now))) (lines_kept uses.old)) }
    {
        let mut left = lines;
        let Some(from) = left.next() else {
            return uses.keep(line_put(reading, self.number, self.report.row()));
        };
        for to in self.question.lines() {
            let Some(more) = reading.put_line(&from, &to) else {
                continue;
            };
            self.keep_uses(left, &more, uses)?;
        }
        Ok(())
    }
}

// The lines of the widest question over the reports, or a refusal where there are more than 32.
pub fn widest(question: &Question<'_>, reports: &Reports<'_>) -> Result<Uses, Refusal>
    ensures told { MatchResult result
        (λ u. lines_kept u ≡ (widest (reports_of reports.now) (question_of question.now)).lines)
        (λ e. (e ≡ TooWide) × (32 < length (widest (reports_of reports.now) (question_of question.now)).lines)) }
    ensures meant { MatchResult result
        (λ _. (IsTooWide (reports_of reports.now) (question_of question.now) → ⊥))
        (λ _. IsTooWide (reports_of reports.now) (question_of question.now)) }
{
    let mut uses = Uses::none();
    let reports = *reports;
    for (t, report) in reports.enumerate() {
        let readings = Readings {
            number: t as u64,
            report,
            question: *question,
        };
        let lines = report.lines();
        readings.keep_uses(lines, &OwnReading::nothing(), &mut uses)?;
    }
    Ok(uses)
}
