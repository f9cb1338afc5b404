// Uses of reports with the reports' lines put in for them (expansion).
ghost use Rattle.std.specs.Prelude.{◌≡◌, ℕ, ◌+◌, ◌<◌, ◌≤◌, ◌++◌, length, None, slice_index_or};
ghost use Rattle.std.specs.Option.{unwrap_or};
ghost use Rattle.question.specs.declared.terms.Term.{Term};
ghost use Rattle.question.specs.Lent.{terms_of, line_of, lines_of, question_of};
ghost use Rattle.containment.specs.Reading.{put_lines};
ghost use Rattle.reports.specs.Expand.{assign, row_put, expand_lines};
ghost use Rattle.reports.specs.Lent.{reports_of, expanded_lines};

use super::checked::Reports;
use super::expanded::Expanded;
use super::put::{Put, line_put};
use question::{Line, Lines, Question, Term, Terms};

// What the cells of a use say of each variable: the first of them that stands where the report's row has it, if any does.
fn said_of_each(row: Terms<'_, 16>, cells: Terms<'_, 16>) -> [Option<Term>; 16]
    ensures said { (x : ℕ) → (d : Term) → x < 16 → unwrap_or (slice_index_or result x None) d ≡ assign (terms_of row.entry) (terms_of cells.entry) d x }
    ensures sixteen { length result ≡ 16 }
{
    let mut said = [None; 16];
    for (term, cell) in row.zip(cells) {
        let Term::Variable(x) = term else {
            continue;
        };
        let x = x as usize;
        said[x] = said[x].or(Some(cell));
    }
    said
}

// A use of a report: the line that names it, and the first of the new variables that its inner ones are put as.
// What its cells say of each variable is made once, since the lines of the report ask for it again and again.
#[derive(Clone, Copy)]
struct Use<'r, 'u> {
    report: Question<'r>,
    used: Line<'u, 16>,
    base: u8,
    said: &'u [Option<Term>; 16],
    ghost room: { base ≤ 240 },
    ghost sixteen: { length said.now ≡ 16 },
    ghost by_cells: { (x : ℕ) → (d : Term) → x < 16 → unwrap_or (slice_index_or said.now x None) d ≡ assign (question_of report).row (line_of used).cells d x },
}

impl<'r, 'u> Put for Use<'r, 'u> {
    ghost how = { λ u. row_put (question_of u.report).row (line_of u.used).cells u.base };

    fn variable(&self, x: u8) -> Term {
        self.said[x as usize].unwrap_or(Term::Variable(self.base + x))
    }
}

impl<'r, 'u> Use<'r, 'u> {
    // Adds the lines of the report, as the use puts them.
    fn write(&self, to: &mut Expanded)
        requires { length (expanded_lines to.old) + length (question_of self.now.report).lines ≤ 16 }
        ensures { expanded_lines to.new ≡ expanded_lines to.old ++ put_lines (row_put (question_of self.now.report).row (line_of self.now.used).cells self.now.base) (question_of self.now.report).lines }
    {
        for line in self.report.lines() {
            to.add(line_put(self, line.table(), line.terms()));
        }
    }
}

// The lines that uses of the reports stand for. The new variables of the k-th use are those from 16 + 16 * k on.
pub fn expand_uses(reports: &Reports<'_>, uses: &Lines<'_, 16>) -> Expanded
    requires { length (lines_of uses.now) ≤ 4 }
    ensures { expanded_lines result ≡ expand_lines (reports_of reports.now) 16 16 (lines_of uses.now) }
{
    let mut expanded = Expanded::none();
    let uses = *uses;
    for (k, used) in uses.enumerate() {
        // What names no report stands for no line.
        let Some(report) = reports.report(used.table() as usize) else {
            continue;
        };
        let base = 16 + 16 * k as u8;
        let said = said_of_each(report.row(), used.terms());
        let by = Use {
            report,
            used,
            base,
            said: &said,
        };
        by.write(&mut expanded);
    }
    expanded
}
