// Whether lent reports may be used beside a question, and which of them not.
ghost use Rattle.std.specs.Prelude.{◌≡◌, ◌*◌, ◌≤◌, ◌&&◌, length, None, Some, MatchOption, MatchResult, OnOk};
ghost use Rattle.std.specs.Option.{option_map};
ghost use Rattle.question.specs.declared.refusals.Refusal.TheVariants.{CutShort, NoReport};
ghost use Rattle.std.specs.List.{list_all};
ghost use Rattle.question.specs.Layout.{question_in};
ghost use Rattle.question.specs.Reports.{reports_in};
ghost use Rattle.question.specs.Lent.{terms_of, line_of, lines_of, question_of};
ghost use Rattle.reports.specs.Check.{different, same_width, same_widths, report_parts, report_fits, parts_fault, reports_short, reports_refusal, AreReports, Asked, IsAsked};
ghost use Rattle.reports.specs.Lent.{reports_of};

use super::checked::Reports;
use question::{Line, Lines, Question, Refusal, Term, Terms};

// Whether the terms are different variables.
fn different(terms: Terms<'_, 16>) -> bool
    ensures { result ≡ different (terms_of terms.entry) }
{
    let mut left = terms;
    // Each term is looked at with those behind it, so no `for`.
    while let Some(term) = left.next() {
        let Term::Variable(x) = term else {
            return false;
        };
        if left.have(x) {
            return false;
        }
    }
    true
}

// Whether none of the lines has the line's table with another width.
// It compares widths, so no `==`.
fn same_width(lines: Lines<'_, 16>, line: &Line<'_, 16>) -> bool
    ensures { result ≡ same_width (lines_of lines.entry) (line_of line.now) }
{
    for other in lines {
        if other.table() == line.table() && other.width() != line.width() {
            return false;
        }
    }
    true
}

// Whether no table has one width in some lines and another in others.
// It compares widths, so no `==`.
fn same_widths(lines: Lines<'_, 16>, others: Lines<'_, 16>) -> bool
    ensures { result ≡ same_widths (lines_of lines.entry) (lines_of others.entry) }
{
    for other in others {
        if !same_width(lines, &other) {
            return false;
        }
    }
    true
}

// Whether each of the reports agrees with the lines on the widths of tables.
fn all_agree(reports: Reports<'_>, lines: Lines<'_, 16>) -> bool
    ensures { result ≡ list_all (λ r. same_widths r.lines (lines_of lines.entry)) (reports_of reports.entry) }
{
    for report in reports {
        if !same_widths(report.lines(), lines) {
            return false;
        }
    }
    true
}

// Whether fifty numbers are a report that agrees on the widths of tables with the question and the reports before it.
fn report_good(question: &Question<'_>, before: Reports<'_>, part: &[u64; 50]) -> bool
    ensures { result ≡ (report_fits part.now && (same_widths (question_of question.now).lines (question_in part.now).lines && list_all (λ r. same_widths r.lines (question_in part.now).lines) (reports_of before.entry))) }
{
    // Not `?`: the answer is a yes or no.
    let Ok(report) = Question::checked(part) else {
        return false;
    };
    different(report.row())
        && same_widths(question.lines(), report.lines())
        && all_agree(before, report.lines())
}

// The reports that are lent, fifty numbers each, unless they are cut short or more than eight.
fn lent_parts(reports: &[u64]) -> Option<&[[u64; 50]]>
    ensures { MatchOption result
        (reports_short reports.now ≡ Some (CutShort (length reports.now)))
        (λ parts. (reports_short reports.now ≡ None) × (parts.now ≡ report_parts reports.now)) }
{
    let (count, rest) = reports.split_first()?;
    if *count > 8 {
        return None;
    }
    let numbers = rest.get(..50 * *count as usize)?;
    let (parts, _) = numbers.as_chunks();
    Some(parts)
}

// That none of the reports is at fault, or the first that is.
fn without_fault(question: &Question<'_>, parts: &[[u64; 50]]) -> Result<(), Refusal>
    requires { length parts.now ≤ 8 }
    ensures { MatchResult result
        (λ _. parts_fault (question_of question.now).lines parts.now (length parts.now) 0 ≡ None)
        (λ e. option_map NoReport (parts_fault (question_of question.now).lines parts.now (length parts.now) 0) ≡ Some e) }
{
    for (i, part) in parts.iter().enumerate() {
        let before = Reports::of_parts(&parts[..i]);
        if !report_good(question, before, part) {
            return Err(Refusal::NoReport(i as u64));
        }
    }
    Ok(())
}

// How many reports are lent beside a question, or how they are turned away.
pub fn check_reports(question: &[u64], reports: &[u64]) -> Result<usize, Refusal>
    ensures told { MatchResult result
        (λ n. (reports_refusal question.now reports.now ≡ None) × (n ≡ length (reports_in reports.now)))
        (λ e. reports_refusal question.now reports.now ≡ Some e) }
    ensures meant { MatchResult result
        (λ _. Asked (question_in question.now) (reports_in reports.now))
        (λ _. (IsAsked question.now reports.now → ⊥)) }
    ensures kept { OnOk result (AreReports reports.now) }
{
    if question.len() < 50 {
        return Err(Refusal::CutShort(question.len() as u64));
    }
    let parts = lent_parts(reports).ok_or(Refusal::CutShort(reports.len() as u64))?;
    let question = Question::checked(question)?;
    without_fault(&question, parts)?;
    Ok(parts.len())
}

impl<'a> Reports<'a> {
    // A question and the reports that are lent beside it, or how they are turned away.
    pub fn checked<'q>(
        question: &'q [u64],
        reports: &'a [u64],
    ) -> Result<(Question<'q>, Reports<'a>), Refusal>
        ensures told { MatchResult result
            (λ both. (reports_refusal question.now reports.now ≡ None) × (question_of both.0 ≡ question_in question.now) × (reports_of both.1 ≡ reports_in reports.now))
            (λ e. reports_refusal question.now reports.now ≡ Some e) }
        ensures meant { MatchResult result
            (λ _. Asked (question_in question.now) (reports_in reports.now))
            (λ _. (IsAsked question.now reports.now → ⊥)) }
    {
        let count = check_reports(question, reports)?;
        Ok((
            Question::of_checked(question),
            Reports::first_of(reports, count),
        ))
    }
}
