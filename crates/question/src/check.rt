// Whether a lent question is one that may be asked, and where not.
ghost use Rattle.std.specs.Prelude.{◌≡◌, ℕ, List, ◌*◌, ◌≤◌, ◌&&◌, min, true, length, drop, Some, None, MatchResult, slice_index};
ghost use Rattle.std.specs.List.{list_all};
ghost use Rattle.std.specs.Simd.{first_chunks};
ghost use Rattle.question.specs.Layout.{line_fits, lines_fit, question_in};
ghost use Rattle.question.specs.Check.{line_agrees, least_fault, row_good, fault, question_refusal, IsQuestion};

use super::fits::{line_fits, terms_fit};
use super::lines::Lines;
use super::refusals::Refusal;
use super::terms::Terms;

// Whether none of the lines has the table with another width.
fn agrees(lines: &[[u64; 10]], table: u64, width: u64) -> bool
    ensures { result ≡ list_all (line_agrees table width) lines.now }
{
    lines
        .iter()
        .all(|line| line[0] != table || line[1] == width)
}

// Whether ten numbers behind some lines are one, and agree in its width with those.
fn line_good(before: &[[u64; 10]], line: &[u64; 10]) -> bool
    ensures { result ≡ (line_fits 16 line.now && list_all (line_agrees (slice_index line.now 0) (slice_index line.now 1)) before.now) }
{
    line_fits(line) && agrees(before, line[0], line[1])
}

// The least of the lines that is at fault.
fn least_fault(lines: &[[u64; 10]]) -> Option<u64>
    ensures { (n : ℕ) (xs : List ℕ) → lines.now ≡ first_chunks 10 n xs → result ≡ least_fault xs n 0 }
{
    for (i, line) in lines.iter().enumerate() {
        if !line_good(&lines[..i], line) {
            return Some(i as u64);
        }
    }
    None
}

// Whether the counts and the row are good, where the lines are.
fn row_good(question: &[u64]) -> bool
    requires { (50 ≤ length question.now) × (lines_fit 16 (min (slice_index question.now 9) 4) (drop 10 question.now) ≡ true) }
    ensures { result ≡ row_good question.now }
{
    let (width, count) = (question[0], question[9]);
    if !(1..=4).contains(&count) || width > 4 {
        return false;
    }
    let (width, count) = (width as usize, count as usize);
    let row = &question[1..];
    if !terms_fit(row, width) {
        return false;
    }
    let lines = Lines::<16>::first_of(&question[10..], count);
    lines.have_all(&Terms::first_of(row, width))
}

// Where fifty numbers are no question.
// The fifty numbers are asked: it is this that decides whether they are a question.
fn question_fault(question: &[u64]) -> Option<u64>
    requires { 50 ≤ length question.now }
    ensures { result ≡ fault question.now }
{
    let (lines, _) = question[10..].as_chunks();
    let count = question[9].min(4) as usize;
    if let Some(line) = least_fault(&lines[..count]) {
        return Some(line);
    }
    if row_good(question) { None } else { Some(4) }
}

// How many lines a lent question has, or how it is turned away.
pub fn check_question(question: &[u64]) -> Result<usize, Refusal>
    ensures told { MatchResult result
        (λ n. (question_refusal question.now ≡ None) × (n ≡ length (question_in question.now).lines))
        (λ e. question_refusal question.now ≡ Some e) }
    ensures meant { MatchResult result (λ _. IsQuestion question.now) (λ _. (IsQuestion question.now → ⊥)) }
{
    if question.len() < 50 {
        return Err(Refusal::CutShort(question.len() as u64));
    }
    if let Some(place) = question_fault(question) {
        return Err(Refusal::NoQuestion(place));
    }
    Ok(question[9] as usize)
}
