// New numbers for a question's variables: the smallest from 1 on that neither of two questions names, in order of the variables.
ghost use Rattle.std.specs.Prelude.{◌≡◌, ℕ, ◌<◌, ◌≤◌, ◌++◌, slice_index};
ghost use Rattle.question.specs.Sound.{has};
ghost use Rattle.question.specs.Lent.{terms_of, lines_of, question_of};
ghost use Rattle.containment.specs.OwnTables.{numbers, line_numbers, question_numbers, free_from, naming};

use question::{Lines, Question, Term, Terms};

// Whether one of the terms names the number.
fn terms_name(terms: &Terms<'_, 16>, n: u64) -> bool
    ensures { result ≡ has (numbers (terms_of terms.now)) n }
{
    let mut terms = *terms;
    terms.any(|term| matches!(term, Term::Number(m) if u64::from(m) == n))
}

// Whether one of the lines names the number.
fn lines_name(lines: &Lines<'_, 16>, n: u64) -> bool
    ensures { result ≡ has (line_numbers (lines_of lines.now)) n }
{
    for line in *lines {
        if terms_name(&line.terms(), n) {
            return true;
        }
    }
    false
}

// Whether the question names the number.
fn names_number(question: &Question<'_>, n: u64) -> bool
    ensures { result ≡ has (question_numbers (question_of question.now)) n }
{
    terms_name(&question.row(), n) || lines_name(&question.lines(), n)
}

// Whether one of the two questions names the number.
fn named(first: &Question<'_>, second: &Question<'_>, n: u64) -> bool
    ensures { result ≡ has (question_numbers (question_of first.now) ++ question_numbers (question_of second.now)) n }
{
    names_number(first, n) || names_number(second, n)
}

// The least number from one on that neither question names.
fn free_from(first: &Question<'_>, second: &Question<'_>, from: u64) -> u64
    requires { free_from (question_numbers (question_of first.now) ++ question_numbers (question_of second.now)) from ≤ 100 }
    ensures { result ≡ free_from (question_numbers (question_of first.now) ++ question_numbers (question_of second.now)) from }
{
    let mut n = from;
    // The least number that is not named: there is no list of candidates.
    while named(first, second, n) {
        n += 1;
    }
    n
}

// The names of the first question's variables.
pub(crate) fn names(first: &Question<'_>, second: &Question<'_>) -> [u64; 16]
    ensures { (x : ℕ) → x < 16 → slice_index result x ≡ naming (question_of first.now) (question_of second.now) x }
{
    let mut values = [0; 16];
    let mut next = 1;
    // The variables x0 to x15.
    for x in 0..16u8 {
        let name = free_from(first, second, next);
        values[x as usize] = name;
        if first.has(x) {
            next = name + 1;
        }
    }
    values
}
