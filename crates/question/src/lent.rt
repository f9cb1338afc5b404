// A lent question that has passed the check, and its parts.
ghost use Rattle.std.specs.Prelude.{◌≡◌, ◌*◌, ◌≤◌, true, ◌++◌, length, drop, None, Some, MatchResult};
ghost use Rattle.question.specs.Question.{all_at};
ghost use Rattle.question.specs.Sound.{has, line_vars};
ghost use Rattle.question.specs.Layout.{question_in, question_out, value_in};
ghost use Rattle.question.specs.Check.{question_refusal, IsQuestion};

use super::check::check_question;
use super::lines::Lines;
use super::refusals::Refusal;
use super::terms::Terms;

// A question (the field says: conjunctive query) in its lent numbers: the part of a slice that it begins.
#[derive(Clone, Copy)]
pub struct Question<'a> {
    numbers: &'a [u64],
    ghost asked: { question_refusal numbers.now ≡ None },
}

impl<'a> Question<'a> {
    ghost use Rattle.question.specs.Lent.{terms_of, lines_of, question_of};

    // The question that the numbers begin with, or how it is turned away.
    pub fn checked(numbers: &'a [u64]) -> Result<Question<'a>, Refusal>
        ensures told { MatchResult result
            (λ q. (question_refusal numbers.now ≡ None) × (question_of q ≡ question_in numbers.now))
            (λ e. question_refusal numbers.now ≡ Some e) }
    {
        check_question(numbers)?;
        Ok(Question { numbers })
    }

    // The question that numbers begin with that are known to have passed the check.
    pub fn of_checked(numbers: &'a [u64]) -> Question<'a>
        requires { question_refusal numbers.now ≡ None }
        ensures { question_of result ≡ question_in numbers.now }
    {
        Question { numbers }
    }

    // The terms of its row.
    // Like `lines` below, but of another type of item.
    #[tactic(auto, using(crate::proofs::Parted::long))]
    pub fn row(&self) -> Terms<'a, 16>
        ensures row { terms_of result ≡ (question_of self.now).row }
        ensures few { length (question_of self.now).row ≤ 4 }
    {
        let numbers = self.numbers;
        Terms::first_of(&numbers[1..], numbers[0] as usize)
    }

    // Its lines.
    #[tactic(auto, using(crate::proofs::Parted::long))]
    pub fn lines(&self) -> Lines<'a, 16>
        ensures lines { lines_of result ≡ (question_of self.now).lines }
        ensures few { length (question_of self.now).lines ≤ 4 }
    {
        let numbers = self.numbers;
        Lines::first_of(&numbers[10..], numbers[9] as usize)
    }

    // Whether the variable stands in one of its lines.
    pub fn has(&self, x: u8) -> bool
        ensures { result ≡ has (line_vars (question_of self.now).lines) x }
    {
        self.lines().have(x)
    }

    // Writes its row under the values to the front of out.
    pub fn row_under(&self, values: &[u64; 16], out: &mut [u64])
        requires { length (question_of self.now).row ≤ length out.old }
        ensures { out.new ≡ all_at (value_in values.now) (question_of self.now).row ++ drop (length (question_of self.now).row) out.old }
    {
        self.row().row_under(values, out);
    }

    // Writes the question with its row and these lines to the front of out.
    pub fn write_with<const LIMIT: usize>(&self, lines: &Lines<'_, LIMIT>, out: &mut [u64])
        requires { (length (lines_of lines.now) ≤ 4) × (50 ≤ length out.old) }
        ensures { out.new ≡ question_out (record { row = (question_of self.now).row; lines = lines_of lines.now }) ++ drop 50 out.old }
    {
        let row = self.row();
        out[0] = row.count_left() as u64;
        row.write(&mut out[1..9]);
        out[9] = lines.count_left() as u64;
        lines.write(&mut out[10..50]);
    }
}
