// The least question that says the same, written down.
ghost use Rattle.std.specs.Prelude.{◌≡◌, ◌≤◌, ◌++◌, length, drop};
ghost use Rattle.question.specs.Layout.{question_in, question_out};
ghost use Rattle.question.specs.Lent.{question_of};
ghost use Rattle.minimization.specs.Least.{says_same, least};
ghost use Rattle.minimization.specs.Answer.{least_refusal, least_says, least_leaves, Numbered, MeantLeast};

use super::choose::LentCandidates;
use super::test::PartialTest;
use containment::reads_into;
use question::{Lines, Question, Refusal};

// Whether some lines of a question say the same as all of them.
#[derive(Clone, Copy)]
struct SaysSame<'a> {
    question: Question<'a>,
}

impl<'a> PartialTest for SaysSame<'a> {
    ghost decides = { λ s. says_same (question_of s.question) };

    ghost ready = { λ _. Unit {0} };

    ghost takes = { λ _ _. Unit {0} };

    fn passes(&self, lines: &Lines<'_, 16>) -> bool {
        reads_into(&self.question, lines)
    }
}

// Writes the least question to the front of out, and counts its lines.
// The room for fifty numbers is asked: whoever lends it has looked.
fn write_least(question: &Question<'_>, out: &mut [u64]) -> u64
    requires { 50 ≤ length out.old }
    ensures told { result ≡ length (least (question_of question.now)).lines }
    ensures written { out.new ≡ question_out (least (question_of question.now)) ++ drop 50 out.old }
{
    let lines = question.lines();
    let test = SaysSame {
        question: *question,
    };
    let candidates = LentCandidates { test: &test, lines };
    let Some(chosen) = candidates.first_of_sizes(lines.count_left()) else {
        unreachable!()
    };
    let least = chosen.lines();
    question.write_with(&least, out);
    least.count_left() as u64
}

// Makes a question least: the fewest of its lines that say the same, and of those the first by places. It counts these lines.
pub fn least(question: &[u64], out: &mut [u64]) -> Result<u64, Refusal>
    ensures told { result ≡ least_says question.now out.old }
    ensures numbered { Numbered result (least_refusal question.now out.old) (length (least (question_in question.now)).lines) }
    ensures written { out.new ≡ least_leaves question.now out.old }
    ensures meant { MeantLeast question.now out.old out.new result }
{
    let asked = Question::checked(question)?;
    if out.len() < 50 {
        return Err(Refusal::NoRoomForQuestion(out.len() as u64));
    }
    Ok(write_least(&asked, out))
}
