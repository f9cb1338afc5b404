// Whether a question may be asked of the tables.
ghost use Rattle.std.specs.Prelude.{◌≡◌, Some, None, MatchResult};
ghost use Rattle.wire.specs.Bytes.{question_of};
ghost use Rattle.answer_from_files.specs.Forms.{refusal_of};

use question::{Refusal, check_question};
use wire::read_question;

// The question that stands in the bytes, for so many tables in a lent form of so many numbers.
// The count and the length are those of the tables, not of the bytes.
pub fn asked(bytes: &[u8], count: usize, length: usize) -> Result<[u64; 50], Refusal>
    ensures { MatchResult result
        (λ numbers. (question_of bytes.now ≡ Some numbers) × (refusal_of bytes.now count length ≡ None))
        (λ refusal. refusal_of bytes.now count length ≡ Some refusal) }
{
    let question = read_question(bytes)?;
    check_question(&question)?;
    if count > 16 {
        return Err(Refusal::CutShort(length as u64));
    }
    Ok(question)
}
