// The call that a static library exports. No such caller is held to a contract, so it asks for nothing.
ghost use Rattle.std.specs.Prelude.{◌≡◌, [], ◌∷◌};
ghost use Rattle.answer.specs.Answered.{number_of, values_of};
ghost use Rattle.answer_c.specs.Told.{ToldOf};

use answer::answer;
use question::Refusal;
use std::alloc::Global;

// What is told: 0 and how many rows, or the refusal's number and its place. It stays beside Result for the C interface.
#[repr(C)]
pub struct Told {
    pub number: u64,
    pub value: u64,
}

// An answer as two numbers.
// C is handed two numbers, so this is no `From`.
fn as_numbers(answer: Result<u64, Refusal>) -> Told
    ensures { (result.number ≡ number_of answer) × ((result.value ∷ []) ≡ values_of answer) }
{
    match answer {
        Ok(count) => Told {
            number: 0,
            value: count,
        },
        Err(refusal) => Told {
            number: refusal.number(),
            value: refusal.place(),
        },
    }
}

// Answers the question from the tables, as `answer` does. In C:
// struct told { uint64_t number, value; };
// struct told answer_c(const uint64_t *question, size_t, const uint64_t *tables, size_t, uint64_t *out, size_t);
#[unsafe(no_mangle)]
pub extern "C" fn answer_c(heap: Global, question: &[u64], tables: &[u64], out: &mut [u64]) -> Told
    ensures { ToldOf question.now tables.now out.old out.new result.number result.value }
{
    let said = answer(heap, question, tables, out);
    as_numbers(said)
}
