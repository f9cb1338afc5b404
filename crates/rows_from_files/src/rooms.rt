// Answers in a room that is large enough, up to a limit.
ghost use Rattle.std.specs.Prelude.{◌≡◌, length, replicate, IfOk};
ghost use Rattle.answer.specs.Answered.{Meant};
ghost use Rattle.rows_from_files.specs.Rooms.{no_room, InRoom};

use answer::answer;
use question::Refusal;
use std::alloc::{AllocError, Global};

// An answer and the room that its rows stand in.
#[derive(Drop)]
pub struct Answered {
    pub answer: Result<u64, Refusal>,
    pub out: Vec<u64>,
}

// Whether there was no room for the next row.
fn no_room(answer: Result<u64, Refusal>) -> bool
    ensures { result ≡ no_room answer }
{
    matches!(answer, Err(Refusal::NoRoomForRow(_)))
}

// Answers in a new room of so many numbers.
// The size is that of the room to be made, not of the tables.
fn answer_in(
    heap: Global,
    question: &[u64],
    tables: &[u64],
    size: usize,
) -> Result<Answered, AllocError>
    ensures meant { IfOk result (λ a. Meant question.now tables.now (replicate size 0) a.out.items a.answer) }
    ensures size { IfOk result (λ a. length a.out.items ≡ size) }
{
    let mut out = vec![in heap; 0; size]?;
    let answer = answer(heap, question, tables, &mut out);
    Ok(Answered { answer, out })
}

// Answers in a room of 65,536 numbers, and while that is too small in one four times as large, of at most 2^24.
pub fn answer_in_room(
    heap: Global,
    question: &[u64],
    tables: &[u64],
) -> Result<Answered, AllocError>
    ensures { IfOk result (λ a. InRoom question.now tables.now a.out.items a.answer) }
{
    let mut size = 65_536;
    // A larger room until one does: there is no list.
    loop {
        let answered = answer_in(heap, question, tables, size)?;
        if !no_room(answered.answer) || size == 16_777_216 {
            return Ok(answered);
        }
        size = (4 * size).min(16_777_216);
    }
}
