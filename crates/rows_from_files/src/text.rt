// What is printed for a question and tables, as text.
ghost use Rattle.std.specs.Prelude.{◌≡◌, length, IfOk, string_bytes};
ghost use Rattle.question.specs.Tables.{rows_in};
ghost use Rattle.wire.specs.Bytes.{question_of};
ghost use Rattle.wire.specs.Tables.{table_text};
ghost use Rattle.named_files.specs.Forms.{lent_numbers};
ghost use Rattle.rows_from_files.specs.Printed.{refusal_text, standing, answer_text, Printed, PrintedFor};

use super::rooms::{Answered, answer_in_room};
use named_files::{Numbered, lend};
use question::Refusal;
use std::alloc::{AllocError, Global};
use wire::{read_question, write_rows};

// The text of so many rows, which lie one after another in the numbers.
// Rows of no columns are counted too, which the numbers can't tell.
fn rows_text(
    heap: Global,
    columns: usize,
    count: usize,
    numbers: &[u64],
) -> Result<String, AllocError>
    ensures { IfOk result (λ text. string_bytes text ≡ table_text (rows_in count columns numbers.now)) }
{
    let mut text = String::new(heap);
    write_rows(&mut text, count, columns, numbers).map_err(|_| AllocError)?;
    Ok(text)
}

// A refusal on a line of its own.
fn refusal_text(heap: Global, refusal: Refusal) -> Result<String, AllocError>
    ensures { IfOk result (λ text. string_bytes text ≡ refusal_text refusal) }
{
    format!(in heap; "{refusal}\n")
}

// How many rows stand in the room.
fn standing(answer: Result<u64, Refusal>) -> usize
    ensures { result ≡ standing answer }
{
    match answer {
        Ok(count) | Err(Refusal::NoRoomForRow(count)) => count as usize,
        Err(_) => 0,
    }
}

// The rows that stand, and behind them the refusal if there is one.
fn answered_text(heap: Global, columns: usize, answered: &Answered) -> Result<String, AllocError>
    ensures { IfOk result (λ text. string_bytes text ≡ answer_text columns answered.now.out.items answered.now.answer) }
{
    let mut text = rows_text(heap, columns, standing(answered.answer), &answered.out)?;
    if let Err(refusal) = answered.answer {
        text.push_str(&refusal_text(heap, refusal)?)?;
    }
    Ok(text)
}

// The text for a question in lent numbers. How wide its rows are is asked only where there are some.
fn answer_text(heap: Global, question: &[u64; 50], tables: &[u64]) -> Result<String, AllocError>
    ensures { IfOk result (λ text. Printed question.now tables.now (string_bytes text)) }
{
    let answered = answer_in_room(heap, question, tables)?;
    answered_text(heap, question[0] as usize, &answered)
}

// The text that is printed for the bytes of a question and for tables.
pub fn printed_text(heap: Global, bytes: &[u8], tables: &[Numbered]) -> Result<String, AllocError>
    ensures { IfOk result (λ text. PrintedFor (length bytes.now) (question_of bytes.now) (lent_numbers tables.now) (string_bytes text)) }
{
    match read_question(bytes) {
        Ok(question) => answer_text(heap, &question, &lend(heap, tables)?),
        Err(refusal) => refusal_text(heap, refusal),
    }
}
