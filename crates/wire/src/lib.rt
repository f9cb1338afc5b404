// Requests in bytes, as programs read them, into lent numbers; and tables in text.
#![tactic(auto)]

ghost use Rattle.std.specs.Prelude.{◌≡◌, length, IfOk, Some, None, MatchResult};
ghost use Rattle.question.specs.declared.refusals.Refusal.TheVariants.{CutShort};
ghost use Rattle.wire.specs.Bytes.{request_of, question_of};

use question::Refusal;

mod laws;
mod printing;
mod reader;
mod requests;
mod tables;

pub use laws::{
    numbers_are_the_same_request, only_whole_requests_are_read, questions_cut_short_are_refused,
    requests_are_written_in_bytes, requests_cut_short_are_refused, written_questions_are_read_back,
    written_requests_are_read_back, written_tables_are_read_back,
};
pub use printing::write_rows;
use reader::Reader;
pub use requests::Request;
pub use tables::{Table, TableFault, read_number, read_table};

// Reads the reports and the question of a request. Bytes behind the question are not looked at.
pub fn read_request(bytes: &[u8]) -> Result<Request, Refusal>
    ensures answer { MatchResult result
        (λ request. request_of bytes.now ≡ Some request)
        (λ refusal. (request_of bytes.now ≡ None) × (refusal ≡ CutShort (length bytes.now))) }
    ensures sizes { IfOk result (λ request. (length request.reports ≡ 401) × (length request.question ≡ 50)) }
{
    let short = Refusal::CutShort(bytes.len() as u64);
    let mut reader = Reader { rest: bytes };
    let reports = reader.reports().ok_or(short)?;
    let question = reader.question().ok_or(short)?;
    Ok(Request { reports, question })
}

// Reads a question that stands alone, as a file with one question has it.
pub fn read_question(bytes: &[u8]) -> Result<[u64; 50], Refusal>
    ensures answer { MatchResult result
        (λ numbers. question_of bytes.now ≡ Some numbers)
        (λ refusal. (question_of bytes.now ≡ None) × (refusal ≡ CutShort (length bytes.now))) }
    ensures size { IfOk result (λ numbers. length numbers ≡ 50) }
{
    let short = Refusal::CutShort(bytes.len() as u64);
    Reader { rest: bytes }.question().ok_or(short)
}
