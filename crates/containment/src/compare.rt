// Whether one question lies within another, with tables that show it where not.
ghost use Rattle.std.specs.Prelude.{◌≡◌};
ghost use Rattle.containment.specs.Answer.{within_refusal, within_says, Numbered, Meant};

use super::answer::Containment;
use super::fresh::names;
use super::search::first_reading;
use super::shown::write_tables;
use question::{Question, Refusal};

// Whether the first question lies within the second. Where it does not, the first numbers of the room are tables that show it.
pub fn within(first: &[u64], second: &[u64], room: &mut [u64]) -> Result<Containment, Refusal>
    ensures answer { result ≡ (within_says (within_refusal first.now second.now room.old) first.now second.now room.old).0 }
    ensures numbered { Numbered result (within_refusal first.now second.now room.old) first.now second.now }
    ensures after { room.new ≡ (within_says (within_refusal first.now second.now room.old) first.now second.now room.old).1 }
    ensures meant { Meant result first.now second.now room.new }
{
    if first.len() < 50 {
        return Err(Refusal::CutShort(first.len() as u64));
    }
    if second.len() < 50 {
        return Err(Refusal::CutShort(second.len() as u64));
    }
    let first = Question::checked(first)?;
    let second = Question::checked(second)?;
    if room.len() < 64 {
        return Err(Refusal::NoRoomForTables(room.len() as u64));
    }
    if first_reading(&second, &first).is_some() {
        return Ok(Containment::Within);
    }
    let size = write_tables(&first, &names(&first, &second), room);
    Ok(Containment::Apart(size as u64))
}
