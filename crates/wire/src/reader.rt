// The parts of a request in bytes, read one after the other.
ghost use Rattle.std.specs.Prelude.{◌≡◌, ℕ, ◌+◌, ◌*◌, ◌^◌, ◌<◌, ◌≤◌, List, [], length, replicate, IfSome};
ghost use Rattle.std.specs.Option.{option_map};
ghost use Rattle.wire.specs.Bytes.{Reads, times, read_byte, read_number, read_term, read_row, read_line, read_question, read_reports};
ghost use Rattle.wire.specs.Reading.{left, reading, kept, behind, ReadsBy, HasSize};

use std::convert::AsSlice;

// What is left to read. Each call takes what it reads off the front, or finds that the bytes are cut short.
#[derive(Drop)]
pub(crate) struct Reader<'a> {
    pub(crate) rest: &'a [u8],
}

impl<'a> Reader<'a> {
    fn byte(&mut self) -> Option<u8>
        ensures { read_byte (left self.old) ≡ reading result (left self.new) }
    {
        let (first, rest) = self.rest.split_first()?;
        self.rest = rest;
        Some(*first)
    }

    fn number(&mut self) -> Option<u32>
        ensures { read_number (left self.old) ≡ reading result (left self.new) }
    {
        let (bytes, rest) = self.rest.split_first_chunk()?;
        self.rest = rest;
        Some(u32::from_le_bytes(*bytes))
    }

    // The kind is kept as it is: whether there is such a kind is for the checks to tell.
    fn term(&mut self) -> Option<[u64; 2]>
        ensures read { read_term (left self.old) ≡ reading result (left self.new) }
        ensures size { IfSome result (λ term. length term ≡ 2) }
    {
        let kind = self.byte()?;
        let number = self.number()?;
        Some([u64::from(kind), u64::from(number)])
    }

    // So many parts, one behind the other, into a room of zeros. A part that has no place there is read over.
    fn parts<P: AsSlice<u64> + Drop, F: Fn(&mut Reader<'a>) -> Option<P>>(
        &mut self,
        count: u8,
        room: &mut [u64],
        read: F,
    ) -> Option<()>
        requires callable { F.IsAlwaysCallable read }
        requires zeros { (room.old ≡ replicate (length room.old) 0) × (length room.old ≤ 400) }
        requires sizes { (n k : ℕ) × (0 < n) × (n ≤ 50) × (length room.old ≡ n * k) × HasSize (F.post read) P.items n }
        ensures { (reads : Reads (List ℕ)) → ReadsBy (F.post read) P.items reads
            → behind (length room.old) [] (times count reads (left self.old)) ≡ reading (option_map (λ _. room.new) result) (left self.new) }
    {
        // The index is needed: a part's number tells its place, and a part past the room has none.
        for i in 0..usize::from(count) {
            let part = read(self)?;
            let numbers = part.as_slice();
            keep(room, i * numbers.len(), numbers);
        }
        Some(())
    }

    // The count of the terms, and room for four. A term past the fourth has no place: it is read over, and the count tells of it.
    fn row(&mut self) -> Option<[u64; 9]>
        ensures { read_row (left self.old) ≡ reading result (left self.new) }
    {
        let count = self.byte()?;
        let mut row = [0; 9];
        row[0] = u64::from(count);
        self.parts(count, &mut row[1..], |reader| reader.term())?;
        Some(row)
    }

    fn line(&mut self) -> Option<[u64; 10]>
        ensures read { read_line (left self.old) ≡ reading result (left self.new) }
        ensures size { IfSome result (λ line. length line ≡ 10) }
    {
        let table = self.number()?;
        let cells = self.row()?;
        let mut line = [0; 10];
        line[0] = u64::from(table);
        line[1..10].copy_from_slice(&cells);
        Some(line)
    }

    // The row, the count of the lines, and room for four. Lines past the fourth are read over, as terms are.
    pub(crate) fn question(&mut self) -> Option<[u64; 50]>
        ensures read { read_question (left self.old) ≡ reading result (left self.new) }
        ensures size { IfSome result (λ question. length question ≡ 50) }
    {
        let row = self.row()?;
        let count = self.byte()?;
        let mut question = [0; 50];
        self.parts(count, &mut question[10..], |reader| reader.line())?;
        question[..9].copy_from_slice(&row);
        question[9] = u64::from(count);
        Some(question)
    }

    // The count of the reports, and room for eight. More than eight are none, since there is no place for them.
    pub(crate) fn reports(&mut self) -> Option<[u64; 401]>
        ensures { read_reports (left self.old) ≡ reading result (left self.new) }
    {
        let count = self.byte()?;
        if count > 8 {
            return None;
        }
        let mut reports = [0; 401];
        reports[0] = u64::from(count);
        self.parts(count, &mut reports[1..], |reader| reader.question())?;
        Some(reports)
    }
}

// Puts a part at its place in the room, where it has one.
fn keep(room: &mut [u64], at: usize, part: &[u64])
    requires { at + length part.now < 2 ^ 64 }
    ensures { room.new ≡ kept at part.now room.old }
{
    let end = at + part.len();
    if end <= room.len() {
        room[at..end].copy_from_slice(part);
    }
}
