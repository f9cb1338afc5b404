// Whether there is a reading at all, without naming it: the search looks ahead, and turns back where a line has no place left.
ghost use Rattle.std.specs.Prelude.{◌≡◌, is_some, Some};
ghost use Rattle.question.specs.Lent.{line_of, lines_of};
ghost use Rattle.containment.specs.Search.{try_lines, read_lines, all_placed};
ghost use Rattle.containment.specs.Coding.{part_of};

use super::reading::Reading;
use question::{Line, Lines};

// Whether the line can be put as one of the others, past the reading.
fn has_place<const LIMIT: usize>(
    reading: Reading,
    line: &Line<'_, 16>,
    to: &Lines<'_, LIMIT>,
) -> bool
    ensures { result ≡ is_some (try_lines Some (lines_of to.now) (line_of line.now) (part_of reading.codes)) }
{
    for other in *to {
        if reading.put_line(line, &other).is_some() {
            return true;
        }
    }
    false
}

// Whether each of the lines, alone, can be put as one of the others, past the reading. If one can't, no reading puts them all.
// The reading comes by value and grows at each step, so the three stay apart.
fn all_placed<const LIMIT: usize>(
    reading: Reading,
    from: &Lines<'_, 16>,
    to: &Lines<'_, LIMIT>,
) -> bool
    ensures { result ≡ all_placed (lines_of from.now) (lines_of to.now) (part_of reading.codes) }
{
    for line in *from {
        if !has_place(reading, &line, to) {
            return false;
        }
    }
    true
}

// Whether there is a reading, past the one given, that puts the lines as some of the others. It looks ahead: where a line has no place left, it turns back.
// As above, the three stay apart.
pub(crate) fn can_read_lines<const LIMIT: usize>(
    reading: Reading,
    from: &Lines<'_, 16>,
    to: &Lines<'_, LIMIT>,
) -> bool
    ensures { result ≡ is_some (read_lines (lines_of from.now) (lines_of to.now) (part_of reading.codes)) }
{
    let mut left = *from;
    // Not `?`: no line left means yes.
    let Some(line) = left.next() else {
        return true;
    };
    if !all_placed(reading, from, to) {
        return false;
    }
    for other in *to {
        let Some(more) = reading.put_line(&line, &other) else {
            continue;
        };
        if can_read_lines(more, &left, to) {
            return true;
        }
    }
    false
}
