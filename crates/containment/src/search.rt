// The first reading of a question into another: the rows first, then line after line, each tried with every line of the other in turn.
ghost use Rattle.std.specs.Prelude.{◌≡◌, is_some};
ghost use Rattle.question.specs.Lent.{lines_of, question_of};
ghost use Rattle.containment.specs.Search.{nothing, match_terms, read_lines, first_reading, can_read};
ghost use Rattle.containment.specs.Coding.{part_of};
ghost use Rattle.containment.specs.Told.{told};

use super::ahead::can_read_lines;
use super::reading::Reading;
use question::{Lines, Question};

// The reading that puts the row of a question as the row of another, and nothing else.
fn row_reading<'a>(question: &Question<'a>, other: &Question<'a>) -> Option<Reading>
    ensures { told result ≡ match_terms nothing (question_of question.now).row (question_of other.now).row }
{
    let row = question.row();
    let as_row = other.row();
    if row.count_left() != as_row.count_left() {
        return None;
    }
    Reading::nothing().put_terms(&row, &as_row)
}

// The first reading, past the one given, that puts the first lines as some of the others.
// The reading comes by value and grows at each step, so the three stay apart.
pub fn read_lines<const LIMIT: usize>(
    reading: Reading,
    from: &Lines<'_, 16>,
    to: &Lines<'_, LIMIT>,
) -> Option<Reading>
    ensures { told result ≡ read_lines (lines_of from.now) (lines_of to.now) (part_of reading.codes) }
{
    let mut left = *from;
    let Some(line) = left.next() else {
        return Some(reading);
    };
    for other in *to {
        let Some(more) = reading.put_line(&line, &other) else {
            continue;
        };
        if let Some(whole) = read_lines(more, &left, to) {
            return Some(whole);
        }
    }
    None
}

// The first reading of a question into another.
pub fn first_reading(question: &Question<'_>, other: &Question<'_>) -> Option<Reading>
    ensures first { told result ≡ first_reading (question_of question.now) (question_of other.now) }
    ensures found { is_some result ≡ can_read (question_of question.now) (question_of other.now) }
{
    let reading = row_reading(question, other)?;
    read_lines(reading, &question.lines(), &other.lines())
}

// Whether a question can be read into the question with the same row and these lines.
pub fn reads_into<const LIMIT: usize>(question: &Question<'_>, lines: &Lines<'_, LIMIT>) -> bool
    ensures { result ≡ can_read (question_of question.now) (record { row = (question_of question.now).row; lines = lines_of lines.now }) }
{
    // Not `?`: the answer is a yes or no.
    let Some(reading) = row_reading(question, question) else {
        return false;
    };
    let from = question.lines();
    can_read_lines(reading, &from, lines)
}
