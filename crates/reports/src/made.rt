// Readings of a report into the lines of a question, and the uses that they make.
ghost use Rattle.std.specs.Prelude.{◌≡◌, true};
ghost use Rattle.std.specs.List.{list_all};
ghost use Rattle.containment.specs.Search.{nothing, match_line, filling};
ghost use Rattle.containment.specs.Coding.{part_of};
ghost use Rattle.reports.specs.Widest.{code_within};

use super::put::Put;
use containment::Reading;
use question::{Line, Term};

// A reading that puts nothing as what no question has.
#[derive(Clone, Copy)]
pub(crate) struct OwnReading {
    reading: Reading,
    ghost within: { list_all code_within reading.codes ≡ true },
}

impl OwnReading {
    ghost use Rattle.std.specs.Option.{option_map};
    ghost use Rattle.question.specs.Lent.{line_of};
    ghost use Rattle.reports.specs.Made.{own_part};

    // The reading that puts nothing yet.
    pub(crate) fn nothing() -> OwnReading
        ensures { own_part result ≡ nothing }
    {
        OwnReading {
            reading: Reading::nothing(),
        }
    }

    // The reading, made to put a line as another.
    pub(crate) fn put_line(&self, from: &Line<'_, 16>, to: &Line<'_, 16>) -> Option<OwnReading>
        ensures { option_map own_part result ≡ match_line (own_part self.now) (line_of from.now) (line_of to.now) }
    {
        let reading = self.reading.put_line(from, to)?;
        Some(OwnReading { reading })
    }
}

// What is not put is put as the number 0.
impl Put for OwnReading {
    ghost how = { λ s. filling (part_of s.reading.codes) };

    fn variable(&self, x: u8) -> Term {
        Term::of_code(self.reading.codes[x as usize]).unwrap_or(Term::Number(0))
    }
}
