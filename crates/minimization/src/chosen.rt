// Some lines of a question by value.
ghost use Rattle.std.specs.Prelude.{◌≡◌, ◌+◌, ◌<◌, ◌≤◌, true, [], ◌∷◌, ◌++◌, length, take};
ghost use Rattle.std.specs.List.{list_all};
ghost use Rattle.question.specs.Layout.{ten_fit};

use question::{Line, Lines};

// At most four lines, ten numbers each; what lies behind them isn't looked at. Kept: room for four and a count, since there is no heap here.
#[derive(Clone, Copy)]
pub struct Chosen {
    count: usize,
    lines: [[u64; 10]; 4],
    ghost few: { count ≤ 4 },
    ghost four: { length lines ≡ 4 },
    ghost fit: { list_all (ten_fit 16) (take count lines) ≡ true },
}

impl Chosen {
    ghost use Rattle.question.specs.Lent.{line_of, lines_of};
    ghost use Rattle.minimization.specs.Meant.{meant};

    // No line.
    pub(crate) fn nothing() -> Chosen
        ensures { meant result ≡ [] }
    {
        Chosen {
            count: 0,
            lines: [[0; 10]; 4],
        }
    }

    // These lines and one more.
    pub(crate) fn with(&self, line: &Line<'_, 16>) -> Chosen
        requires { length (meant self.now) < 4 }
        ensures lines { meant result ≡ meant self.now ++ line_of line.now ∷ [] }
        ensures count { length (meant result) ≡ length (meant self.now) + 1 }
    {
        let mut more = *self;
        more.lines[more.count] = *line.numbers();
        more.count += 1;
        more
    }

    // The lines.
    pub fn lines(&self) -> Lines<'_, 16>
        ensures lines { lines_of result ≡ meant self.now }
        ensures few { length (meant self.now) ≤ 4 }
    {
        Lines::over(&self.lines[..self.count])
    }
}
