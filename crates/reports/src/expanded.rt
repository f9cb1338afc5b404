// The lines that uses of reports stand for.
ghost use Rattle.std.specs.Prelude.{◌≡◌, true};
ghost use Rattle.std.specs.List.{list_all};
ghost use Rattle.question.specs.Layout.{ten_fit};

use arrayvec::ArrayVec;
use question::Lines;

// The lines that uses of reports stand for: at most sixteen, with at most 256 variables.
#[derive(Drop)]
pub struct Expanded {
    lines: ArrayVec<[u64; 10], 16>,
    ghost fit: { list_all (ten_fit 256) lines.items ≡ true },
}

impl Expanded {
    ghost use Rattle.std.specs.Prelude.{[], ◌∷◌, ◌++◌, ◌<◌, ◌≤◌, length};
    ghost use Rattle.question.specs.Layout.{line_in};
    ghost use Rattle.question.specs.Lent.{lines_of};
    ghost use Rattle.reports.specs.Lent.{expanded_lines};

    // No lines yet.
    pub(crate) fn none() -> Expanded
        ensures { expanded_lines result ≡ [] }
    {
        Expanded {
            lines: ArrayVec::new(),
        }
    }

    // One more line.
    pub(crate) fn add(&mut self, line: [u64; 10])
        requires room { length (expanded_lines self.old) < 16 }
        requires fits { ten_fit 256 line ≡ true }
        ensures { expanded_lines self.new ≡ expanded_lines self.old ++ line_in line ∷ [] }
    {
        self.lines.push(line);
    }

    // The lines.
    pub fn lines(&self) -> Lines<'_, 256>
        ensures lines { lines_of result ≡ expanded_lines self.now }
        ensures few { length (expanded_lines self.now) ≤ 16 }
    {
        Lines::over(self.lines.as_slice())
    }
}
