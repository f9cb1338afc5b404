// What is asked of a choice of lines.
ghost use Rattle.std.specs.Prelude.{◌≡◌, ◌≤◌, Bool, List, length};
ghost use Rattle.question.specs.Question.{Line, In};
ghost use Rattle.question.specs.Lent.{lines_of};

use question::Lines;

// A test that is right of all lines.
pub trait Test: Copy {
    // What it decides, of lines as they are meant.
    ghost decides: { Self → List Line → Bool };

    fn passes(&self, lines: &Lines<'_, 16>) -> bool
        requires { length (lines_of lines.now) ≤ 4 }
        ensures { result ≡ decides self.now (lines_of lines.now) };
}

// A test that may ask for something first, and may be right of some lines only.
pub trait PartialTest {
    // What it decides, of lines as they are meant.
    ghost decides: { Self → List Line → Bool };
    // What has to hold of it to be asked.
    ghost ready: { Self → Type 0 };
    // What has to hold of each line that it is asked of.
    ghost takes: { Self → Line → Type 0 };

    fn passes(&self, lines: &Lines<'_, 16>) -> bool
        requires asked { ready self.now }
        requires few { length (lines_of lines.now) ≤ 4 }
        requires taken { (l : Line) → In l (lines_of lines.now) → takes self.now l }
        ensures { result ≡ decides self.now (lines_of lines.now) };
}
