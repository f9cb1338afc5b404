// That the first choice can be had of a test that is right of all lines, called as another crate calls it.
use super::{Candidates, Chosen, Test};
use question::{Lines, Question};

// Passes where there are as many lines as asked.
#[derive(Clone, Copy)]
struct AsMany {
    asked: usize,
}

impl Test for AsMany {
    ghost use Rattle.std.specs.Prelude.{eqb, length};

    ghost decides = { λ t lines. eqb (length lines) t.asked };

    fn passes(&self, lines: &Lines<'_, 16>) -> bool {
        lines.count_left() == self.asked
    }
}

// The tables of the first three lines that are chosen.
fn tables(chosen: &Chosen) -> [Option<u64>; 3] {
    let mut lines = chosen.lines();
    [
        lines.next().map(|line| line.table()),
        lines.next().map(|line| line.table()),
        lines.next().map(|line| line.table()),
    ]
}

// Of x0 of 0: x0, 1: x0, 2: x0.
#[test]
fn the_first_choice_can_be_had(rt: HostRuntime) {
    let mut numbers = [0; 50];
    numbers[..3].copy_from_slice(&[1, 1, 0]);
    numbers[9] = 3;
    for (table, line) in numbers[10..40].as_chunks_mut().0.iter_mut().enumerate() {
        *line = [table as u64, 1, 1, 0, 0, 0, 0, 0, 0, 0];
    }
    let question = Question::checked(&numbers).expect(&rt, "a question");
    let candidates = Candidates {
        test: AsMany { asked: 2 },
        lines: question.lines(),
    };
    let two = candidates.first_choice(2).expect(&rt, "two of three lines");
    assert!(rt; tables(&two) == [Some(0), Some(1), None]);
    let fewest = candidates.first_of_sizes(3).expect(&rt, "at most three");
    assert!(rt; tables(&fewest) == [Some(0), Some(1), None]);
    assert!(rt; candidates.first_choice(3).is_none());
    assert!(rt; candidates.first_of_sizes(1).is_none());
}
