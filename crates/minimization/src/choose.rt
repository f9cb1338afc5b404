// The first choice of lines that passes a test, by size and then by places.
ghost use Rattle.std.specs.Prelude.{◌≡◌, ◌<◌, ◌≤◌, length};
ghost use Rattle.std.specs.Option.{option_map};
ghost use Rattle.question.specs.Question.{Line, In};
ghost use Rattle.question.specs.Lent.{lines_of};
ghost use Rattle.minimization.specs.Choices.{choices, first_right, first_after, by_size};
ghost use Rattle.minimization.specs.Meant.{meant};

use super::chosen::Chosen;
use super::test::{PartialTest, Test};
use question::Lines;

// Lines to choose from, and the test that a choice of them has to pass. It is lent, so that no test has to be `Copy`.
#[derive_where(Clone, Copy)]
pub struct LentCandidates<'a, T: PartialTest> {
    pub test: &'a T,
    pub lines: Lines<'a, 16>,
}

// Choices of two, three and four lines are tried by nested loops, which are left from inside by a label.
// What the test asks for is said by each function, and not by the struct: it can be made before that holds.
impl<'a, T: PartialTest> LentCandidates<'a, T> {
    // The chosen lines and the first of those behind them that they pass with.
    fn first_with(&self, chosen: &Chosen, behind: &Lines<'_, 16>) -> Option<Chosen>
        requires asked { T.ready self.now.test.now }
        requires few { length (meant chosen.now) < 4 }
        requires taken { (l : Line) → In l (meant chosen.now) → T.takes self.now.test.now l }
        requires behind { (l : Line) → In l (lines_of behind.now) → T.takes self.now.test.now l }
        ensures { option_map meant result ≡ first_after (T.decides self.now.test.now) (meant chosen.now) 1 (lines_of behind.now) }
    {
        for line in *behind {
            let more = chosen.with(&line);
            if self.test.passes(&more.lines()) {
                return Some(more);
            }
        }
        None
    }

    // The first line that passes.
    fn first_one(&self) -> Option<Chosen>
        requires asked { T.ready self.now.test.now }
        requires taken { (l : Line) → In l (lines_of self.now.lines) → T.takes self.now.test.now l }
        ensures { option_map meant result ≡ first_right (T.decides self.now.test.now) (choices 1 (lines_of self.now.lines)) }
    {
        self.first_with(&Chosen::nothing(), &self.lines)
    }

    // The first two lines that pass.
    fn first_two(&self) -> Option<Chosen>
        requires asked { T.ready self.now.test.now }
        requires taken { (l : Line) → In l (lines_of self.now.lines) → T.takes self.now.test.now l }
        ensures { option_map meant result ≡ first_right (T.decides self.now.test.now) (choices 2 (lines_of self.now.lines)) }
    {
        let none = Chosen::nothing();
        let mut first = None;
        let mut behind_a = self.lines;
        // Left from inside by a label, and the body needs what is still behind: no `for`.
        'found: while let Some(a) = behind_a.next() {
            let one = none.with(&a);
            if let Some(two) = self.first_with(&one, &behind_a) {
                first = Some(two);
                break 'found;
            }
        }
        first
    }

    // The first three lines that pass.
    fn first_three(&self) -> Option<Chosen>
        requires asked { T.ready self.now.test.now }
        requires taken { (l : Line) → In l (lines_of self.now.lines) → T.takes self.now.test.now l }
        ensures { option_map meant result ≡ first_right (T.decides self.now.test.now) (choices 3 (lines_of self.now.lines)) }
    {
        let none = Chosen::nothing();
        let mut first = None;
        let mut behind_a = self.lines;
        // As in `first_two`.
        'found: while let Some(a) = behind_a.next() {
            let one = none.with(&a);
            let mut behind_b = behind_a;
            while let Some(b) = behind_b.next() {
                let two = one.with(&b);
                if let Some(three) = self.first_with(&two, &behind_b) {
                    first = Some(three);
                    break 'found;
                }
            }
        }
        first
    }

    // The first four lines that pass.
    fn first_four(&self) -> Option<Chosen>
        requires asked { T.ready self.now.test.now }
        requires taken { (l : Line) → In l (lines_of self.now.lines) → T.takes self.now.test.now l }
        ensures { option_map meant result ≡ first_right (T.decides self.now.test.now) (choices 4 (lines_of self.now.lines)) }
    {
        let none = Chosen::nothing();
        let mut first = None;
        let mut behind_a = self.lines;
        // As in `first_two`.
        'found: while let Some(a) = behind_a.next() {
            let one = none.with(&a);
            let mut behind_b = behind_a;
            while let Some(b) = behind_b.next() {
                let two = one.with(&b);
                let mut behind_c = behind_b;
                while let Some(c) = behind_c.next() {
                    let three = two.with(&c);
                    if let Some(four) = self.first_with(&three, &behind_c) {
                        first = Some(four);
                        break 'found;
                    }
                }
            }
        }
        first
    }

    // The first choice of n lines that passes.
    pub fn first_choice(&self, n: usize) -> Option<Chosen>
        requires asked { T.ready self.now.test.now }
        requires taken { (l : Line) → In l (lines_of self.now.lines) → T.takes self.now.test.now l }
        requires size { (1 ≤ n) × (n ≤ 4) }
        ensures { option_map meant result ≡ first_right (T.decides self.now.test.now) (choices n (lines_of self.now.lines)) }
    {
        match n {
            1 => self.first_one(),
            2 => self.first_two(),
            3 => self.first_three(),
            _ => self.first_four(),
        }
    }

    // The first choice that passes: the fewest lines, at most `most`, and of those the first by places.
    pub fn first_of_sizes(&self, most: usize) -> Option<Chosen>
        requires asked { T.ready self.now.test.now }
        requires taken { (l : Line) → In l (lines_of self.now.lines) → T.takes self.now.test.now l }
        requires size { most ≤ 4 }
        ensures { option_map meant result ≡ by_size (T.decides self.now.test.now) (lines_of self.now.lines) most 1 }
    {
        // The sizes, from one on.
        for n in 1..=most {
            if let Some(first) = self.first_choice(n) {
                return Some(first);
            }
        }
        None
    }
}

// A test that is right of all lines, as one that need be right of some only.
#[derive(Clone, Copy)]
struct OfAll<T: Test> {
    test: T,
}

impl<T: Test> PartialTest for OfAll<T> {
    ghost decides = { λ t. T.decides t.test };

    ghost ready = { λ _. Unit {0} };

    ghost takes = { λ _ _. Unit {0} };

    fn passes(&self, lines: &Lines<'_, 16>) -> bool {
        self.test.passes(lines)
    }
}

// Lines to choose from, and the test that a choice of them has to pass, by value.
#[derive(Clone, Copy)]
pub struct Candidates<'a, T: Test> {
    pub test: T,
    pub lines: Lines<'a, 16>,
}

// Both functions answer by `LentCandidates`, which the programs of this repository run.
impl<'a, T: Test> Candidates<'a, T> {
    // The first choice of n lines that passes.
    pub fn first_choice(&self, n: usize) -> Option<Chosen>
        requires { (1 ≤ n) × (n ≤ 4) }
        ensures { option_map meant result ≡ first_right (T.decides self.now.test) (choices n (lines_of self.now.lines)) }
    {
        let test = OfAll { test: self.test };
        let lent = LentCandidates {
            test: &test,
            lines: self.lines,
        };
        lent.first_choice(n)
    }

    // The first choice that passes: the fewest lines, at most `most`, and of those the first by places.
    pub fn first_of_sizes(&self, most: usize) -> Option<Chosen>
        requires { most ≤ 4 }
        ensures { option_map meant result ≡ by_size (T.decides self.now.test) (lines_of self.now.lines) most 1 }
    {
        let test = OfAll { test: self.test };
        let lent = LentCandidates {
            test: &test,
            lines: self.lines,
        };
        lent.first_of_sizes(most)
    }
}
