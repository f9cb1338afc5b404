// What `least` writes for random questions beside all choices of their lines.
use super::choices::smallest;
use super::counts::Count;
use super::dice::Dice;
use super::draw::Shape;
use super::plain::{Line, Plain};
use super::reading::{count_maps, reads, terms_of};
use super::shown::Numbers;
use minimization::least;
use std::alloc::{AllocError, Global};
use std::io;

// A question for which more maps than this would have to be tried is left out.
const MOST: u64 = 20000;

// What was compared.
#[derive(Clone, Copy, Default)]
struct Tally {
    // How many lose so many lines.
    lost: [Count; 4],
    // How many have several choices of the fewest lines.
    several: Count,
    differ: Count,
}

// Whether every variable of the row stands in a line.
fn is_sound(heap: Global, question: &Plain) -> Result<bool, AllocError> {
    let terms = terms_of(heap, &question.lines)?;
    Ok(
        question
            .row
            .iter()
            .all(|term| !term.is_variable() || terms.contains(term)),
    )
}

// The question with these lines in place of its own.
fn part_of(question: &Plain, lines: Vec<Line>) -> Result<Plain, AllocError> {
    let row = question.row.clone()?;
    Ok(Plain { row, lines })
}

// Whether some of the lines say the same as all of them.
fn will_do(heap: Global, question: &Plain, lines: &[Line]) -> Result<bool, AllocError> {
    let part = part_of(question, Vec::from_clones(heap, lines)?)?;
    Ok(is_sound(heap, &part)? && reads(heap, question, &part)? && reads(heap, &part, question)?)
}

impl Tally {
    // One question more, unless it would take too long.
    fn try_question(&mut self, rt: &HostRuntime, question: &Plain, soil: u64) -> io::Result<()> {
        let heap = rt.alloc();
        let lines = &question.lines;
        let terms = terms_of(heap, lines)?.len();
        if count_maps(terms, terms) > MOST {
            return Ok(());
        }
        let found = smallest(heap, lines, |part| will_do(heap, question, part))?;
        let fewest = part_of(question, found.lines.unwrap_or(Vec::new(heap)))?;
        let mut out = [7; 52];
        let left = least(&question.lent(soil), &mut out);
        let lost = lines.len().saturating_sub(fewest.lines.len());
        if let Some(count) = self.lost.get_mut(lost) {
            count.add(1);
        }
        self.several.add_if(found.equal > 1);
        if left != Ok(fewest.lines.len() as u64) || out != fewest.left() {
            self.differ.add(1);
            println!(rt; "differs: least of{}", Numbers(&question.lent(0)))?;
            println!(rt; "  written{}", Numbers(&out))?;
        }
        Ok(())
    }
}

// Draws so many questions, and prints what was compared.
pub fn try_all(rt: &HostRuntime, count: u64) -> io::Result<u64> {
    let mut dice = Dice::new(1181783497276652981);
    let mut tally = Tally::default();
    // So many are drawn: there is no list.
    for _ in 0..count {
        let mut shape = Shape::draw(&mut dice);
        shape.lines = dice.from_to(2, 4);
        shape.tables = dice.from_to(1, 2);
        shape.variables = dice.from_to(3, 5);
        let question = shape.draw_question(rt.alloc(), &mut dice)?;
        let soil = dice.below(4);
        tally.try_question(rt, &question, soil)?;
    }
    let [none, one, two, three] = tally.lost;
    let several = tally.several;
    print!(rt; "least: {none} least already, {one} lose 1 line, {two} lose 2, ")?;
    println!(rt; "{three} lose 3; several equal choices: {several}")?;
    Ok(tally.differ.number())
}
