// Random questions and reports: few variables, repeated, a few numbers, lines that say nothing new, reports that hide a join.
use super::dice::Dice;
use super::plain::{Line, Plain, Term};
use std::alloc::{AllocError, Global};

// What a question is drawn from.
#[derive(Clone, Copy)]
pub struct Shape {
    // How many terms tables 0, 1 and 2 have.
    pub widths: [u64; 3],
    // How many of these tables are named.
    pub tables: u64,
    pub variables: u64,
    pub lines: u64,
    // One term in so many is a number.
    pub numbers: u64,
    // One term in so many of a report is another variable than in the question.
    pub loose: u64,
}

// One to three terms, and now and then none or four.
fn draw_width(dice: &mut Dice) -> u64 {
    match dice.below(24) {
        0 => 0,
        1 => 4,
        _ => dice.from_to(1, 3),
    }
}

impl Shape {
    // Any shape of one to four lines.
    pub fn draw(dice: &mut Dice) -> Self {
        Shape {
            widths: [draw_width(dice), draw_width(dice), draw_width(dice)],
            tables: dice.from_to(1, 3),
            variables: dice.from_to(2, 5),
            lines: dice.from_to(1, 4),
            numbers: dice.from_to(4, 12),
            loose: dice.from_to(4, 30),
        }
    }

    fn draw_term(&self, dice: &mut Dice) -> Term {
        if dice.once_in(self.numbers) {
            Term::Number(dice.below(3))
        } else {
            Term::Variable(dice.below(self.variables))
        }
    }

    fn draw_line(&self, heap: Global, dice: &mut Dice) -> Result<Line, AllocError> {
        let table = dice.below(self.tables.min(3));
        let width = self.widths.get(table as usize).copied().unwrap_or(0);
        let terms = (0..width).map(|_| self.draw_term(dice)).collect(heap)?;
        Ok(Line { table, terms })
    }

    // A question of that shape; now and then with a line twice.
    pub fn draw_question(&self, heap: Global, dice: &mut Dice) -> Result<Plain, AllocError> {
        let mut lines = Vec::new(heap);
        // So many are drawn: there is no list.
        for _ in 0..self.lines {
            lines.push(self.draw_line(heap, dice)?)?;
        }
        if dice.once_in(20) {
            repeat_first(&mut lines)?;
        }
        let width = dice.from_to(0, 4);
        let row = (0..width).map(|_| draw_cell(dice, &lines)).collect(heap)?;
        Ok(Plain { row, lines })
    }
}

// Puts the first line in the second's place.
fn repeat_first(lines: &mut Vec<Line>) -> Result<(), AllocError> {
    if let Some(first) = lines.first() {
        let again = first.clone()?;
        if lines.len() > 1 {
            lines[1] = again;
        } else {
            lines.push(again)?;
        }
    }
    Ok(())
}

// A term of one of the lines.
pub fn draw_cell(dice: &mut Dice, lines: &[Line]) -> Term {
    let Some(line) = dice.one_of(lines) else {
        return Term::Number(0);
    };
    dice.one_of(&line.terms).copied().unwrap_or(Term::Number(0))
}

// A report's row: different variables of its lines, one in so many left out and hidden thereby.
fn draw_report_row(
    heap: Global,
    dice: &mut Dice,
    lines: &[Line],
    hidden: u64,
) -> Result<Vec<Term>, AllocError> {
    let mut terms: Vec<Term> = lines
        .iter()
        .flat_map(|line| line.terms.iter().copied())
        .collect(heap)?;
    if dice.once_in(2) {
        terms.reverse();
    }
    let mut row = Vec::new(heap);
    for term in &terms {
        let new = term.is_variable() && !row.contains(term);
        if new && row.len() < 4 && !dice.once_in(hidden) {
            row.push(*term)?;
        }
    }
    Ok(row)
}

// The other name of a variable.
pub fn renamed(variable: u64) -> u64 {
    (variable % 5) * 2 + 1
}

// A term under another name; now and then another variable, also for a number.
fn loosened(dice: &mut Dice, term: Term, loose: u64) -> Term {
    let other = dice.once_in(loose);
    match term {
        Term::Number(_) => {
            if other || dice.once_in(2) {
                Term::Variable(14)
            } else {
                term
            }
        }
        Term::Variable(x) => Term::Variable(if other {
            dice.from_to(11, 13)
        } else {
            renamed(x)
        }),
    }
}

fn loosened_line(
    heap: Global,
    dice: &mut Dice,
    line: &Line,
    loose: u64,
) -> Result<Line, AllocError> {
    let terms = line
        .terms
        .iter()
        .map(|term| loosened(dice, *term, loose))
        .collect(heap)?;
    Ok(Line {
        table: line.table,
        terms,
    })
}

// So many of the lines under other names.
// How many are drawn, not how many lines there are.
pub fn draw_part(
    heap: Global,
    dice: &mut Dice,
    lines: &[Line],
    count: u64,
    loose: u64,
) -> Result<Vec<Line>, AllocError> {
    let mut part = Vec::new(heap);
    // So many are drawn: there is no list.
    for _ in 0..count {
        if let Some(line) = dice.one_of(lines) {
            part.push(loosened_line(heap, dice, line, loose)?)?;
        }
    }
    Ok(part)
}

// A report: most are parts of the question, some are anything over its tables.
pub fn draw_report(
    heap: Global,
    dice: &mut Dice,
    shape: &Shape,
    question: &Plain,
) -> Result<Plain, AllocError> {
    let hidden = dice.from_to(3, 9);
    let lines = if dice.once_in(6) {
        let mut free = *shape;
        free.lines = dice.from_to(1, 2);
        free.draw_question(heap, dice)?.lines
    } else {
        let count = dice.from_to(1, 2);
        draw_part(heap, dice, &question.lines, count, shape.loose)?
    };
    let row = draw_report_row(heap, dice, &lines, hidden)?;
    Ok(Plain { row, lines })
}

// The number that is lent where nothing is looked at.
pub fn draw_soil(dice: &mut Dice) -> u64 {
    if dice.once_in(2) { 0 } else { dice.below(20) }
}
