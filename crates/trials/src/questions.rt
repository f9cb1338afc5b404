// Random questions to be answered from tables: any variables, numbers up to the largest that a question may name, also in the row, and any numbers of tables.
use super::dice::Dice;
use super::draw::{Shape, draw_soil};
use super::plain::{Plain, Term};
use std::alloc::{AllocError, Global};

#[derive(Drop)]
pub struct Asked {
    pub shape: Shape,
    // The number of the shape's first table.
    pub first: u64,
    pub question: Plain,
}

// How the terms of a shape are written.
#[derive(Clone, Copy)]
struct Names {
    // The number of the first table.
    first: u64,
    // Whether x0 is x15, x1 is x14 and so on.
    turned: bool,
    // Whether the number 2 is the largest that a question may name.
    large: bool,
}

impl Names {
    fn name(self, term: &mut Term) {
        match *term {
            Term::Variable(x) if self.turned => *term = Term::Variable(15u64.saturating_sub(x)),
            Term::Number(2) if self.large => *term = Term::Number(4294967295),
            _ => {}
        }
    }

    fn name_all(self, question: &mut Plain) {
        for term in &mut question.row {
            self.name(term);
        }
        for line in &mut question.lines {
            line.table = line.table.saturating_add(self.first);
            for term in &mut line.terms {
                self.name(term);
            }
        }
    }
}

// Puts a number at a place of the row, also one that stands in no line.
fn put_number(dice: &mut Dice, row: &mut [Term]) {
    let place = dice.below(row.len() as u64) as usize;
    if let Some(term) = row.get_mut(place) {
        *term = Term::Number(if dice.once_in(3) {
            4294967295
        } else {
            dice.below(9)
        });
    }
}

impl Asked {
    pub fn draw(heap: Global, dice: &mut Dice, shape: Shape) -> Result<Self, AllocError> {
        let mut question = shape.draw_question(heap, dice)?;
        let first = if dice.once_in(4) { 4294967293 } else { 0 };
        let names = Names {
            first,
            turned: dice.once_in(2),
            large: dice.once_in(3),
        };
        names.name_all(&mut question);
        if dice.once_in(5) {
            put_number(dice, &mut question.row);
        }
        Ok(Asked {
            shape,
            first,
            question,
        })
    }

    // The question as it is lent: a number where nothing is looked at, and a few behind it.
    pub fn lent(&self, heap: Global, dice: &mut Dice) -> Result<Vec<u64>, AllocError> {
        let soil = draw_soil(dice);
        let mut lent = Vec::from_slice(heap, &self.question.lent(soil))?;
        // So many are drawn: there is no list.
        for _ in 0..dice.below(3) {
            lent.push(soil)?;
        }
        Ok(lent)
    }
}

// Mostly few lines, so that there are rows; now and then many variables.
pub fn draw_kind(dice: &mut Dice) -> Shape {
    let mut shape = Shape::draw(dice);
    match dice.below(40) {
        0 => {
            shape.widths = [4, 3, 4];
            shape.variables = dice.from_to(6, 16);
            shape.lines = dice.from_to(2, 4);
        }
        1..=5 => {}
        _ => {
            shape.variables = dice.from_to(3, 6);
            shape.lines = dice.from_to(1, 3);
        }
    }
    shape
}
