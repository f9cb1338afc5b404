// Random requests, and how they are lent.
use super::choices::count_choices;
use super::crowded::draw_crowded;
use super::dice::Dice;
use super::draw::{Shape, draw_report};
use super::over_reports::held;
use super::plain::{Line, Plain};
use super::reading::{count_maps, terms_of};
use std::alloc::{AllocError, Global};

// A question and reports, with the lines of the widest question.
#[derive(Drop)]
pub struct Request {
    // How many columns tables 0, 1 and 2 have.
    pub widths: [u64; 3],
    pub question: Plain,
    pub reports: Vec<Plain>,
    pub widest: Vec<Line>,
}

// Of every kind, and of some kinds more: those that want many uses, and those with many uses to choose from.
fn draw_kind(dice: &mut Dice) -> (Shape, u64) {
    let mut shape = Shape::draw(dice);
    match dice.below(8) {
        0 | 1 => {
            shape.lines = dice.from_to(3, 4);
            shape.variables = dice.from_to(3, 5);
            (shape, dice.from_to(2, 4))
        }
        2 | 3 | 4 => {
            shape.lines = 4;
            shape.variables = 4;
            (shape, 4)
        }
        5 => {
            shape.lines = 4;
            shape.tables = 1;
            shape.variables = 4;
            shape.loose = 2;
            (shape, dice.from_to(2, 4))
        }
        _ => (shape, dice.from_to(0, 4)),
    }
}

impl Request {
    pub fn new(
        heap: Global,
        widths: [u64; 3],
        question: Plain,
        reports: Vec<Plain>,
    ) -> Result<Self, AllocError> {
        let widest = held(heap, &reports, &question.lines)?;
        Ok(Request {
            widths,
            question,
            reports,
            widest,
        })
    }

    pub fn draw(heap: Global, dice: &mut Dice) -> Result<Self, AllocError> {
        if dice.once_in(40) {
            return draw_crowded(heap, dice);
        }
        let (shape, count) = draw_kind(dice);
        let question = shape.draw_question(heap, dice)?;
        let mut reports = Vec::new(heap);
        // So many are drawn: there is no list.
        for _ in 0..count {
            reports.push(draw_report(heap, dice, &shape, &question)?)?;
        }
        Request::new(heap, shape.widths, question, reports)
    }

    // About how many maps the second way has to try.
    pub fn work(&self, heap: Global) -> Result<u64, AllocError> {
        let mut inner: usize = 0;
        for report in &self.reports {
            let terms = terms_of(heap, &report.lines)?.len();
            inner = inner.max(terms.saturating_sub(report.row.len()));
        }
        let terms = terms_of(heap, &self.question.lines)?.len();
        let free = terms.saturating_sub(self.question.row.len());
        let targets = terms.saturating_add(inner.saturating_mul(2));
        let choices = count_choices(self.widest.len() as u64);
        Ok(count_maps(targets, free).saturating_mul(choices))
    }
}

// The reports as they are lent, with a number where nothing is looked at.
pub fn lent_reports(heap: Global, reports: &[Plain], soil: u64) -> Result<Vec<u64>, AllocError> {
    let mut lent = Vec::new(heap);
    lent.push(reports.len() as u64)?;
    for report in reports {
        lent.extend_from_slice(&report.lent(soil))?;
    }
    Ok(lent)
}
