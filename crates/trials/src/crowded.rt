// Requests with about 32 uses to choose from, by many more readings.
use super::asked::Request;
use super::dice::Dice;
use super::draft::{pair, row, x};
use super::plain::Plain;
use std::alloc::{AllocError, Global};

// A line for each of x0, x1, x2 and x3, or for the first three.
fn draw_question(heap: Global, dice: &mut Dice) -> Result<Plain, AllocError> {
    let few = dice.once_in(3);
    let (start, last) = if few {
        (row(heap, &[x(0), x(1), x(2)])?, 2)
    } else {
        (row(heap, &[x(3), x(0), x(1), x(2)])?, 3)
    };
    let mut question = start;
    // So many lines, each by its number: there is no list.
    for i in 0..=last {
        question = question.and(0, x(i), x(dice.below(4)))?;
    }
    Ok(question)
}

// One or two lines that have nothing in common, and now and then one that is hidden.
fn draw_report(heap: Global, dice: &mut Dice) -> Result<Plain, AllocError> {
    let report = match dice.below(8) {
        0 => row(heap, &[])?.and(0, x(0), x(1))?,
        1 => row(heap, &[x(0)])?.and(0, x(0), x(1))?,
        2 => row(heap, &[x(1), x(0)])?.and(0, x(0), x(1))?,
        3 => pair(heap, &[x(3), x(0)])?,
        4 => pair(heap, &[x(2), x(3), x(0)])?,
        5 => pair(heap, &[x(3), x(1), x(0), x(2)])?,
        _ => pair(heap, &[x(0), x(1), x(2), x(3)])?,
    };
    if dice.once_in(3) {
        report.and(0, x(4), x(5))
    } else {
        Ok(report)
    }
}

pub fn draw_crowded(heap: Global, dice: &mut Dice) -> Result<Request, AllocError> {
    let question = draw_question(heap, dice)?;
    let mut reports = Vec::new(heap);
    // So many are drawn: there is no list.
    for _ in 0..dice.from_to(2, 4) {
        reports.push(draw_report(heap, dice)?)?;
    }
    Request::new(heap, [2; 3], question, reports)
}
