// What `within` says of random pairs of questions beside trying all maps; and the tables that it shows, tried.
use super::counts::Count;
use super::dice::Dice;
use super::draw::{Shape, draw_cell, draw_part, renamed};
use super::plain::{Line, Plain, Term};
use super::reading::{count_maps, images, reads, terms_of};
use super::shown::Numbers;
use super::tables::all_among;
use containment::{Containment, within};
use question::Refusal;
use std::alloc::{AllocError, Global};
use std::io;

// A pair for which more maps than this would have to be tried is left out.
const MOST: u64 = 20000;

// What was compared.
#[derive(Clone, Copy, Default)]
struct Tally {
    within: Count,
    apart: Count,
    differ: Count,
}

// A term of the second row for one of the first: the same under its other name where that stands in the second's lines, else any.
fn matching_term(dice: &mut Dice, lines: &[Line], term: Term) -> Term {
    let Term::Variable(x) = term else {
        return term;
    };
    let other = Term::Variable(renamed(x));
    if lines.iter().any(|line| line.terms.contains(&other)) {
        other
    } else {
        draw_cell(dice, lines)
    }
}

// A question made of the first's lines, some of their terms loosened, with the first's row where that can be.
fn draw_wider(heap: Global, dice: &mut Dice, first: &Plain) -> Result<Plain, AllocError> {
    let count = dice.from_to(1, 4);
    let loose = dice.from_to(3, 12);
    let lines = draw_part(heap, dice, &first.lines, count, loose)?;
    let row = first
        .row
        .iter()
        .map(|term| matching_term(dice, &lines, *term))
        .collect(heap)?;
    Ok(Plain { row, lines })
}

// A shape of few variables.
fn small_shape(dice: &mut Dice) -> Shape {
    let mut shape = Shape::draw(dice);
    shape.variables = dice.from_to(2, 4);
    shape
}

// Mostly one made of the first; else any, now and then with other widths.
fn draw_second(
    heap: Global,
    dice: &mut Dice,
    shape: &Shape,
    first: &Plain,
) -> Result<Plain, AllocError> {
    match dice.below(8) {
        // Each kind draws by a call of its own, with other arguments.
        0 => small_shape(dice).draw_question(heap, dice),
        1 => shape.draw_question(heap, dice),
        _ => draw_wider(heap, dice, first),
    }
}

// How many maps there are of the second's variables to the first's terms.
fn work(heap: Global, first: &Plain, second: &Plain) -> Result<u64, AllocError> {
    let terms = terms_of(heap, &first.lines)?.len();
    let others = terms_of(heap, &second.lines)?.len();
    Ok(count_maps(terms, others.max(terms)))
}

// Reads the rows of one table off the front, and gives what is behind it; nothing where the numbers end before it does.
fn read_table<'a>(
    heap: Global,
    numbers: &'a [u64],
    rows: &mut Vec<Line>,
) -> Result<Option<&'a [u64]>, AllocError> {
    let [table, count, width, cells @ ..] = numbers else {
        return Ok(None);
    };
    let mut behind = cells;
    // So many: what comes next is known only when the one before is read.
    for _ in 0..(*count).min(4) {
        let Some((row, more)) = behind.split_at_checked(*width as usize) else {
            return Ok(None);
        };
        rows.push(Line::of_numbers(heap, *table, row)?)?;
        behind = more;
    }
    Ok(Some(behind))
}

// The rows of the tables that take up all the numbers; nothing where there are no such tables.
fn read_tables(heap: Global, numbers: &[u64]) -> Result<Option<Vec<Line>>, AllocError> {
    let [count, tables @ ..] = numbers else {
        return Ok(None);
    };
    let mut rows = Vec::new(heap);
    let mut behind = tables;
    // So many: what comes next is known only when the one before is read.
    for _ in 0..(*count).min(4) {
        let Some(more) = read_table(heap, behind, &mut rows)? else {
            return Ok(None);
        };
        behind = more;
    }
    Ok(if behind.is_empty() { Some(rows) } else { None })
}

// Whether the numbers are tables from which the first question answers a row that the second does not.
fn tells_apart(
    heap: Global,
    first: &Plain,
    second: &Plain,
    numbers: &[u64],
) -> Result<bool, AllocError> {
    let Some(rows) = read_tables(heap, numbers)? else {
        return Ok(false);
    };
    let own = images(heap, first, &rows)?;
    let others = images(heap, second, &rows)?;
    Ok(!all_among(&own, &others))
}

// Whether numbers are 7, as they were.
fn untouched(numbers: &[u64]) -> bool {
    numbers.iter().all(|number| *number == 7)
}

impl Tally {
    // Whether what is said of the two is so.
    fn agrees(
        &mut self,
        heap: Global,
        said: Result<Containment, Refusal>,
        first: &Plain,
        second: &Plain,
        room: &[u64; 66],
    ) -> Result<bool, AllocError> {
        let inside = reads(heap, second, first)?;
        self.within.add_if(inside);
        self.apart.add_if(!inside);
        match said {
            Ok(Containment::Within) => Ok(inside && untouched(room)),
            Ok(Containment::Apart(size)) => {
                let Some((tables, behind)) = room.split_at_checked(size as usize) else {
                    return Ok(false);
                };
                let apart = tells_apart(heap, first, second, tables)?;
                Ok(!inside && apart && untouched(behind))
            }
            Err(_) => Ok(false),
        }
    }

    // One pair more, in one direction, unless it would take too long.
    fn try_pair(
        &mut self,
        rt: &HostRuntime,
        first: &Plain,
        second: &Plain,
        soil: u64,
    ) -> io::Result<()> {
        let heap = rt.alloc();
        if work(heap, first, second)? > MOST {
            return Ok(());
        }
        let mut room = [7; 66];
        let said = within(&first.lent(soil), &second.lent(soil), &mut room);
        if !self.agrees(heap, said, first, second, &room)? {
            self.differ.add(1);
            println!(rt; "differs: within of{}", Numbers(&first.lent(0)))?;
            println!(rt; "  and{}", Numbers(&second.lent(0)))?;
        }
        Ok(())
    }
}

// Draws so many pairs, each tried both ways round, and prints what was compared.
pub fn try_all(rt: &HostRuntime, count: u64) -> io::Result<u64> {
    let heap = rt.alloc();
    let mut dice = Dice::new(2463534242);
    let mut tally = Tally::default();
    // So many are drawn: there is no list.
    for _ in 0..count {
        let shape = small_shape(&mut dice);
        let first = shape.draw_question(heap, &mut dice)?;
        let second = draw_second(heap, &mut dice, &shape, &first)?;
        let soil = dice.below(4);
        tally.try_pair(rt, &first, &second, soil)?;
        tally.try_pair(rt, &second, &first, soil)?;
    }
    println!(rt; "within: {} within, {} apart", tally.within, tally.apart)?;
    Ok(tally.differ.number())
}
