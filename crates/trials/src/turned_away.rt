// What `answer` tells where it turns the question or the tables away: of random faults, one or several at once, the first in the order of the refusals. The room stays as it was.
use super::counts::Count;
use super::dice::Dice;
use super::draw::Shape;
use super::lent::{Table, lent_tables};
use super::plain::{Line, Plain};
use super::questions::Asked;
use super::rooms::Call;
use std::alloc::{AllocError, Global};
use std::io;

// What was compared: how many are told for the question's length, the tables', for no question, for a table too large.
#[derive(Clone, Copy, Default)]
struct Tally {
    short_questions: Count,
    short_tables: Count,
    no_questions: Count,
    large_tables: Count,
    // How many have several faults.
    several: Count,
    differ: Count,
}

// What may be at fault.
#[derive(Clone, Copy, PartialEq, Eq)]
enum Fault {
    ShortQuestion,
    ShortTables,
    NoQuestion,
    LargeTable,
}

// In the order in which they are told, each with once in how many times there is one.
const FAULTS: [(Fault, u64); 4] = [
    (Fault::ShortQuestion, 4),
    (Fault::ShortTables, 3),
    (Fault::NoQuestion, 2),
    (Fault::LargeTable, 2),
];

fn draw_faults(heap: Global, dice: &mut Dice) -> Result<Vec<Fault>, AllocError> {
    FAULTS
        .iter()
        .filter(|(_, often)| dice.once_in(*often))
        .map(|(fault, _)| *fault)
        .collect(heap)
}

// What is lent, and which line and which table are at fault.
#[derive(Drop)]
struct Lent {
    question: Vec<u64>,
    tables: Vec<u64>,
    line: u64,
    table: u64,
}

// Numbers that make a lent question none where they stand from a place on, and the line that is at fault then, or 4.
#[derive(Drop)]
struct Spoiling {
    line: u64,
    from: usize,
    numbers: Vec<u64>,
}

impl Spoiling {
    // For the row or the count of lines.
    fn of_question<const N: usize>(
        heap: Global,
        from: usize,
        numbers: [u64; N],
    ) -> Result<Self, AllocError> {
        let numbers = Vec::from_array(heap, numbers)?;
        Ok(Spoiling {
            line: 4,
            from,
            numbers,
        })
    }

    // For a line, from one of its ten numbers on.
    fn of_line<const N: usize>(
        heap: Global,
        line: u64,
        from: u64,
        numbers: [u64; N],
    ) -> Result<Self, AllocError> {
        let start = line.saturating_mul(10).saturating_add(10);
        let numbers = Vec::from_array(heap, numbers)?;
        Ok(Spoiling {
            line,
            from: start.saturating_add(from) as usize,
            numbers,
        })
    }

    // A term that is none, at one of the line's places, of which there is at least one then.
    fn draw_term(
        heap: Global,
        dice: &mut Dice,
        place: u64,
        line: &Line,
        [kind, number]: [u64; 2],
    ) -> Result<Self, AllocError> {
        let width = line.terms.len() as u64;
        let term = dice.below(width.max(1));
        if width == 0 {
            return Spoiling::of_line(heap, place, 1, [1, kind, number]);
        }
        let from = term.saturating_mul(2).saturating_add(2);
        Spoiling::of_line(heap, place, from, [kind, number])
    }

    // For a line that is none by itself.
    fn draw_line(
        heap: Global,
        dice: &mut Dice,
        place: u64,
        line: &Line,
    ) -> Result<Self, AllocError> {
        match dice.below(5) {
            0 => Spoiling::of_line(heap, place, 1, [dice.from_to(5, 8)]),
            1 => Spoiling::of_line(heap, place, 0, [dice.from_to(4294967296, 4294967299)]),
            2 => Spoiling::draw_term(heap, dice, place, line, [2, 0]),
            3 => Spoiling::draw_term(heap, dice, place, line, [1, 16]),
            _ => Spoiling::draw_term(heap, dice, place, line, [0, 4294967296]),
        }
    }

    // Another width of the first line's table; for a first line, no line at all.
    fn of_width(heap: Global, place: u64, first: &Line) -> Result<Self, AllocError> {
        if place == 0 {
            return Spoiling::of_question(heap, 9, [0]);
        }
        let width = if first.terms.is_empty() {
            1
        } else {
            first.terms.len() as u64 - 1
        };
        Spoiling::of_line(heap, place, 0, [first.table, width, 0, 0, 0, 0, 0, 0, 0, 0])
    }

    fn draw(heap: Global, dice: &mut Dice, question: &Plain) -> Result<Self, AllocError> {
        let lines = &question.lines;
        let place = dice.below(lines.len() as u64);
        let (Some(first), Some(line)) = (lines.first(), lines.get(place as usize)) else {
            return Spoiling::of_question(heap, 9, [0]);
        };
        match dice.below(8) {
            0 => Spoiling::of_question(heap, 0, [dice.from_to(5, 9)]),
            // One variable, which stands in no line.
            1 => Spoiling::of_question(heap, 0, [1, 1, 8]),
            2 => Spoiling::of_question(heap, 9, [if lines.len() == 4 { 5 } else { 0 }]),
            3 => Spoiling::of_width(heap, place, first),
            _ => Spoiling::draw_line(heap, dice, place, line),
        }
    }

    fn spoil(&self, question: &mut [u64]) {
        let numbers = question.iter_mut().skip(self.from);
        for (number, other) in numbers.zip(self.numbers.iter()) {
            *number = *other;
        }
    }
}

// A table of 5 columns or of 4,097 rows; of no columns, or of one.
fn draw_large_table(heap: Global, dice: &mut Dice, number: u64) -> Result<Table, AllocError> {
    match dice.below(24) {
        0 => Table::made(heap, number, 4097, 1, |i| Ok(vec![in heap; i]?)),
        1..=3 => Ok(Table::empty(heap, number, dice.from_to(4097, 4099), 0)),
        4..=6 => Ok(Table::empty(heap, number, 0, dice.from_to(5, 6))),
        _ => Table::made(heap, number, 1, 5, |_| Ok(vec![in heap; 7, 1, 2, 3, 4]?)),
    }
}

// Tables, one of them too large, and its place. It may be one that no line names.
// Whether a table goes past its room is drawn, and is no kind.
fn draw_tables(
    heap: Global,
    dice: &mut Dice,
    asked: &Asked,
    large: bool,
) -> Result<(Vec<Table>, u64), AllocError> {
    let mut tables = Vec::new(heap);
    let before = dice.from_to(0, 3);
    asked.draw_tables(heap, dice, before, &mut tables)?;
    let place = tables.len() as u64;
    if large {
        let number = asked.first.saturating_add(dice.below(5));
        tables.push(draw_large_table(heap, dice, number)?)?;
    }
    let behind = dice.from_to(0, 3);
    asked.draw_tables(heap, dice, behind, &mut tables)?;
    Ok((tables, place))
}

// A table whose rows times columns are past 64 bits, so that no cells seem to be left.
fn draw_past(heap: Global, dice: &mut Dice) -> Table {
    let (height, width) = match dice.below(4) {
        0 => (9223372036854775808, 2),
        1 => (4, 4611686018427387904),
        2 => (4294967296, 4294967296),
        _ => (2, 9223372036854775808),
    };
    Table::empty(heap, 0, height, width)
}

// The tables as they are lent, cut short or too many.
fn lent_short(
    heap: Global,
    dice: &mut Dice,
    mut tables: Vec<Table>,
) -> Result<Vec<u64>, AllocError> {
    match dice.below(4) {
        0 => tables.push(draw_past(heap, dice))?,
        1 => {
            // Up to seventeen: there is no list.
            for _ in tables.len()..17 {
                tables.push(Table::empty(heap, 0, 0, 1))?;
            }
        }
        _ => {
            let mut lent = lent_tables(heap, &tables)?;
            lent.truncate(draw_short(dice, lent.len()));
            return Ok(lent);
        }
    }
    lent_tables(heap, &tables)
}

// A length short of that of all numbers: by a few of them, or any.
fn draw_short(dice: &mut Dice, all: usize) -> usize {
    let few = all.saturating_sub(dice.below(4) as usize);
    if dice.once_in(2) {
        few.saturating_sub(1)
    } else {
        dice.below(all as u64) as usize
    }
}

impl Lent {
    fn draw(
        heap: Global,
        dice: &mut Dice,
        asked: &Asked,
        faults: &[Fault],
    ) -> Result<Self, AllocError> {
        let (mut question, line) = if faults.contains(&Fault::NoQuestion) {
            let spoiling = Spoiling::draw(heap, dice, &asked.question)?;
            let mut question = asked.lent(heap, dice)?;
            spoiling.spoil(&mut question);
            (question, spoiling.line)
        } else {
            (asked.lent(heap, dice)?, 4)
        };
        if faults.contains(&Fault::ShortQuestion) {
            question.truncate(dice.from_to(0, 49) as usize);
        }
        let (tables, table) = draw_tables(heap, dice, asked, faults.contains(&Fault::LargeTable))?;
        let tables = if faults.contains(&Fault::ShortTables) {
            lent_short(heap, dice, tables)?
        } else {
            lent_tables(heap, &tables)?
        };
        Ok(Lent {
            question,
            tables,
            line,
            table,
        })
    }

    // The refusal that is expected for a fault, by its number, and its place.
    fn expected(&self, fault: Fault) -> [u64; 2] {
        match fault {
            Fault::ShortQuestion => [1, self.question.len() as u64],
            Fault::ShortTables => [1, self.tables.len() as u64],
            Fault::NoQuestion => [2, self.line],
            Fault::LargeTable => [7, self.table],
        }
    }
}

impl Tally {
    // A yes or no that is counted, no kind.
    fn count_in(&mut self, first: Fault, several: bool) {
        match first {
            Fault::ShortQuestion => self.short_questions.add(1),
            Fault::ShortTables => self.short_tables.add(1),
            Fault::NoQuestion => self.no_questions.add(1),
            Fault::LargeTable => self.large_tables.add(1),
        }
        self.several.add_if(several);
    }

    // One call more, if there is a fault.
    fn try_faults(
        &mut self,
        rt: &HostRuntime,
        dice: &mut Dice,
        faults: &[Fault],
    ) -> io::Result<()> {
        let heap = rt.alloc();
        let Some(first) = faults.first() else {
            return Ok(());
        };
        let shape = Shape::draw(dice);
        let asked = Asked::draw(heap, dice, shape)?;
        let lent = Lent::draw(heap, dice, &asked, faults)?;
        self.count_in(*first, faults.len() > 1);
        let room = dice.below(12) as usize;
        let call = Call {
            question: &lent.question,
            tables: &lent.tables,
        };
        if !call.turns_away(heap, lent.expected(*first), room)? {
            self.differ.add(1);
            println!(rt; "differs: turned away{call}")?;
        }
        Ok(())
    }
}

// Draws so many, and prints what was compared.
pub fn try_all(rt: &HostRuntime, count: u64) -> io::Result<u64> {
    let mut dice = Dice::new(771398264501873);
    let mut tally = Tally::default();
    // So many are drawn: there is no list.
    for _ in 0..count {
        let faults = draw_faults(rt.alloc(), &mut dice)?;
        tally.try_faults(rt, &mut dice, &faults)?;
    }
    let question = tally.short_questions;
    let tables = tally.short_tables;
    print!(rt; "turned away: {question} by 1 for the question, {tables} by 1 for the tables, ")?;
    let none = tally.no_questions;
    let large = tally.large_tables;
    let several = tally.several;
    println!(rt; "{none} by 2, {large} by 7; {several} for several faults")?;
    Ok(tally.differ.number())
}
