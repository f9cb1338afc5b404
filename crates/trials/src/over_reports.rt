// The second way to a question over reports: the widest question by all maps, then every choice of its lines put back into the tables' words.
use super::asked::Request;
use super::choices::{Found, smallest};
use super::counts::Count;
use super::plain::{Line, Plain, Term};
use super::reading::{Map, images, maps_into, reads};
use std::alloc::{AllocError, Global};

// More maps than this back into the question are not tried.
const MOST_BACK: u64 = 40000;

// What the second way finds.
#[derive(Drop)]
pub struct Second {
    pub found: Found,
    pub read: Read,
}

// How many choices were read in both directions, and how many only one way.
#[derive(Clone, Copy, Default)]
pub struct Read {
    pub both_ways: Count,
    pub one_way: Count,
}

// What all reports answer where lines stand, as lines of the reports, in order and each once. Of a question's lines these are the widest question's, of tables' rows what the reports hold.
pub fn held(heap: Global, reports: &[Plain], lines: &[Line]) -> Result<Vec<Line>, AllocError> {
    let mut uses = Vec::new(heap);
    for (i, report) in reports.iter().enumerate() {
        for terms in images(heap, report, lines)? {
            let table = i as u64;
            uses.push(Line { table, terms })?;
        }
    }
    uses.sort_unstable();
    Ok(uses)
}

// Where a use puts its report's variables: those of the row as the use's terms, and every other as a variable of its own.
fn map_of_use(report: &Plain, line: &Line, number: usize) -> Map<80> {
    let mut map = Map::new();
    // The variables x0 to x15.
    for x in 0..16u64 {
        let inner = 16 + 16 * (number as u64 % 4) + x;
        map.put(x, Term::Variable(inner));
    }
    for (term, image) in report.row.iter().zip(line.terms.iter()) {
        if let Term::Variable(x) = *term {
            map.put(x, *image);
        }
    }
    map
}

// A question over reports with the reports' lines put in.
fn expansion(
    heap: Global,
    row: &[Term],
    uses: &[Line],
    reports: &[Plain],
) -> Result<Plain, AllocError> {
    let mut lines = Vec::new(heap);
    for (i, line) in uses.iter().enumerate() {
        let Some(report) = reports.get(line.table as usize) else {
            continue;
        };
        let map = map_of_use(report, line, i);
        for own in &report.lines {
            let table = own.table;
            let terms = map.images(heap, &own.terms)?;
            lines.push(Line { table, terms })?;
        }
    }
    let row = Vec::from_slice(heap, row)?;
    Ok(Plain { row, lines })
}

impl Read {
    // Whether the question and an expansion can be read into each other; back into the question only where that is soon tried.
    fn says_the_same(
        &mut self,
        heap: Global,
        question: &Plain,
        put_in: &Plain,
    ) -> Result<bool, AllocError> {
        if !reads(heap, question, put_in)? {
            return Ok(false);
        }
        if maps_into(heap, put_in, question)? > MOST_BACK {
            self.one_way.add(1);
            return Ok(true);
        }
        self.both_ways.add(1);
        reads(heap, put_in, question)
    }
}

// The first of the smallest choices that says the same as the question; up to four uses are tried, however few lines it has.
pub fn second_way(heap: Global, request: &Request) -> Result<Second, AllocError> {
    let question = &request.question;
    let reports = &request.reports;
    let mut read = Read::default();
    let found = smallest(heap, &request.widest, |uses| {
        let put_in = expansion(heap, &question.row, uses, reports)?;
        read.says_the_same(heap, question, &put_in)
    })?;
    Ok(Second { found, read })
}
