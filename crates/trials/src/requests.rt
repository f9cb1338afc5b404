// What `find` says and writes of random requests beside the second way, and what is found beside tables.
use super::asked::{Request, lent_reports};
use super::counts::Count;
use super::dice::Dice;
use super::draw::draw_soil;
use super::over_reports::{Read, Second, second_way};
use super::plain::Plain;
use super::shown::Numbers;
use super::tables::{answers_agree, draw_tables};
use question::Refusal;
use rewriting::{Reply, find};
use std::alloc::{AllocError, Global};
use std::{fmt, io};

// A request for which about more maps than this would have to be tried is left out.
const MOST: u64 = 200000;

// What was compared.
#[derive(Clone, Copy, Default)]
pub struct Tally {
    requests: Count,
    // How many are found by so many uses; at 0, none.
    by: [Count; 5],
    refused: Count,
    // How many have several choices of the fewest uses.
    several: Count,
    // How many have more than 12 uses to choose from, and how many 32.
    wide: Count,
    full: Count,
    read: Read,
    tables: Count,
    rows: Count,
    pub differ: Count,
}

impl fmt::Display for Tally {
    fn fmt<W: fmt::Write>(&self, f: &mut fmt::Formatter<W>) -> fmt::Result {
        let requests = self.requests;
        let [none, by_1, by_2, by_3, by_4] = self.by;
        let refused = self.refused;
        write!(f, "find: {requests} requests, {by_1} by 1, {by_2} by 2, ")?;
        writeln!(
            f,
            "{by_3} by 3, {by_4} by 4, {none} none, {refused} refused"
        )?;
        writeln!(f, "several equal choices: {}", self.several)?;
        let wide = self.wide;
        let full = self.full;
        writeln!(
            f,
            "more than 12 uses to choose from: {wide}, just 32: {full}"
        )?;
        let Read { both_ways, one_way } = self.read;
        writeln!(
            f,
            "choices read in both directions: {both_ways}; in one: {one_way}"
        )?;
        write!(
            f,
            "tables: {}, with {} rows answered",
            self.tables, self.rows
        )
    }
}

// What find says, and what it leaves in 52 numbers that were 7.
#[derive(Clone, Copy)]
struct Said {
    reply: Reply,
    left: [u64; 52],
}

fn run_find(heap: Global, dice: &mut Dice, request: &Request) -> Result<Said, AllocError> {
    let soil = draw_soil(dice);
    let question = request.question.lent(soil);
    let reports = lent_reports(heap, &request.reports, soil)?;
    let mut left = [7; 52];
    let reply = find(&question, &reports, &mut left);
    Ok(Said { reply, left })
}

impl Said {
    // Whether find says and leaves what is found, or that there is none.
    fn is_found(&self, found: &Option<Plain>) -> bool {
        match (self.reply, found) {
            (Reply::By(count), Some(found)) => {
                count == found.lines.len() as u64 && self.left == found.left()
            }
            (Reply::Impossible, None) => self.left == [7; 52],
            _ => false,
        }
    }

    // Whether find refuses more than 32 uses to choose from.
    fn is_too_wide(&self) -> bool {
        matches!(self.reply, Reply::Refused(Refusal::TooWide)) && self.left == [7; 52]
    }
}

impl Tally {
    // Counts what the second way found, of so many uses to choose from.
    fn count_in(&mut self, second: &Second, widest: usize) {
        let uses = second.found.lines.as_ref().map_or(0, |uses| uses.len());
        if let Some(by) = self.by.get_mut(uses) {
            by.add(1);
        }
        self.several.add_if(second.found.equal > 1);
        self.wide.add_if(widest > 12);
        self.full.add_if(widest == 32);
        self.read.both_ways.add(second.read.both_ways.number());
        self.read.one_way.add(second.read.one_way.number());
    }

    // Random tables beside what is found.
    fn try_tables(
        &mut self,
        heap: Global,
        dice: &mut Dice,
        request: &Request,
        found: &Plain,
    ) -> Result<bool, AllocError> {
        let mut all = true;
        // Three are drawn: there is no list.
        for _ in 0..3 {
            let tables = draw_tables(heap, dice, &request.widths)?;
            let (same, rows) = answers_agree(heap, request, found, &tables)?;
            all = all && same;
            self.tables.add(1);
            self.rows.add(rows);
        }
        Ok(all)
    }

    // Whether find and the second way agree, and the tables with what is found.
    fn agrees(
        &mut self,
        heap: Global,
        dice: &mut Dice,
        request: &Request,
        said: &Said,
    ) -> Result<bool, AllocError> {
        self.requests.add(1);
        if request.widest.len() > 32 {
            self.refused.add(1);
            return Ok(said.is_too_wide());
        }
        let second = second_way(heap, request)?;
        self.count_in(&second, request.widest.len());
        let found = match second.found.lines {
            Some(lines) => Some(Plain {
                row: request.question.row.clone()?,
                lines,
            }),
            None => None,
        };
        if !said.is_found(&found) {
            return Ok(false);
        }
        match found {
            Some(found) => self.try_tables(heap, dice, request, &found),
            None => Ok(true),
        }
    }

    // One request more.
    pub fn try_request(
        &mut self,
        rt: &HostRuntime,
        dice: &mut Dice,
        request: &Request,
    ) -> io::Result<()> {
        let heap = rt.alloc();
        let said = run_find(heap, dice, request)?;
        if self.agrees(heap, dice, request, &said)? {
            return Ok(());
        }
        self.differ.add(1);
        let question = request.question.lent(0);
        println!(rt; "differs: the question{}", Numbers(&question))?;
        for report in &request.reports {
            let report = report.lent(0);
            println!(rt; "  report{}", Numbers(&report))?;
        }
        println!(rt; "  found{}", Numbers(&said.left))
    }
}

// Draws so many requests, and prints what was compared. Those that would take too long are left out.
pub fn try_all(rt: &HostRuntime, count: u64) -> io::Result<u64> {
    let heap = rt.alloc();
    let mut dice = Dice::new(88172645463325252);
    let mut tally = Tally::default();
    // So many are drawn: there is no list.
    for _ in 0..count {
        let request = Request::draw(heap, &mut dice)?;
        if request.widest.len() > 32 || request.work(heap)? <= MOST {
            tally.try_request(rt, &mut dice, &request)?;
        }
    }
    println!(rt; "{tally}")?;
    Ok(tally.differ.number())
}
