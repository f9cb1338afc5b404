// The lines that are uses of reports: in order, each once, and no more than are tried.
ghost use Rattle.std.specs.Prelude.{◌≡◌, ◌≤◌, true, map, length, take};
ghost use Rattle.std.specs.List.{list_all};
ghost use Rattle.std.specs.List.Sorted.{IsStrictlySortedBy, IsStrictlySortedBy-prop};
ghost use Rattle.question.specs.Layout.{line_in, line_out, line_fits, ten_fit};
ghost use Rattle.reports.specs.Widest.{insert_line};
ghost use Rattle.reports.specs.Order.{line_cmp};

use super::order::order;
use question::{Lines, Refusal};

// At most 32 lines, ten numbers each: the report's number, the count of cells, the cells, and 0 where room is left.
// Room by value and a count, so that uses can be copied: what lies behind the count is not looked at.
#[derive(Clone, Copy)]
pub struct Uses {
    count: usize,
    lines: [[u64; 10]; 32],
    ghost few: { count ≤ 32 },
    ghost room: { length lines ≡ 32 },
    ghost fit: { list_all (ten_fit 16) (take count lines) ≡ true },
    ghost written: { map line_out (map line_in (take count lines)) ≡ take count lines },
    ghost in_order: { IsStrictlySortedBy line_cmp (map line_in (take count lines)) } by { IsStrictlySortedBy-prop line_cmp (map line_in (take count lines)) },
}

impl Uses {
    ghost use Rattle.std.specs.Prelude.{[]};
    ghost use Rattle.std.specs.List.{insert};
    ghost use Rattle.question.specs.Lent.{lines_of};
    ghost use Rattle.reports.specs.Uses.{lines_kept, Keeps};

    // No uses yet.
    pub(crate) fn none() -> Uses
        ensures { lines_kept result ≡ [] }
    {
        Uses {
            count: 0,
            lines: [[0; 10]; 32],
        }
    }

    // The lines.
    pub fn lines(&self) -> Lines<'_, 16>
        ensures lines { lines_of result ≡ lines_kept self.now }
        ensures few { length (lines_kept self.now) ≤ 32 }
    {
        Lines::over(&self.lines[..self.count])
    }

    // Puts one more in at the place where it belongs, and moves up those from there on.
    fn insert(&mut self, place: usize, line: [u64; 10]) -> Result<(), Refusal>
        requires place { place ≤ self.old.count }
        requires fits { line_fits 16 line ≡ true }
        requires written { line_out (line_in line) ≡ line }
        requires belongs { insert_line (line_in line) (lines_kept self.old) ≡ map line_in (insert (take self.old.count self.old.lines) place line) }
        ensures { Keeps result self.new (insert_line (line_in line) (lines_kept self.old)) }
    {
        let count = self.count;
        if count >= 32 {
            return Err(Refusal::TooWide);
        }
        self.lines.copy_within(place..count, place + 1);
        self.lines[place] = line;
        self.count = count + 1;
        Ok(())
    }

    // Puts one more where it belongs, unless it is one of them.
    pub(crate) fn keep(&mut self, line: [u64; 10]) -> Result<(), Refusal>
        requires fits { line_fits 16 line ≡ true }
        requires written { line_out (line_in line) ≡ line }
        ensures { Keeps result self.new (insert_line (line_in line) (lines_kept self.old)) }
    {
        let search = self.lines[..self.count].binary_search_by(|other| order(other, &line));
        match search {
            Ok(_) => Ok(()),
            Err(place) => self.insert(place, line),
        }
    }
}
