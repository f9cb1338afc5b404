// Tables in lent numbers, and whether they are whole and small enough, and where not.
ghost use Rattle.std.specs.Prelude.{◌≡◌, ◌*◌, ◌<◌, ◌≤◌, true, length, drop, Some, None, MatchOption, MatchResult, slice_index};
ghost use Rattle.std.specs.Option.{option_map};
ghost use Rattle.std.specs.Iterator.{YieldsFirstBy, item_count};
ghost use Rattle.question.specs.declared.refusals.Refusal.TheVariants.{TableTooLarge};
ghost use Rattle.question.specs.Tables.{table_size};
ghost use Rattle.answer.specs.TableCheck.{all_there, table_fits, table_fault, tables_short, tables_refusal};

use question::Refusal;

// The rows of a table that are still to come, so many numbers to each.
#[derive(Clone, Copy)]
pub(crate) struct Rows<'a> {
    left: &'a [u64],
    columns: usize,
    // Rows of no columns are counted too, which the numbers can't tell.
    count: usize,
    ghost room: { count * columns ≤ length left.now },
}

impl<'a> Iterator for Rows<'a> {
    type Item = &'a [u64];

    ghost use Rattle.answer.specs.Lent.{rows_of};

    ghost next_gives = { YieldsFirstBy (λ r. r.now) rows_of };

    ghost remaining = { item_count rows_of };

    fn next(&mut self) -> Option<&'a [u64]> {
        self.count = self.count.checked_sub(1)?;
        let (row, left) = self.left.split_at(self.columns);
        self.left = left;
        Some(row)
    }
}

// A table: the part of a slice that it begins.
#[derive(Clone, Copy)]
pub(crate) struct Table<'a> {
    numbers: &'a [u64],
    ghost there: { table_size numbers.now ≤ length numbers.now },
}

impl<'a> Table<'a> {
    ghost use Rattle.answer.specs.Lent.{rows_of, held_by};

    // The table that the numbers begin with, if it is all there.
    fn first_of(numbers: &'a [u64]) -> Option<Table<'a>>
        ensures { MatchOption result (length numbers.now < table_size numbers.now) (λ t. t.numbers.now ≡ numbers.now) }
    {
        let [_, count, columns, cells @ ..] = numbers else {
            return None;
        };
        let size = count.checked_mul(*columns)?;
        if size > cells.len() as u64 {
            return None;
        }
        Some(Table { numbers })
    }

    // The table that it is.
    pub(crate) fn number(&self) -> u64
        ensures { result ≡ slice_index self.now.numbers.now 0 }
    {
        self.numbers[0]
    }

    // How many columns it has.
    pub(crate) fn columns(&self) -> u64
        ensures { result ≡ slice_index self.now.numbers.now 2 }
    {
        self.numbers[2]
    }

    // Its rows.
    pub(crate) fn rows(&self) -> Rows<'a>
        ensures { rows_of result ≡ held_by self.now }
    {
        let numbers = self.numbers;
        Rows {
            left: &numbers[3..],
            columns: numbers[2] as usize,
            count: numbers[1] as usize,
        }
    }

    // Whether it is small enough.
    fn is_small(&self) -> bool
        ensures { result ≡ table_fits self.now.numbers.now }
    {
        self.numbers[1] <= 4096 && self.numbers[2] <= 4
    }

    // What lies behind it.
    fn behind(&self) -> &'a [u64]
        ensures { result.now ≡ drop (table_size self.now.numbers.now) self.now.numbers.now }
    {
        let numbers = self.numbers;
        let cells = (numbers[1] * numbers[2]) as usize;
        &numbers[3 + cells..]
    }
}

// Whether so many tables are all there.
// How many there should be is what is asked: the numbers alone don't tell.
fn all_there(numbers: &[u64], count: usize) -> bool
    ensures { result ≡ all_there count numbers.now }
{
    let mut rest = numbers;
    // So many times: what comes next is known only when the one before is read.
    for _ in 0..count {
        // Not `?`: the answer is a yes or no.
        let Some(table) = Table::first_of(rest) else {
            return false;
        };
        rest = table.behind();
    }
    true
}

// Tables that are still to come, all there, one after another in lent numbers.
#[derive(Clone, Copy)]
pub(crate) struct Tables<'a> {
    left: &'a [u64],
    // Tables have different sizes, so the numbers don't tell how many are left.
    count: usize,
    ghost there: { all_there count left.now ≡ true },
}

impl<'a> Tables<'a> {
    ghost use Rattle.answer.specs.Lent.{tables_of};

    // The lent tables, or that they are cut short or too many.
    pub(crate) fn whole(numbers: &'a [u64]) -> Result<Tables<'a>, Refusal>
        ensures { MatchResult result
            (λ t. (tables_short numbers.now ≡ None) × (t.count ≡ slice_index numbers.now 0) × (t.left.now ≡ drop 1 numbers.now))
            (λ e. tables_short numbers.now ≡ Some e) }
    {
        let short = Refusal::CutShort(numbers.len() as u64);
        let Some((count, left)) = numbers.split_first() else {
            return Err(short);
        };
        if *count > 16 || !all_there(left, *count as usize) {
            return Err(short);
        }
        Ok(Tables {
            left,
            count: *count as usize,
        })
    }

    // How many there are, or how the first that is too large turns them away.
    pub(crate) fn small(self) -> Result<usize, Refusal>
        ensures { MatchResult result
            (λ n. (table_fault self.entry.count 0 self.entry.left.now ≡ None) × (n ≡ self.entry.count))
            (λ e. option_map TableTooLarge (table_fault self.entry.count 0 self.entry.left.now) ≡ Some e) }
    {
        for (i, table) in self.enumerate() {
            if !table.is_small() {
                return Err(Refusal::TableTooLarge(i as u64));
            }
        }
        Ok(self.count)
    }
}

impl<'a> Iterator for Tables<'a> {
    type Item = Table<'a>;

    ghost use Rattle.answer.specs.Lent.{tables_of};

    ghost next_gives = { YieldsFirstBy (λ t. t.numbers.now) tables_of };

    ghost remaining = { item_count tables_of };

    fn next(&mut self) -> Option<Table<'a>> {
        self.count = self.count.checked_sub(1)?;
        let table = Table { numbers: self.left };
        self.left = table.behind();
        Some(table)
    }
}

// How many tables are lent, or how they are turned away.
pub fn check_tables(tables: &[u64]) -> Result<usize, Refusal>
    ensures { MatchResult result
        (λ n. (tables_refusal tables.now ≡ None) × (n ≡ slice_index tables.now 0))
        (λ e. tables_refusal tables.now ≡ Some e) }
{
    Tables::whole(tables)?.small()
}
