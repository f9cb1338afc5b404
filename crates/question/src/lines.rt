// A line of a question, and lines one after another.
ghost use Rattle.std.specs.Prelude.{◌≡◌, ◌*◌, ◌≤◌, true, ◌∷◌, ◌++◌, map, length, take, drop};
ghost use Rattle.std.specs.List.{list_all};
ghost use Rattle.std.specs.Iterator.{YieldsFirstBy, item_count};
ghost use Rattle.question.specs.Question.{all_at};
ghost use Rattle.question.specs.Sound.{has, vars, line_vars, all_in};
ghost use Rattle.question.specs.Layout.{line_in, line_fits, ten_fit, lines_in, lines_fit, line_out, lines_out, padded, value_in};

use super::terms::{Term, Terms};

// A line (the field says: atom), in its ten lent numbers: its table, how many terms it has, and room for four. Its variables are below LIMIT.
#[derive(Clone, Copy)]
pub struct Line<'a, const LIMIT: usize> {
    numbers: &'a [u64; 10],
    ghost ten: { length numbers.now ≡ 10 },
    ghost fits: { line_fits LIMIT numbers.now ≡ true },
    ghost limit: { LIMIT ≤ 256 },
}

impl<'a, const LIMIT: usize> Line<'a, LIMIT> {
    ghost use Rattle.question.specs.Lent.{terms_of, line_of};

    // The table that it names.
    pub fn table(&self) -> u64
        ensures { result ≡ (line_of self.now).table }
    {
        self.numbers[0]
    }

    // How many terms it has.
    pub fn width(&self) -> usize
        ensures { result ≡ length (line_of self.now).cells }
    {
        self.numbers[1] as usize
    }

    // Its terms.
    pub fn terms(&self) -> Terms<'a, LIMIT>
        ensures { terms_of result ≡ (line_of self.now).cells }
    {
        let numbers = self.numbers;
        Terms::first_of(&numbers[2..], self.width())
    }

    // Its ten numbers. Room that it does not use may hold anything.
    // The layout itself, so no `From`.
    pub fn numbers(&self) -> &'a [u64; 10]
        ensures line { line_in result.now ≡ line_of self.now }
        ensures fits { line_fits LIMIT result.now ≡ true }
        ensures ten { length result.now ≡ 10 }
    {
        let Line { numbers } = *self;
        numbers
    }

    // Writes the row that it is under the values to the front of out.
    pub fn row_under(&self, values: &[u64; 16], out: &mut [u64])
        requires few { LIMIT ≤ 16 }
        requires room { length (line_of self.now).cells ≤ length out.old }
        ensures { out.new ≡ all_at (value_in values.now) (line_of self.now).cells ++ drop (length (line_of self.now).cells) out.old }
    {
        self.terms().row_under(values, out);
    }

    // Writes it into ten numbers, with 0 where room is left.
    pub fn write(&self, out: &mut [u64])
        requires { length out.old ≡ 10 }
        ensures { out.new ≡ line_out (line_of self.now) }
    {
        out[0] = self.table();
        out[1] = self.width() as u64;
        self.terms().write(&mut out[2..10]);
    }

    // Whether the variable is one of its terms.
    pub fn has(&self, x: u8) -> bool
        ensures { result ≡ has (vars (line_of self.now).cells) x }
    {
        self.terms().have(x)
    }
}

// Lines that are still to come, ten lent numbers each.
#[derive(Clone, Copy)]
pub struct Lines<'a, const LIMIT: usize> {
    left: &'a [[u64; 10]],
    ghost fit: { list_all (ten_fit LIMIT) left.now ≡ true },
    ghost limit: { LIMIT ≤ 256 },
}

impl<'a, const LIMIT: usize> Lines<'a, LIMIT> {
    ghost use Rattle.question.specs.Lent.{terms_of, lines_of};

    // The first n lines that lie in the numbers.
    // The limit is asked where lines are made; lines that are there have it from their type.
    pub fn first_of(numbers: &'a [u64], n: usize) -> Lines<'a, LIMIT>
        requires lent { (10 * n ≤ length numbers.now) × (lines_fit LIMIT n numbers.now ≡ true) }
        requires limit { LIMIT ≤ 256 }
        ensures { lines_of result ≡ lines_in n numbers.now }
    {
        let (lines, _) = numbers[..10 * n].as_chunks();
        Lines { left: lines }
    }

    // The lines that lie in ten numbers each.
    // The limit is asked here as above.
    pub fn over(tens: &'a [[u64; 10]]) -> Lines<'a, LIMIT>
        requires fit { list_all (ten_fit LIMIT) tens.now ≡ true }
        requires limit { LIMIT ≤ 256 }
        ensures { lines_of result ≡ map line_in tens.now }
    {
        Lines { left: tens }
    }

    // How many there are.
    pub fn count_left(&self) -> usize
        ensures { result ≡ length (lines_of self.now) }
    {
        self.left.len()
    }

    // The first n of them, or all where there are fewer.
    pub fn front(&self, n: usize) -> Lines<'a, LIMIT>
        ensures { lines_of result ≡ take n (lines_of self.now) }
    {
        let lines = self.left;
        Lines {
            left: &lines[..n.min(lines.len())],
        }
    }

    // Writes them to the front of out.
    fn write_each(&self, out: &mut [u64])
        requires { 10 * length (lines_of self.now) ≤ length out.old }
        ensures { out.new ≡ lines_out (lines_of self.now) ++ drop (10 * length (lines_of self.now)) out.old }
    {
        let lines = *self;
        for (i, line) in lines.enumerate() {
            line.write(&mut out[10 * i..10 * i + 10]);
        }
    }

    // Writes them into the room for four, with 0 where room is left.
    pub(crate) fn write(&self, out: &mut [u64])
        requires { (length (lines_of self.now) ≤ 4) × (length out.old ≡ 40) }
        ensures { out.new ≡ padded 40 (lines_out (lines_of self.now)) }
    {
        self.write_each(out);
        out[10 * self.left.len()..40].fill(0);
    }

    // Whether the variable stands in one of them.
    pub fn have(&self, x: u8) -> bool
        ensures { result ≡ has (line_vars (lines_of self.now)) x }
    {
        for line in *self {
            if line.has(x) {
                return true;
            }
        }
        false
    }

    // Whether every variable among the terms stands in one of them.
    pub(crate) fn have_all(&self, terms: &Terms<'_, LIMIT>) -> bool
        ensures { result ≡ all_in (vars (terms_of terms.now)) (line_vars (lines_of self.now)) }
    {
        for term in *terms {
            let Term::Variable(x) = term else {
                continue;
            };
            if !self.have(x) {
                return false;
            }
        }
        true
    }
}

impl<'a, const LIMIT: usize> Iterator for Lines<'a, LIMIT> {
    type Item = Line<'a, LIMIT>;

    ghost use Rattle.question.specs.Lent.{line_of, lines_of};

    ghost next_gives = { YieldsFirstBy line_of lines_of };

    ghost remaining = { item_count lines_of };

    fn next(&mut self) -> Option<Line<'a, LIMIT>> {
        let (numbers, left) = self.left.split_first()?;
        self.left = left;
        Some(Line { numbers })
    }
}
