// One term of a row or of a line, and the terms of a row or of a line one after another.
ghost use Rattle.std.specs.Prelude.{◌≡◌, ◌*◌, ◌≤◌, true, false, [], ◌∷◌, ◌++◌, length, drop, Some, MatchOption, MatchResult};
ghost use Rattle.std.specs.List.{list_all};
ghost use Rattle.std.specs.Iterator.{YieldsFirst, item_count};
ghost use Rattle.question.specs.Layout.{terms_out, code, Codes, pair_term, pair_fits, two_fit, padded, value_in};
ghost use Rattle.question.specs.Question.{at, all_at};
ghost use Rattle.question.specs.Sound.{TermWithin, has, vars};
ghost use Rattle.question.specs.Texts.{term_text};

use std::fmt;

// A number below 2^32 (the field says: constant), or a variable, by its place among x0, x1 and so on.
#[derive(Clone, Copy, PartialEq, Eq, PartialOrd, Ord, Debug)]
pub enum Term {
    Number(u32),
    Variable(u8),
}

// Two lent numbers are no term.
#[derive(Clone, Copy, PartialEq, Eq, Debug)]
pub struct NoTerm;

impl Term {
    // The two numbers that a term is lent as, its kind and its number.
    // The layout itself, so no `From`: a pair tells no reader which is which.
    pub fn numbers(self) -> (u64, u64)
        ensures { terms_out (self ∷ []) ≡ result.0 ∷ result.1 ∷ [] }
    {
        match self {
            Term::Number(n) => (0, u64::from(n)),
            Term::Variable(x) => (1, u64::from(x)),
        }
    }

    // The one number that it can be kept as: a number as itself, the variable x as 2^32 + x.
    // Not `From`: other codes would do as well.
    pub fn code(self) -> u64
        ensures code { result ≡ code self }
        ensures own { Codes self }
    {
        match self {
            Term::Number(n) => u64::from(n),
            Term::Variable(x) => 4294967296 + u64::from(x),
        }
    }

    // The term that has the code, if there is one.
    pub fn of_code(kept: u64) -> Option<Term>
        ensures { MatchOption result (4294967552 ≤ kept) (λ t. (kept ≡ code t) × Codes t) }
    {
        if let Ok(n) = u32::try_from(kept) {
            return Some(Term::Number(n));
        }
        // Not `.ok()?`: tried, and the proof goes by three answers where this has one.
        let Ok(x) = u8::try_from(kept - 4294967296) else {
            return None;
        };
        Some(Term::Variable(x))
    }

    // The number that it is under sixteen values.
    pub(crate) fn under(self, values: &[u64; 16]) -> u64
        requires { TermWithin self }
        ensures { result ≡ at (value_in values.now) self }
    {
        match self {
            Term::Number(n) => u64::from(n),
            Term::Variable(x) => values[x as usize],
        }
    }
}

// The term that a kind and a number are lent for.
impl TryFrom<[u64; 2]> for Term {
    type Error = NoTerm;

    ghost try_from_gives = { λ pair r. MatchResult r (λ t. (pair_fits 256 pair ≡ true) × (t ≡ pair_term pair)) (λ _. pair_fits 256 pair ≡ false) };

    fn try_from(pair: [u64; 2]) -> Result<Term, NoTerm> {
        let [kind, number] = pair;
        match kind {
            0 => u32::try_from(number).map(Term::Number).map_err(|_| NoTerm),
            1 => u8::try_from(number).map(Term::Variable).map_err(|_| NoTerm),
            _ => Err(NoTerm),
        }
    }
}

// As a program prints it: 7 or x0.
impl fmt::Display for Term {
    ghost output = { λ t. Some (term_text t) };

    fn fmt<W: fmt::Write>(&self, f: &mut fmt::Formatter<W>) -> fmt::Result {
        match *self {
            Term::Number(n) => write!(f, "{n}"),
            Term::Variable(x) => write!(f, "x{x}"),
        }
    }
}

// The terms of a row or of a line that are still to come, two lent numbers each. Their variables are below LIMIT: sixteen in a question, 256 where uses of reports are put in.
#[derive(Clone, Copy)]
pub struct Terms<'a, const LIMIT: usize> {
    left: &'a [[u64; 2]],
    ghost fit: { list_all (two_fit LIMIT) left.now ≡ true },
    ghost limit: { LIMIT ≤ 256 },
}

impl<'a, const LIMIT: usize> Terms<'a, LIMIT> {
    ghost use Rattle.question.specs.Layout.{terms_in, terms_fit};
    ghost use Rattle.question.specs.Lent.{terms_of};

    // The first n terms that lie in the numbers.
    // The limit is asked where terms are made; terms that are there have it from their type. It is like `Lines::first_of`, but of another type of item.
    pub fn first_of(numbers: &'a [u64], n: usize) -> Terms<'a, LIMIT>
        requires lent { (2 * n ≤ length numbers.now) × (terms_fit LIMIT n numbers.now ≡ true) }
        requires limit { LIMIT ≤ 256 }
        ensures { terms_of result ≡ terms_in n numbers.now }
    {
        let (pairs, _) = numbers[..2 * n].as_chunks();
        Terms { left: pairs }
    }

    // Writes the row that they are under the values to the front of out.
    pub(crate) fn row_under(&self, values: &[u64; 16], out: &mut [u64])
        requires few { LIMIT ≤ 16 }
        requires room { length (terms_of self.now) ≤ length out.old }
        ensures { out.new ≡ all_at (value_in values.now) (terms_of self.now) ++ drop (length (terms_of self.now)) out.old }
    {
        let terms = *self;
        for (i, term) in terms.enumerate() {
            out[i] = term.under(values);
        }
    }

    // How many there are.
    pub fn count_left(&self) -> usize
        ensures { result ≡ length (terms_of self.now) }
    {
        self.left.len()
    }

    // Whether the variable is one of them.
    pub fn have(&self, x: u8) -> bool
        ensures { result ≡ has (vars (terms_of self.now)) x }
    {
        let mut terms = *self;
        terms.any(|term| term == Term::Variable(x))
    }

    // Writes them into the room for four, with 0 where room is left.
    pub(crate) fn write(&self, out: &mut [u64])
        requires { (length (terms_of self.now) ≤ 4) × (length out.old ≡ 8) }
        ensures { out.new ≡ padded 8 (terms_out (terms_of self.now)) }
    {
        let pairs = self.left;
        let written = pairs.as_flattened();
        out[..written.len()].copy_from_slice(written);
        out[written.len()..8].fill(0);
    }
}

impl<'a, const LIMIT: usize> Iterator for Terms<'a, LIMIT> {
    type Item = Term;

    ghost use Rattle.question.specs.Lent.{terms_of};

    ghost next_gives = { YieldsFirst terms_of };

    ghost remaining = { item_count terms_of };

    fn next(&mut self) -> Option<Term> {
        let (pair, left) = self.left.split_first()?;
        self.left = left;
        // The terms fit, so nothing is tested again: this is what a search does most.
        let [kind, number] = *pair;
        Some(if kind == 0 {
            Term::Number(number as u32)
        } else {
            Term::Variable(number as u8)
        })
    }
}
