// What the variables of a question are put as, as far as a search has come, and one line more put as another.
ghost use Rattle.std.specs.Prelude.{◌≡◌, ◌≤◌, false, length, None};
ghost use Rattle.question.specs.Sound.{TermWithin};
ghost use Rattle.question.specs.Lent.{terms_of, line_of};
ghost use Rattle.containment.specs.Search.{nothing, match_term, match_terms, match_line};
ghost use Rattle.containment.specs.Coding.{part_of};

use question::{Line, Term, Terms};

// The code of a variable that is not put: 2^33.
// A number and no `Option`, so that a reading is sixteen numbers, copied at each step of the search.
const NOT_PUT: u64 = 8589934592;

// A code for each of x0 to x15: n where it is put as the number n, 2^32 + x where it is put as the variable x.
#[derive(Clone, Copy)]
pub struct Reading {
    pub codes: [u64; 16],
    ghost sixteen: { length codes ≡ 16 },
}

impl Reading {
    ghost use Rattle.containment.specs.Told.{told};

    // The reading that puts nothing yet.
    pub fn nothing() -> Reading
        ensures { part_of result.codes ≡ nothing }
    {
        Reading {
            codes: [NOT_PUT; 16],
        }
    }

    // The reading, made to put one term as another.
    fn put_term(mut self, from: Term, to: Term) -> Option<Reading>
        requires { TermWithin from }
        ensures { told result ≡ match_term (part_of self.codes) from to }
    {
        let wanted = to.code();
        let Term::Variable(x) = from else {
            return if from.code() == wanted {
                Some(self)
            } else {
                None
            };
        };
        let put = self.codes[x as usize];
        if put >= NOT_PUT {
            self.codes[x as usize] = wanted;
            return Some(self);
        }
        if put == wanted { Some(self) } else { None }
    }

    // The reading, made to put terms as others, of which there are as many.
    pub(crate) fn put_terms<const LIMIT: usize>(
        self,
        from: &Terms<'_, 16>,
        to: &Terms<'_, LIMIT>,
    ) -> Option<Reading>
        requires { length (terms_of from.now) ≡ length (terms_of to.now) }
        ensures { told result ≡ match_terms (part_of self.codes) (terms_of from.now) (terms_of to.now) }
    {
        let mut reading = self;
        let mut others = *to;
        for term in *from {
            let other = others.next()?;
            reading = reading.put_term(term, other)?;
        }
        Some(reading)
    }

    // Whether a term may be put as another: it is no other number, and not put as something else.
    fn may_put(&self, from: Term, to: Term) -> bool
        requires { TermWithin from }
        ensures { result ≡ false → match_term (part_of self.now.codes) from to ≡ None }
    {
        let wanted = to.code();
        let Term::Variable(x) = from else {
            return from.code() == wanted;
        };
        let so_far = self.codes[x as usize];
        so_far >= NOT_PUT || so_far == wanted
    }

    // The same for each of the terms alone: if one may not, they can't be put together. This spares copies of the reading.
    fn may_put_all<const LIMIT: usize>(&self, from: &Terms<'_, 16>, to: &Terms<'_, LIMIT>) -> bool
        ensures { result ≡ false → match_terms (part_of self.now.codes) (terms_of from.now) (terms_of to.now) ≡ None }
    {
        for (term, other) in (*from).zip(*to) {
            if !self.may_put(term, other) {
                return false;
            }
        }
        true
    }

    // The reading, made to put a line as another, of the same table and width.
    pub fn put_line<const LIMIT: usize>(
        self,
        from: &Line<'_, 16>,
        to: &Line<'_, LIMIT>,
    ) -> Option<Reading>
        ensures { told result ≡ match_line (part_of self.codes) (line_of from.now) (line_of to.now) }
    {
        if from.table() != to.table() || from.width() != to.width() {
            return None;
        }
        let terms = from.terms();
        let others = to.terms();
        if !self.may_put_all(&terms, &others) {
            return None;
        }
        self.put_terms(&terms, &others)
    }
}
