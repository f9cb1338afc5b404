// The different terms of a question, each with a slot of its own.
ghost use Rattle.std.specs.Prelude.{◌≡◌, ◌+◌, ◌<◌, ◌≤◌, true, false, [], ◌∷◌, length, take};
ghost use Rattle.join.specs.Slots.{Blank};
ghost use Rattle.question.specs.Lent.{terms_of, lines_of};
ghost use Rattle.question.specs.Layout.{code};
ghost use Rattle.answer.specs.Terms.{place_in, put_in, all_put_in, codes_of, line_codes};

use arrayvec::ArrayVec;
use question::{Lines, Term, Terms};

// Which terms are meant.
#[derive(Clone, Copy)]
pub(crate) enum Kind {
    Numbers,
    Variables,
}

impl Kind {
    // Whether the term is meant.
    #[tactic(auto, unfolding(crate::specs::Terms::codes_of, question::specs::Layout::code))]
    fn has(self, term: Term) -> bool
        ensures yes { result ≡ true → codes_of self (term ∷ []) ≡ code term ∷ [] }
        ensures no { result ≡ false → codes_of self (term ∷ []) ≡ [] }
    {
        matches!(
            (self, term),
            (Kind::Numbers, Term::Number(_)) | (Kind::Variables, Term::Variable(_))
        )
    }
}

// Different terms, kept as numbers. The place of a term's number is its slot.
#[derive(Drop)]
pub(crate) struct Codes {
    pub(crate) list: ArrayVec<u64, 24>,
}

impl Codes {
    // The line numbers, which the first four slots hold.
    pub(crate) fn line_numbers() -> Codes
        ensures { result.list.items ≡ 0 ∷ 1 ∷ 2 ∷ 3 ∷ [] }
    {
        let mut list = ArrayVec::new();
        // The first four numbers: there is no list to go over.
        for number in 0..4 {
            list.push(number);
        }
        Codes { list }
    }

    // How many there are.
    pub(crate) fn count(&self) -> usize
        ensures { result ≡ length self.now.list.items }
    {
        self.list.len()
    }

    // The slot of a term, and their count where it has none.
    pub(crate) fn slot(&self, term: Term) -> usize
        ensures { result ≡ place_in self.now.list.items term }
    {
        let code = term.code();
        let place = self.list.iter().position(|other| *other == code);
        place.unwrap_or(self.list.len())
    }

    // One more, unless it is there.
    fn put(&mut self, term: Term)
        requires { length self.old.list.items < 24 }
        ensures { self.new.list.items ≡ put_in self.old.list.items (code term) }
    {
        let code = term.code();
        if !self.list.contains(&code) {
            self.list.push(code);
        }
    }

    // The terms that are meant, of some.
    pub(crate) fn put_terms(&mut self, terms: Terms<'_, 16>, kind: Kind)
        requires { length self.old.list.items + length (codes_of kind (terms_of terms)) ≤ 24 }
        ensures { self.new.list.items ≡ all_put_in self.old.list.items (codes_of kind (terms_of terms.entry)) }
    {
        for term in terms {
            if kind.has(term) {
                self.put(term);
            }
        }
    }

    // The terms that are meant, of some lines.
    pub(crate) fn put_lines(&mut self, lines: Lines<'_, 16>, kind: Kind)
        requires { length self.old.list.items + length (line_codes kind (lines_of lines)) ≤ 24 }
        ensures { self.new.list.items ≡ all_put_in self.old.list.items (line_codes kind (lines_of lines.entry)) }
    {
        for line in lines {
            self.put_terms(line.terms(), kind);
        }
    }

    // The numbers, with 0 behind them.
    pub(crate) fn values(&self) -> [u64; 24]
        ensures values { take (length self.now.list.items) result ≡ self.now.list.items }
        ensures blank { Blank (length self.now.list.items) result }
    {
        let mut values = [0; 24];
        values[..self.list.len()].copy_from_slice(&self.list);
        values
    }
}
