// Variables put as terms, and lines of terms that are put so.
ghost use Rattle.std.specs.Prelude.{◌≡◌, ℕ, ◌<◌, ◌≤◌, length};
ghost use Rattle.question.specs.declared.terms.Term.{Term};
ghost use Rattle.question.specs.Sound.{TermWithin};
ghost use Rattle.question.specs.Layout.{line_out};
ghost use Rattle.question.specs.Lent.{terms_of};
ghost use Rattle.containment.specs.Reading.{put, all_put};

use question::{Term, Terms};

// What puts the variables of a report as terms.
pub(crate) trait Put {
    // What a variable is put as.
    ghost how: { Self → ℕ → Term };

    fn variable(&self, x: u8) -> Term
        requires { x < 16 }
        ensures { result ≡ how self.now x };

    // What a term is put as.
    fn term(&self, term: Term) -> Term
        requires { TermWithin term }
        ensures { result ≡ put (how self.now) term }
    {
        match term {
            Term::Number(_) => term,
            Term::Variable(x) => self.variable(x),
        }
    }
}

// The line of the table, as it is written, whose cells are the terms as they are put.
// At most four terms is asked here: terms that are lent may be more.
pub(crate) fn line_put<P: Put>(by: &P, table: u64, terms: Terms<'_, 16>) -> [u64; 10]
    requires { length (terms_of terms) ≤ 4 }
    ensures put { result ≡ line_out (record { table = table; cells = all_put (P.how by.now) (terms_of terms.entry) }) }
    ensures ten { length result ≡ 10 }
{
    let mut line = [0; 10];
    line[0] = table;
    line[1] = terms.count_left() as u64;
    // Kept: the places are counted, since a zip with what is written is not proved yet.
    for (i, term) in terms.enumerate() {
        let (kind, number) = by.term(term).numbers();
        line[2 + 2 * i] = kind;
        line[3 + 2 * i] = number;
    }
    line
}
