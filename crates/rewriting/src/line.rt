// The line that is printed for a request: by 2: R0 x0 x2, R1 x0 x3.
ghost use Rattle.std.specs.Prelude.{◌≡◌, ℕ, IfOk, Some, None, string_bytes};
ghost use Rattle.question.specs.Check.{question_refusal};
ghost use Rattle.question.specs.Lent.{line_of, question_of};
ghost use Rattle.rewriting.specs.declared.reply.Reply.TheVariants.{By};
ghost use Rattle.rewriting.specs.Texts.{use_text, found_text};
ghost use Rattle.rewriting.specs.Answer.{printed};

use super::fewest::find;
use super::reply::Reply;
use question::{Line, Question};
use std::alloc::{AllocError, Global};
use std::fmt;

// A use of a report, behind a blank: its number and its terms.
#[derive(Clone, Copy)]
struct Use<'a>(Line<'a, 16>);

impl fmt::Display for Use<'_> {
    ghost output = { λ u. Some (use_text (line_of u.0)) };

    fn fmt<W: fmt::Write>(&self, f: &mut fmt::Formatter<W>) -> fmt::Result {
        let report = self.0.table();
        // A use has its own text: the report's name and its terms.
        write!(f, " R{report}")?;
        for term in self.0.terms() {
            write!(f, " {term}")?;
        }
        Ok(())
    }
}

// A question over reports as it is printed: how many uses, and each.
#[derive(Clone, Copy)]
struct OverReports<'a>(Question<'a>);

impl fmt::Display for OverReports<'_> {
    ghost output = { λ p. Some (found_text (question_of p.0)) };

    fn fmt<W: fmt::Write>(&self, f: &mut fmt::Formatter<W>) -> fmt::Result {
        let mut uses = self.0.lines();
        let count = uses.count_left();
        write!(f, "by {count}:")?;
        let Some(first) = uses.next() else {
            return Ok(());
        };
        write!(f, "{}", Use(first))?;
        for more in uses {
            write!(f, ",{}", Use(more))?;
        }
        Ok(())
    }
}

// The line for a request, without its end: what is answered, and the question over reports where one is found.
// It is written without memory of its own.
#[derive(Clone, Copy)]
pub struct FoundLine {
    reply: Reply,
    found: [u64; 50],
    ghost stands: { (n : ℕ) → reply ≡ By n → question_refusal found ≡ None },
}

impl FoundLine {
    ghost use Rattle.rewriting.specs.Printed.{line_text};

    pub fn of(question: &[u64], reports: &[u64]) -> FoundLine
        ensures { line_text result ≡ printed question.now reports.now }
    {
        let mut found = [0; 50];
        let reply = find(question, reports, &mut found);
        FoundLine { reply, found }
    }
}

impl fmt::Display for FoundLine {
    ghost use Rattle.rewriting.specs.Printed.{line_text};

    ghost output = { λ l. Some (line_text l) };

    fn fmt<W: fmt::Write>(&self, f: &mut fmt::Formatter<W>) -> fmt::Result {
        match self.reply {
            Reply::By(_) => {
                let over_reports = OverReports(Question::of_checked(&self.found));
                write!(f, "{over_reports}")
            }
            Reply::Impossible => write!(f, "none"),
            Reply::Refused(refusal) => write!(f, "{refusal}"),
        }
    }
}

// The line that is printed for a request, without its end; an error where there is no memory for it.
pub fn found_line(heap: Global, question: &[u64], reports: &[u64]) -> Result<String, AllocError>
    ensures { IfOk result (λ text. string_bytes text ≡ printed question.now reports.now) }
{
    let line = FoundLine::of(question, reports);
    format!(in heap; "{line}")
}
