// What finding the fewest uses answers.
use question::Refusal;

// Three answers and no `Result`: that the reports can't answer is no refusal.
#[derive(Clone, Copy, PartialEq, Eq, Debug)]
pub enum Reply {
    // The reports answer it: how many uses of them that takes.
    By(u64),
    // No question over the reports is right.
    Impossible,
    Refused(Refusal),
}

impl From<Result<Option<u64>, Refusal>> for Reply {
    ghost use Rattle.std.specs.Prelude.{◌≡◌};
    ghost use Rattle.rewriting.specs.Answer.{reply_of};

    ghost from_gives = { λ found reply. reply ≡ reply_of found };

    fn from(found: Result<Option<u64>, Refusal>) -> Reply {
        match found {
            Ok(Some(uses)) => Reply::By(uses),
            Ok(None) => Reply::Impossible,
            Err(refusal) => Reply::Refused(refusal),
        }
    }
}
