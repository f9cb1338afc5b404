// How an argument names a table.
ghost use Rattle.std.specs.Prelude.{ℕ, List, MatchOption};
ghost use Rattle.named_files.specs.Arguments.{Names};

use wire::read_number;

// What stands before the first `=`, as a number, and what stands behind it.
pub fn number_and_path(arg: &str) -> Option<(u64, &str)>
    ensures { MatchOption result
        ((n : ℕ) (path : List ℕ) → Names arg.now n path → ⊥)
        (λ p. Names arg.now p.0 p.1.now) }
{
    let (number, path) = arg.split_once('=')?;
    Some((read_number(number.as_bytes())?, path))
}
