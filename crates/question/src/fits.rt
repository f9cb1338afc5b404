// Whether lent numbers are terms and lines, each for itself.
ghost use Rattle.std.specs.Prelude.{◌≡◌, ◌*◌, ◌≤◌, length};
ghost use Rattle.question.specs.Layout.{terms_fit, line_fits};

use super::terms::Term;

// Whether the first n pairs of numbers are terms of a question.
// Plain numbers, of which it is not known yet whether they are terms.
pub(crate) fn terms_fit(numbers: &[u64], n: usize) -> bool
    requires { 2 * n ≤ length numbers.now }
    ensures { result ≡ terms_fit 16 n numbers.now }
{
    let (pairs, _) = numbers[..2 * n].as_chunks();
    pairs.iter().all(|pair| match Term::try_from(*pair) {
        Ok(Term::Number(_)) => true,
        Ok(Term::Variable(x)) => x < 16,
        Err(_) => false,
    })
}

// Whether ten numbers are a line of a question.
pub(crate) fn line_fits(line: &[u64; 10]) -> bool
    ensures { result ≡ line_fits 16 line.now }
{
    let (table, width) = (line[0], line[1]);
    table < 4294967296 && width <= 4 && terms_fit(&line[2..], width as usize)
}
