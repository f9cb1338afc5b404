// Why the program ends with status 1.
use std::alloc::{AllocError, AllocFailed};
use std::{fmt, io};

// Its text is told whole, however long the path of a file is.
#[derive(Drop)]
pub enum Failure {
    // An argument or a file is at fault: which, and at which line.
    Told(String),
    // There is no memory, or the answer can't be written.
    System(io::Error),
}

// As it is written on standard error where `main` returns it.
impl fmt::Debug for Failure {
    fn fmt<W: fmt::Write>(&self, f: &mut fmt::Formatter<W>) -> fmt::Result {
        match self {
            Failure::Told(text) => f.write_str(text.as_str()),
            Failure::System(error) => write!(f, "{error}"),
        }
    }
}

impl From<io::Error> for Failure {
    fn from(error: io::Error) -> Failure {
        Failure::System(error)
    }
}

impl From<AllocError> for Failure {
    fn from(error: AllocError) -> Failure {
        Failure::System(io::Error::from(error))
    }
}

impl<T: Drop> From<AllocFailed<T>> for Failure {
    fn from(_refused: AllocFailed<T>) -> Failure {
        Failure::from(AllocError)
    }
}
