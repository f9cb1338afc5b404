// How often something was seen.
use std::fmt;

#[derive(Clone, Copy, Default)]
pub struct Count(u64);

impl Count {
    pub fn add(&mut self, more: u64) {
        self.0 = self.0.saturating_add(more);
    }

    // A yes or no that is counted, no kind.
    pub fn add_if(&mut self, so: bool) {
        self.add(u64::from(so));
    }

    pub fn number(self) -> u64 {
        self.0
    }
}

impl fmt::Display for Count {
    fn fmt<W: fmt::Write>(&self, f: &mut fmt::Formatter<W>) -> fmt::Result {
        let number = self.0;
        write!(f, "{number}")
    }
}
