// Numbers that look random and are the same in every run.

#[derive(Drop)]
pub struct Dice {
    state: u64,
}

impl Dice {
    // Any seed but 0.
    pub fn new(seed: u64) -> Self {
        Dice { state: seed }
    }

    fn roll(&mut self) -> u64 {
        let mut x = self.state;
        x ^= x << 13;
        x ^= x >> 7;
        x ^= x << 17;
        self.state = x;
        x >> 16
    }

    // A number below n, and 0 where n is 0.
    pub fn below(&mut self, n: u64) -> u64 {
        if n == 0 {
            return 0;
        }
        self.roll() % n
    }

    // A number from low to high.
    pub fn from_to(&mut self, low: u64, high: u64) -> u64 {
        let more = high.saturating_sub(low).saturating_add(1);
        self.below(more).saturating_add(low)
    }

    // True once in n times.
    pub fn once_in(&mut self, n: u64) -> bool {
        self.below(n) == 0
    }

    // One of the items, if there is any.
    pub fn one_of<'a, T>(&mut self, items: &'a [T]) -> Option<&'a T> {
        let place = self.below(items.len() as u64) as usize;
        items.get(place)
    }
}
