// What is said of two questions.

// Whether the first of two questions lies within the second (the field says: is contained in it).
#[derive(Clone, Copy, PartialEq, Eq, Debug)]
pub enum Containment {
    // Whatever the tables hold, it answers nothing that the second does not.
    Within,
    // It does not, and the tables that show so are so many numbers at the front of the room.
    Apart(u64),
}
