// What waits at a place.

// One arrival's work that is not done yet.
#[derive(Clone, Copy, PartialEq, Eq, Debug)]
pub struct Job {
    // The clock reading by which it is due.
    pub deadline: u64,
    // The ticks that it still needs.
    pub units: u32,
}
