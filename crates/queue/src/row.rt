// A plain row of 64 deadlines.
ghost use Rattle.std.specs.Prelude.{◌≡◌, ℕ, List, length};
ghost use Rattle.queue.specs.Places.{places};

mod calls;

pub use calls::check as check_place;

// How many places there are.
pub const PLACES: usize = 64;

// What each place has.
#[derive(Drop)]
pub struct RowQueue {
    slots: [Option<u64>; PLACES],
    ghost wide: { length slots ≡ places },
}
