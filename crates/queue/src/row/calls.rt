// The calls of the row.
ghost use Rattle.std.specs.Prelude.{◌≡◌};
ghost use Rattle.std.specs.Option.{option_map};
ghost use Rattle.queue.specs.First.{earlier};
ghost use Rattle.queue.specs.Places.{place_fault, all_empty};
ghost use Rattle.queue.specs.Views.{due};

use super::{PLACES, RowQueue};
use crate::ready::ReadyQueue;
use fault::{Cause, Fault};

// A place with its deadline.
#[derive(Clone, Copy)]
pub(crate) struct Waiting {
    place: usize,
    deadline: u64,
}

impl RowQueue {
    // A row in which no place has a deadline.
    pub fn new() -> RowQueue
        ensures { result.slots ≡ all_empty }
    {
        RowQueue {
            slots: [None; PLACES],
        }
    }
}

// Whether there is such a place.
pub fn check(place: usize) -> Result<(), Fault>
    ensures { result ≡ place_fault place }
{
    if place >= PLACES {
        return Err(Fault::of_call(Cause::NoSuchPlace));
    }
    Ok(())
}

// The earlier of the best so far and what a higher place has.
fn better(best: Option<Waiting>, place: usize, slot: Option<u64>) -> Option<Waiting>
    ensures { option_map due result ≡ earlier (option_map due best) place slot }
{
    match (best, slot) {
        (_, None) => best,
        (None, Some(deadline)) => Some(Waiting { place, deadline }),
        (Some(held), Some(deadline)) => {
            if deadline < held.deadline {
                Some(Waiting { place, deadline })
            } else {
                best
            }
        }
    }
}

// `put` and `drop` differ in what they store; as one function over an `Option` they would be no shorter.
impl ReadyQueue for RowQueue {
    ghost held = { λ q. q.slots };

    ghost wide = { λ q. q.wide };

    fn put(&mut self, place: usize, deadline: u64) -> Result<(), Fault> {
        check(place)?;
        self.slots[place] = Some(deadline);
        Ok(())
    }

    fn drop(&mut self, place: usize) -> Result<(), Fault> {
        check(place)?;
        self.slots[place] = None;
        Ok(())
    }

    fn clear(&mut self) {
        self.slots = [None; PLACES];
    }

    fn first(&self) -> Option<usize> {
        let mut best = None;
        for (place, slot) in self.slots.iter().enumerate() {
            best = better(best, place, *slot);
        }
        best.map(|found| found.place)
    }
}
