// What a call does to the one place that it concerns.
ghost use Rattle.std.specs.Prelude.{◌≡◌, true, map, count_by, is_some};
ghost use Rattle.model.specs.declared.calls.Call.TheVariants.{GeneralCancel};
ghost use Rattle.model.specs.Steps.{too_soon, job_after, last_after, after};
ghost use Rattle.board_state.specs.Views.{seen};
ghost use Rattle.board_state.specs.Past.{past};

use crate::clocks::Clock;
use crate::places::Place;
use model::{Call, Job};

// Whether an arrival now would come before the spacing has passed.
pub(crate) fn is_too_soon(place: &Place, clock: Clock) -> bool
    requires { past clock.ticks place.now ≡ true }
    ensures { result ≡ too_soon clock.ticks place.now.duty.timing.spacing place.now.last }
{
    place.last.is_some_and(|last| clock.ticks < last + place.duty.timing().spacing as u64)
}

// The job of a place after an accepted call that concerns it.
fn job_after(place: &Place, call: Call, clock: Clock) -> Option<Job>
    ensures { result ≡ job_after clock.ticks place.now.duty.timing place.now.job call }
{
    let duty = place.duty.timing();
    match (call, place.job) {
        (Call::Arrive(_), _) => Some(Job {
            deadline: clock.after(duty.deadline),
            units: duty.cost,
        }),
        (Call::Tick, Some(job)) if job.units > 1 => Some(Job {
            units: job.units - 1,
            ..job
        }),
        (Call::Tick | Call::Finish(_) | Call::GeneralCancel, _) => None,
    }
}

fn last_after(last: Option<u64>, call: Call, clock: Clock) -> Option<u64>
    ensures { result ≡ last_after clock.ticks last call }
{
    match call {
        Call::Arrive(_) => Some(clock.ticks),
        Call::Tick | Call::Finish(_) => last,
        Call::GeneralCancel => None,
    }
}

// A place after an accepted call that concerns it.
pub(crate) fn turned(place: &Place, call: Call, clock: Clock) -> Place
    ensures { seen result ≡ after clock.ticks call (seen place.now) }
{
    Place {
        duty: place.duty,
        last: last_after(place.last, call, clock),
        job: job_after(place, call, clock),
    }
}

// How many jobs wait.
pub(crate) fn count_jobs(places: &[Place]) -> usize
    ensures { result ≡ count_by (λ x. is_some x.job) places.now }
{
    places.iter().filter(|place| place.job.is_some()).count()
}

// Turns every place as a General Cancel does.
pub(crate) fn cancel_all(places: &mut [Place], clock: Clock)
    ensures { map seen places.new ≡ map (after clock.ticks GeneralCancel) (map seen places.old) }
{
    for place in places.iter_mut() {
        *place = turned(place, Call::GeneralCancel, clock);
    }
}
