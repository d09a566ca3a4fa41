// The end of the clock, which no test can reach by ticks.
use super::State;
use super::starts::idle_place;
use crate::clocks::Clock;
use duty::Duty;
use fault::{Cause, Fault};
use queue::PLACES;

#[test]
fn the_clock_stops_at_its_limit(rt: HostRuntime) {
    let mut state = State {
        clock: Clock {
            ticks: State::CLOCK_LIMIT - 1,
        },
        count: 0,
        places: [idle_place(Duty::SHORTEST); PLACES],
    };
    assert!(rt; state.tick(None) == Ok(None));
    assert!(rt; state.tick(None) == Err(Fault::of_call(Cause::ClockFull)));
    assert!(rt; state.clock.ticks == State::CLOCK_LIMIT);
}
