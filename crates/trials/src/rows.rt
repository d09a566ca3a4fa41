// One duty's row of a chart.
ghost use Rattle.std.specs.Prelude.{◌≡◌, ◌&&◌};
ghost use Rattle.model.specs.Events.{is_tick, accepted, names};

use duty::Name;
use model::{Answer, Call, Event, Job};
use std::fmt;

// What a place has while its row is written.
#[derive(Clone, Copy)]
pub(crate) struct Row {
    name: Name,
    // The last job, unless a call ended it. It stays when it is done, and its units are 0 then.
    job: Option<Job>,
    // Whether a job arrived, and whether a call ended one, since the last tick. Both may be.
    arrived: bool,
    ended: bool,
}

// Whether the event moves the clock.
pub(crate) fn is_tick(event: &Event) -> bool
    ensures { result ≡ (is_tick event.now.call && accepted event.now.answer) }
{
    event.call == Call::Tick && !matches!(event.answer, Answer::Refused(_))
}

// Whether the event is a tick that the place got.
fn gets_tick(event: &Event, place: usize) -> bool
    ensures { result ≡ (is_tick event.now.call && names place event.now.answer) }
{
    event.call == Call::Tick && event.answer == Answer::Ran(Some(place))
}

impl Row {
    // The row of a duty of this name, of which nothing has arrived.
    pub(crate) fn new(name: Name) -> Row {
        Row {
            name,
            job: None,
            arrived: false,
            ended: false,
        }
    }

    // Whether a job still needs ticks.
    fn is_waiting(&self) -> bool {
        self.job.is_some_and(|job| job.units > 0)
    }

    // A call other than a tick, as far as it concerns the place.
    fn follow(&mut self, event: &Event, place: usize) {
        match (event.call, event.answer) {
            (Call::Arrive(p), Answer::Granted { deadline, units }) if p == place => {
                self.job = Some(Job { deadline, units });
                self.arrived = true;
            }
            (Call::Finish(p), Answer::Finished(_)) if p == place => self.end(),
            (Call::GeneralCancel, _) => self.end(),
            _ => {}
        }
    }

    // A call ends the job, if there is one.
    fn end(&mut self) {
        self.ended |= self.is_waiting();
        self.job = None;
    }

    // What happened at this reading of the clock.
    fn start_mark(&self, clock: u64) -> char {
        let due = self.job.is_some_and(|job| job.deadline == clock);
        match (self.arrived, self.ended, due) {
            (false, false, false) => ' ',
            (false, false, true) => '|',
            (false, true, _) => '/',
            (true, false, false) => '>',
            (true, _, _) => 'X',
        }
    }

    // What the tick gave the place.
    fn tick_mark(&self, got: bool) -> char {
        if got {
            '#'
        } else if self.is_waiting() {
            '-'
        } else {
            '.'
        }
    }

    // Goes on to the next tick.
    fn pass(&mut self, got: bool) {
        if got {
            if let Some(job) = &mut self.job {
                job.units = job.units.saturating_sub(1);
            }
        }
        self.arrived = false;
        self.ended = false;
    }

    // Writes the place, the name, and two marks for each tick of these events, which begin at this reading of the clock.
    pub(crate) fn write<W: fmt::Write>(
        &mut self,
        place: usize,
        events: &[Event],
        clock: u64,
        f: &mut fmt::Formatter<W>,
    ) -> fmt::Result {
        write!(f, "{place:>2} ")?;
        for byte in self.name.bytes {
            f.write_char(byte as char)?;
        }
        write!(f, "  ")?;
        // It goes on with the ticks alone, not with each event.
        let mut clock = clock;
        for event in events {
            self.follow(event, place);
            if is_tick(event) {
                let got = gets_tick(event, place);
                f.write_char(self.start_mark(clock))?;
                f.write_char(self.tick_mark(got))?;
                self.pass(got);
                clock = clock.saturating_add(1);
            }
        }
        Ok(())
    }

    // Writes what happened at the last reading of the clock, if anything.
    pub(crate) fn close<W: fmt::Write>(
        &self,
        clock: u64,
        f: &mut fmt::Formatter<W>,
    ) -> fmt::Result {
        match self.start_mark(clock) {
            ' ' => Ok(()),
            mark => f.write_char(mark),
        }
    }
}
