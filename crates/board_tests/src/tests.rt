// Two boards with one duty each, under the density gauge at cycle 100.
use board::run_plan;
use duty::{Header, Letter, Record, Timing};
use fault::{Cause, Fault};
use gauge::Density;
use model::{Answer, Call, Event};
use queue::RowQueue;

fn row(cost: u32, board: u8) -> Record {
    Record::new(*b"STOP-8  ", Timing::new(cost, 10, 100), board)
}

const CALLS: [Call; 4] = [
    Call::Arrive(0),
    Call::Tick,
    Call::Arrive(0),
    Call::Finish(0),
];

fn unanswered() -> [Event; 4] {
    CALLS.map(Event::of)
}

// What running the calls on a board of the plan answers, and the events after it; the queue that comes back is dropped.
fn attempt(duties: u8, records: &[Record], number: u8) -> Option<(Result<(), Fault>, [Event; 4])> {
    let header = Header::new(Letter::Density, 2, duties, 100)?;
    let mut events = unanswered();
    let (_, answer) = run_plan(
        header,
        records,
        Density,
        number,
        RowQueue::new(),
        &mut events,
    );
    Some((answer, events))
}

// A refusal, and the events as they were.
fn refused(cause: Cause, line: usize, column: usize) -> Option<(Result<(), Fault>, [Event; 4])> {
    let fault = Fault::of_call(cause).at(line, column);
    Some((Err(fault), unanswered()))
}

#[test]
fn no_such_board_in_the_plan(rt: HostRuntime) {
    let records = [row(3, 1), row(4, 2)];
    assert!(rt; attempt(2, &records, 0) == refused(Cause::UnknownBoard, 0, 0));
    assert!(rt; attempt(2, &records, 3) == refused(Cause::UnknownBoard, 0, 0));
}

#[test]
fn a_plan_that_cannot_be_closed(rt: HostRuntime) {
    let records = [row(3, 1), row(4, 2)];
    assert!(rt; attempt(3, &records, 1) == refused(Cause::RecordsShort, 1, 10));
    assert!(rt; attempt(2, &[row(3, 1), row(11, 2)], 1) == refused(Cause::NotADuty, 3, 25));
    assert!(rt; attempt(2, &[row(3, 1), row(4, 0)], 1) == refused(Cause::NoSuchBoard, 3, 0));
    assert!(rt; attempt(2, &[row(6, 2), row(6, 2)], 1) == refused(Cause::Overfull, 2, 0));
}

#[test]
fn a_run(rt: HostRuntime) {
    let mut events = unanswered();
    events[0].answer = Answer::Granted {
        deadline: 10,
        units: 4,
    };
    events[1].answer = Answer::Ran(Some(0));
    events[2].answer = Answer::Refused(Fault::of_call(Cause::TooSoon));
    events[3].answer = Answer::Finished(3);
    assert!(rt; attempt(2, &[row(3, 1), row(4, 2)], 2) == Some((Ok(()), events)));
}

// A board with no duties runs too.
#[test]
fn an_empty_board(rt: HostRuntime) {
    let none = Answer::Refused(Fault::of_call(Cause::NoSuchPlace));
    let mut events = unanswered();
    events[0].answer = none;
    events[2].answer = none;
    events[3].answer = none;
    assert!(rt; attempt(1, &[row(3, 1)], 2) == Some((Ok(()), events)));
}
