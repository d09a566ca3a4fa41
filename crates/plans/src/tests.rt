// Closing, refused and accepted. All rows have spacing 100, at cycle 100 under the density gauge: a duty
// takes the share cost ÷ deadline of its board, and the shares on a board are together at most one.
use super::OpenPlan;
use duty::{Header, Letter, Record, Timing};
use fault::{Cause, Fault};
use gauge::Density;

fn row(cost: u32, board: u8) -> Record {
    Record::new(*b"STOP-8  ", Timing::new(cost, 100, 100), board)
}

// One line here, as in other crates' tests, is less than a crate to share it.
fn refused(cause: Cause, line: usize, column: usize) -> Option<Result<(), Fault>> {
    Some(Err(Fault::of_call(cause).at(line, column)))
}

// What closing answers for so many boards and duties. The plan is asked twice: a refusal leaves it open.
fn attempt(boards: u8, duties: u8, records: &mut [Record]) -> Option<Result<(), Fault>> {
    let header = Header::new(Letter::Density, boards, duties, 100)?;
    let plan = OpenPlan::new(header, records);
    let first = plan.check(&Density);
    (plan.check(&Density) == first).then_some(first)
}

#[test]
fn too_few_records(rt: HostRuntime) {
    assert!(rt; attempt(2, 3, &mut [row(50, 1); 2]) == refused(Cause::RecordsShort, 1, 10));
}

#[test]
fn no_duty_record(rt: HostRuntime) {
    assert!(rt;
        attempt(2, 3, &mut [row(50, 0), row(50, 17), row(0, 1)]) == refused(Cause::NotADuty, 3, 25)
    );
    assert!(rt; attempt(2, 2, &mut [row(50, 1), row(101, 1)]) == refused(Cause::NotADuty, 3, 25));
}

// The first such line, even where a board is overfull too.
#[test]
fn no_such_board(rt: HostRuntime) {
    assert!(rt;
        attempt(2, 3, &mut [row(100, 1), row(100, 1), row(50, 0)])
            == refused(Cause::NoSuchBoard, 4, 0)
    );
    assert!(rt;
        attempt(2, 3, &mut [row(50, 2), row(50, 3), row(50, 0)])
            == refused(Cause::NoSuchBoard, 3, 0)
    );
}

// The smallest such board, which stands as the line.
#[test]
fn overfull_board(rt: HostRuntime) {
    assert!(rt;
        attempt(4, 4, &mut [row(60, 4), row(60, 3), row(60, 4), row(60, 3)])
            == refused(Cause::Overfull, 3, 0)
    );
}

// Only the last line overfills board 2; past the header's duties nothing is looked at.
#[test]
fn overfull_by_a_later_line(rt: HostRuntime) {
    let mut records = [row(50, 2), row(50, 1), row(50, 2), row(1, 2), row(100, 2)];
    assert!(rt; attempt(2, 3, &mut records) == Some(Ok(())));
    assert!(rt; attempt(2, 4, &mut records) == refused(Cause::Overfull, 2, 0));
}

#[test]
fn empty_boards(rt: HostRuntime) {
    assert!(rt; attempt(16, 0, &mut []) == Some(Ok(())));
    assert!(rt; attempt(3, 2, &mut [row(100, 1), row(100, 3)]) == Some(Ok(())));
}

#[test]
fn full_rack(rt: HostRuntime) {
    let mut records = [row(1, 16); 64];
    assert!(rt; attempt(16, 64, &mut records) == Some(Ok(())));
    records[63].timing.cost = 38;
    assert!(rt; attempt(16, 64, &mut records) == refused(Cause::Overfull, 16, 0));
}
