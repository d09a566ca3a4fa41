// Each refusal, and what it leaves behind.
use crate::rows::{attempt, refused, row, unused};
use duty::Record;
use fault::Cause;
use placing::Lined;
use std::process::Abort;

fn untouched(scratch: &[Lined]) -> bool {
    scratch.iter().all(|entry| *entry == unused())
}

// Shares 0.1, 0.6, 0.6 and 0.5, taken as second, fourth, third: then no board has room. The first,
// whose turn did not come, has no board, and the fifth is not the header's.
#[test]
fn no_board_fits(rt: HostRuntime) {
    let mut records = [
        row(3, 30, 7),
        row(6, 10, 7),
        row(12, 20, 7),
        row(5, 10, 7),
        row(1, 5, 9),
    ];
    let after = [
        row(3, 30, 0),
        row(6, 10, 1),
        row(12, 20, 0),
        row(5, 10, 2),
        row(1, 5, 9),
    ];
    let answer = attempt(2, 4, &mut records, &mut [unused(); 4]);
    assert!(rt; answer == refused(Cause::NoBoardFits, 4, 1));
    assert!(rt; records == after);
}

#[test]
fn scratch_short(rt: HostRuntime) {
    let mut records = [row(1, 10, 3); 2];
    let mut scratch = [unused(); 1];
    let answer = attempt(1, 2, &mut records, &mut scratch);
    assert!(rt; answer == refused(Cause::ScratchShort, 0, 0));
    assert!(rt; records == [row(1, 10, 3); 2] && untouched(&scratch));
}

#[test]
fn records_short(rt: HostRuntime) {
    let mut records = [row(1, 10, 3); 2];
    let answer = attempt(1, 3, &mut records, &mut [unused(); 3]);
    assert!(rt; answer == refused(Cause::RecordsShort, 1, 10));
    assert!(rt; records == [row(1, 10, 3); 2]);
}

// Rows of which the second is no duty record.
fn not_a_duty(rt: &impl Abort, before: [Record; 3]) {
    let mut records = before;
    let mut scratch = [unused(); 3];
    let answer = attempt(1, 3, &mut records, &mut scratch);
    assert!(rt; answer == refused(Cause::NotADuty, 3, 25));
    assert!(rt; records == before && untouched(&scratch));
}

#[test]
fn bad_name(rt: HostRuntime) {
    let mut records = [row(1, 10, 3); 3];
    records[1].name.bytes = *b"STOP 8  ";
    not_a_duty(&rt, records);
}

#[test]
fn board_past_the_rack(rt: HostRuntime) {
    let mut records = [row(1, 10, 3); 3];
    records[1].board = 17;
    not_a_duty(&rt, records);
}
