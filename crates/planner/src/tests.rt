// The worked table: its plan, and its refusals.
use super::plan;
use duty::Record;
use fault::{Cause, Fault};
use placing::Lined;
use std::test::Fail;

const TABLE: &[u8; 153] =
    b"RELAYS  2  4     120\nSHADES         4      12      24\nGREAT          2       5      10\nSWELL          3       6      12\nPEDAL          2       8      20\n";

fn boards(records: &[Record; 4]) -> [u8; 4] {
    records.map(|record| record.board)
}

#[test]
fn two_boards(rt: HostRuntime) {
    let mut out = [b'.'; 166];
    let answer = plan(
        TABLE,
        &mut [Record::BLANK; 4],
        &mut [Lined::UNUSED; 4],
        &mut out,
    );
    assert!(rt; answer == Ok(165));
    assert!(rt;
        out == *b"PLAN S  2  4     120\nSHADES         4      12      24  1\nGREAT          2       5      10  1\nSWELL          3       6      12  1\nPEDAL          2       8      20  2\n."
    );
}

// GREAT and SWELL are placed, PEDAL is refused, and the turn of SHADES does not come.
#[test]
fn one_board(rt: HostRuntime) -> Result<(), Fail> {
    let mut text = *TABLE;
    text[8] = b'1';
    let mut records = [Record::BLANK; 4];
    let mut out = [b'.'; 165];
    let fault = Fault::of_call(Cause::NoBoardFits).at(5, 1);
    let answer = plan(&text, &mut records, &mut [Lined::UNUSED; 4], &mut out);
    assert!(rt; answer == Err(fault));
    assert!(rt; out == [b'.'; 165]);
    assert!(rt; boards(&records) == [0, 1, 1, 0]);
    assert!(rt; fault.to_string(rt.alloc())?.as_str() == "REFUSED 50  5  1");
    Ok(())
}

#[test]
fn short_memory(rt: HostRuntime) {
    let mut out = [b'.'; 164];
    let scratch = plan(
        TABLE,
        &mut [Record::BLANK; 4],
        &mut [Lined::UNUSED; 3],
        &mut out,
    );
    assert!(rt; scratch == Err(Fault::of_call(Cause::ScratchShort)));
    let output = plan(
        TABLE,
        &mut [Record::BLANK; 4],
        &mut [Lined::UNUSED; 4],
        &mut out,
    );
    assert!(rt; output == Err(Fault::of_call(Cause::OutputShort)));
    assert!(rt; out == [b'.'; 164]);
}
