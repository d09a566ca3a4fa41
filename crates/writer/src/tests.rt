// A worked example, and each refusal.
use super::write;
use columns::Form;
use duty::{Header, Letter, Record, Timing};
use fault::{Cause, Fault};
use std::test::Fail;

fn rows() -> [Record; 4] {
    [
        Record::new(*b"SHADES  ", Timing::new(4, 12, 24), 1),
        Record::new(*b"GREAT   ", Timing::new(2, 5, 10), 1),
        Record::new(*b"SWELL   ", Timing::new(3, 6, 12), 1),
        Record::new(*b"PEDAL   ", Timing::new(2, 8, 20), 2),
    ]
}

fn header() -> Result<Header, Fail> {
    Header::new(Letter::Slope, 2, 4, 120).ok_or_else(|| Fail::new("a header outside its limits"))
}

#[test]
fn plan_text(rt: HostRuntime) -> Result<(), Fail> {
    let header = header()?;
    let mut out = [b'.'; 168];
    let length = write(Form::Plan, &header, &rows(), &mut out);
    assert!(rt; length == Ok(165));
    assert!(rt;
        out == *b"PLAN S  2  4     120\nSHADES         4      12      24  1\nGREAT          2       5      10  1\nSWELL          3       6      12  1\nPEDAL          2       8      20  2\n..."
    );
    Ok(())
}

#[test]
fn table_text(rt: HostRuntime) -> Result<(), Fail> {
    let header = header()?;
    let mut out = [b'.'; 154];
    let length = write(Form::Table, &header, &rows(), &mut out);
    assert!(rt; length == Ok(153));
    assert!(rt;
        out == *b"RELAYS  2  4     120\nSHADES         4      12      24\nGREAT          2       5      10\nSWELL          3       6      12\nPEDAL          2       8      20\n."
    );
    Ok(())
}

#[test]
fn output_short(rt: HostRuntime) -> Result<(), Fail> {
    let header = header()?;
    let mut out = [b'.'; 164];
    let refused = Fault::of_call(Cause::OutputShort);
    assert!(rt; write(Form::Plan, &header, &rows(), &mut out) == Err(refused));
    assert!(rt; out == [b'.'; 164]);
    Ok(())
}

#[test]
fn too_few_records(rt: HostRuntime) -> Result<(), Fail> {
    let header = header()?;
    let mut out = [b'.'; 200];
    let rows = rows();
    let refused = Fault::of_call(Cause::RecordsShort).at(1, 10);
    assert!(rt; write(Form::Plan, &header, &rows[0..3], &mut out) == Err(refused));
    Ok(())
}

#[test]
fn last_record_bad(rt: HostRuntime) -> Result<(), Fail> {
    let header = header()?;
    let mut out = [b'.'; 200];
    let mut rows = rows();
    rows[3].board = 17;
    let refused = Fault::of_call(Cause::NotADuty).at(5, 25);
    assert!(rt; write(Form::Table, &header, &rows, &mut out) == Err(refused));
    Ok(())
}
