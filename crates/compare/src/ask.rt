// The answers of the crates to a case.
use super::cases::{GaugeCase, PlacingCase, Verdicts};
use anyhow::Context;
use duty::{Header, Letter, Record};
use fault::{Cause, Fault};
use gauge::{Density, Exact, Gauge, Slope};
use placing::{Lined, place};

// What the three gauges say to the list.
pub fn ask_gauges(case: &GaugeCase) -> Verdicts {
    let duties = case.duties.as_slice();
    Verdicts {
        density: Density.passes(duties, case.cycle),
        slope: Slope.passes(duties, case.cycle),
        exact: Exact.passes(duties, case.cycle),
    }
}

// Places by the letter's gauge. A letter is a gauge too, but here each gauge is tried by its own type.
fn place_by(letter: Letter, header: &Header, records: &mut [Record]) -> Result<(), Fault> {
    let mut scratch = [Lined::UNUSED; Header::MOST_RECORDS];
    match letter {
        Letter::Density => place(&Density, header, records, &mut scratch),
        Letter::Slope => place(&Slope, header, records, &mut scratch),
        Letter::Exact => place(&Exact, header, records, &mut scratch),
    }
}

// What placing has to answer.
fn due_answer(stuck: Option<u32>) -> Result<(), Fault> {
    match stuck {
        None => Ok(()),
        Some(index) => Err(Fault::of_call(Cause::NoBoardFits).at(index as usize + 2, 1)),
    }
}

// Whether placing gives every duty the board that the case has for it, and answers alike. It starts
// from records that all stand on the last board.
pub fn agrees_on_placing(case: &PlacingCase) -> anyhow::Result<bool> {
    let mut records = case.records.clone()?;
    for record in records.iter_mut() {
        record.board = Record::MOST_BOARDS;
    }
    let duties = u8::try_from(records.len())?;
    let header = Header::new(case.letter, case.boards, duties, case.cycle).context(
        "a table has 1 to 16 boards, at most 64 duties and a cycle in range",
    )?;
    let answer = place_by(case.letter, &header, records.as_mut_slice());
    Ok(answer == due_answer(case.stuck) && records.as_slice() == case.records.as_slice())
}
