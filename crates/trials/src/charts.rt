// A run as a chart: a row a duty, a column a tick.
ghost use Rattle.std.specs.Prelude.{◌≡◌, ◌<◌, ◌≤◌, length, min, take};
ghost use Rattle.boards.specs.Lists.{on_board};
ghost use Rattle.model.specs.Events.{clock};
ghost use Rattle.trials.specs.Folds.{fold};

use crate::rows::{Row, is_tick};
use duty::{Header, Record};
use model::Event;
use std::fmt;

// How many ticks stand side by side.
const FOLD: usize = 30;

// How many ticks lie between two readings of the clock that are written, in ten columns.
const STEP: usize = 5;

// How many of the records are on the board.
pub fn count_on(records: &[Record], board: u8) -> usize
    ensures { result ≡ length (on_board board records.now) }
{
    records
        .iter()
        .filter(|record| record.board == board)
        .count()
}

// What the clock reads after the events.
fn clock_after(events: &[Event]) -> usize
    ensures { result ≡ clock events.now }
{
    events.iter().filter(|event| is_tick(event)).count()
}

// How many events there are up to the last tick of a fold. The ticks are counted here, since the clauses speak of them.
fn fold_length(events: &[Event]) -> usize
    ensures within { result ≤ length events.now }
    ensures full { result < length events.now → clock (take result events.now) ≡ fold }
    ensures few { clock (take result events.now) ≤ fold }
{
    let mut ticks = 0;
    for (i, event) in events.iter().enumerate() {
        if is_tick(event) {
            ticks += 1;
            if ticks == FOLD {
                return i + 1;
            }
        }
    }
    events.len()
}

// Starts a row each for the first duties of the board, and answers how many it started. In one pass: to count the duties
// first takes half as long again, where there are many records. (As a `zip` of rows and duties, no proof was found that bounds the count.)
fn start_rows(records: &[Record], board: u8, rows: &mut [Row]) -> usize
    ensures within { result ≤ length rows.old }
    ensures count { result ≡ min (length (on_board board records.now)) (length rows.old) }
{
    let mut count = 0;
    for record in records {
        if record.board == board && count < rows.len() {
            rows[count] = Row::new(record.name);
            count += 1;
        }
    }
    count
}

// Writes a row each for the events from one reading of the clock on; at the end of the run, its last reading too.
fn write_rows<W: fmt::Write>(
    rows: &mut [Row],
    events: &[Event],
    clock: u64,
    end: Option<u64>,
    f: &mut fmt::Formatter<W>,
) -> fmt::Result {
    for (place, row) in rows.iter_mut().enumerate() {
        row.write(place, events, clock, f)?;
        if let Some(last) = end {
            row.close(last, f)?;
        }
        writeln!(f)?;
    }
    Ok(())
}

// Writes the clock below its ticks, from one reading to another.
fn write_clock<W: fmt::Write>(from: usize, to: usize, f: &mut fmt::Formatter<W>) -> fmt::Result {
    write!(f, "   clock     ")?;
    let last = to - to.saturating_sub(from) % STEP;
    for reading in (from..last).step_by(STEP) {
        write!(f, "{reading:<10}")?;
    }
    writeln!(f, "{last}")
}

// Writes the rows of the whole run, whose clock ends at `ticks`, in folds with the clock below each.
fn write_folds<W: fmt::Write>(
    rows: &mut [Row],
    events: &[Event],
    ticks: usize,
    f: &mut fmt::Formatter<W>,
) -> fmt::Result {
    let last = ticks.saturating_sub(1) / FOLD * FOLD;
    let mut left = events;
    for clock in (0..last).step_by(FOLD) {
        let (fold, rest) = left.split_at(fold_length(left));
        write_rows(rows, fold, clock as u64, None, f)?;
        write_clock(clock, clock.saturating_add(FOLD - 1), f)?;
        left = rest;
    }
    write_rows(rows, left, last as u64, Some(ticks as u64), f)?;
    write_clock(last, ticks, f)
}

// A run of a board, with the records of its plan. It prints as a chart.
#[derive(Drop)]
pub struct Chart<'a> {
    pub board: u8,
    pub records: &'a [Record],
    pub events: &'a [Event],
}

impl fmt::Display for Chart<'_> {
    fn fmt<W: fmt::Write>(&self, f: &mut fmt::Formatter<W>) -> fmt::Result {
        // An array and a count, since printing has no allocator.
        let mut rows = [Row::new(Record::BLANK.name); Header::MOST_RECORDS];
        let count = start_rows(self.records, self.board, &mut rows);
        let rows = &mut rows[..count];
        let ticks = clock_after(self.events);
        let board = self.board;
        writeln!(f, "board {board}, clock 0 to {ticks}")?;
        write_folds(rows, self.events, ticks, f)?;
        writeln!(f, "# gets the tick   - waits for it   . has no job")?;
        write!(
            f,
            "> arrives   | deadline   / ended early   X arrives at a deadline or an end"
        )
    }
}
