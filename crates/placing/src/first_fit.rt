// First-fit over records that are duty records already, in place.
ghost use Rattle.std.specs.Prelude.{◌≡◌, ◌<◌, ◌≤◌, cond, length, Some, None, ◌==◌};
ghost use Rattle.std.specs.List.Sorted.{IsPermutation};
ghost use Rattle.duty.specs.Limits.{most_duties};
ghost use Rattle.heap.specs.Held.{held, memory};
ghost use Rattle.heap.specs.Order.{Heaped};
ghost use Rattle.placing.specs.FirstFit.{seat, fit, cleared};
ghost use Rattle.placing.specs.Order.{sooner, lined};
ghost use Rattle.placing.specs.Outcome.{placed_answer, first_fit};
ghost use Rattle.placing.specs.Scratch.{Past};

use super::lined::Lined;
use boards::board_passes;
use duty::{Header, Record};
use fault::{Cause, Fault};
use gauge::Gauge;
use heap::Heap;

// Takes every record off its board.
#[tactic(auto, using(crate::proofs::Clearing::clears, crate::proofs::Clearing::clear))]
fn clear_boards(records: &mut [Record])
    ensures { records.new ≡ cleared records.old }
{
    for record in records.iter_mut() {
        record.board = 0;
    }
}

// Puts the record at i on the lowest board that takes it. Gauge and header are two parameters, as in the public call: a
// type of both would only make the clauses longer.
fn place_one<G: Gauge>(
    gauge: &G,
    header: &Header,
    records: &mut [Record],
    i: usize,
) -> Result<(), Fault>
    requires few { length records.old ≤ most_duties }
    requires within { i < length records.old }
    ensures records { records.new ≡ seat records.old i (fit (G.passed gauge.now) header.now.boards header.now.cycle records.old i) }
    ensures answer { result ≡ placed_answer (cond (fit (G.passed gauge.now) header.now.boards header.now.cycle records.old i == 0) (Some i) None) }
{
    for b in 1..=header.boards() {
        records[i].board = b;
        if board_passes(gauge, records, b, header.cycle()) {
            return Ok(());
        }
    }
    records[i].board = 0;
    Err(Fault::of_call(Cause::NoBoardFits).at(i + 2, 1))
}

// A heap of every record with its index.
fn line_up<'a>(records: &[Record], scratch: &'a mut [Lined]) -> Heap<'a, Lined>
    requires { length records.now ≤ length scratch.old }
    ensures held { IsPermutation (lined 0 records.now) (held result) }
    ensures heaped { Heaped sooner (held result) }
    ensures memory { Past (length records.now) scratch.old (memory result) }
    ensures named { result.slots.ghost_name ≡ scratch.entry.ghost_name }
{
    let mut heap = Heap::new(scratch);
    for (index, record) in records.iter().enumerate() {
        // There is room for every record.
        let _ = heap.push(Lined {
            record: *record,
            index,
        });
    }
    heap
}

// Places all the records by first-fit, up to one that fits no board.
pub(crate) fn first_fit<G: Gauge>(
    gauge: &G,
    header: &Header,
    records: &mut [Record],
    scratch: &mut [Lined],
) -> Result<(), Fault>
    requires few { length records.old ≤ most_duties }
    requires fits { length records.old ≤ length scratch.old }
    ensures records { records.new ≡ (first_fit (G.passed gauge.now) header.now.boards header.now.cycle records.old).0 }
    ensures answer { result ≡ placed_answer (first_fit (G.passed gauge.now) header.now.boards header.now.cycle records.old).1 }
    ensures scratch { Past (length records.old) scratch.old scratch.new }
{
    clear_boards(records);
    let mut heap = line_up(records, scratch);
    while let Some(next) = heap.pop() {
        place_one(gauge, header, records, next.index)?;
    }
    Ok(())
}
