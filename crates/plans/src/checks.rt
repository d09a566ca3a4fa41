// What closing a plan asks of its records.
ghost use Rattle.std.specs.Prelude.{◌≡◌, ◌<◌, length, IfSome};
ghost use Rattle.duty.specs.Heads.{head};
ghost use Rattle.plans.specs.Closing.{on_some, first_homeless, overfull_fault, close_fault};

use boards::board_passes;
use columns::check_records;
use duty::{Header, Record};
use fault::{Cause, Fault};
use gauge::Gauge;

fn is_on_some(row: &Record, boards: u8) -> bool
    ensures { result ≡ on_some boards row.now }
{
    (1..=boards).contains(&row.board)
}

// The first record that is on no board of the header.
#[tactic(auto, unfolding(duty::specs::Firsts::first_failing))]
fn first_homeless(records: &[Record], boards: u8) -> Option<usize>
    ensures answer { result ≡ first_homeless boards records.now }
    ensures within { IfSome result (λ i. i < length records.now) }
{
    records
        .iter()
        .position(|record| !is_on_some(record, boards))
}

// Whether the list of every board passes; the first that does not is refused.
#[tactic(auto, using(crate::proofs::Overfilling::overfull_next))]
fn check_boards<G: Gauge>(gauge: &G, header: &Header, records: &[Record]) -> Result<(), Fault>
    ensures { result ≡ overfull_fault (G.passed gauge.now) records.now header.now.cycle 1 header.now.boards }
{
    for b in 1..=header.boards() {
        if !board_passes(gauge, records, b, header.cycle()) {
            return Err(Fault::of_call(Cause::Overfull).at(b as usize, 0));
        }
    }
    Ok(())
}

// Why the plan cannot be closed, if so.
pub(crate) fn check_plan<G: Gauge>(
    gauge: &G,
    header: &Header,
    records: &[Record],
) -> Result<(), Fault>
    ensures { result ≡ close_fault (G.passed gauge.now) (head header.now) records.now }
{
    check_records(header, records)?;
    let rows = &records[..header.duties() as usize];
    if let Some(i) = first_homeless(rows, header.boards()) {
        return Err(Fault::of_call(Cause::NoSuchBoard).at(i + 2, 0));
    }
    check_boards(gauge, header, rows)
}
