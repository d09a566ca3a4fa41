// A closed plan.
ghost use Rattle.std.specs.Prelude.{◌≡◌, ℕ, ◌<◌, ◌≤◌, true, length, get_or, take, slice_index_or};
ghost use Rattle.duty.specs.Demand.{demands};
ghost use Rattle.duty.specs.Records.{in_cycle};
ghost use Rattle.boards.specs.Lists.{on_board, no_record};

use duty::{Header, Record};
use gauge::Gauge;

mod calls;

// A plan that was closed under a gauge. It holds the borrow of its records, and nobody can write them
// while it exists. Always: its duties are duty records of its cycle, each on a board of the header, and for
// each board and every t the demand of the board's list up to t is at most t.
#[derive(Drop)]
pub struct ClosedPlan<'a, G: Gauge> {
    header: Header,
    gauge: G,
    records: &'a mut [Record],
    ghost enough: { header.duties ≤ length records.now },
    ghost duties: { (k : ℕ) → k < header.duties → in_cycle header.cycle (slice_index_or records.now k no_record) ≡ true },
    ghost placed: { (k : ℕ) → k < header.duties → 1 ≤ (get_or records.now k no_record).board },
    ghost known: { (k : ℕ) → k < header.duties → (get_or records.now k no_record).board ≤ header.boards },
    ghost kept: { (b t : ℕ) → 1 ≤ b → b ≤ header.boards → demands (on_board b (take header.duties records.now)) t ≤ t },
}
