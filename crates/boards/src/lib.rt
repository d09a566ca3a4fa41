// The list of a board: the timings of its records, in the order of their lines.
#![tactic(auto)]

ghost use Rattle.std.specs.Prelude.{◌≡◌, ◌+◌, ◌<◌, ◌≤◌, ◌++◌, length, take, MatchOption};
ghost use Rattle.boards.specs.Lists.{on_board, board_passed};

use duty::{Header, Record, Timing};
use gauge::Gauge;

// How many records are looked at in one go: the compiler writes them out one after another, which
// is faster than a turn of a loop for each.
const BLOCK: usize = 16;

// Copies the timings of the board's records to `list` from place `from` on, and answers the place after
// the last; none where they are more than `list` has room for. (Why an array and a count: see `board_passes`.)
fn add(records: &[Record], board: u8, list: &mut [Timing], from: usize) -> Option<usize>
    requires { from ≤ length list.old }
    ensures { MatchOption result (length list.old < from + length (on_board board records.now)) (λ n. (n ≤ length list.old) × (take n list.new ≡ take from list.old ++ on_board board records.now)) }
{
    let mut n = from;
    for record in records {
        if record.board == board {
            if n == list.len() {
                return None;
            }
            list[n] = record.timing;
            n += 1;
        }
    }
    Some(n)
}

// Copies the list of the board to the front of `list`, and answers how many there are; none where
// they are more than `list` has room for.
fn collect(records: &[Record], board: u8, list: &mut [Timing]) -> Option<usize>
    ensures { MatchOption result (length list.old < length (on_board board records.now)) (λ n. (n ≤ length list.old) × (take n list.new ≡ on_board board records.now)) }
{
    let mut n = 0;
    let mut left = records;
    while let Some((block, rest)) = left.split_first_chunk::<BLOCK>() {
        n = add(block, board, list, n)?;
        left = rest;
    }
    add(left, board, list, n)
}

// Whether the board has at most 64 duties and its list passes the gauge.
pub fn board_passes<G: Gauge>(gauge: &G, records: &[Record], board: u8, cycle: u32) -> bool
    ensures { result ≡ board_passed (G.passed gauge.now) records.now board cycle }
{
    // An `ArrayVec` in place of the array and its count was tried: each list took longer.
    let mut list = [Timing::NONE; Header::MOST_RECORDS];
    match collect(records, board, &mut list) {
        Some(n) => gauge.passes(&list[..n], cycle),
        None => false,
    }
}
