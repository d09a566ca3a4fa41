// The header of a table or plan.
ghost use Rattle.std.specs.Prelude.{◌≤◌};
ghost use Rattle.duty.specs.Limits.{longest, most_boards, most_duties};

use super::letters::Letter;

mod calls;

// The gauge's letter, how many boards and duties there are, and the cycle, of which every spacing is
// a divisor. Always 1 to 16 boards, at most 64 duties and a cycle from 1 to 1,000,000.
#[derive(Clone, Copy)]
pub struct Header {
    letter: Letter,
    boards: u8,
    duties: u8,
    cycle: u32,
    ghost some_board: { 1 ≤ boards },
    ghost few_boards: { boards ≤ most_boards },
    ghost few_duties: { duties ≤ most_duties },
    ghost some_cycle: { 1 ≤ cycle },
    ghost short_cycle: { cycle ≤ longest },
}
