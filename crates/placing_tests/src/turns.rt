// Which duty is taken when, and which board it goes to.
use crate::rows::{attempt, row, unused};

// Each duty fills a board, so the boards tell the turns: deadline 10 in line order, 20, and then 30.
#[test]
fn smaller_deadlines_first(rt: HostRuntime) {
    let mut records = [
        row(30, 30, 0),
        row(10, 10, 0),
        row(20, 20, 0),
        row(10, 10, 0),
        row(20, 20, 0),
        row(10, 10, 0),
    ];
    let after = [
        row(30, 30, 6),
        row(10, 10, 1),
        row(20, 20, 4),
        row(10, 10, 2),
        row(20, 20, 5),
        row(10, 10, 3),
    ];
    assert!(rt; attempt(16, 6, &mut records, &mut [unused(); 6]) == Some(Ok(())));
    assert!(rt; records == after);
}

// Shares 0.6, 0.5, 0.4 and 0.5: the second finds board 1 too full, the third fills it, the last fills board 2.
#[test]
fn lowest_board_with_room(rt: HostRuntime) {
    let mut records = [row(6, 10, 0), row(5, 10, 0), row(4, 10, 0), row(5, 10, 0)];
    let after = [row(6, 10, 1), row(5, 10, 2), row(4, 10, 1), row(5, 10, 2)];
    assert!(rt; attempt(3, 4, &mut records, &mut [unused(); 4]) == Some(Ok(())));
    assert!(rt; records == after);
}

// The boards that the rows held before say nothing.
#[test]
fn old_boards_are_forgotten(rt: HostRuntime) {
    let mut records = [row(5, 10, 16), row(5, 10, 2), row(5, 10, 1)];
    assert!(rt; attempt(2, 3, &mut records, &mut [unused(); 3]) == Some(Ok(())));
    assert!(rt; records == [row(5, 10, 1), row(5, 10, 1), row(5, 10, 2)]);
}

#[test]
fn no_duties(rt: HostRuntime) {
    let mut records = [row(5, 10, 7)];
    assert!(rt; attempt(1, 0, &mut records, &mut []) == Some(Ok(())));
    assert!(rt; records == [row(5, 10, 7)]);
}

// Four quarters fill a board.
#[test]
fn sixty_four_duties(rt: HostRuntime) {
    let mut records = [row(25, 100, 0); 64];
    assert!(rt; attempt(16, 64, &mut records, &mut [unused(); 64]) == Some(Ok(())));
    for (i, record) in records.iter().enumerate() {
        assert!(rt; record.board as usize == i / 4 + 1);
    }
}
