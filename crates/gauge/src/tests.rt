// Lists with their verdicts.
use crate::gauges::Gauge;
use duty::{LONGEST, Letter, Timing};

// What density, slope and exact say.
fn verdicts(duties: &[Timing], cycle: u32) -> (bool, bool, bool) {
    (
        Letter::Density.passes(duties, cycle),
        Letter::Slope.passes(duties, cycle),
        Letter::Exact.passes(duties, cycle),
    )
}

const YES: (bool, bool, bool) = (true, true, true);

const NO: (bool, bool, bool) = (false, false, false);

#[test]
fn gauges_differ(rt: HostRuntime) {
    let duties = [
        Timing::new(2, 5, 10),
        Timing::new(3, 6, 12),
        Timing::new(2, 8, 20),
    ];
    assert_eq!(rt; verdicts(&duties[0..2], 120), YES);
    assert_eq!(rt; verdicts(&duties, 120), (false, false, true));
}

#[test]
fn one_full_duty(rt: HostRuntime) {
    assert_eq!(rt; verdicts(&[Timing::new(1, 1, 1)], 1), YES);
    assert_eq!(rt; verdicts(&[Timing::new(1, 1, 1); 2], 1), NO);
}

#[test]
fn limits(rt: HostRuntime) {
    let duties = [Timing::new(1, 100, 100); 65];
    assert_eq!(rt; verdicts(&duties[0..64], 100), YES);
    assert_eq!(rt; verdicts(&duties, 100), NO);
    assert_eq!(rt; verdicts(&duties[0..1], 150), NO);
    assert_eq!(rt; verdicts(&[Timing::new(0, 100, 100)], 100), NO);
    assert_eq!(rt; verdicts(&[Timing::new(101, 100, 100)], 100), NO);
}

#[test]
fn empty_list(rt: HostRuntime) {
    assert_eq!(rt; verdicts(&[], 0), NO);
    assert_eq!(rt; verdicts(&[], 1), YES);
    assert_eq!(rt; verdicts(&[], LONGEST), YES);
    assert_eq!(rt; verdicts(&[], LONGEST + 1), NO);
}
