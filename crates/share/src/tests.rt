// Shares on examples.
use super::rounding::millionths;

#[test]
fn shares_of_counts(rt: HostRuntime) {
    let cases = [
        (1, 128, 7_813),
        (3, 4, 750_000),
        (1, 3, 333_333),
        (2, 3, 666_667),
        (1, 2_000_000, 1),
        (1, 2_000_001, 0),
        (1, 1, 1_000_000),
        (0, 7, 0),
    ];
    for (count, total, share) in cases {
        assert_eq!(rt; millionths(count, total), share);
    }
}
