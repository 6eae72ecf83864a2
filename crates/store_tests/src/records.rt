// Records at their limits.
use record::{Record, Score, Tally};

#[test]
fn tallies_at_their_limits(rt: HostRuntime) {
    let cases = [
        (0, false),
        (1, true),
        (1_000_000_000, true),
        (1_000_000_001, false),
    ];
    for (count, sound) in cases {
        assert_eq!(rt; Tally { count }.is_sound(), sound);
    }
}

#[test]
fn scores_at_their_limits(rt: HostRuntime) {
    let nan = f64::NAN;
    let cases = [
        (Score::Chance(0.0), true),
        (Score::Chance(1.0), true),
        (Score::Chance(1.5), false),
        (Score::Chance(-0.5), false),
        (Score::Chance(nan), false),
        (Score::Cost(1_000_000.0), true),
        (Score::Cost(1_000_000.5), false),
        (Score::Cost(nan), false),
        (Score::Band(0.25, 0.75), true),
        (Score::Band(0.75, 0.25), false),
        (Score::Band(0.25, nan), false),
        (Score::Band(nan, 0.25), false),
    ];
    for (score, sound) in cases {
        assert_eq!(rt; score.is_sound(), sound);
    }
}
