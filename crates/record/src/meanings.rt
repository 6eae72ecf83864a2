// What the two record types mean.
ghost use Rattle.record.specs.Meanings.{MeaningOfTallies, MeaningOfScores};

// The tallies that are sound and the scores that are sound are those of docs/RECORDS.md.
pub fn meaning()
    ensures sound_tallies { MeaningOfTallies }
    ensures sound_scores { MeaningOfScores }
{}
