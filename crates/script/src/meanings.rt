// What the three scripts mean.
ghost use Rattle.script.specs.Meanings.{MeaningOfByteText, MeaningOfCharacters, MeaningOfSigns};
ghost use Rattle.std.specs.Prelude.{◌≡◌, ◌↔◌};

use super::WordTriple;

// Of byte text, 16-bit characters and morpheme signs, the width and the spelling of each symbol are
// those of the table in docs/SCRIPTS.md.
pub fn meaning()
    ensures byte_text { MeaningOfByteText }
    ensures characters { MeaningOfCharacters }
    ensures signs { MeaningOfSigns }
{}

// Of a triple of words a clone is the same value, and never fails.
pub fn meaning_of_copies<'a, S: 'a>()
    ensures infallible { (words : _) → ⟦<WordTriple<'a, S> as Clone>⟧.is_infallible words }
    ensures copy { (words copy : _) → ⟦<WordTriple<'a, S> as Clone>⟧.is_clone words copy ↔ (copy ≡ words) }
{}
