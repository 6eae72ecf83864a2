// Commands: what a line asks for.
//
// This crate knows the six commands as they stand in a line: a letter, and fields parted by tabs.
// It does not know what a command does, which words a list has, or what is answered.
// The rules stand in docs/LINES.md.
#![tactic(auto)]

ghost use Rattle.std.specs.Prelude.{◌≡◌, ℕ, ◌^◌, ◌<◌, ◌≤◌, ◌≢◌, [], ◌∷◌, length, IfSome, MatchOption, position};
ghost use Rattle.std.specs.Option.{option_map};
ghost use Rattle.command.specs.Fields.{is_tab, fields};
ghost use Rattle.command.specs.Numbers.{number_read, ReadsBack};
ghost use Rattle.command.specs.Commands.{seen, word_fields, pair_fields, count_fields, letter_asks, IsParsed};
ghost use Rattle.command.specs.Lines.{OneToOne};

use refusal::Refusal;
use script::WordTriple;

#[cfg(test)]
mod tests;

// The most bytes that a line has, without its line feed.
const LINE_BYTES: usize = 127;

// The largest relation and the largest count.
const LAST_RELATION: u32 = 255;

const LAST_COUNT: u32 = 4_294_967_295;

// A command, with its words as they stand in the line.
#[derive(Clone, Copy, PartialEq, Eq, Debug)]
pub enum Command<'a> {
    // Enters X and Y, and their triple with the count.
    Add {
        words: WordTriple<'a, u8>,
        count: u32,
    },
    // Enters the triple of words that the list has, with the count.
    Tie {
        words: WordTriple<'a, u8>,
        count: u32,
    },
    // Takes the triple out.
    Delete(WordTriple<'a, u8>),
    // Asks for the triple's words and count.
    Find(WordTriple<'a, u8>),
    // Asks for the triple's share.
    Share(WordTriple<'a, u8>),
    // Asks for what X is related to.
    List {
        x: &'a [u8],
        relation: u8,
    },
}

// Where the first tab stands.
fn first_tab(text: &[u8]) -> Option<usize>
    ensures { result ≡ position is_tab text.now }
{
    text.iter().position(|byte| *byte == b'\t')
}

// The first field and the rest after its tab; none where there is no tab.
#[tactic(auto, using(crate::proofs::Cuts::fields_none, crate::proofs::Cuts::fields_at))]
fn cut_field(text: &[u8]) -> Option<(&[u8], &[u8])>
    ensures { MatchOption result (fields text.now ≡ text.now ∷ []) (λ p. fields text.now ≡ p.0.now ∷ fields p.1.now) }
{
    let tab = first_tab(text)?;
    Some((&text[..tab], &text[tab + 1..]))
}

// The fields where there are just two.
#[tactic(auto, using(crate::proofs::Cuts::fields_some))]
fn two(text: &[u8]) -> Option<(&[u8], &[u8])>
    ensures { MatchOption result (length (fields text.now) ≢ 2) (λ p. fields text.now ≡ p.0.now ∷ p.1.now ∷ []) }
{
    let (first, second) = cut_field(text)?;
    cut_field(second).is_none().then_some((first, second))
}

// The fields where there are just three.
fn three(text: &[u8]) -> Option<(&[u8], &[u8], &[u8])>
    ensures { MatchOption result (length (fields text.now) ≢ 3)
        (λ p. fields text.now ≡ p.0.now ∷ p.1.now ∷ p.2.now ∷ []) }
{
    let (first, rest) = cut_field(text)?;
    let (second, third) = two(rest)?;
    Some((first, second, third))
}

// The fields where there are just four. One function of as many fields as its type says would hand out
// an array of slices, of which a contract names each by its place, and be no plainer.
fn four(text: &[u8]) -> Option<(&[u8], &[u8], &[u8], &[u8])>
    ensures { let all = fields text.now in
        MatchOption result (length all ≢ 4) (λ p. all ≡ p.0.now ∷ p.1.now ∷ p.2.now ∷ p.3.now ∷ []) }
{
    let (first, rest) = cut_field(text)?;
    let (second, third, fourth) = three(rest)?;
    Some((first, second, third, fourth))
}

// The number that decimal digits with no leading zero write, where it is at most the limit.
fn number_read(digits: &[u8], limit: u32) -> Option<u32>
    ensures value { result ≡ number_read limit digits.now }
    ensures bound { IfSome result (λ n. n ≤ limit) }
{
    if let [] | [b'0', _, ..] = digits {
        return None;
    }
    // A loop: a fold would hold the same two tests and the same sum in a closure. The library's reading
    // of numbers takes a sign and leading zeros, which a line may not have.
    let mut n = 0u64;
    for digit in digits {
        if !digit.is_ascii_digit() {
            return None;
        }
        n = 10 * n + (*digit - b'0') as u64;
        if n > limit as u64 {
            return None;
        }
    }
    Some(n as u32)
}

// A relation of 0 to 255.
fn relation_in(digits: &[u8]) -> Option<u8>
    ensures { result ≡ number_read 255 digits.now }
{
    let n = number_read(digits, LAST_RELATION)?;
    Some(n as u8)
}

// The fields of L: X and the relation.
fn word_fields(rest: &[u8]) -> Option<(&[u8], u8)>
    ensures { option_map (λ p. (p.0.now, p.1)) result ≡ word_fields (fields rest.now) }
{
    let (x, digits) = two(rest)?;
    let relation = relation_in(digits)?;
    Some((x, relation))
}

// The fields of D, F and S: X, Y and the relation.
fn triple_fields(rest: &[u8]) -> Option<(&[u8], &[u8], u8)>
    ensures { option_map (λ p. (p.0.now, p.1.now, p.2)) result ≡ pair_fields (fields rest.now) }
{
    let (x, y, digits) = three(rest)?;
    let relation = relation_in(digits)?;
    Some((x, y, relation))
}

// The fields of A and T: X, Y, the relation and the count.
fn count_fields(rest: &[u8]) -> Option<(&[u8], &[u8], u8, u32)>
    ensures { option_map (λ p. (p.0.now, p.1.now, p.2, p.3)) result ≡ count_fields (fields rest.now) }
{
    let (x, y, digits, more) = four(rest)?;
    let relation = relation_in(digits)?;
    let count = number_read(more, LAST_COUNT)?;
    Some((x, y, relation, count))
}

// What a letter with its fields asks for. The words are put together where the command is, since each move
// of a triple that is put together costs as much as reading a field.
fn letter_asks(letter: char, rest: &[u8]) -> Option<Command<'_>>
    ensures { option_map seen result ≡ letter_asks letter (fields rest.now) }
{
    match letter {
        'A' => {
            let (x, y, relation, count) = count_fields(rest)?;
            let words = WordTriple { x, relation, y };
            Some(Command::Add { words, count })
        }
        'T' => {
            let (x, y, relation, count) = count_fields(rest)?;
            let words = WordTriple { x, relation, y };
            Some(Command::Tie { words, count })
        }
        'D' => {
            let (x, y, relation) = triple_fields(rest)?;
            Some(Command::Delete(WordTriple { x, relation, y }))
        }
        'F' => {
            let (x, y, relation) = triple_fields(rest)?;
            Some(Command::Find(WordTriple { x, relation, y }))
        }
        'S' => {
            let (x, y, relation) = triple_fields(rest)?;
            Some(Command::Share(WordTriple { x, relation, y }))
        }
        'L' => {
            let (x, relation) = word_fields(rest)?;
            Some(Command::List { x, relation })
        }
        _ => None,
    }
}

// The command that a line is, without its line feed. Any other line, and any line of more than 127
// bytes, is refused. A line is a command just where it is the text of that command, and digits are a
// number just where they are its decimal text.
#[tactic(auto, using(crate::proofs::Belong::one_to_one, crate::proofs::Lines::line_long, crate::proofs::Lines::line_asks))]
pub fn parse(line: &[u8]) -> Result<Command<'_>, Refusal>
    ensures command { IsParsed line.now result }
    ensures lines { OneToOne }
    ensures numbers { (limit : ℕ) → limit < 2 ^ 64 → ReadsBack limit }
{
    if line.len() > LINE_BYTES {
        return Err(Refusal::MalformedLine);
    }
    let [letter, b'\t', rest @ ..] = line else {
        return Err(Refusal::MalformedLine);
    };
    letter_asks(char::from(*letter), rest).ok_or(Refusal::MalformedLine)
}
