// The words of a line, and the number that a word says. Each word is found from the line's front: lines are short.
#![tactic(auto)]

ghost use Rattle.std.specs.Prelude.{◌≡◌, ◌+◌, length};
ghost use Rattle.pendlist_words.specs.Words.{words_of, word_at, number_of, is_byte};
ghost use Rattle.pendlist_words.specs.Digits.{with_digit};

// How many blanks the line has: it has one word more.
pub fn count_blanks(line: &[u8]) -> usize
    ensures { length (words_of line.now) ≡ result + 1 }
{
    line.iter().filter(|byte| **byte == b' ').count()
}

// Word k of the line, counted from 0; the empty word where there is none.
fn word_at(line: &[u8], k: usize) -> &[u8]
    ensures { result.now ≡ word_at k (words_of line.now) }
{
    line.split(|byte| *byte == b' ').nth(k).unwrap_or(&[])
}

// Whether a word is this one byte.
fn is_byte(word: &[u8], byte: u8) -> bool
    ensures { result ≡ is_byte byte word.now }
{
    word == [byte].as_slice()
}

// The number with one more digit, if the byte is a digit and the number is at most 2^64 - 1.
fn with_digit(value: u64, byte: u8) -> Option<u64>
    ensures { result ≡ with_digit value byte }
{
    if byte.is_ascii_digit() {
        value.checked_mul(10)?.checked_add((byte - b'0') as u64)
    } else {
        None
    }
}

// The number that a word says.
#[tactic(auto, using(crate::proofs::Digits::loop_rules))]
fn number_of(word: &[u8]) -> Option<u64>
    ensures { result ≡ number_of word.now }
{
    if word.is_empty() {
        return None;
    }
    let mut value = 0;
    for byte in word {
        value = with_digit(value, *byte)?;
    }
    Some(value)
}

// The number that word k says.
pub fn number_at(line: &[u8], k: usize) -> Option<u64>
    ensures { result ≡ number_of (word_at k (words_of line.now)) }
{
    number_of(word_at(line, k))
}

// Whether word k is this one byte.
pub fn word_is(line: &[u8], k: usize, byte: u8) -> bool
    ensures { result ≡ is_byte byte (word_at k (words_of line.now)) }
{
    is_byte(word_at(line, k), byte)
}
