// The decimal numbers of a text.
ghost use Rattle.std.specs.Prelude.{◌≡◌, ◌<◌, ◌≤◌, length, take, IfSome};
ghost use Rattle.std.specs.List.{position};
ghost use Rattle.std.specs.Char.{is_ascii_digit};
ghost use Rattle.recorded.specs.Digits.{with_digit, value_of, digits_at_front};

// What is left of a text, to be read number by number.
#[derive(Clone, Copy)]
pub struct Numbers<'a> {
    pub rest: &'a [u8],
}

// The number with one more digit: 2^64 - 1 where it is larger.
#[tactic(auto, unfolding(crate::specs::Digits::with_digit))]
fn with_digit(value: u64, digit: u8) -> u64
    ensures { result ≡ with_digit value digit }
{
    value
        .saturating_mul(10)
        .saturating_add(digit.saturating_sub(b'0') as u64)
}

// The place of a text's first digit, if it has one.
fn first_digit(text: &[u8]) -> Option<usize>
    ensures place { result ≡ position is_ascii_digit text.now }
    ensures within { IfSome result (λ i. i < length text.now) }
{
    text.iter().position(|byte| byte.is_ascii_digit())
}

// The number that the digits at a text's front say, and how many digits these are.
// One pass over them: a recorded list is little else, and to find their end first takes half as long again.
#[tactic(auto, using(crate::proofs::DigitsRead::reading))]
fn leading_number(text: &[u8]) -> (u64, usize)
    ensures value { result.0 ≡ value_of (take (digits_at_front text.now) text.now) }
    ensures count { result.1 ≡ digits_at_front text.now }
    ensures within { result.1 ≤ length text.now }
{
    let mut value: u64 = 0;
    for (i, byte) in text.iter().enumerate() {
        if !byte.is_ascii_digit() {
            return (value, i);
        }
        value = with_digit(value, *byte);
    }
    (value, text.len())
}

impl Iterator for Numbers<'_> {
    ghost use Rattle.std.specs.Iterator.{at_most};
    ghost use Rattle.recorded.specs.Numbers.{GivesNumber};

    type Item = u64;

    ghost next_gives = { GivesNumber };

    ghost remaining = { λ numbers. at_most (length numbers.rest.now) };

    fn next(&mut self) -> Option<u64> {
        let from = &self.rest[first_digit(self.rest)?..];
        let (value, digits) = leading_number(from);
        self.rest = &from[digits..];
        Some(value)
    }
}
