// What a line of `pendlist` comes to, and its text in the table (document 01, "Cases").
#![tactic(auto)]

ghost use Rattle.std.specs.Prelude.{◌*◌, ◌≤◌, length};
ghost use Rattle.pendlist_rows.specs.Text.{number_text, numbers_text, row_text, outcome_text, Puts};

use itoa::Buffer;

// A row of the table.
#[derive(Clone, Copy, PartialEq, Eq)]
pub struct Row {
    // the letter itself, as it is printed: `o` or `d`
    pub call: u8,
    // of an offer 0 or the number, of a drain the bodies handed out
    pub answer: u64,
    // bodies held, and their bytes
    pub held: u64,
    pub bytes: u64,
    // both counters
    pub cached: u64,
    pub dropped: u64,
}

// What a line comes to.
#[derive(Clone, Copy, PartialEq, Eq)]
pub enum Outcome {
    // a cache is open now
    Opened,
    Told(Row),
    // the list ends
    Bad,
}

// Puts a blank and a number at the front of the room, and answers how many bytes they are.
#[tactic(auto, using(crate::proofs::Texts::number_put))]
fn put_number(out: &mut [u8], n: u64) -> usize
    requires { 21 ≤ length out.old }
    ensures { Puts (number_text n) 21 result out.new }
{
    let mut buffer = Buffer::new();
    let digits = buffer.format(n).as_bytes();
    let end = 1 + digits.len();
    out[0] = b' ';
    out[1..end].copy_from_slice(digits);
    end
}

// Puts numbers at the front of the room, a blank before each.
#[tactic(auto, using(crate::proofs::Texts::putting))]
fn put_numbers(out: &mut [u8], numbers: &[u64]) -> usize
    requires { 21 * length numbers.now ≤ length out.old }
    ensures { Puts (numbers_text numbers.now) (21 * length numbers.now) result out.new }
{
    let mut end = 0;
    for n in numbers {
        end += put_number(&mut out[end..], *n);
    }
    end
}

// Puts a row at the front of the room. It has at most 107 bytes: a letter, five times a blank and 20 digits, and a
// newline.
#[tactic(auto, using(crate::proofs::Texts::row_put))]
fn put_row(out: &mut [u8], row: Row) -> usize
    requires { 107 ≤ length out.old }
    ensures { Puts (row_text row) 107 result out.new }
{
    let numbers = [row.answer, row.held, row.bytes, row.cached, row.dropped];
    out[0] = row.call;
    let end = 1 + put_numbers(&mut out[1..], &numbers);
    out[end] = b'\n';
    end + 1
}

// Puts what a line came to at the front of the room, and answers how many bytes it is: a row, `bad`, or nothing.
pub fn put_outcome(out: &mut [u8], outcome: Outcome) -> usize
    requires { 107 ≤ length out.old }
    ensures { Puts (outcome_text outcome) 107 result out.new }
{
    match outcome {
        Outcome::Opened => 0,
        Outcome::Told(row) => put_row(out, row),
        Outcome::Bad => {
            out[..4].copy_from_slice(b"bad\n");
            4
        }
    }
}
