// Reads lines as the program `pendlist` does, and compares with what the list in stdin says. A row has what is
// expected of a line, a bar, and the line:
//     bad|LINE, c T B E M TTL|LINE, o ID LENGTH CLOCK|LINE, d ID CLOCK|LINE     what `parse_line` says
//     1 ..|LINE     what `run_line` makes of it as the first line of an input
//     2 ..|LINE     the same, after the line `c 2 2 10 16 100`
// where .. is `bad`, `open`, or a row of the table. The line may have any bytes but a newline.
#![tactic(auto)]

mod compare;

use compare::{same_outcome, same_reading};
use pendlist_calls::run_line;
use pendlist_lines::parse_line;
use pendlist_rows::Outcome;
use recorded::{BUFFER, Tally, read_full};

// The lengths of the areas of the program.
const WORDS: usize = 4096;

const BYTES: usize = 16384;

// A line as the first of an input.
fn run_first(line: &[u8]) -> Outcome {
    let mut words = [0u64; WORDS];
    let mut bytes = [0u8; BYTES];
    run_line(&mut words, &mut bytes, false, line)
}

// A line after `c`.
fn run_second(line: &[u8]) -> Outcome {
    let mut words = [0u64; WORDS];
    let mut bytes = [0u8; BYTES];
    run_line(&mut words, &mut bytes, false, b"c 2 2 10 16 100");
    run_line(&mut words, &mut bytes, true, line)
}

// Whether the line comes to what is expected.
fn same(expected: &[u8], line: &[u8]) -> bool {
    match expected.split_first() {
        None => false,
        Some((b'1', rest)) => same_outcome(run_first(line), rest),
        Some((b'2', rest)) => same_outcome(run_second(line), rest),
        Some(_) => same_reading(parse_line(line), expected),
    }
}

// A row is wrong where it has no bar.
fn same_row(row: &[u8]) -> bool {
    let mut parts = row.splitn(2, |byte| *byte == b'|');
    let (Some(expected), Some(line)) = (parts.next(), parts.next()) else {
        return false;
    };
    same(expected, line)
}

// Runs the rows of a text.
fn run_rows(rt: &impl Print, text: &[u8]) -> Tally {
    let mut tally = Tally::new();
    for row in text.split_inclusive(|byte| *byte == b'\n') {
        let row = row.strip_suffix(b"\n").unwrap_or(row);
        tally = tally.with_row(rt, same_row(row));
    }
    tally
}

// A right row, then rows that are wrong in the reading, in a number, in the TTL, in the outcome and in a row of the
// table, and one without a bar: a comparison that notices nothing would show.
fn run_wrong_rows(rt: &impl Print) {
    let tally = run_rows(
        rt,
        b"d 1 3|d 1 3\nbad|d 1 3\nd 1 4|d 1 3\nc 2 2 9 9 -|c 2 2 9 9 0\n1 open|o 1 6 0\n2 o 0 1 6 1 1|o 1 6 0\nbad\n",
    );
    tally.print(rt);
}

fn main(rt: HostRuntime) {
    run_wrong_rows(&rt);
    let mut buffer = [0u8; BUFFER];
    let n = read_full(&mut rt.reader(), &mut buffer);
    let tally = run_rows(&rt, &buffer[..n]);
    tally.print(&rt);
}
