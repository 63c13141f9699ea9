// Runs the preflight on the list that `oracle record-framing` wrote, and compares: each row has its arguments and the
// Rust's answer, as decimal numbers
//     reading max_records n w1 .. wn m b1 .. bm number values payload remainder
// with reading 0 (v9 fixed), 1 (IPFIX fixed) or 2 (IPFIX variable), and 0 for what a refusal does not give.
#![tactic(auto)]

ghost use Rattle.std.specs.Prelude.{◌≡◌};
ghost use Rattle.replay_preflight.specs.Same.{same_figures};

use output_preflight::{Figures, preflight};
use recorded::{Numbers, Tally, run_parts};
use std::iter::Fuse;
use wire::Reading;

// The reading with a number of the list. No `TryFrom`: neither type is of this crate, and `wire` knows no list.
fn reading_of(n: u64) -> Reading {
    match n {
        0 => Reading::V9Fixed,
        1 => Reading::IpfixFixed,
        _ => Reading::IpfixVariable,
    }
}

// Whether two answers are the same, figure by figure.
#[tactic(auto, unfolding(crate::specs::Same::same_figures))]
fn same_figures(a: Figures, b: Figures) -> bool
    ensures { result ≡ same_figures a b }
{
    a == b
}

// The next number of a text, or 0 where none is left.
fn next_number(numbers: &mut Fuse<Numbers<'_>>) -> u64 {
    numbers.next().unwrap_or(0)
}

// What a row with more widths or bytes than there is room for answers, in place of a call: no refusal has this number.
const NO_ROOM: Figures = Figures {
    number: 255,
    values: 0,
    payload: 0,
    remainder: 0,
};

// Runs the row that a text goes on with, if it has a number more, over ends of lines too, and answers whether it is as
// recorded. Of more widths or bytes than there is room for, those that fit are read, and the row goes on behind them.
fn run_row(numbers: &mut Fuse<Numbers<'_>>, widths: &mut [u16], body: &mut [u8]) -> Option<bool> {
    let reading = reading_of(numbers.next()?);
    let limit = next_number(numbers) as usize;
    let fields = next_number(numbers) as usize;
    for width in widths.iter_mut().take(fields) {
        *width = (next_number(numbers) % 65536) as u16;
    }
    let body_len = next_number(numbers) as usize;
    for byte in body.iter_mut().take(body_len) {
        *byte = (next_number(numbers) % 256) as u8;
    }
    let recorded = Figures {
        number: next_number(numbers),
        values: next_number(numbers),
        payload: next_number(numbers),
        remainder: next_number(numbers),
    };
    let got = match (widths.get(..fields), body.get(..body_len)) {
        (Some(widths), Some(body)) => Figures::from(preflight(body, widths, reading, limit)),
        _ => NO_ROOM,
    };
    Some(same_figures(got, recorded))
}

// Runs the rows of a text, and names those that differ.
fn run_rows(rt: &impl Print, text: &[u8], mut tally: Tally) -> Tally {
    let mut widths = [0u16; 1024];
    let mut body = [0u8; 1024];
    // Fused: where no digit is left, each call would search the rest anew.
    let mut numbers = Numbers { rest: text }.fuse();
    // A bound for the proof that it ends: a row has a byte at least.
    for _ in 0..text.len() {
        let Some(same) = run_row(&mut numbers, &mut widths, &mut body) else {
            break;
        };
        tally = tally.with_row(rt, same);
    }
    tally
}

// A right row, and one that is wrong in each figure: a comparison that notices nothing would show here.
fn run_wrong_rows(rt: &impl Print) {
    let rows =
        b"0 9 1 1 1 5 0 1 1 0\n0 9 1 1 1 5 7 1 1 0\n0 9 1 1 1 5 0 2 1 0\n0 9 1 1 1 5 0 1 2 0\n0 9 1 1 1 5 0 1 1 1\n";
    run_rows(rt, rows, Tally::new()).print(rt);
}

fn main(rt: HostRuntime) {
    run_wrong_rows(&rt);
    let mut tally = Tally::new();
    run_parts(&mut rt.reader(), |text| tally = run_rows(&rt, text, tally));
    tally.print(&rt);
}
