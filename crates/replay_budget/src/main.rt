// Runs the budget on the list that `oracle record-budget` wrote, and compares: each row has a call with seven
// arguments, the Rust's answer (a number and three values) and the budget after it (seven words), as decimal numbers
//     call a1 .. a7 number x1 x2 x3 max_values max_payload used_values used_payload exceeded configured attempted
// oracle/README.md lists the calls.
#![tactic(auto)]

mod calls;
mod rows;

use budget_words::write_budget;
use calls::{Told, run_call};
use output_budget::DecodedOutputBudget;
use output_preflight::{FieldValues, PayloadBytes};
use recorded::{Numbers, Tally, run_parts};
use std::iter::Fuse;

// The rows run so far, and the budget that the next call goes on with.
#[derive(Clone, Copy)]
struct Replay {
    tally: Tally,
    budget: DecodedOutputBudget,
}

// The row that a text goes on with, if it has a number more: the next 19 numbers, over ends of lines too. Those that are
// missing at the text's end are 0.
fn read_row(numbers: &mut Fuse<Numbers<'_>>) -> Option<[u64; 19]> {
    let mut row = [0; 19];
    row[0] = numbers.next()?;
    for value in &mut row[1..] {
        *value = numbers.next().unwrap_or(0);
    }
    Some(row)
}

// Whether the answer and the budget after it are the recorded ones.
fn same(got: Told, budget: DecodedOutputBudget, row: &[u64; 19]) -> bool {
    let mut words = [0; 7];
    write_budget(budget, &mut words);
    u64::from(got.number) == row[8]
        && got.values.as_slice() == &row[9..12]
        && words.as_slice() == &row[12..]
}

// Makes a row's call, and answers whether all is as recorded.
fn run_row(row: &[u64; 19], budget: &mut DecodedOutputBudget) -> bool {
    let told = run_call(row, budget);
    same(told, *budget, row)
}

// Runs the rows of a text, and names those that differ.
fn run_rows(rt: &impl Print, text: &[u8], replay: &mut Replay) {
    // Fused: where no digit is left, each call would search the rest anew.
    let mut numbers = Numbers { rest: text }.fuse();
    // A bound for the proof that it ends: a row has a byte at least.
    for _ in 0..text.len() {
        let Some(row) = read_row(&mut numbers) else {
            break;
        };
        let same = run_row(&row, &mut replay.budget);
        replay.tally = replay.tally.with_row(rt, same);
    }
}

// An unused budget, and nothing counted.
fn begin() -> Replay {
    Replay {
        tally: Tally::new(),
        budget: DecodedOutputBudget::new(FieldValues(0), PayloadBytes(0)),
    }
}

// A right row, and rows that are wrong in the answer and in the budget: a comparison that notices nothing would show.
fn run_wrong_rows(rt: &impl Print) {
    let rows =
        b"0 5 5 0 0 0 0 0 0 0 0 0 5 5 0 0 0 0 0\n3 9 0 0 0 0 0 0 24 1 5 9 5 5 0 0 1 5 9\n3 1 1 0 0 0 0 0 0 0 0 0 5 5 1 0 1 5 9\n";
    let mut replay = begin();
    run_rows(rt, rows, &mut replay);
    replay.tally.print(rt);
}

fn main(rt: HostRuntime) {
    run_wrong_rows(&rt);
    let mut replay = begin();
    run_parts(&mut rt.reader(), |text| run_rows(&rt, text, &mut replay));
    replay.tally.print(&rt);
}
