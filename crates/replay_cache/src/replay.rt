// Rows run on the areas, one after another.
use super::compare::{Differs, compare, is_same};
use recorded::Tally;
use recorded_cache::{Answered, Call, Held, Offer, Offered, Row, read_row, run_call};

// The rows and lists run so far, and the lengths of the areas of the list that is open.
#[derive(Clone, Copy)]
pub struct Replay {
    pub tally: Tally,
    pub lists: u64,
    pub bytes: usize,
    pub words: usize,
}

// Nothing run, and nothing open.
pub fn begin() -> Replay {
    Replay {
        tally: Tally::new(),
        lists: 0,
        bytes: 0,
        words: 0,
    }
}

// What a row begins with: an opening says the lengths of the areas, every other call goes on with those of its list.
fn lent_for(row: Row<'_>, replay: Replay) -> Replay {
    if row.call != Some(Call::Open) {
        return replay;
    }
    Replay {
        lists: replay.lists.saturating_add(1),
        bytes: row.args[6] as usize,
        words: row.args[7] as usize,
        ..replay
    }
}

// Whether a row is an opening that was refused: it leaves the list before it open.
fn is_refused_opening(row: Row<'_>, got: Answered) -> bool {
    row.call == Some(Call::Open) && got.number != 0
}

// Counts the offers after a row: an accepted opening begins anew.
fn count_offers(offered: &mut Offered, row: Row<'_>, got: Answered) {
    match row.call {
        Some(Call::Open) if !is_refused_opening(row, got) => *offered = Offered::new(),
        Some(Call::Offer) => offered.push(Offer {
            len: row.args[1],
            clock: row.args[2],
        }),
        _ => {}
    }
}

// Makes the call of a row in the lent part of the areas.
fn run_lent(words: &mut [u64], bytes: &mut [u8], row: Row<'_>, lent: Replay, k: u64) -> Answered {
    let (words, _) = words.split_at_mut(lent.words.min(words.len()));
    let (bytes, _) = bytes.split_at_mut(lent.bytes.min(bytes.len()));
    run_call(words, bytes, row.call, row.args, k)
}

// Compares a row with the lent part of the areas.
fn compare_lent(held: Held<'_>, row: Row<'_>, got: Answered, lent: Replay) -> Result<(), Differs> {
    let (words, _) = held.words.split_at(lent.words.min(held.words.len()));
    let (bytes, _) = held.bytes.split_at(lent.bytes.min(held.bytes.len()));
    compare(
        Held {
            words,
            bytes,
            ..held
        },
        row,
        got,
    )
}

// Runs the row of a line.
fn run_row(
    rt: &impl Print,
    words: &mut [u64],
    bytes: &mut [u8],
    offered: &mut Offered,
    line: &[u8],
    before: Replay,
) -> Replay {
    let row = read_row(line);
    let lent = lent_for(row, before);
    let got = run_lent(words, bytes, row, lent, offered.made);
    count_offers(offered, row, got);
    let open = if is_refused_opening(row, got) {
        before
    } else {
        lent
    };
    let held = Held {
        words,
        bytes,
        offered,
    };
    let compared = compare_lent(held, row, got, open);
    Replay {
        tally: open.tally.with_row(rt, is_same(rt, compared)),
        ..open
    }
}

// Runs the rows of a text, a line each.
pub fn run_rows(
    rt: &impl Print,
    words: &mut [u64],
    bytes: &mut [u8],
    offered: &mut Offered,
    text: &[u8],
    replay: Replay,
) -> Replay {
    let mut replay = replay;
    for line in text.split_inclusive(|byte| *byte == b'\n') {
        replay = run_row(rt, words, bytes, offered, line, replay);
    }
    replay
}

// Prints how many lists and rows were run, and how many rows differ.
pub fn print_replay(rt: &impl Print, replay: Replay) {
    let _ = println!(rt; "lists: {}", replay.lists);
    let tally = replay.tally;
    tally.print(rt);
}
