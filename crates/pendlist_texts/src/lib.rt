// The lines of a text of `pendlist`, carried out one after the other, and their rows (document 01, "Cases").
#![tactic(auto)]

ghost use Rattle.std.specs.Prelude.{◌≡◌, ◌*◌, ◌≤◌, length};
ghost use Rattle.pending_flows.specs.View.{areas_of};
ghost use Rattle.pendlist_texts.specs.Lists.{is_bad, RunsText};

use pendlist_calls::run_line;
use pendlist_input::line_end;
use pendlist_rows::{Outcome, put_outcome};

// How far the lines of a text have come.
// Two flags, no enum: a list may end with `bad` before a cache is open and behind it.
#[derive(Clone, Copy)]
pub struct TextDone {
    // whether a cache is open
    pub opened: bool,
    // whether the list ended with `bad`
    pub bad: bool,
    // the bytes of their rows
    pub filled: usize,
}

fn is_bad(outcome: Outcome) -> bool
    ensures { result ≡ is_bad outcome }
{
    matches!(outcome, Outcome::Bad)
}

// Carries out the lines of a text and puts their rows into `out` from its front. A line takes a byte of the text or
// more, and its row has 107 bytes at most.
pub fn run_text(
    words: &mut [u64],
    bytes: &mut [u8],
    text: &[u8],
    opened: bool,
    out: &mut [u8],
) -> TextDone
    requires { (length text.now ≤ 4096) × (107 * length text.now ≤ length out.old) }
    ensures { RunsText opened text.now (areas_of words.old bytes.old) result
        (areas_of words.new bytes.new) out.new }
{
    let mut opened = opened;
    let mut filled: usize = 0;
    for row in text.split_inclusive(|byte| *byte == b'\n') {
        // no `strip_suffix`: what a line is, `line_end` promises
        let line = &row[..line_end(row)];
        let outcome = run_line(words, bytes, opened, line);
        filled += put_outcome(&mut out[filled..], outcome);
        if is_bad(outcome) {
            return TextDone {
                opened,
                bad: true,
                filled,
            };
        }
        opened = true;
    }
    TextDone {
        opened,
        bad: false,
        filled,
    }
}
