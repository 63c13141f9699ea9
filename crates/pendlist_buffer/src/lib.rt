// A turn: what is done with the bytes that a read brought.
#![tactic(auto)]

ghost use Rattle.std.specs.Prelude.{◌≡◌, ◌≤◌, length};
ghost use Rattle.pending_flows.specs.View.{areas_of};
ghost use Rattle.pendlist_buffer.specs.Buffer.{TakesTurn};

use pendlist_texts::{TextDone, run_text};
use pendlist_turns::bytes_ready;

// What a turn leaves.
#[derive(Clone, Copy)]
pub struct Turn {
    // the bytes at the front: a line that may go on
    pub kept: usize,
    // how far the lines came
    pub done: TextDone,
}

// Carries out what is ready of the bytes that are there, of which `kept` were there before, puts the rows into `out`
// from its front, and brings the bytes that are left to their front.
pub fn take_turn(
    words: &mut [u64],
    bytes: &mut [u8],
    there: &mut [u8],
    kept: usize,
    opened: bool,
    out: &mut [u8],
) -> Turn
    requires { (length there.old ≤ 4096) × (length out.old ≡ 438272) }
    ensures { TakesTurn there.old kept opened (areas_of words.old bytes.old) result
        (areas_of words.new bytes.new) there.new out.new }
{
    let ready = bytes_ready(there, kept);
    let done = run_text(words, bytes, &there[..ready], opened, out);
    let left = there.len() - ready;
    there.copy_within(ready.., 0);
    Turn { kept: left, done }
}
