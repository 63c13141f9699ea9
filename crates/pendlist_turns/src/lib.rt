// How far a turn of reading goes: which of the bytes that are there are carried out.
#![tactic(auto)]

ghost use Rattle.pendlist_turns.specs.Turns.{Ready};

use pendlist_input::whole_lines;
use pendlist_lines::MAX_LINE;

// How many of the bytes that are there are carried out, where `kept` of them were there before: the whole lines; all
// where no byte has come, since the input has ended, or where what follows the whole lines is too long for a line.
#[tactic(auto, using(crate::proofs::FrontReady::readiness))]
pub fn bytes_ready(there: &[u8], kept: usize) -> usize
    ensures { Ready there.now kept result }
{
    let n = there.len();
    if n == kept {
        return n;
    }
    let lines = whole_lines(there);
    if MAX_LINE < n - lines {
        return n;
    }
    lines
}
