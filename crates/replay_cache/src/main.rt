// Runs the cache on the list that `oracle record-cache` wrote, and compares after every call: the answer, the figures,
// and, where the row lists them, the templates by recency with their bodies and the handed-out bodies, byte for byte.
#![tactic(auto)]

mod compare;
mod replay;
mod wrong;

use recorded::run_parts;
use recorded_cache::Offered;
use replay::{begin, print_replay, run_rows};
use wrong::run_wrong_rows;

// The lent areas: no accepted limits of a list need more.
const WORDS: usize = 4096;

const BYTES: usize = 16384;

fn main(rt: HostRuntime) {
    run_wrong_rows(&rt);
    let mut words = [0u64; WORDS];
    let mut bytes = [0u8; BYTES];
    let mut offered = Offered::new();
    let mut replay = begin();
    run_parts(&mut rt.reader(), |text| {
        replay = run_rows(&rt, &mut words, &mut bytes, &mut offered, text, replay);
    });
    print_replay(&rt, replay);
}
