// Moving within an area.
ghost use Rattle.std.specs.Prelude.{◌≡◌, ◌+◌, ◌-◌, ◌≤◌, ◌<◌, length};
ghost use Rattle.areas.specs.Overwrite.{moved};

use crate::copying::copy_to_front;

// The most bytes that are read before the first of them is written.
const BLOCK: usize = 2048;

// As many in a long area, where fewer are quicker: most of all where source and target lie a few bytes less than whole
// pages apart (docs/BENCHMARKS.md).
const SHORT_BLOCK: usize = 512;

// A longer area is a long one: the processor's own caches do not hold it.
const LONG_AREA: usize = 524288;

// Moves `len` elements within the area, however source and target overlap.
#[tactic(auto, using(crate::proofs::Moves::copied_within))]
pub fn move_within<T: Copy>(area: &mut [T], from: usize, to: usize, len: usize)
    requires { (from + len ≤ length area.old) × (to + len ≤ length area.old) }
    ensures { area.new ≡ moved from to len area.old }
{
    area.copy_within(from..from + len, to);
}

// Moves what stands behind the first `by` bytes of a part to its front: as many bytes as `block` holds. All are read
// before the first is written, so source and target may overlap; and of both copies, with a local array for `block`,
// the compiler makes one call of the C library's `memmove`, with no array, where the array is long (docs/DECISIONS.md).
#[tactic(auto, using(crate::proofs::Moves::block_moved))]
fn move_through(part: &mut [u8], by: usize, block: &mut [u8])
    requires { by + length block.old ≡ length part.old }
    ensures { part.new ≡ moved by 0 (length block.old) part.old }
{
    copy_to_front(block, &part[by..]);
    copy_to_front(part, block);
}

// How many bytes a move within an area of so many reads at once. Any number that an array holds would do, so none is
// promised.
fn block_in(area: usize) -> usize
    ensures { (0 < result) × (result ≤ 2048) }
{
    if area > LONG_AREA {
        return SHORT_BLOCK;
    }
    BLOCK
}

// Moves what stands behind the first `by` bytes of a part to its front: a block or less.
fn move_block(part: &mut [u8], by: usize)
    requires { (by ≤ length part.old) × (length part.old ≤ by + 2048) }
    ensures { part.new ≡ moved by 0 (length part.old - by) part.old }
{
    let mut block: [u8; BLOCK] = [0; BLOCK];
    let len = part.len() - by;
    move_through(part, by, &mut block[..len]);
}

// Moves `len` bytes to a lower place: from the front, so that a block is read before it is overwritten. To the same
// place nothing is copied, as bodies before the first gap may be many.
// No `copy_within`: a loop over elements, it takes twice as long (24,000 bytes in 1.7 us, by blocks in 0.7).
#[tactic(auto, using(crate::proofs::Moves::down))]
pub fn move_bytes_down(area: &mut [u8], from: usize, to: usize, len: usize)
    requires { (from + len ≤ length area.old) × (to ≤ from) }
    ensures { area.new ≡ moved from to len area.old }
{
    if to == from {
        return;
    }
    let block = block_in(area.len());
    for done in (0..len).step_by(block) {
        let end = from + done + block.min(len - done);
        move_block(&mut area[to + done..end], from - to);
    }
}
