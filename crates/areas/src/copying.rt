// Copying into an area.
ghost use Rattle.std.specs.Prelude.{◌≡◌, ◌+◌, ◌≤◌, length};
ghost use Rattle.areas.specs.Overwrite.{overwritten, put_at};

// Copies all of `from` to the front of `to`.
#[tactic(auto, unfolding(crate::specs::Overwrite::overwritten))]
pub fn copy_to_front<T: Copy>(to: &mut [T], from: &[T])
    requires { length from.now ≤ length to.old }
    ensures { to.new ≡ overwritten to.old from.now }
{
    to[..from.len()].copy_from_slice(from);
}

// Writes elements from a place on, as a body at its own: into the part of the area that begins there.
#[tactic(auto, using(crate::proofs::Puts::range_written))]
pub fn write_at<T: Copy>(area: &mut [T], at: usize, from: &[T])
    requires { at + length from.now ≤ length area.old }
    ensures { area.new ≡ put_at at from.now area.old }
{
    let end = at + from.len();
    copy_to_front(&mut area[at..end], from);
}
