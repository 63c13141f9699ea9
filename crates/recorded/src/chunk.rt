// A text that is longer than the buffer: whole lines are used up, and what follows them moves to the front.
ghost use Rattle.std.specs.Prelude.{◌≡◌, ◌-◌, ◌≤◌, length, take, drop};
ghost use Rattle.std.specs.Io.KnownBytes.{Consumes};
ghost use Rattle.std.specs.List.{copy_within};
ghost use Rattle.recorded.specs.Parts.{RunsOnParts};

use pendlist_input::whole_lines;
use std::io::Read;

// The length of a buffer for a part of a text.
pub const BUFFER: usize = 65536;

// One read into the buffer, and how many bytes it brought. A read that fails brings none.
fn read_some<R: Read>(reader: &mut R, buffer: &mut [u8]) -> usize
    ensures within { result ≤ length buffer.old }
    ensures taken { Consumes (R.remaining reader.old) (R.remaining reader.new) (take result buffer.new) }
{
    reader.read(buffer).unwrap_or(0)
}

// Reads until the buffer is full, the text ends or a read fails, and answers how many bytes the buffer then has.
pub fn read_full<R: Read>(reader: &mut R, buffer: &mut [u8]) -> usize
    ensures within { result ≤ length buffer.old }
    ensures taken { Consumes (R.remaining reader.old) (R.remaining reader.new) (take result buffer.new) }
{
    let mut done: usize = 0;
    // no `for`: it goes on by what each read brings
    while done < buffer.len() {
        let n = read_some(reader, &mut buffer[done..]);
        done += n;
        if n == 0 {
            return done;
        }
    }
    done
}

// At most so many buffers are read.
pub const BUFFERS: usize = 65536;

// Reads the text into the buffer behind its first `kept` bytes, and answers how many bytes it then has.
// The whole buffer and a place, no part: what is promised is of the bytes that are kept too.
fn fill<R: Read>(reader: &mut R, buffer: &mut [u8], kept: usize) -> usize
    requires { kept ≤ length buffer.old }
    ensures within { (kept ≤ result) × (result ≤ length buffer.old) }
    ensures front { take kept buffer.new ≡ take kept buffer.old }
    ensures taken { Consumes (R.remaining reader.old) (R.remaining reader.new) (drop kept (take result buffer.new)) }
{
    let more = read_full(reader, &mut buffer[kept..]);
    kept + more
}

// Moves the bytes from `from` on to the front, and answers how many they are.
// The whole buffer and a place, no part: the bytes move out of it.
fn move_to_front(buffer: &mut [u8], from: usize) -> usize
    requires { from ≤ length buffer.old }
    ensures count { result ≡ length buffer.old - from }
    ensures moved { buffer.new ≡ copy_within buffer.old from (length buffer.old) 0 }
{
    buffer.copy_within(from.., 0);
    buffer.len() - from
}

// Runs the text a part at a time: whole lines, as many as a buffer holds. A line that has no newline, or no room in the
// buffer, ends it.
pub fn run_parts<R: Read, F: FnMut(&[u8])>(reader: &mut R, mut run: F)
    requires { F.IsAlwaysCallable run }
    ensures { RunsOnParts F.FnMut run (R.remaining reader.old) (R.remaining reader.new) }
{
    let mut buffer = [0u8; BUFFER];
    let mut kept: usize = 0;
    for _ in 0..BUFFERS {
        let n = fill(reader, &mut buffer, kept);
        let lines = whole_lines(&buffer[..n]);
        if lines == 0 {
            break;
        }
        run(&buffer[..lines]);
        kept = move_to_front(&mut buffer[..n], lines);
    }
}
