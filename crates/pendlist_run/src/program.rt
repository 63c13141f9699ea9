// The program: reads, turns and writes.
ghost use Rattle.std.specs.Prelude.{◌≡◌, ◌≤◌, length, OnOk};
ghost use Rattle.std.specs.Io.KnownBytes.{Appends};
ghost use Rattle.pending_flows.specs.View.{areas_of};
ghost use Rattle.pendlist_run.specs.Program.{ReadsBehind, HandsRows, RunsInput, RunsProgram, header};

use pendlist_buffer::take_turn;
use std::io;
use std::io::{Read, Write};

// How the program ended.
#[derive(Clone, Copy)]
pub enum Ended {
    // the input ended, and every row is written
    Input,
    // the list ended with `bad`, and every row is written
    Bad,
    // a write failed, and no line was carried out behind it
    Write,
    // the input was read as often as it may be
    Reads,
}

// How often the input is read. A read that brings no byte is the last one, and no input has so many bytes.
const MOST_READS: u64 = u64::MAX;

// The lengths of the areas, from document 01.
const WORDS: usize = 4096;

const BYTES: usize = 16384;

// The bytes that are read at a time.
const BUFFER: usize = 4096;

// The bytes of a turn's rows: 107 for each byte of the buffer.
const ROWS: usize = 107 * BUFFER;

// Writes the rows of a turn.
fn write_rows<W: Write>(writer: &mut W, rows: &[u8]) -> io::Result<()>
    requires { HandsRows rows.now }
    ensures { OnOk result (Appends (W.contents writer.old) (W.contents writer.new) rows.now) }
{
    writer.write_all(rows)
}

// Writes the table's header.
fn write_header<W: Write>(writer: &mut W) -> io::Result<()>
    ensures { OnOk result (Appends (W.contents writer.old) (W.contents writer.new) header) }
{
    writer.write_all(b"call answer held bytes cached dropped\n")
}

// Reads more of the input behind the first bytes of the buffer, and answers how many bytes then stand in it: no more
// than before at the end of the input. A read that fails counts as the end.
// The whole buffer and a place, no part: what is promised is of the bytes that are kept too.
fn read_more<R: Read>(reader: &mut R, buffer: &mut [u8], kept: usize) -> usize
    requires { kept ≤ length buffer.old }
    ensures { ReadsBehind kept buffer.old (R.remaining reader.old) result buffer.new (R.remaining reader.new) }
{
    // no `unwrap_or`: tried, and that what was read stands behind the rest did not close
    match reader.read(&mut buffer[kept..]) {
        Ok(got) => kept + got,
        Err(_) => kept,
    }
}

// Carries out the list that a reader has turn by turn, and writes the rows of each turn before it reads again. A write
// that fails ends it.
fn run_input<R: Read, W: Write>(
    reader: &mut R,
    writer: &mut W,
    words: &mut [u64],
    bytes: &mut [u8],
    buffer: &mut [u8],
    out: &mut [u8],
) -> Ended
    requires { (length buffer.old ≡ 4096) × (length out.old ≡ 438272) }
    ensures { RunsInput (areas_of words.old bytes.old) (R.remaining reader.old) (W.contents writer.old) result
        (areas_of words.new bytes.new) (R.remaining reader.new) (W.contents writer.new) }
{
    let mut kept: usize = 0;
    let mut opened = false;
    for _ in 0..MOST_READS {
        let n = read_more(reader, buffer, kept);
        let turn = take_turn(words, bytes, &mut buffer[..n], kept, opened, out);
        if write_rows(writer, &out[..turn.done.filled]).is_err() {
            return Ended::Write;
        }
        if turn.done.bad {
            return Ended::Bad;
        }
        if n == kept {
            return Ended::Input;
        }
        kept = turn.kept;
        opened = turn.done.opened;
    }
    Ended::Reads
}

// Runs the program: writes the header, and carries out the list.
pub fn run<R: Read, W: Write>(reader: &mut R, writer: &mut W) -> Ended
    ensures { RunsProgram (R.remaining reader.old) (W.contents writer.old) result
        (R.remaining reader.new) (W.contents writer.new) }
{
    let mut words = [0; WORDS];
    let mut bytes = [0; BYTES];
    let mut buffer = [0; BUFFER];
    let mut out = [0; ROWS];
    if write_header(writer).is_err() {
        return Ended::Write;
    }
    run_input(
        reader,
        writer,
        &mut words,
        &mut bytes,
        &mut buffer,
        &mut out,
    )
}
