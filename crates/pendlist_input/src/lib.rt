// The bytes that the program `pendlist` reads and offers: where a line of its input ends, and a body (document 01,
// "Cases").
#![tactic(auto)]

ghost use Rattle.std.specs.Prelude.{◌≡◌, ◌≤◌, length};
ghost use Rattle.pendlist_input.specs.Input.{first_line, whole_lines};
ghost use Rattle.pendlist_input.specs.Body.{ramp};

// Where the first line of a text ends: at its first newline, or at the text's end where there is none.
pub fn line_end(text: &[u8]) -> usize
    ensures { result ≡ length (first_line text.now) }
{
    text.iter()
        .position(|byte| *byte == b'\n')
        .unwrap_or(text.len())
}

// How many bytes of a text are whole lines, each with its newline: what follows them is a line that may go on.
// `match` and no `map_or`: that the sum fits is known of the place that was found.
pub fn whole_lines(text: &[u8]) -> usize
    ensures last { result ≡ whole_lines text.now }
    ensures within { result ≤ length text.now }
{
    match text.iter().rposition(|byte| *byte == b'\n') {
        Some(last) => last + 1,
        None => 0,
    }
}

// Byte i of a body becomes i modulo 256.
#[tactic(auto, using(crate::proofs::Ramp::filling))]
pub fn fill_body(body: &mut [u8])
    ensures { body.new ≡ ramp 0 (length body.old) }
{
    for (i, byte) in body.iter_mut().enumerate() {
        *byte = (i % 256) as u8;
    }
}
