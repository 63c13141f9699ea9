// One input line of the program `pendlist` (document 01, "Cases"): what it says, and which line may follow.
#![tactic(auto)]

ghost use Rattle.std.specs.Prelude.{◌≡◌};
ghost use Rattle.pendlist_lines.specs.Grammar.{words_of, is_command, from_words, line_of, in_order};

use pendlist_commands::{Command, drain_line, offer_line, open_line};
use pendlist_words::{count_blanks, word_is};

// The most bytes of a line.
pub const MAX_LINE: usize = 255;

// Whether the first word is this letter, with so many words behind it.
#[tactic(auto, unfolding(crate::specs::Grammar::is_command))]
fn is_command(line: &[u8], letter: u8, behind: usize) -> bool
    ensures { result ≡ is_command letter behind (words_of line.now) }
{
    word_is(line, 0, letter) && count_blanks(line) == behind
}

// What the words of a line say.
#[tactic(auto, unfolding(crate::specs::Grammar::from_words))]
fn parse_words(line: &[u8]) -> Option<Command>
    ensures { result ≡ from_words (words_of line.now) }
{
    if is_command(line, b'c', 5) {
        open_line(line)
    } else if is_command(line, b'o', 3) {
        offer_line(line)
    } else if is_command(line, b'd', 2) {
        drain_line(line)
    } else {
        None
    }
}

// What a line says, given without its newline, where it is not malformed.
#[tactic(auto, unfolding(crate::specs::Grammar::line_of))]
pub fn parse_line(line: &[u8]) -> Option<Command>
    ensures { result ≡ line_of line.now }
{
    if MAX_LINE < line.len() {
        return None;
    }
    parse_words(line)
}

// What is done with a line, given whether a cache is open.
pub fn in_order(opened: bool, line: Option<Command>) -> Option<Command>
    ensures { result ≡ in_order opened line }
{
    match line? {
        Command::Open(_) if !opened => line,
        Command::Offer(_) if opened => line,
        Command::Drain(_) if opened => line,
        _ => None,
    }
}
