// What the words behind the first word of a line of `pendlist` say (document 01, "Cases").
#![tactic(auto)]

ghost use Rattle.std.specs.Prelude.{◌≡◌};
ghost use Rattle.pendlist_words.specs.Words.{words_of, word_at};
ghost use Rattle.pendlist_commands.specs.Commands.{ttl_of, small_of, open_of, offer_of, drain_of};

use config::PendingFlowsConfig;
use pendlist_words::{number_at, word_is};

// `o id length clock`: a body of that length is offered to the template.
#[derive(Clone, Copy, PartialEq, Eq)]
pub struct OfferLine {
    pub id: u16,
    pub len: u16,
    pub clock: u64,
}

// `d id clock`: the template is drained.
#[derive(Clone, Copy, PartialEq, Eq)]
pub struct DrainLine {
    pub id: u16,
    pub clock: u64,
}

// What a line that is not malformed asks for: a cache is opened, a body offered, or a template drained.
#[derive(Clone, Copy, PartialEq, Eq)]
pub enum Command {
    // `c` with five limits
    Open(PendingFlowsConfig),
    Offer(OfferLine),
    Drain(DrainLine),
}

// Word k as a TTL: `-` is none.
#[tactic(auto, unfolding(crate::specs::Commands::ttl_of))]
fn ttl_at(line: &[u8], k: usize) -> Option<Option<u64>>
    ensures { result ≡ ttl_of (word_at k (words_of line.now)) }
{
    if word_is(line, k, b'-') {
        return Some(None);
    }
    Some(Some(number_at(line, k)?))
}

// Word k as an id or a length.
#[tactic(auto, unfolding(crate::specs::Commands::small_of, crate::specs::Commands::within16))]
fn small_at(line: &[u8], k: usize) -> Option<u16>
    ensures { result ≡ small_of (word_at k (words_of line.now)) }
{
    u16::try_from(number_at(line, k)?).ok()
}

// The limits in the five words behind `c`.
#[tactic(auto, unfolding(crate::specs::Commands::open_of))]
pub fn open_line(line: &[u8]) -> Option<Command>
    ensures { result ≡ open_of (words_of line.now) }
{
    Some(Command::Open(PendingFlowsConfig {
        max_pending_flows: number_at(line, 1)? as usize,
        max_entries_per_template: number_at(line, 2)? as usize,
        max_entry_size_bytes: number_at(line, 3)? as usize,
        max_total_bytes: number_at(line, 4)? as usize,
        ttl: ttl_at(line, 5)?,
    }))
}

// The three words behind `o`.
#[tactic(auto, using(crate::proofs::Small::offer_by_words))]
pub fn offer_line(line: &[u8]) -> Option<Command>
    ensures { result ≡ offer_of (words_of line.now) }
{
    Some(Command::Offer(OfferLine {
        id: small_at(line, 1)?,
        len: small_at(line, 2)?,
        clock: number_at(line, 3)?,
    }))
}

// The two words behind `d`.
#[tactic(auto, using(crate::proofs::Small::drain_by_words))]
pub fn drain_line(line: &[u8]) -> Option<Command>
    ensures { result ≡ drain_of (words_of line.now) }
{
    Some(Command::Drain(DrainLine {
        id: small_at(line, 1)?,
        clock: number_at(line, 2)?,
    }))
}
