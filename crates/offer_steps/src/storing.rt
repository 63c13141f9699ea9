// Room for a body behind the others, and the body in it.
ghost use Rattle.std.specs.Prelude.{◌+◌, ◌*◌, ◌≤◌, ◌<◌, length};
ghost use Rattle.config.specs.Limits.{entry_words};
ghost use Rattle.table.specs.Layout.{entries_at};
ghost use Rattle.table.specs.Parts.{templates_of};
ghost use Rattle.table_entries.specs.Pack.{HoldsEntries};
ghost use Rattle.offer_steps.specs.Room.{MakesRoom, entry_of, StoresBody, RoomFor, AddsBody};
ghost use Rattle.offer_steps.specs.Room.{ChoosesLabel};

use areas::write_at;
use config::{ENTRY_WORDS, HEADER_WORDS, PendingFlowsConfig, RECORD_WORDS};
use pending_calls::Removed;
use table::{Entry, TemplateRecord, entries_in, records_at};
use table_entries::{last_end, pack_bodies, put_entry};
use table_promotion::add_record;
use table_records::free_label;

// Where a body of this length goes: behind the last one, or, where it would end past `most` there, behind them all
// once they are moved together.
// The words and how many entries, no parts: `as_chunks_mut` says nothing of what the words end as.
fn make_room(words: &mut [u64], bytes: &mut [u8], entries: usize, len: usize, most: usize) -> usize
    requires entries_in_bounds { HoldsEntries entries words.old most }
    requires len_le_most { (len ≤ most) × ((most ≤ length bytes.old) × (most ≤ 67108864)) }
    ensures { MakesRoom entries len most words.old bytes.old words.new
        bytes.new result }
{
    let known = entries_in(words, entries);
    let end = last_end(known) as usize;
    if end + len <= most {
        return end;
    }
    pack_bodies(words, bytes, entries)
}

// Stores a body's entry behind the others, and its bytes at their place.
// The words and how many entries, no parts: `as_chunks_mut` says nothing of what the words end as.
fn store_body(
    words: &mut [u64],
    bytes: &mut [u8],
    entries: usize,
    label: u64,
    place: usize,
    body: &[u8],
    clock: u64,
)
    requires { (entries_at + entry_words * (entries + 1) ≤ length words.old) × (place + length body.now ≤ length
        bytes.old) }
    ensures { StoresBody entries (entry_of label place body.now clock) body.now words.old
        bytes.old words.new bytes.new }
{
    let entry = Entry {
        label,
        place: place as u64,
        len: body.len() as u64,
        clock,
    };
    put_entry(words, HEADER_WORDS + ENTRY_WORDS * entries, entry);
    write_at(bytes, place, body);
}

// The label of the id's template, or, where it has none, one that no record has.
#[tactic(auto, using(crate::proofs::Additions::label_kept, crate::proofs::Additions::label_free))]
pub fn choose_label(records: &[[u64; RECORD_WORDS]], label: Option<u64>) -> u64
    requires { length records.now < 1024 }
    ensures { ChoosesLabel label (templates_of records.now) result }
{
    label.unwrap_or_else(|| free_label(records))
}

// Puts a body behind the others, and its template's record behind the others, where a removal left room for both.
// The words, no parts: `as_chunks_mut` says nothing of what the words end as.
pub fn add_body(
    words: &mut [u64],
    bytes: &mut [u8],
    limits: PendingFlowsConfig,
    left: Removed,
    label: u64,
    id: u64,
    body: &[u8],
    clock: u64,
)
    requires { RoomFor limits left.records left.entries (length body.now) words.old bytes.old }
    ensures { AddsBody limits left.records left.entries (record { key = id; label = label; count = left.apart + 1 })
        body.now clock words.old bytes.old words.new bytes.new }
{
    let place = make_room(
        words,
        bytes,
        left.entries,
        body.len(),
        limits.max_total_bytes,
    );
    store_body(words, bytes, left.entries, label, place, body, clock);
    let template = TemplateRecord {
        key: id,
        label,
        count: (left.apart as u64) + 1,
    };
    add_record(words, records_at(limits), left.records, template);
}
