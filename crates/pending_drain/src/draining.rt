// Draining a template.
// Both areas are given, also where the words alone are read: what is asked is that the two hold a cache. They are two
// parameters, as some calls change the words alone.
ghost use Rattle.std.specs.Prelude.{◌≡◌, true, ◌+◌, ◌*◌, ◌≤◌, ◌<◌, length};
ghost use Rattle.config.specs.Limits.{record_words};
ghost use Rattle.table.specs.Layout.{entries_at, records_at};
ghost use Rattle.table.specs.Table.{table_of, entries_from, records_from, index_from};
ghost use Rattle.table.specs.Parts.{templates_of};
ghost use Rattle.table.specs.Reads.{label_of, label_or_none, count_of, live_count};
ghost use Rattle.table.specs.WellFormed.{index_rises};
ghost use Rattle.cache_model.specs.Cache.{count};
ghost use Rattle.cache_model.specs.Calls.{drained};
ghost use Rattle.pending_flows.specs.Header.{HoldsCache};
ghost use Rattle.pending_flows.specs.View.{areas_of, cache_of};
ghost use Rattle.pending_calls.specs.Promises.{Does};
ghost use Rattle.pending_drain.specs.Handing.{NothingGoes, TakesOut, HandsOut};
ghost use Rattle.pending_drain.specs.Promises.{Drains};

use config::RECORD_WORDS;
use pending_calls::{Removed, label_test, raised, remove_none, remove_whole};
use pending_flows::{Header, HeaderFigures, handed_count};
use table::{
    Damaged, LABELS, TemplateRecord, count_of, label_number, label_of, live_figures, records_at,
};
use table_promotion::add_record;
use table_records::skip_records;
use template_removal::remove_expired_of;

// Whether it is certain that no body goes: nothing is handed out, and as many bodies of the id are live as its record
// counts.
#[tactic(auto, using(crate::proofs::NoneTaken::as_counted))]
fn nothing_goes(held: &[[u64; RECORD_WORDS]], figures: HeaderFigures, id: u64, live: usize) -> bool
    ensures { result ≡ true → NothingGoes figures.chance (count_of id (templates_of held.now)) live }
{
    if 0 < figures.chance {
        return false;
    }
    let bodies = count_of(held, id);
    bodies == (live as u64)
}

// Removes what is handed out already, the expired bodies of a label and the label's record; its other bodies, so many
// as are live, stay. No entry is moved where nothing goes.
fn take_label(
    words: &mut [u64],
    bytes: &[u8],
    header: Header,
    id: u64,
    clock: u64,
    label: Option<u64>,
    live: usize,
) -> Removed
    requires header_value { HoldsCache header words.old (length bytes.now) }
    requires label_value { label ≡ label_of id (records_from words.old (records_at header.limits)
        header.figures.templates) }
    requires live_value { live ≡ live_count header.limits.ttl clock (label_or_none label) (entries_from words.old
        entries_at header.figures.entries) }
    ensures { TakesOut header clock (label_or_none label) words.old words.new result }
{
    let Header { limits, figures } = header;
    let (held, handed) = header.templates(words);
    if nothing_goes(held, figures, id, live) {
        return remove_none(words, bytes, header, label);
    }
    let number = label_number(label);
    if figures.chance == 0 {
        return remove_expired_of(words, bytes, header, clock, number);
    }
    let mut skip = [0u32; LABELS];
    skip_records(handed, &mut skip);
    let test = label_test(limits.ttl, clock, number);
    remove_whole(words, bytes, header, test, &mut skip, label, Some(live))
}

// Adds the record of what is handed out behind the held ones, if there is a body; whether there is, as the header
// says it.
// The words and a place, no parts: `as_chunks_mut` says nothing of what the words end as.
#[tactic(auto, using(crate::proofs::Handing::nothing_handed, crate::proofs::Handing::some_handed))]
fn hand_out(words: &mut [u64], from: usize, records: usize, template: TemplateRecord) -> u64
    requires records_in_bounds { 0 < template.count → from + record_words * (records + 1) ≤ length words.old }
    requires records_value { index_rises (records_from words.old from records) 0 (index_from words.old from records) ≡ true }
    ensures { HandsOut from records template words.old words.new result }
{
    if template.count == 0 {
        return 0;
    }
    add_record(words, from, records, template);
    1
}

// Drains an id of a well-formed cache; answers how many bodies are handed out.
fn drain_cache(words: &mut [u64], bytes: &[u8], header: Header, id: u16, clock: u64) -> usize
    requires { HoldsCache header words.old (length bytes.now) }
    ensures { Does (drained id clock) (cache_of (table_of words.old) bytes.now)
        (areas_of words.old bytes.now) (count result)
        (areas_of words.new bytes.now) }
{
    let Header { limits, figures } = header;
    let key = id as u64;
    let handed = handed_count(words, bytes, limits);
    let from = records_at(limits);
    let (held, _) = header.templates(words);
    let label = label_of(held, key);
    let number = label_number(label);
    let known = header.entries(words);
    let live = live_figures(known, number, limits.ttl, clock);
    let removed = take_label(words, bytes, header, key, clock, label, live.bodies);
    let template = TemplateRecord {
        key,
        label: number,
        count: removed.apart as u64,
    };
    let chance = hand_out(words, from, removed.records, template);
    let entries = removed.entries as u64;
    let drops = figures.entries - handed - entries;
    let total = removed.bytes - live.bytes;
    let after = HeaderFigures {
        cached: figures.cached,
        dropped: raised(figures.dropped, drops),
        total,
        templates: removed.records as u64,
        entries,
        chance,
    };
    let drained = Header {
        limits,
        figures: after,
    };
    drained.write(words);
    removed.apart as usize
}

// Removes an id, drops its expired bodies and hands out the rest, oldest first; answers how many those are.
#[tactic(auto, using(crate::proofs::Drains::drain_damaged))]
pub fn drain(words: &mut [u64], bytes: &[u8], id: u16, clock: u64) -> Result<usize, Damaged>
    ensures { Drains id clock (areas_of words.old bytes.now) result
        (areas_of words.new bytes.now) }
{
    let header = Header::of_cache(words, bytes)?;
    Ok(drain_cache(words, bytes, header, id, clock))
}
