// The cache's calls: each answers document 01's number, 0 on success, and writes values then only. C hands limits over
// one by one; they go on as one value.
ghost use Rattle.pending_flows.specs.View.{areas_of};
ghost use Rattle.export_queries.specs.Exports.{limits_from, ExportsValidate, ExportsOpen};
ghost use Rattle.export_queries.specs.Exports.{ExportsWouldAccept, ExportsFigures, ExportsPlace};
ghost use Rattle.export_calls.specs.Calls.{ExportsCache, ExportsDrain, ExportsPutBack, ExportsResize, ExportsClear};

use export_queries::limits_from;

// Whether a cache can be opened with these limits in areas of these lengths: 0, or 1 to 5.
#[unsafe(no_mangle)]
pub extern "C" fn netflow_pending_validate_config(
    words_len: usize,
    bytes_len: usize,
    max_pending_flows: usize,
    max_entries_per_template: usize,
    max_entry_size_bytes: usize,
    max_total_bytes: usize,
) -> u32
    ensures { ExportsValidate words_len bytes_len (limits_from max_pending_flows max_entries_per_template
        max_entry_size_bytes max_total_bytes 0 0) result }
{
    let limits = limits_from(
        max_pending_flows,
        max_entries_per_template,
        max_entry_size_bytes,
        max_total_bytes,
        0,
        0,
    );
    export_queries::validate_config(words_len, bytes_len, limits)
}

// Opens an empty cache in areas with any content: 0, or 1 to 5 with nothing changed.
#[unsafe(no_mangle)]
pub extern "C" fn netflow_pending_open(
    words: &mut [u64],
    bytes: &[u8],
    max_pending_flows: usize,
    max_entries_per_template: usize,
    max_entry_size_bytes: usize,
    max_total_bytes: usize,
    has_ttl: u32,
    ttl: u64,
) -> u32
    ensures { ExportsOpen (limits_from max_pending_flows max_entries_per_template max_entry_size_bytes
        max_total_bytes has_ttl ttl) (areas_of words.old bytes.now) result
        (areas_of words.new bytes.now) }
{
    let limits = limits_from(
        max_pending_flows,
        max_entries_per_template,
        max_entry_size_bytes,
        max_total_bytes,
        has_ttl,
        ttl,
    );
    export_queries::open(words, bytes, limits)
}

// Offers a body: 0, or 28, 6 or 20.
#[unsafe(no_mangle)]
pub extern "C" fn netflow_pending_cache(
    words: &mut [u64],
    bytes: &mut [u8],
    id: u16,
    body: &[u8],
    clock: u64,
) -> u32
    ensures { ExportsCache id body.now clock (areas_of words.old bytes.old) result
        (areas_of words.new bytes.new) }
{
    export_calls::cache(words, bytes, id, body, clock)
}

// Removes an id and hands out its unexpired bodies: 0 with their number, or 28.
#[unsafe(no_mangle)]
pub extern "C" fn netflow_pending_drain(
    words: &mut [u64],
    bytes: &[u8],
    id: u16,
    clock: u64,
    handed_out: &mut u64,
) -> u32
    ensures { ExportsDrain id clock (areas_of words.old bytes.now) result
        (areas_of words.new bytes.now) handed_out.old handed_out.new }
{
    export_calls::drain(words, bytes, id, clock, handed_out)
}

// Puts the last `count` bodies handed out back: 0, or 28 or 25.
#[unsafe(no_mangle)]
pub extern "C" fn netflow_pending_restore_replay_suffix(
    words: &mut [u64],
    bytes: &[u8],
    id: u16,
    count: usize,
) -> u32
    ensures { ExportsPutBack id count (areas_of words.old bytes.now) result
        (areas_of words.new bytes.now) }
{
    export_calls::restore_replay_suffix(words, bytes, id, count)
}

// Changes the limits and drops what they leave no room for: 0 with the number dropped, or 28 or 1 to 5.
#[unsafe(no_mangle)]
pub extern "C" fn netflow_pending_resize(
    words: &mut [u64],
    bytes: &mut [u8],
    max_pending_flows: usize,
    max_entries_per_template: usize,
    max_entry_size_bytes: usize,
    max_total_bytes: usize,
    has_ttl: u32,
    ttl: u64,
    dropped: &mut u64,
) -> u32
    ensures { ExportsResize (limits_from max_pending_flows max_entries_per_template max_entry_size_bytes
        max_total_bytes has_ttl ttl) (areas_of words.old bytes.old) result
        (areas_of words.new bytes.new) dropped.old dropped.new }
{
    let limits = limits_from(
        max_pending_flows,
        max_entries_per_template,
        max_entry_size_bytes,
        max_total_bytes,
        has_ttl,
        ttl,
    );
    export_calls::resize(words, bytes, limits, dropped)
}

// Empties the cache and leaves its counters: 0, or 28.
#[unsafe(no_mangle)]
pub extern "C" fn netflow_pending_clear(words: &mut [u64], bytes: &[u8]) -> u32
    ensures { ExportsClear (areas_of words.old bytes.now) result
        (areas_of words.new bytes.now) }
{
    export_calls::clear(words, bytes)
}

// Whether an offer would be accepted: 0 with 1 for yes or 0 for no, or 28.
#[unsafe(no_mangle)]
pub extern "C" fn netflow_pending_would_accept(
    words: &[u64],
    bytes: &[u8],
    id: u16,
    length: usize,
    clock: u64,
    accepts: &mut u64,
) -> u32
    ensures { ExportsWouldAccept id length clock (areas_of words.now bytes.now) result
        (areas_of words.now bytes.now) accepts.old accepts.new }
{
    export_queries::would_accept(words, bytes, id, length, clock, accepts)
}

// Templates and bodies held, bytes held, both counters and the bodies handed out: 0 with these, or 28.
#[unsafe(no_mangle)]
pub extern "C" fn netflow_pending_figures(
    words: &[u64],
    bytes: &[u8],
    figures: &mut [u64; 6],
) -> u32
    ensures { ExportsFigures (areas_of words.now bytes.now) result
        (areas_of words.now bytes.now) figures.old figures.new }
{
    export_queries::figures(words, bytes, figures)
}

// Where a handed-out body lies in the byte area, and its length: 0 with these, or 28 or 27.
#[unsafe(no_mangle)]
pub extern "C" fn netflow_pending_place_handed_out(
    words: &[u64],
    bytes: &[u8],
    number: usize,
    place: &mut [u64; 2],
) -> u32
    ensures { ExportsPlace number (areas_of words.now bytes.now) result
        (areas_of words.now bytes.now) place.old place.new }
{
    export_queries::place_handed_out(words, bytes, number, place)
}
