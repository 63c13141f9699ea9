// Cutting to the new number of templates, entry size and cap.
ghost use Rattle.std.specs.Prelude.{◌≡◌, ◌+◌, length};
ghost use Rattle.table.specs.Parts.{entries_of, templates_of};
ghost use Rattle.pending_calls.specs.Removal.{RowsWithin};
ghost use Rattle.resize_steps.specs.Cut.{small_enough, cut_skips, Cuts};

use config::{ENTRY_WORDS, PendingFlowsConfig, RECORD_WORDS};
use pending_calls::{Removed, remove, stay_all};
use pending_flows::HeaderFigures;
use table::{LABELS, entries_in, records_in};
use table_entries::{StayTest, stays, sums_by_label};
use table_records::{skip_over, skip_records};

// The test by which bodies stay that are not over the new entry size. Their age plays no part.
fn small_enough(config: PendingFlowsConfig) -> StayTest
    ensures { result ≡ small_enough config }
{
    StayTest {
        max_size: config.max_entry_size_bytes as u64,
        ..stay_all()
    }
}

// What is to be skipped: the oldest bodies beyond the new cap; all of the least recent templates beyond the new number,
// and of the handed-out one. Those come last, since what is skipped of a label is set anew.
fn skip_cut(
    entries: &[[u64; ENTRY_WORDS]],
    held: &[[u64; RECORD_WORDS]],
    handed: &[[u64; RECORD_WORDS]],
    config: PendingFlowsConfig,
    skip: &mut [u32; LABELS],
)
    ensures { skip.new ≡ cut_skips config (templates_of held.now) (templates_of handed.now)
        (entries_of entries.now) skip.old }
{
    let mut counts = [0u32; LABELS];
    let test = small_enough(config);
    sums_by_label(
        entries,
        |entry| stays(test, entry).then_some(1),
        &mut counts,
    );
    skip_over(held, config.max_entries_per_template, &counts, skip);
    let beyond = held.len().saturating_sub(config.max_pending_flows);
    skip_records(&held[..beyond], skip);
    skip_records(handed, skip);
}

// Leaves as many templates as the new limits allow, the most recent, with the newest bodies that are small enough.
// Nothing stays handed out.
// The words and a place, no parts: `as_chunks_mut` says nothing of what the words end as.
// The place and the figures, no header: that these are a cache's would be asked of the callers beside where they lie.
#[tactic(auto, using(crate::proofs::Steps::cut_lem))]
pub fn cut(
    words: &mut [u64],
    from: usize,
    figures: HeaderFigures,
    config: PendingFlowsConfig,
) -> Removed
    requires { RowsWithin from (figures.templates + figures.chance) figures.entries (length words.old) }
    ensures { Cuts config from figures.templates figures.chance figures.entries
        words.old words.new result }
{
    let entries = figures.entries as usize;
    let held = figures.templates as usize;
    let handed = figures.chance as usize;
    let mut skip = [0u32; LABELS];
    skip_cut(
        entries_in(words, entries),
        records_in(words, from, held),
        records_in(words, from + RECORD_WORDS * held, handed),
        config,
        &mut skip,
    );
    remove(
        words,
        from,
        held + handed,
        entries,
        small_enough(config),
        &mut skip,
        None,
    )
}
