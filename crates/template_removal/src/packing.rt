// Removing one template whole and packing the bodies of the others, in one pass over the entries.
ghost use Rattle.std.specs.Prelude.{length, set, replicate};
ghost use Rattle.table.specs.Reads.{label_or_none};
ghost use Rattle.table_records.specs.Choose.{skip_all};
ghost use Rattle.pending_flows.specs.Header.{HoldsCache};
ghost use Rattle.pending_calls.specs.Removal.{everything};
ghost use Rattle.template_removal.specs.Packing.{RemovesPacking};

use super::take_both;
use entry_sweeps::sweep_packing;
use pending_calls::{Removed, label_test};
use pending_flows::Header;
use table::records_at;

// Removes the template of a label, as `remove_template` does, and moves the other bodies together.
// No one function with it: this one writes the bytes, and has a promise of its own on where they are.
pub fn remove_packing(
    words: &mut [u64],
    bytes: &mut [u8],
    header: Header,
    label: u64,
    apart: Option<u64>,
) -> Removed
    requires { HoldsCache header words.old (length bytes.old) }
    ensures { RemovesPacking everything (label_or_none apart) (set (replicate 1024 0) label skip_all) words.old
        bytes.old words.new bytes.new result }
{
    let Header { limits, figures } = header;
    let from = records_at(limits);
    let records = (figures.templates + figures.chance) as usize;
    // by a TTL of 0 every body of the label is expired
    let test = label_test(Some(0), 0, label);
    let left = sweep_packing(words, bytes, figures.entries as usize, test);
    take_both(words, from, records, left, label, apart)
}
