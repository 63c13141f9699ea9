// The sweep by a test on each entry alone that packs in the same pass: the bodies of those that stay move together.
ghost use Rattle.std.specs.Prelude.{length};
ghost use Rattle.table.specs.Layout.{entries_at};
ghost use Rattle.table.specs.Table.{entries_from};
ghost use Rattle.table_entries.specs.Stays.{stays};
ghost use Rattle.table_entries.specs.Pack.{HoldsEntries, KeepsPacked};
ghost use Rattle.entry_sweeps.specs.KeptBy.{kept_by};

use config::{ENTRY_WORDS, HEADER_WORDS};
use table::{Entry, entry_at};
use table_entries::{Kept, Run, StayTest, move_run, put_entry, run_up_to, stays};

// Keeps of the entries those that stay by themselves, in order, and moves their bodies together towards the front.
// A loop of its own, beside the other sweep's: the bodies move in the same pass, and another promise is kept.
// The words and how many entries, no parts: `as_chunks_mut` says nothing of what the words end as.
pub fn sweep_packing(words: &mut [u64], bytes: &mut [u8], entries: usize, test: StayTest) -> Kept
    requires { HoldsEntries entries words.old (length bytes.old) }
    ensures { KeepsPacked (kept_by (stays test) (entries_from words.old entries_at entries)) entries
        words.old bytes.old words.new bytes.new result.entries result.bytes }
{
    let mut run = Run {
        from: 0,
        to: 0,
        len: 0,
    };
    let mut kept: usize = 0;
    for i in 0..entries {
        let entry = entry_at(words, HEADER_WORDS + ENTRY_WORDS * i);
        if stays(test, entry) {
            run = run_up_to(bytes, run, entry.place as usize);
            let place = run.to + run.len;
            let packed = Entry {
                place: place as u64,
                ..entry
            };
            put_entry(words, HEADER_WORDS + ENTRY_WORDS * kept, packed);
            run.len += entry.len as usize;
            kept += 1;
        }
    }
    let end = move_run(bytes, run);
    // packed from 0 on, they end where their lengths add up to
    Kept {
        entries: kept,
        bytes: end as u64,
    }
}
