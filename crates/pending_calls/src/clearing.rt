// Clearing a cache.
// Both areas are given, also where the words alone are read: what is asked is that the two hold a cache. They are two
// parameters, as some calls change the words alone.
ghost use Rattle.std.specs.Prelude.{length};
ghost use Rattle.table.specs.Table.{table_of};
ghost use Rattle.cache_model.specs.Cache.{done};
ghost use Rattle.cache_model.specs.Calls.{cleared};
ghost use Rattle.pending_flows.specs.Header.{HoldsCache};
ghost use Rattle.pending_flows.specs.View.{areas_of, cache_of};
ghost use Rattle.pending_calls.specs.Promises.{Does, Clears};

use pending_flows::{Header, HeaderFigures};
use table::Damaged;

// Empties a well-formed cache.
fn clear_cache(words: &mut [u64], bytes: &[u8], header: Header)
    requires { HoldsCache header words.old (length bytes.now) }
    ensures { Does cleared (cache_of (table_of words.old) bytes.now)
        (areas_of words.old bytes.now) done (areas_of words.new bytes.now) }
{
    let Header { limits, figures } = header;
    let empty = Header {
        limits,
        figures: HeaderFigures {
            total: 0,
            templates: 0,
            entries: 0,
            chance: 0,
            ..figures
        },
    };
    empty.write(words);
}

// Empties the cache and leaves the counters; handed-out bodies stay handed out.
#[tactic(auto, using(crate::proofs::Clearings::clear_damaged))]
pub fn clear(words: &mut [u64], bytes: &[u8]) -> Result<(), Damaged>
    ensures { Clears (areas_of words.old bytes.now) result
        (areas_of words.new bytes.now) }
{
    let header = Header::of_cache(words, bytes)?;
    clear_cache(words, bytes, header);
    Ok(())
}
