// Which entries stay, each by itself.
ghost use Rattle.std.specs.Prelude.{◌≡◌};
ghost use Rattle.table_entries.specs.Stays.{by_age, stays};

use super::StayTest;
use config::is_expired;
use table::Entry;

impl StayTest {
    // The test by age alone: by it the expired bodies of one label go, or of every label, and no others.
    pub fn by_age(ttl: Option<u64>, clock: u64, only: Option<u64>) -> Self
        ensures { result ≡ by_age ttl clock only }
    {
        StayTest {
            ttl,
            clock,
            only,
            max_size: u64::MAX,
        }
    }
}

// Whether an entry stays by itself.
#[tactic(auto, unfolding(crate::specs::Stays::stays))]
pub fn stays(test: StayTest, entry: Entry) -> bool
    ensures { result ≡ stays test entry }
{
    if test.max_size < entry.len {
        return false;
    }
    if test.only.is_some_and(|label| label != entry.label) {
        return true;
    }
    !is_expired(test.ttl, test.clock, entry.clock)
}
