// The test for live bodies.
ghost use Rattle.std.specs.Prelude.{◌≡◌};
ghost use Rattle.offer_plan.specs.Plan.{live_test};

use table_entries::StayTest;

// The test by which bodies that are not expired stay.
pub fn live_test(ttl: Option<u64>, clock: u64) -> StayTest
    ensures { result ≡ live_test ttl clock }
{
    StayTest::by_age(ttl, clock, None)
}
