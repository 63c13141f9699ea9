// Age, and when a body is expired (ttl.rs).
ghost use Rattle.std.specs.Prelude.{◌≡◌};
ghost use Rattle.config.specs.Age.{age_at, expired_at};

// Now minus the stored reading, or 0 if now is earlier.
fn age_at(now: u64, clock: u64) -> u64
    ensures { result ≡ age_at now clock }
{
    now.saturating_sub(clock)
}

// Whether a body with this clock reading is expired now.
// The TTL and the reading of now apart, here and above: one is a limit of the cache, the other comes with a call.
pub fn is_expired(ttl: Option<u64>, now: u64, clock: u64) -> bool
    ensures { result ≡ expired_at ttl now clock }
{
    ttl.is_some_and(|limit| limit <= age_at(now, clock))
}
