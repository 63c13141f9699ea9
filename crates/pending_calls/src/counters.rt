// The two counters.
ghost use Rattle.std.specs.Prelude.{◌≡◌};
ghost use Rattle.cache_model.specs.Cache.{raised};

// A counter and n more; it stops at 2^64 - 1.
pub fn raised(counter: u64, n: u64) -> u64
    ensures { result ≡ raised counter n }
{
    counter.saturating_add(n)
}
