// The decoded-output budget, which crosses as seven words (budget_words). Words 2 and 3 are the use: a checkpoint is a
// copy of them.
ghost use Rattle.export_limits.specs.Limits.{TestsLimits, Opens, Resets};
ghost use Rattle.export_budget.specs.Budget.{ReservesIn, RollsBackIn, TellsRemaining, TellsExceeded, TakesIn};
ghost use Rattle.export_pending.specs.Pending.{FitsWhole, FitsRemaining, MaterializesIn};

// The limits call: 0 with the three limits written, or 9, 10 or 11 for one that is 0.
#[unsafe(no_mangle)]
pub extern "C" fn netflow_budget_limits(
    max_records: u64,
    max_values: u64,
    max_payload_bytes: u64,
    limits: &mut [u64; 3],
) -> u32
    ensures { TestsLimits max_records max_values max_payload_bytes result limits.old limits.new }
{
    export_limits::limits(max_records, max_values, max_payload_bytes, limits)
}

// An unused budget with any two limits. Answers 0.
#[unsafe(no_mangle)]
pub extern "C" fn netflow_budget_new(
    budget: &mut [u64; 7],
    max_values: u64,
    max_payload_bytes: u64,
) -> u32
    ensures { Opens max_values max_payload_bytes result budget.new }
{
    export_limits::new(budget, max_values, max_payload_bytes)
}

// The same limits, with nothing used and nothing recorded. Answers 0.
#[unsafe(no_mangle)]
pub extern "C" fn netflow_budget_reset(budget: &mut [u64; 7]) -> u32
    ensures { Resets result budget.old budget.new }
{
    export_limits::reset(budget)
}

// Other limits, with nothing used and nothing recorded. Answers 0.
#[unsafe(no_mangle)]
pub extern "C" fn netflow_budget_set_limits(
    budget: &mut [u64; 7],
    max_values: u64,
    max_payload_bytes: u64,
) -> u32
    ensures { Opens max_values max_payload_bytes result budget.new }
{
    export_limits::set_limits(budget, max_values, max_payload_bytes)
}

// Reserves both counts: 0, or 23 or 24 with the excess written.
#[unsafe(no_mangle)]
pub extern "C" fn netflow_budget_reserve(
    budget: &mut [u64; 7],
    values: u64,
    payload_bytes: u64,
    excess: &mut [u64; 3],
) -> u32
    ensures { ReservesIn values payload_bytes result excess.old excess.new
        budget.old budget.new }
{
    export_budget::reserve(budget, values, payload_bytes, excess)
}

// Rolls the use back to these counts: 0, or 26 where one is above the count in use.
#[unsafe(no_mangle)]
pub extern "C" fn netflow_budget_rollback(
    budget: &mut [u64; 7],
    values: u64,
    payload_bytes: u64,
) -> u32
    ensures { RollsBackIn values payload_bytes result budget.old budget.new }
{
    export_budget::rollback(budget, values, payload_bytes)
}

// Writes what remains of both counts. Answers 0.
#[unsafe(no_mangle)]
pub extern "C" fn netflow_budget_remaining(budget: &[u64; 7], counts: &mut [u64; 2]) -> u32
    ensures { TellsRemaining budget.now result counts.old counts.new }
{
    export_budget::remaining(budget, counts)
}

// Writes 1 where an excess is recorded, else 0. Answers 0.
#[unsafe(no_mangle)]
pub extern "C" fn netflow_budget_is_exceeded(budget: &[u64; 7], answer: &mut [u64; 1]) -> u32
    ensures { TellsExceeded budget.now result answer.old answer.new }
{
    export_budget::is_exceeded(budget, answer)
}

// Writes the recorded excess, which is recorded no longer; the words stay where none is. Answers 0.
#[unsafe(no_mangle)]
pub extern "C" fn netflow_budget_take_exceeded(budget: &mut [u64; 7], excess: &mut [u64; 3]) -> u32
    ensures { TakesIn result excess.old excess.new budget.old budget.new }
{
    export_budget::take_exceeded(budget, excess)
}

// Whether a body can ever fit: 0, or 7 or 8.
#[unsafe(no_mangle)]
pub extern "C" fn netflow_budget_validate_pending_full_budget(
    budget: &[u64; 7],
    number: u32,
    cost: &[u64; 3],
) -> u32
    ensures { FitsWhole budget.now number cost.now result }
{
    export_pending::validate_pending_full_budget(budget, number, cost)
}

// Whether a body fits what remains: 0, or 7, 8 or 22.
#[unsafe(no_mangle)]
pub extern "C" fn netflow_budget_validate_pending_remaining(
    budget: &[u64; 7],
    number: u32,
    cost: &[u64; 3],
) -> u32
    ensures { FitsRemaining budget.now number cost.now result }
{
    export_pending::validate_pending_remaining(budget, number, cost)
}

// Commits the cost where the body fits and the report agrees: 0 with the remainder's length written, or 7, 8 or 22.
#[unsafe(no_mangle)]
pub extern "C" fn netflow_budget_materialize_pending(
    budget: &mut [u64; 7],
    number: u32,
    cost: &[u64; 3],
    success: u32,
    reported: &[u64; 3],
    remainder: &mut [u64; 1],
) -> u32
    ensures { MaterializesIn number cost.now success reported.now result
        remainder.old remainder.new budget.old budget.new }
{
    export_pending::materialize_pending(budget, number, cost, success, reported, remainder)
}
