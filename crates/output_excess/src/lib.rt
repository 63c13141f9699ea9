// The first excess of a budget: whether one is recorded, and taking it.
#![tactic(auto)]

ghost use Rattle.std.specs.Prelude.{◌≡◌};
ghost use Rattle.output_budget.specs.Budget.{is_recorded, Takes};

use output_budget::{DecodedOutputBudget, OutputBudgetExceeded};

// Whether an excess is recorded.
pub fn is_exceeded(b: DecodedOutputBudget) -> bool
    ensures { result ≡ is_recorded b.exceeded }
{
    b.exceeded.is_some()
}

// The recorded excess, which is recorded no longer.
pub fn take_exceeded(b: &mut DecodedOutputBudget) -> Option<OutputBudgetExceeded>
    ensures { Takes b.old result b.new }
{
    b.exceeded.take()
}
