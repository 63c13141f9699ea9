// The use of a budget, which crosses as seven words (budget_words). Words 2 and 3 are the use: a checkpoint is a copy
// of them. A call that changes a budget reads it and writes it back in lines of its own: one function given the change
// would be no plainer, since a refused rollback writes nothing.
#![tactic(auto)]

ghost use Rattle.export_budget.specs.Budget.{ReservesIn, RollsBackIn, TellsRemaining, TellsExceeded, TakesIn};

use answer_numbers::number_of;
use budget_words::{export_exceeded, export_reserve, read_budget, write_budget};
use output_preflight::{FieldValues, PayloadBytes};

// Reserves both counts: 0, or 23 or 24 with the excess written.
pub fn reserve(budget: &mut [u64; 7], values: u64, payload_bytes: u64, excess: &mut [u64; 3]) -> u32
    ensures { ReservesIn values payload_bytes result excess.old excess.new
        budget.old budget.new }
{
    let mut b = read_budget(budget);
    // A count by its type's name, as in budget_words: by `.into()` no line would say which of the two it is.
    let values = FieldValues(values as usize);
    let payload = PayloadBytes(payload_bytes as usize);
    let answer = output_reserve::reserve(&mut b, values, payload);
    write_budget(b, budget);
    export_reserve(answer, excess)
}

// Rolls the use back to these counts: 0, or 26 where one is above the count in use.
pub fn rollback(budget: &mut [u64; 7], values: u64, payload_bytes: u64) -> u32
    ensures { RollsBackIn values payload_bytes result budget.old budget.new }
{
    let mut b = read_budget(budget);
    let values = FieldValues(values as usize);
    let payload = PayloadBytes(payload_bytes as usize);
    let answer = output_rollback::rollback(&mut b, values, payload);
    if answer.is_ok() {
        write_budget(b, budget);
    }
    number_of(answer)
}

// Writes what remains of both counts. Answers 0.
pub fn remaining(budget: &[u64; 7], counts: &mut [u64; 2]) -> u32
    ensures { TellsRemaining budget.now result counts.old counts.new }
{
    let left = read_budget(budget).remaining();
    *counts = [left.values.0 as u64, left.payload_bytes.0 as u64];
    0
}

// Writes 1 where an excess is recorded, else 0. Answers 0.
pub fn is_exceeded(budget: &[u64; 7], answer: &mut [u64; 1]) -> u32
    ensures { TellsExceeded budget.now result answer.old answer.new }
{
    *answer = [u64::from(output_excess::is_exceeded(read_budget(budget)))];
    0
}

// Writes the recorded excess, which is recorded no longer; the words stay where none is. Answers 0.
pub fn take_exceeded(budget: &mut [u64; 7], excess: &mut [u64; 3]) -> u32
    ensures { TakesIn result excess.old excess.new budget.old budget.new }
{
    let mut b = read_budget(budget);
    let answer = output_excess::take_exceeded(&mut b);
    write_budget(b, budget);
    export_exceeded(answer, excess)
}
