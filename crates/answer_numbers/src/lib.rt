// An answer as document 01's number, 0 on success: one function for each shape of answer.
#![tactic(auto)]

ghost use Rattle.std.specs.Prelude.{◌≡◌, MatchResult};

// The number of an answer without a value.
pub fn number_of<E: Into<u32>>(answer: Result<(), E>) -> u32
    ensures { MatchResult answer (λ _. result ≡ 0) (λ refusal. E.converts refusal result) }
{
    match answer {
        Ok(()) => 0,
        Err(refusal) => refusal.into(),
    }
}

// The number of an answer with values, which are written on success only. An array is made by a function: of a closure
// that makes one nothing is promised.
pub fn write_values<T, E: Into<u32>, W: Copy, F: FnOnce(T) -> W>(
    answer: Result<T, E>,
    values: &mut W,
    values_of: F,
) -> u32
    requires { F.IsAlwaysCallable values_of }
    ensures { MatchResult answer (λ found. (result ≡ 0) × F.post values_of found values.new)
        (λ refusal. E.converts refusal result × (values.new ≡ values.old)) }
{
    match answer {
        Ok(found) => {
            *values = values_of(found);
            0
        }
        Err(failure) => failure.into(),
    }
}

// The number of an answer with a count, which is written on success only.
pub fn write_count<E: Into<u32>>(answer: Result<usize, E>, count: &mut u64) -> u32
    ensures { MatchResult answer (λ found. (result ≡ 0) × (count.new ≡ found))
        (λ refusal. E.converts refusal result × (count.new ≡ count.old)) }
{
    write_values(answer, count, |found| found as u64)
}
