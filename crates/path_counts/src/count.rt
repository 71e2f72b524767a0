//! Numbers by state: added up, and collected.

ghost use Rattle.path_counts.specs.Counting.{IsCollected, number_in, number_onward};
ghost use Rattle.path_counts.specs.Paths.{stopped};
ghost use Rattle.path_counts.specs.Pushed.{AreAppended};
ghost use Rattle.std.specs.Prelude.{◌≡◌, ◌↔◌, ℕ, ◌+◌, ◌*◌, ◌<◌, ◌≤◌, ◌^◌, length, All, IfOk, IsTrue, OnOk, slice_index, slice_set};

use span_types::NoMemory;

/// A state, and how many marked texts lead to it. `u64::MAX` stands for itself and for every greater number.
#[derive(Clone, Copy, Debug, PartialEq, Eq, Hash)]
pub struct Count {
    pub state: u16,
    pub number: u64,
}

/// Whether the two lists are the same.
pub(crate) fn is_same(counts: &[Count], others: &[Count]) -> bool
    ensures { IsTrue result ↔ counts.now ≡ others.now }
{
    if counts.len() != others.len() {
        return false;
    }
    for index in 0..counts.len() {
        let (count, other) = (counts[index], others[index]);
        if count.state != other.state || count.number != other.number {
            return false;
        }
    }
    true
}

/// Adds to the number of a state.
pub(crate) fn add(sums: &mut [u64], state: u16, number: u64)
    requires { state < length sums.old }
    ensures { sums.new ≡ slice_set sums.old state (stopped (slice_index sums.old state + number)) }
{
    let sum = &mut sums[state as usize];
    *sum = sum.saturating_add(number);
}

/// Adds each number, times `times`, to that of its state.
pub(crate) fn add_counts(sums: &mut [u64], counts: &[Count], times: u64)
    requires { All (λ c. c.state < length sums.old) counts.now }
    ensures { (q : ℕ) → q < length sums.old → slice_index sums.new q ≡ stopped (slice_index sums.old q + times * number_in counts.now q) }
{
    for count in counts {
        add(sums, count.state, times.saturating_mul(count.number));
    }
}

/// The sum of the numbers, each times that of its state in `after`.
pub(crate) fn sum_onward(counts: &[Count], after: &[u64]) -> u64
    requires { All (λ c. c.state < length after.now) counts.now }
    ensures { result ≡ stopped (number_onward counts.now after.now) }
{
    let mut sum = 0u64;
    for count in counts {
        let ways = after[count.state as usize];
        sum = sum.saturating_add(count.number.saturating_mul(ways));
    }
    sum
}

/// Appends the states whose numbers aren't 0, with their numbers. All numbers are 0 then.
pub(crate) fn take_counts(counts: &mut Vec<Count>, sums: &mut [u64]) -> Result<(), NoMemory>
    requires { length sums.old ≤ 2 ^ 16 }
    ensures counts { AreAppended (λ cs. OnOk result (IsCollected sums.old cs)) counts.old.items counts.new.items }
    ensures clear { OnOk result (All (λ n. n ≡ 0) sums.new) }
{
    for state in 0..sums.len() {
        let number = sums[state];
        if number > 0 {
            counts.push(Count {
                state: state as u16,
                number,
            })?;
            sums[state] = 0;
        }
    }
    Ok(())
}
