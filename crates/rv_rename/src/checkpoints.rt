//! The numbers of the checkpoints, in a `Vec` that never grows.
ghost use Rattle.std.specs.Prelude.{◌≡◌, ◌+◌, ◌==◌, ◌≤◌, ◌↔◌, IsTrue, not, filter, vec_len, vec_capacity};
ghost use Rattle.rv_isa.specs.Numbered.{below, AreBelow};

/// Keeps the numbers up to `seq`.
pub(crate) fn keep_up_to(numbers: &mut Vec<u64>, seq: u64)
    ensures kept { numbers.new.items ≡ below (λ n. n) (seq + 1) numbers.old.items }
    ensures shorter { vec_len numbers.new ≤ vec_len numbers.old }
    ensures capacity { vec_capacity numbers.new ≡ vec_capacity numbers.old }
{
    numbers.retain(|&number| number <= seq);
}

/// Drops the number `seq`.
pub(crate) fn remove(numbers: &mut Vec<u64>, seq: u64)
    ensures kept { numbers.new.items ≡ filter (λ n. not (seq == n)) numbers.old.items }
    ensures shorter { vec_len numbers.new ≤ vec_len numbers.old }
    ensures capacity { vec_capacity numbers.new ≡ vec_capacity numbers.old }
{
    // Mostly there is none.
    if numbers.is_empty() {
        return;
    }
    numbers.retain(|&number| number != seq);
}

/// Whether every number is below `seq`.
pub(crate) fn all_below(numbers: &[u64], seq: u64) -> bool
    ensures { IsTrue result ↔ AreBelow (λ n. n) seq numbers.now }
{
    for number in numbers {
        if *number >= seq {
            return false;
        }
    }
    true
}
