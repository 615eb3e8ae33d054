//! Counts over ascending numbers.

ghost use Rattle.std.specs.Prelude.{◌≡◌, ◌≤◌, nat_lt, length, true, false};
ghost use Rattle.std.specs.List.Sorted.{IsStrictlyIncreasing, IsPartitionPoint};

/// How many of ascending numbers are less than a bound, by halving. It takes no memory.
pub(crate) fn count_below(numbers: &[u64], bound: u64) -> usize
    requires { IsStrictlyIncreasing numbers.now }
    ensures within { result ≤ length numbers.now }
    ensures point { IsPartitionPoint (λ x. nat_lt x bound ≡ true) (λ x. nat_lt x bound ≡ false) numbers.now result }
{
    numbers.partition_point(|x| *x < bound)
}
