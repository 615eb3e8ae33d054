//! Sums of one number of each list.

ghost use Rattle.std.specs.Prelude.{◌≡◌, ◌*◌, ◌<◌, ◌^◌, All, length, map, slice_index};
ghost use Rattle.tuple_numbers.specs.Sums.{sums};

/// The sum with this number, where the first list is the fastest.
pub(crate) fn sum_at(lists: &[Vec<u32>], number: usize) -> usize
    requires within { number < length (sums (map (λ v. v.items) lists.now)) }
    requires few { slice_index (sums (map (λ v. v.items) lists.now)) number < 2 ^ 64 }
    ensures { result ≡ slice_index (sums (map (λ v. v.items) lists.now)) number }
{
    let mut sum: usize = 0;
    let mut left = number;
    for list in lists {
        sum += list[left % list.len()] as usize;
        left /= list.len();
    }
    sum
}

/// So many times as many as there are sums.
pub(crate) fn count_of(width: usize, lists: &[Vec<u32>]) -> usize
    requires some { All (λ ps. 0 < length ps) (map (λ v. v.items) lists.now) }
    requires few { width * length (sums (map (λ v. v.items) lists.now)) < 2 ^ 64 }
    ensures { result ≡ width * length (sums (map (λ v. v.items) lists.now)) }
{
    let mut count = width;
    for list in lists {
        count *= list.len();
    }
    count
}
