// Parts of slices that may be shorter than asked for.
ghost use Rattle.std.specs.Prelude.{◌≡◌, take, drop, slice_index};

// The number at the index, and 0 where there is none.
pub fn number_at(numbers: &[u64], i: usize) -> u64
    ensures { result ≡ slice_index numbers.now i }
{
    numbers.get(i).copied().unwrap_or(0)
}

// What lies behind the first n.
pub fn past<T>(items: &[T], n: usize) -> &[T]
    ensures { result.now ≡ drop n items.now }
{
    &items[n.min(items.len())..]
}

// The first n numbers, or all where there are fewer.
pub fn first(numbers: &[u64], n: usize) -> &[u64]
    ensures { result.now ≡ take n numbers.now }
{
    &numbers[..n.min(numbers.len())]
}
