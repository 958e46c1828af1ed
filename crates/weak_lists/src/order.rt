//! Lists of numbers in rising order.

ghost use Rattle.std.specs.Prelude.{◌≡◌, ◌≤◌, length, take, drop};
ghost use Rattle.std.specs.List.Sorted.{IsNonDecreasing, IsPermutation};
ghost use Rattle.object_model.specs.Sets.{is_in};

/// Whether the number is among these, which rise.
pub(crate) fn holds(rising: &[u64], a: u64) -> bool
    requires { IsNonDecreasing rising.now }
    ensures { result ≡ is_in a rising.now }
{
    rising.binary_search(&a).is_ok()
}

/// Puts the numbers from index `from` on into rising order.
pub(crate) fn sort_from(numbers: &mut Vec<u64>, from: usize)
    requires { from ≤ length numbers.old.items }
    ensures front { take from numbers.new.items ≡ take from numbers.old.items }
    ensures same { IsPermutation (drop from numbers.old.items) (drop from numbers.new.items) }
    ensures rising { IsNonDecreasing (drop from numbers.new.items) }
{
    let part = &mut numbers[from..];
    part.sort_unstable();
}
