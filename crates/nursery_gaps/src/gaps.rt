//! The gaps between ranges of words that lie by rising place.

ghost use Rattle.std.specs.Prelude.{◌≡◌, ◌+◌, ◌-◌, ◌<◌, ◌≤◌, ◌^◌, ◌++◌, IfSome, IfNone, length, vec_len, sum_by};
ghost use Rattle.std.specs.Vec.{vec_capacity};
ghost use Rattle.nursery_gaps.specs.Ranges.{AreRising, words_between};
ghost use Rattle.nursery_gaps.specs.Gaps.{IsFirstGap, HasNoGap};

/// A gap: how many ranges lie below it, and where it begins.
#[derive(Clone, Copy)]
pub struct Gap {
    pub passed: usize,
    pub place: u64,
}

/// The first gap of at least `n` words, where the first gap begins at `from`, each other one at the
/// end of a range, and the last one ends at `to`.
pub fn first_gap(ranges: &[(u64, u64)], from: u64, to: u64, n: u64) -> Option<Gap>
    requires { AreRising from to ranges.now }
    ensures found { IfSome result (λ gap. IsFirstGap n from to ranges.now gap.passed gap.place) }
    ensures none { IfNone result (HasNoGap n from to ranges.now) }
{
    let mut place = from;
    for (passed, range) in ranges.iter().enumerate() {
        if n <= range.0 - place {
            return Some(Gap { passed, place });
        }
        place = range.0 + range.1;
    }
    if n <= to - place {
        return Some(Gap {
            passed: ranges.len(),
            place,
        });
    }
    None
}

/// How many words lie between two places in no range.
pub fn free_between(ranges: &[(u64, u64)], from: u64, to: u64) -> u64
    requires { AreRising from to ranges.now }
    ensures { result + sum_by (λ range. range.1) ranges.now ≡ to - from }
{
    let mut free = 0;
    let mut place = from;
    for range in ranges {
        free += range.0 - place;
        place = range.0 + range.1;
    }
    free + (to - place)
}

/// Appends the range of the words from `gap` up to `cursor`, where there are some, and then the
/// ranges, to a list that has room for all.
pub fn pass(list: &mut Vec<(u64, u64)>, gap: u64, cursor: u64, ranges: &[(u64, u64)])
    requires { vec_len list.old + 1 + length ranges.now ≤ vec_capacity list.old }
    ensures items { list.new.items ≡ list.old.items ++ words_between gap cursor ++ ranges.now }
    ensures len { vec_len list.new ≤ vec_len list.old + 1 + length ranges.now }
    ensures room { vec_capacity list.old ≤ vec_capacity list.new }
{
    if gap < cursor {
        list.push_reserved((gap, cursor - gap));
    }
    append(list, ranges);
}

/// Appends ranges to a list that has room for them.
pub fn append(list: &mut Vec<(u64, u64)>, ranges: &[(u64, u64)])
    requires { vec_len list.old + length ranges.now ≤ vec_capacity list.old }
    ensures items { list.new.items ≡ list.old.items ++ ranges.now }
    ensures room { vec_capacity list.old ≤ vec_capacity list.new }
{
    list.extend_from_slice(ranges).unwrap();
}
