// A binary heap that fills a lent slice, where std's takes memory: no claim is ahead of its parent, which for place i is at (i - 1) / 2.
ghost use Rattle.std.specs.Prelude.{◌≡◌, ℕ, ◌+◌, ◌-◌, ◌*◌, ◌/◌, ◌<◌, ◌≤◌, length, slice_index_or};
ghost use Rattle.std.specs.List.Sorted.{IsPermutation};
ghost use Rattle.std.specs.Slice.Heapsort.{IsHeapWithin, IsNotBelowChildren};
ghost use Rattle.sharing.specs.Order.{behind};

use super::claim::Claim;

fn before_at<C: Claim>(s: &[C], i: usize, j: usize) -> bool
    requires { (i < length s.now) × (j < length s.now) }
    ensures { (d : C) → result ≡ C.ahead (slice_index_or s.now i d) (slice_index_or s.now j d) }
{
    s[i].before(&s[j])
}

// The child of j that is served first.
fn first_child<C: Claim>(s: &[C], j: usize) -> usize
    requires { j * 2 + 1 < length s.now }
    ensures bound { (j * 2 + 1 ≤ result) × (result ≤ j * 2 + 2) × (result < length s.now) }
    ensures best { IsNotBelowChildren (behind C.ahead) s.now j result (length s.now) }
{
    let left = j * 2 + 1;
    let right = left + 1;
    if right < s.len() && before_at(s, right, left) {
        right
    } else {
        left
    }
}

// Moves the first claim down past the children that are ahead of it.
pub fn sink<C: Claim>(s: &mut [C])
    ensures shuffled { IsPermutation s.old s.new }
    ensures heap { IsHeapWithin (behind C.ahead) s.old 1 (length s.old) → IsHeapWithin (behind C.ahead) s.new 0 (length s.new) }
{
    let end = s.len();
    let mut j = 0;
    // An index: the next place is 2j + 1 or 2j + 2, as the claims there compare, and no iterator lends a slice that it swaps in.
    while j < end / 2 {
        let child = first_child(s, j);
        if !before_at(s, child, j) {
            return;
        }
        s.swap(j, child);
        j = child;
    }
}

// Moves the last claim up past the parents that it is ahead of.
pub fn rise<C: Claim>(s: &mut [C])
    ensures shuffled { IsPermutation s.old s.new }
    ensures heap { IsHeapWithin (behind C.ahead) s.old 0 (length s.old - 1) → IsHeapWithin (behind C.ahead) s.new 0 (length s.new) }
{
    let mut j = s.len().saturating_sub(1);
    // An index: the next place is (j - 1) / 2, and no iterator lends a slice that it swaps in.
    while 0 < j {
        let parent = (j - 1) / 2;
        if !before_at(s, j, parent) {
            return;
        }
        s.swap(parent, j);
        j = parent;
    }
}
