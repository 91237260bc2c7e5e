// Moving one element up or down to its place among those that are in the order of a heap already.
ghost use Rattle.std.specs.Prelude.{◌≡◌, ◌+◌, ◌*◌, ◌<◌, ◌≤◌, length, slice_index_or};
ghost use Rattle.heap.specs.Heaps.{Child, Heaped, HeapedFrom, LeastChild, Popped, Rearranged, Sound};

use crate::order::Ordered;

// Whether the element at place i may come out before the one at place j.
fn leq_at<T: Ordered>(items: &[T], i: usize, j: usize) -> bool
    requires { (i < length items.now) × (j < length items.now) }
    ensures { (d : T) → T.leq (slice_index_or items.now i d) (slice_index_or items.now j d) ≡ result }
{
    items[i].leq(&items[j])
}

// The parent of a place.
fn parent_of(at: usize) -> usize
    requires { 0 < at }
    ensures { Child result at }
{
    (at - 1) / 2
}

// Moves the element at `start` up, past every parent that may not come out before it.
#[tactic(auto, using(crate::proofs::Sifts::upward_begins, crate::proofs::Exchanges::rearranged_none))]
pub(crate) fn sift_up<T: Ordered>(items: &mut [T], start: usize)
    requires within { start < length items.old }
    requires heaped { Heaped T.leq items.old start }
    ensures same { Rearranged (start + 1) items.old items.new }
    ensures heaped { Heaped T.leq items.new (start + 1) }
{
    // A loop, since each place is found from the one before it.
    let mut at = start;
    while at > 0 {
        let parent = parent_of(at);
        if leq_at(items, parent, at) {
            return;
        }
        items.swap(parent, at);
        at = parent;
    }
}

// The child of `at` that may come out before the other, among the first `len` elements.
// The whole memory and a length, here and below: what lies past it is then said once, and not of each part lent.
#[tactic(auto, using(crate::proofs::Sifts::least_left, crate::proofs::Sifts::least_right))]
fn least_child<T: Ordered>(items: &[T], at: usize, len: usize) -> usize
    requires { (at * 2 + 1 < len) × (len ≤ length items.now) }
    ensures { LeastChild T.leq items.now at len result }
{
    let left = at * 2 + 1;
    if left + 1 == len {
        return left;
    }
    if leq_at(items, left, left + 1) {
        left
    } else {
        left + 1
    }
}

// Moves the first element down among the first `len`, until it may come out before its children.
#[tactic(auto, using(crate::proofs::Sifts::downward_begins, crate::proofs::Exchanges::rearranged_none))]
pub(crate) fn sift_down<T: Ordered>(items: &mut [T], len: usize)
    requires within { len ≤ length items.old }
    requires heaped { HeapedFrom T.leq 1 items.old len }
    ensures same { Rearranged len items.old items.new }
    ensures heaped { Heaped T.leq items.new len }
{
    // A loop, since each place is found from the one before it.
    let mut at = 0;
    while at < len / 2 {
        let child = least_child(items, at, len);
        if leq_at(items, at, child) {
            return;
        }
        items.swap(at, child);
        at = child;
    }
}

// Takes the front out: the element at `last` takes its place and moves down among those before it.
pub(crate) fn take_front<T: Ordered>(items: &mut [T], last: usize) -> T
    requires sound { Sound T.leq items.old (last + 1) }
    ensures out { Popped T.leq result items.old (last + 1) items.new last }
    ensures sound { Sound T.leq items.new last }
{
    let front = items[0];
    items.swap(0, last);
    sift_down(items, last);
    front
}
