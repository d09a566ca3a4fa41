// How an entry finds its way up and down a heap. Here a heap is a whole slice.
ghost use Rattle.std.specs.Prelude.{◌≡◌, ◌+◌, ◌-◌, ◌*◌, ◌<◌, ◌≤◌, length, take, slice_index_or};
ghost use Rattle.std.specs.List.Sorted.{IsPermutation};
ghost use Rattle.heap.specs.Order.{Heaped};
ghost use Rattle.heap.specs.Sifting.{Rising, Gap, Lesser};

use crate::entry::Entry;

// Whether the entry at i may leave before the one at j.
fn in_order<T: Entry>(s: &[T], i: usize, j: usize) -> bool
    requires { (i < length s.now) × (j < length s.now) }
    ensures { (d : T) → T.upto (slice_index_or s.now i d) (slice_index_or s.now j d) ≡ result }
{
    s[i].precedes(&s[j])
}

// The child of j that leaves first.
fn lesser_child<T: Entry>(s: &[T], j: usize) -> usize
    requires { j * 2 + 1 < length s.now }
    ensures child { (j * 2 + 1 ≤ result) × (result ≤ j * 2 + 2) × (result < length s.now) }
    ensures lesser { Lesser T.upto s.now j result }
{
    let left = j * 2 + 1;
    let right = left + 1;
    if right == s.len() || in_order(s, left, right) {
        left
    } else {
        right
    }
}

// Moves the entry at `at` up, past the parents that it leaves before.
pub(crate) fn sift_up<T: Entry>(s: &mut [T], at: usize)
    requires { at < length s.old }
    ensures shuffled { IsPermutation s.old s.new }
    ensures heaped { Rising T.upto s.old at → Heaped T.upto s.new }
{
    let mut j = at;
    while 0 < j {
        let parent = (j - 1) / 2;
        if in_order(s, parent, j) {
            return;
        }
        s.swap(parent, j);
        j = parent;
    }
}

// Moves the entry at `at` down, past the children that leave before it, and answers where it rests.
fn sift_down<T: Entry>(s: &mut [T], at: usize) -> usize
    requires { at < length s.old }
    ensures within { result < length s.old }
    ensures shuffled { IsPermutation s.old s.new }
    ensures rising { Gap T.upto s.old at → Rising T.upto s.new result }
{
    let mut j = at;
    while j < s.len() / 2 {
        let child = lesser_child(s, j);
        if in_order(s, j, child) {
            return j;
        }
        s.swap(j, child);
        j = child;
    }
    j
}

// Puts the entry at `at`, if there is one, where it belongs.
fn settle<T: Entry>(s: &mut [T], at: usize)
    ensures shuffled { IsPermutation s.old s.new }
    ensures heaped { Gap T.upto s.old at → Heaped T.upto s.new }
{
    if at >= s.len() {
        return;
    }
    let j = sift_down(s, at);
    sift_up(s, j);
}

// Moves the entry at i to the end; the others are a heap again.
pub(crate) fn move_out<T: Entry>(s: &mut [T], i: usize)
    requires { i < length s.old }
    ensures shuffled { IsPermutation s.old s.new }
    ensures last { (d : T) → slice_index_or s.new (length s.old - 1) d ≡ slice_index_or s.old i d }
    ensures heaped { Heaped T.upto s.old → Heaped T.upto (take (length s.old - 1) s.new) }
{
    let last = s.len() - 1;
    s.swap(i, last);
    settle(&mut s[..last], i);
}
