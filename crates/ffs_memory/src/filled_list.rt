//! Lists that hold one value until another is set.
ghost use Rattle.std.specs.Prelude.{◌≡◌, ◌<◌, ◌≤◌, slice_index_or, vec_len};
ghost use Rattle.ffs_memory.specs.Filled.{AreFirst, filled, IsAnyTrue, Limits, LimitsItems, Sets, SetsAll, SortsPart};

use crate::touching::touch;
use std::marker::Model;
use std::ops::Index;

/// A list each of whose elements is one value until another is set. Its memory is taken when it is
/// made, and stays as it was; what lies after the last element that was set isn't written.
#[derive(Drop)]
pub struct FilledList<T> {
    /// The elements that are touched, from index 0 on. Its capacity is the length of the list.
    touched: Vec<T>,
    /// The value of each element that isn't.
    untouched: T,
}

/// It is seen as a `Vec` of all its elements.
impl<T> Model for FilledList<T> {
    ghost use Rattle.std.specs.declared.vec.Vec.{Vec};
    ghost use Rattle.std.specs.declared.alloc.Global.{Global};
    ghost use Rattle.ffs_memory.specs.Filled.{filled};

    ghost Value = { Vec T Global };

    ghost view = { λ list. filled list.touched list.untouched };
}

impl<T: Copy> FilledList<T> {
    /// The elements of `room`, and then as many of `value` as it has room for besides.
    pub(crate) fn over(room: Vec<T>, value: T) -> FilledList<T>
        ensures { result ≡ filled room value }
    {
        FilledList {
            touched: room,
            untouched: value,
        }
    }

    /// How many elements it has.
    #[inline(always)]
    pub fn len(&self) -> usize
        ensures { result ≡ vec_len self.now }
    {
        self.touched.capacity()
    }

    /// The elements up to the last one that was set. The list may have more, all of one value.
    #[inline(always)]
    pub fn touched(&self) -> &[T]
        ensures { AreFirst self.now result.now }
    {
        self.touched.as_slice()
    }

    /// Sets the element at an index. The elements up to it are touched, in the memory that was
    /// taken.
    #[inline(always)]
    #[tactic(auto, using(crate::proofs::Touched::set_filled, crate::proofs::Touched::same_filled))]
    pub fn set(&mut self, index: usize, value: T)
        requires { index < vec_len self.old }
        ensures { Sets self.old self.new index value }
    {
        // Many lists are filled in the order of their indices.
        if self.touched.len() == index {
            self.touched.push_reserved(value);
        } else {
            touch(&mut self.touched, index, self.untouched);
            self.touched[index] = value;
        }
    }

    /// Sets all elements to one value. None is touched then, and the memory is kept.
    pub fn fill(&mut self, value: T)
        ensures { SetsAll self.old self.new value }
    {
        self.touched.clear();
        self.untouched = value;
    }
}

/// Lowers to `most` each number that is above it.
fn limit_items(items: &mut [u64], most: u64)
    ensures { LimitsItems items.old items.new most }
{
    for index in 0..items.len() {
        items[index] = items[index].min(most);
    }
}

impl FilledList<u64> {
    /// Lowers to `most` each element that is above it. No more elements are touched, and the memory
    /// is kept.
    #[tactic(auto, using(crate::proofs::Touched::limit_filled))]
    pub fn limit(&mut self, most: u64)
        ensures { Limits self.old self.new most }
    {
        limit_items(&mut self.touched, most);
        self.untouched = self.untouched.min(most);
    }
}

impl FilledList<bool> {
    /// Whether an element from one index to before another is true: a loop without exit over those
    /// that are touched. All others are alike.
    #[inline(always)]
    #[tactic(auto, using(crate::proofs::Touched::first_filled, crate::proofs::Touched::rest_filled))]
    pub fn is_any_true(&self, from: usize, to: usize) -> bool
        requires { to ≤ vec_len self.now }
        ensures { IsAnyTrue self.now.items from to result }
    {
        let flags = self.touched.as_slice();
        let mut any = self.untouched && from.max(flags.len()) < to;
        for index in from..to.min(flags.len()) {
            any |= flags[index];
        }
        any
    }
}

impl FilledList<u32> {
    /// Puts the elements from one index to before another into ascending order. The elements up to
    /// there are touched, in the memory that was taken.
    pub fn sort_part(&mut self, from: usize, to: usize)
        requires { (from ≤ to) × (to ≤ vec_len self.old) }
        ensures { SortsPart self.old self.new from to }
    {
        if from == to {
            return;
        }
        touch(&mut self.touched, to - 1, self.untouched);
        self.touched[from..to].sort_unstable();
    }
}

impl<T: Copy> Index<usize> for FilledList<T> {
    type Output = T;

    ghost can_index = { λ list i. i < vec_len list };

    ghost index_gives = { λ list i x. x ≡ slice_index_or list.items i x };

    #[inline(always)]
    fn index(&self, index: usize) -> &T {
        if index < self.touched.len() {
            &self.touched[index]
        } else {
            &self.untouched
        }
    }
}
