//! Lists whose length and memory stay as they were made.
ghost use Rattle.std.specs.{Prelude.{◌≡◌, ◌<◌, slice_index_or, vec_len}, Borrow.sem};
ghost use Rattle.ffs_memory.specs.Filled.{AreItems};

use std::marker::Model;
use std::ops::{DerefSlice, DerefSliceMut, Index, IndexMut};

/// A list whose elements change and whose length and memory do not: it lends its elements, and
/// gives out neither its `Vec` nor an allocator, so nobody can make it grow.
#[derive(Drop)]
pub struct FixedList<T> {
    items: Vec<T>,
}

impl<T> Model for FixedList<T> {
    ghost use Rattle.std.specs.declared.vec.Vec.{Vec};
    ghost use Rattle.std.specs.declared.alloc.Global.{Global};

    ghost Value = { Vec T Global };

    ghost view = { λ list. list.items };
}

impl<T> FixedList<T> {
    ghost use Rattle.ffs_memory.specs.Lending.{LendsItems};

    /// A list of these elements.
    pub fn new(items: Vec<T>) -> FixedList<T>
        ensures { result ≡ items }
    {
        FixedList { items }
    }

    /// How many elements it has.
    #[inline(always)]
    pub fn len(&self) -> usize
        ensures { result ≡ vec_len self.now }
    {
        self.items.len()
    }

    /// Its elements.
    #[inline(always)]
    pub fn as_slice(&self) -> &[T]
        ensures { AreItems self.now result.now }
    {
        self.items.as_slice()
    }

    /// Its elements, to be changed.
    #[inline(always)]
    pub fn as_mut_slice(&mut self) -> &mut [T]
        ensures* writes_back { sem 𝓛 (LendsItems T.row self.entry result) }
        ensures shown { AreItems self.old result.now }
    {
        self.items.as_mut_slice()
    }
}

impl<T> DerefSlice for FixedList<T> {
    type Elem = T;

    ghost deref_gives = { AreItems };

    #[inline(always)]
    fn deref(&self) -> &[T] {
        self.as_slice()
    }
}

impl<T> DerefSliceMut for FixedList<T> {
    ghost use Rattle.ffs_memory.specs.Lending.{LendsItems};

    #[inline(always)]
    fn deref_mut(&mut self) -> &mut [T]
        ensures* writes_back { sem 𝓛 (LendsItems T.row self.entry result) }
        ensures shown { AreItems self.old result.now }
    {
        self.as_mut_slice()
    }
}

impl<T> Index<usize> for FixedList<T> {
    type Output = T;

    ghost can_index = { λ list i. i < vec_len list };

    ghost index_gives = { λ list i x. x ≡ slice_index_or list.items i x };

    #[inline(always)]
    fn index(&self, index: usize) -> &T {
        &self.items[index]
    }
}

impl<T> IndexMut<usize> for FixedList<T> {
    ghost use Rattle.ffs_memory.specs.Lending.{LendsItem};

    #[inline(always)]
    fn index_mut(&mut self, index: usize) -> &mut T
        requires { index < vec_len self.old }
        ensures* writes_back { sem 𝓛 (LendsItem T.row self.entry index result) }
        ensures value { result.now ≡ slice_index_or self.old.items index result.now }
    {
        &mut self.items[index]
    }
}
