//! Words that are written one after another, in memory that is taken before.
ghost use Rattle.std.specs.{Prelude.{◌≡◌, ◌∷◌, [], ◌-◌, ◌<◌, ◌≤◌, replicate, slice_index_or, vec_capacity, vec_len}, Vec.with_item};
ghost use Rattle.ffs_memory.specs.{Filled.AreItems, Touching.TouchesTo};

use std::marker::Model;
use std::mem::replace;
use std::ops::Index;

/// Words of 64 bits, as many as are written, in memory that has room for more. It lends them, and
/// gives out neither its `Vec` nor an allocator, so nobody can make it grow beyond its room.
#[derive(Drop)]
pub struct WordRoom {
    words: Vec<u64>,
}

impl Model for WordRoom {
    ghost use Rattle.std.specs.Prelude.{ℕ};
    ghost use Rattle.std.specs.declared.vec.Vec.{Vec};
    ghost use Rattle.std.specs.declared.alloc.Global.{Global};

    ghost Value = { Vec ℕ Global };

    ghost view = { λ room. room.words };
}

impl WordRoom {
    /// The words of this list, in its memory.
    pub(crate) fn over(words: Vec<u64>) -> WordRoom
        ensures { result ≡ words }
    {
        WordRoom { words }
    }

    /// How many words are written.
    #[inline(always)]
    pub fn len(&self) -> usize
        ensures { result ≡ vec_len self.now }
    {
        self.words.len()
    }

    /// How many words its memory has room for.
    pub fn room(&self) -> usize
        ensures { result ≡ vec_capacity self.now }
    {
        self.words.capacity()
    }

    /// The words that are written.
    #[inline(always)]
    pub fn as_slice(&self) -> &[u64]
        ensures { AreItems self.now result.now }
    {
        self.words.as_slice()
    }

    /// Writes one word more.
    pub fn push(&mut self, word: u64)
        requires { vec_len self.old < vec_capacity self.old }
        ensures { TouchesTo self.old self.new (word ∷ []) }
    {
        self.words.push_reserved(word);
    }

    /// Writes words of 0 until there are `end` in all. The list is a local value meanwhile, so that
    /// all are written in one go.
    pub fn push_zeros(&mut self, end: usize)
        requires { (vec_len self.old ≤ end) × (end ≤ vec_capacity self.old) }
        ensures { TouchesTo self.old self.new (replicate (end - vec_len self.old) 0) }
    {
        let empty = Vec::new(*self.words.allocator());
        let mut list = replace(&mut self.words, empty);
        let mut len = list.len();
        while len < end {
            list.push_reserved(0);
            len += 1;
        }
        self.words = list;
    }

    /// Sets the word at an index.
    #[inline(always)]
    pub fn set(&mut self, index: usize, word: u64)
        requires { index < vec_len self.old }
        ensures { self.new ≡ with_item self.old index word }
    {
        self.words[index] = word;
    }
}

impl Index<usize> for WordRoom {
    type Output = u64;

    ghost can_index = { λ room i. i < vec_len room };

    ghost index_gives = { λ room i x. x ≡ slice_index_or room.items i x };

    #[inline(always)]
    fn index(&self, index: usize) -> &u64 {
        &self.words[index]
    }
}
