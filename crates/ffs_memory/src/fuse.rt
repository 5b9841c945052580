//! A memory that refuses a request where it is asked to.
ghost use Rattle.std.specs.Prelude.{◌*◌, false};
ghost use Rattle.ffs_memory.specs.{Account.{Gives, MakesRoom}, Fuse.{BurnsAtRequest, CountsRequest, IsFusedMemory}};

use crate::filled_list::FilledList;
use crate::fixed_list::FixedList;
use crate::memory::Memory;
use crate::word_room::WordRoom;
use std::alloc::AllocError;

/// A memory that passes requests on to another one, and refuses one of them: for tests of what a
/// refusal leaves.
#[derive(Drop)]
pub struct FuseMemory<M> {
    inner: M,
    /// How many requests are left up to the one that is refused, with that one; 0 where none will
    /// be refused.
    left: u64,
    /// How many requests the fuse itself has refused.
    own: u64,
    /// The bytes of these.
    own_bytes: u64,
}

impl<M: Memory> FuseMemory<M> {
    /// A memory that passes requests on to `inner`, but refuses the `k`-th one from now on, counted
    /// from 1. Where `k` is 0, it passes all on.
    pub fn nth(inner: M, k: u64) -> FuseMemory<M>
        ensures { IsFusedMemory M.account ⟦<FuseMemory<M> as Memory>⟧.account inner k result }
    {
        // The count below is at most `u64::MAX`: `own`, which is 0 yet, leaves it as it is.
        let _bounded = inner.refused();
        FuseMemory {
            inner,
            left: k,
            own: 0,
            own_bytes: 0,
        }
    }

    /// Counts a request for `n` elements of `size` bytes, and says whether it is the one to be
    /// refused, which `own` and `own_bytes` count too.
    fn blows(&mut self, n: usize, size: u64) -> bool
        ensures { CountsRequest self.old self.new (size * n) result }
    {
        let is_last = self.left == 1;
        self.left = self.left.saturating_sub(1);
        if is_last {
            self.own = self.own.saturating_add(1);
            self.own_bytes = self.own_bytes.saturating_add(size.saturating_mul(n as u64));
        }
        is_last
    }
}

impl<M: Memory> Memory for FuseMemory<M> {
    ghost use Rattle.std.specs.Prelude.{◌+◌, min, ◌-◌, ◌^◌};

    ghost account = { λ f. let a = M.account f.inner in record a {
      refused = min (a.refused + f.own) (2 ^ 64 - 1);
      asked = a.asked + f.own_bytes;
    } };

    ghost requests = { λ f. M.requests f.inner };

    fn granted(&self) -> u64 {
        self.inner.granted()
    }

    fn refused(&self) -> u64 {
        self.inner.refused().saturating_add(self.own)
    }

    fn bytes(&mut self, n: usize) -> Result<FixedList<u8>, AllocError>
        ensures given { Gives (⟦<FuseMemory<M> as Memory>⟧.account self.old)
            (⟦<FuseMemory<M> as Memory>⟧.account self.new) n n 0 result }
        ensures fuse { BurnsAtRequest M.Memory self.old self.new n result }
    {
        if self.blows(n, 1) {
            return Err(AllocError);
        }
        self.inner.bytes(n)
    }

    fn flags(&mut self, n: usize) -> Result<FilledList<bool>, AllocError>
        ensures given { Gives (⟦<FuseMemory<M> as Memory>⟧.account self.old)
            (⟦<FuseMemory<M> as Memory>⟧.account self.new) n n false result }
        ensures fuse { BurnsAtRequest M.Memory self.old self.new n result }
    {
        if self.blows(n, 1) {
            return Err(AllocError);
        }
        self.inner.flags(n)
    }

    fn numbers(&mut self, n: usize) -> Result<FilledList<u32>, AllocError>
        ensures given { Gives (⟦<FuseMemory<M> as Memory>⟧.account self.old)
            (⟦<FuseMemory<M> as Memory>⟧.account self.new) n (4 * n) 0 result }
        ensures fuse { BurnsAtRequest M.Memory self.old self.new (4 * n) result }
    {
        if self.blows(n, 4) {
            return Err(AllocError);
        }
        self.inner.numbers(n)
    }

    fn long_numbers(&mut self, n: usize) -> Result<FilledList<u64>, AllocError>
        ensures given { Gives (⟦<FuseMemory<M> as Memory>⟧.account self.old)
            (⟦<FuseMemory<M> as Memory>⟧.account self.new) n (8 * n) 0 result }
        ensures fuse { BurnsAtRequest M.Memory self.old self.new (8 * n) result }
    {
        if self.blows(n, 8) {
            return Err(AllocError);
        }
        self.inner.long_numbers(n)
    }

    fn room_for_words(&mut self, n: usize) -> Result<WordRoom, AllocError>
        ensures given { MakesRoom (⟦<FuseMemory<M> as Memory>⟧.account self.old)
            (⟦<FuseMemory<M> as Memory>⟧.account self.new) n 8 result }
        ensures fuse { BurnsAtRequest M.Memory self.old self.new (8 * n) result }
    {
        if self.blows(n, 8) {
            return Err(AllocError);
        }
        self.inner.room_for_words(n)
    }
}
