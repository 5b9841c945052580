//! The memory of the system.
ghost use Rattle.std.specs.{Prelude.{◌≡◌, ◌*◌}, Mem.type_size};
ghost use Rattle.ffs_memory.specs.Account.{Gives, unused};

use crate::counted::CountedAllocator;
use crate::filled_list::FilledList;
use crate::fixed_list::FixedList;
use crate::memory::Memory;
use crate::word_room::WordRoom;
use std::alloc::{AllocError, Global};

/// The memory of an allocator. It takes room for what it grants, and none beside.
#[derive(Drop)]
pub struct SystemMemory {
    allocator: CountedAllocator,
}

impl SystemMemory {
    ghost use Rattle.ffs_memory.specs.System.{account_of};

    /// The memory of this allocator, of which nothing was granted or refused yet.
    pub fn new(alloc: Global) -> SystemMemory
        ensures { account_of result ≡ unused }
    {
        SystemMemory {
            allocator: CountedAllocator::new(alloc),
        }
    }

    /// A list of `n` elements that are all written now, each as `value`. The list is this
    /// function's own and not lent, so all are written in one go.
    fn written<T: Copy>(&mut self, n: usize, value: T) -> Result<FixedList<T>, AllocError>
        ensures { Gives (account_of self.old) (account_of self.new) n (type_size T.row * n) value
            result }
    {
        let mut items = self.allocator.room_for(n, value)?;
        let mut made = 0;
        while made < n {
            items.push_reserved(value);
            made += 1;
        }
        Ok(FixedList::new(items))
    }

    /// A list of `n` elements, each of them `value`, of which none is written yet.
    fn unwritten<T: Copy>(&mut self, n: usize, value: T) -> Result<FilledList<T>, AllocError>
        ensures { Gives (account_of self.old) (account_of self.new) n (type_size T.row * n) value
            result }
    {
        let room = self.allocator.room_for(n, value)?;
        Ok(FilledList::over(room, value))
    }
}

impl Memory for SystemMemory {
    ghost use Rattle.ffs_memory.specs.System.{account_of};

    ghost account = { account_of };

    fn granted(&self) -> u64 {
        self.allocator.granted()
    }

    fn refused(&self) -> u64 {
        self.allocator.refused()
    }

    fn bytes(&mut self, n: usize) -> Result<FixedList<u8>, AllocError> {
        self.written(n, 0)
    }

    fn flags(&mut self, n: usize) -> Result<FilledList<bool>, AllocError> {
        self.unwritten(n, false)
    }

    fn numbers(&mut self, n: usize) -> Result<FilledList<u32>, AllocError> {
        self.unwritten(n, 0)
    }

    fn long_numbers(&mut self, n: usize) -> Result<FilledList<u64>, AllocError> {
        self.unwritten(n, 0)
    }

    fn room_for_words(&mut self, n: usize) -> Result<WordRoom, AllocError> {
        let room = self.allocator.room_for(n, 0u64)?;
        Ok(WordRoom::over(room))
    }
}
