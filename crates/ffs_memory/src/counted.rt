//! An allocator whose requests are counted.
ghost use Rattle.std.specs.{Prelude.◌≡◌, Mem.type_size};
ghost use Rattle.ffs_memory.specs.{Account.{MakesRoom, unused}, System.allocator_account};

use std::alloc::{AllocError, Global};

/// An allocator that counts the bytes that it was asked for, those that it gave, and the requests
/// that it refused. It can only be
/// asked for room for a list: it gives out no allocator, so that no request goes uncounted.
#[derive(Drop)]
pub(crate) struct CountedAllocator {
    alloc: Global,
    granted: u64,
    refused: u64,
    /// The bytes of all requests, granted or refused.
    asked: u64,
}

impl CountedAllocator {
    /// Counts the requests to this allocator from now on.
    #[tactic(auto, unfolding(crate::specs::System::allocator_account))]
    pub(crate) fn new(alloc: Global) -> CountedAllocator
        ensures { allocator_account result ≡ unused }
    {
        CountedAllocator {
            alloc,
            granted: 0,
            refused: 0,
            asked: 0,
        }
    }

    /// How many bytes it gave. The count saturates at `u64::MAX`.
    #[tactic(auto, unfolding(crate::specs::System::allocator_account))]
    pub(crate) fn granted(&self) -> u64
        ensures { result ≡ (allocator_account self.now).granted }
    {
        self.granted
    }

    /// How many requests it refused. The count saturates at `u64::MAX`.
    #[tactic(auto, unfolding(crate::specs::System::allocator_account))]
    pub(crate) fn refused(&self) -> u64
        ensures { result ≡ (allocator_account self.now).refused }
    {
        self.refused
    }

    /// An empty list with room for just `count` elements of the type of `element`, in one request.
    ///
    /// # Errors
    /// The memory was refused.
    #[tactic(auto, unfolding(crate::specs::System::allocator_account))]
    pub(crate) fn room_for<T: Copy>(
        &mut self,
        count: usize,
        element: T,
    ) -> Result<Vec<T>, AllocError>
        ensures { MakesRoom (allocator_account self.old) (allocator_account self.new) count
            (type_size T.row) result }
    {
        let asked = (size_of_val(&element) as u64).saturating_mul(count as u64);
        self.asked = self.asked.saturating_add(asked);
        match Vec::with_capacity(self.alloc, count) {
            Ok(room) => {
                let bytes = (size_of_val(&element) as u64).saturating_mul(room.capacity() as u64);
                self.granted = self.granted.saturating_add(bytes);
                Ok(room)
            }
            Err(fault) => {
                self.refused = self.refused.saturating_add(1);
                Err(fault)
            }
        }
    }
}
