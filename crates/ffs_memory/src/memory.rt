//! What grants memory, and what it grants.
ghost use Rattle.std.specs.Prelude.{◌≡◌, ◌+◌, ◌*◌, ◌≤◌, ℕ, false};
ghost use Rattle.ffs_memory.specs.Account.{Account, Gives, MakesRoom};

use crate::filled_list::FilledList;
use crate::fixed_list::FixedList;
use crate::word_room::WordRoom;
use std::alloc::AllocError;

/// What grants the memory of a check, and counts what it granted and how often it refused. A
/// refusal grants nothing.
pub trait Memory {
    /// How many bytes it has granted, and how many requests it has refused.
    ghost account: { Self → Account };

    /// A count of its requests, which none raises by more than one. A memory that doesn't count its
    /// requests gives 0.
    ghost requests: { Self → ℕ } = { λ _. 0 };

    /// How many bytes it has granted. The count saturates at `u64::MAX`.
    fn granted(&self) -> u64
        ensures { result ≡ (account self.now).granted };

    /// How many requests it has refused. The count saturates at `u64::MAX`.
    fn refused(&self) -> u64
        ensures { result ≡ (account self.now).refused };

    /// Grants `n` bytes, each 0.
    ///
    /// # Errors
    /// The memory was refused.
    fn bytes(&mut self, n: usize) -> Result<FixedList<u8>, AllocError>
        ensures gives { Gives (account self.old) (account self.new) n n 0 result }
        ensures counted { requests self.new ≤ requests self.old + 1 };

    /// Grants `n` flags of a byte each, all false: their memory is taken at once, and none of it is
    /// written yet.
    ///
    /// # Errors
    /// The memory was refused.
    fn flags(&mut self, n: usize) -> Result<FilledList<bool>, AllocError>
        ensures gives { Gives (account self.old) (account self.new) n n false result }
        ensures counted { requests self.new ≤ requests self.old + 1 };

    /// Grants `n` numbers of 32 bits, each 0: their memory is taken at once, and none of it is
    /// written yet.
    ///
    /// # Errors
    /// The memory was refused.
    fn numbers(&mut self, n: usize) -> Result<FilledList<u32>, AllocError>
        ensures gives { Gives (account self.old) (account self.new) n (4 * n) 0 result }
        ensures counted { requests self.new ≤ requests self.old + 1 };

    /// Grants `n` numbers of 64 bits, each 0: their memory is taken at once, and none of it is
    /// written yet.
    ///
    /// # Errors
    /// The memory was refused.
    fn long_numbers(&mut self, n: usize) -> Result<FilledList<u64>, AllocError>
        ensures gives { Gives (account self.old) (account self.new) n (8 * n) 0 result }
        ensures counted { requests self.new ≤ requests self.old + 1 };

    /// Grants room for just `n` words of 64 bits, of which none is written yet.
    ///
    /// # Errors
    /// The memory was refused.
    fn room_for_words(&mut self, n: usize) -> Result<WordRoom, AllocError>
        ensures gives { MakesRoom (account self.old) (account self.new) n 8 result }
        ensures counted { requests self.new ≤ requests self.old + 1 };
}
