//! The memory of a check: what grants it and counts it, and lists that can't grow.
//!
//! A `Memory` grants lists of a fixed length and room for words, and counts the bytes granted and
//! the requests refused. A `FixedList` lends its elements; a `FilledList` holds one value until an
//! element is set, and its memory is touched only up to the last element that was set. A `WordRoom`
//! has the words that are written so far. A `FuseMemory` refuses one request of another memory, for
//! tests. `copy_short` copies bytes, and is fast where they are few.
//!
//! ```text
//! let mut memory = SystemMemory::new(alloc);
//! let mut notes = memory.numbers(inodes)?;
//! notes.set(number, note);
//! ```
//!
//! It rests on no other crate of this repository.
#![tactic(auto)]

mod counted;
mod filled_list;
mod fixed_list;
mod fuse;
mod memory;
mod short_copy;
mod system;
mod touching;
mod word_room;

pub use filled_list::FilledList;
pub use fixed_list::FixedList;
pub use fuse::FuseMemory;
pub use memory::Memory;
pub use short_copy::copy_short;
pub use system::SystemMemory;
pub use word_room::WordRoom;
