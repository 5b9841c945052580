//! The class of an inode, and a walk over its blocks, in the order of its addresses (fs(5)).
//!
//! `Walk::next` returns the steps of the definition (`Blocks/Steps` of `ffs_volume`) one by one:
//! Runs of fragments, Gaps (holes), and Tails (indirect blocks with an address past the end of the
//! file). It reads each indirect block in range once, unless another walk uses the same `Blocks` in
//! between, into the part of their buffer that is for its level (0 for one with addresses of data:
//! the level of the addresses in it, not that of its own address). `Keeping` says, step after step,
//! which steps an inode keeps, by its cut and by its bad Runs so far; `SeenRuns` gives its Runs
//! alone, each with how many of its offers are kept. A `Window` keeps a piece of an image between
//! reads.
//!
//! `class_of` gives the class of an inode, and `has_steps` says which classes have steps at all. An
//! inode has none where `is_device` or `is_short_symlink` holds: something else is in place of its
//! addresses.
//!
//! ```text
//! let mut walk = Walk::start(geometry, &inode);
//! while let Some(step) = walk.next(image, blocks)? { .. }
//! ```
//!
//! It rests on `ffs_layout` and `ffs_memory`.
#![tactic(auto)]

mod blocks;
mod class;
mod frame;
mod keeping;
mod pieces;
mod seen_runs;
mod walk;
mod window;
mod words;

pub use blocks::Blocks;
pub use class::{class_of, has_steps, is_device, is_short_symlink};
pub use keeping::Keeping;
pub use seen_runs::{SeenRun, SeenRuns};
pub use walk::Walk;
pub use window::Window;
pub use words::any_set;
