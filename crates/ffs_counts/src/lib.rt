//! Phases 4 and 5 of the check (reference counts and cylinder groups, fsck(8)), and the summary.
//!
//! `phase4`, `phase5` and `summary` print their texts, from what the earlier phases left in the
//! workspace.
//!
//! ```text
//! phase4(&geometry, &mut image, &mut workspace, &mut report)?;
//! phase5(&superblock, &mut image, &mut workspace, &mut report)?;
//! summary(&superblock, &workspace, &mut report)?;
//! ```
//!
//! Phase 4 is in `pass4`, with the line of an inode in `reference`. Phase 5 is in `pass5`: `groups`
//! reads the records of a group, `once` says the messages that come once, and `totals` sums all
//! groups up; what is right of a group, and the comparison with it, is in the crate `ffs_groups`.
//! The summary is in `summing`. `numbers` compares a signed number of the volume with a count.
//!
//! It rests on `ffs_groups`, `ffs_survey`, `ffs_workspace` and `ffs_report`.
#![tactic(auto)]

mod groups;
mod numbers;
mod once;
mod pass4;
mod pass5;
mod reference;
mod summing;
mod totals;

pub use pass4::phase4;
pub use pass5::phase5;
pub use summing::summary;
