//! The check of connectivity: which directories are lost (phase 3 of fsck(8)).
//!
//! `phase3` prints the connectivity check's text: one line for each lost tree or cycle of
//! directories. `flag_leaders`, which it calls, flags one directory of each cycle of parents.
//!
//! ```text
//! phase3(&geometry, &mut image, &mut workspace, &mut report)?;
//! ```
//!
//! It rests on `ffs_survey`, `ffs_workspace` and `ffs_report`.
#![tactic(auto)]

mod cycles;
mod pass3;
mod unref;

pub use cycles::flag_leaders;
pub use pass3::phase3;
