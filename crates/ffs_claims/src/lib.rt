//! The block check: which fragments inodes claim, and what is wrong with their claims (phases 1 and
//! 1b of fsck(8)).
//!
//! `phase1` and `phase1b` print the block check's text, and leave kinds, claims, notes and marks in
//! the workspace. `phase1` looks at no more than `runs_limit` Runs (`Report/Memory`), whatever the
//! image holds, and `phase1b` at no more than it did, where the image gives its bytes and the
//! workspace holds what phase 1 noted of them.
//!
//! ```text
//! phase1(&geometry, &mut image, &mut workspace, &mut report)?;
//! if workspace.has_dups() { phase1b(&geometry, &mut image, &mut workspace, &mut report)?; }
//! ```
//!
//! Phase 1 is in `pass1`: `reserve` begins the map with the reserved fragments, `claim` goes over
//! an inode's steps, `silent_addresses` claims addresses of which nothing is to be reported,
//! `offer` takes the Runs of the other steps, by the `area` that each lies in, `store` keeps what
//! is found of an inode, and `free` passes over free inodes side by side. `lines` has the lines of
//! phase 1. Phase 1b is in `pass1b`, and `report_offer` reports its DUP lines.
//!
//! It rests on `ffs_workspace` and `ffs_report`.
#![tactic(auto)]

mod area;
mod claim;
mod free;
mod lines;
mod offer;
mod pass1;
mod pass1b;
mod report_offer;
mod reserve;
mod silent_addresses;
mod store;

pub use pass1::phase1;
pub use pass1b::phase1b;
