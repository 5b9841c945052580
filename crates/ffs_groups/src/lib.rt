//! The right records of a cylinder group, counted from a map of used fragments and the kinds of
//! inodes, and the comparison of the image's records with them.
//!
//! `group_counts` counts what is right of a group (`Counts`, with the `SummaryCounts` of its
//! record), by what is in use (`InUse`), and `compare_group` finds where its group block and its
//! summary record differ from it (`GroupFindings`). `same_fragment_map` compares its map of
//! fragments alone, `group_fragments` says how many it has, and `all_or_none_allocated` whether
//! all of some inodes are allocated, or none is.
//!
//! ```text
//! let counts = group_counts(&geometry, &used, kinds, group);
//! let in_use = InUse { fragments: &used, kinds };
//! let findings = compare_group(&geometry, &in_use, &counts, group, summary, block);
//! ```
//!
//! It rests on `ffs_maps` and `ffs_layout`.
#![tactic(auto)]

mod check;
mod counts;
mod free;
mod inodes;
mod maps;

pub use check::{GroupFindings, InUse, compare_group};
pub use counts::{Counts, SummaryCounts, group_counts};
pub use inodes::all_or_none_allocated;
pub use maps::{group_fragments, same_fragment_map};
