//! Tests of the public calls of the crates of phases, of those that read directories and make
//! paths, of the whole check: its end, its reads, its memory, and of what `ffs_find` finds. They are
//! here so that no crate is proved twice for them, and so that the program uses no crate but the
//! check.
#![tactic(auto)]

#[cfg(test)]
mod calls;
#[cfg(test)]
mod check;
#[cfg(test)]
mod claims;
#[cfg(test)]
mod compare;
#[cfg(test)]
mod connectivity;
#[cfg(test)]
mod counts;
#[cfg(test)]
mod files;
#[cfg(test)]
mod find;
#[cfg(test)]
mod image;
#[cfg(test)]
mod memory;
#[cfg(test)]
mod names;
#[cfg(test)]
mod pathnames;
#[cfg(test)]
mod paths;
#[cfg(test)]
mod places;
#[cfg(test)]
mod reads;
#[cfg(test)]
mod surveys;
