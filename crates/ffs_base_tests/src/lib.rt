//! Tests of the public calls of the crates below the phases. They are here so that no crate is
//! proved twice for them, and so that they are proved beside the phases.
#![tactic(auto)]

#[cfg(test)]
mod compare;
#[cfg(test)]
mod groups;
#[cfg(test)]
mod kinds;
#[cfg(test)]
mod layout;
#[cfg(test)]
mod maps;
#[cfg(test)]
mod muted;
#[cfg(test)]
mod phase;
#[cfg(test)]
mod report;
#[cfg(test)]
mod survey;
#[cfg(test)]
mod walk;
#[cfg(test)]
mod workspace;
