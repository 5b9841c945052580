//! Looks in an image of a UFS1 file system for what a report sends one to, and never writes it:
//! `ffs_find COMMAND image`.
#![tactic(auto)]

use ffs_check::start::start;
use ffs_finding::run::Find;
use std::process::ExitCode;

/// Looks for what the words ask for.
fn main(rt: HostRuntime) -> ExitCode {
    start::<Find>(&rt)
}
