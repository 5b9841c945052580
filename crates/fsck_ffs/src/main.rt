//! Checks an image of a UFS1 file system, and never writes it: `fsck_ffs -n [-b sector] image`,
//! after fsck(8).
#![tactic(auto)]

use ffs_check::fsck::Fsck;
use ffs_check::start::start;
use std::process::ExitCode;

/// Checks the image that the words ask for.
fn main(rt: HostRuntime) -> ExitCode {
    start::<Fsck>(&rt)
}
