//! Laws of the definitions of `ffs_volume`: status 0 is a certificate.
//!
//! A report without a defect, and the end `Consistent`, are each the same as consistency, both ways
//! (`report_is_right`); for directories with nothing marked so is a silent check of them
//! (`silent_is_right`), and for blocks and groups `blocks_and_groups_are_certified`. Each condition
//! of consistency has its messages (`conditions_are_reported`), and a run that stops at the root
//! reports a defect (`stop_is_reported`). Claims are bounded (`claims_are_bounded`), the Runs of an
//! inode hold each logical block once at most, in order (`blocks_rise`), and the fold over steps
//! keeps what the rule says (`keeping_is_by_rule`). Worked images have their whole reports
//! (`examples_hold`). Each function is a law: its contract is the statement, and nothing runs:
//!
//! ```text
//! pub fn report_is_right()
//!     ensures { ReportIsRight }
//! {}
//! ```
//!
//! It rests on `ffs_volume`.
#![tactic(auto)]

ghost use Rattle.ffs_certificate.specs.{BlocksRise.AllBlocksRise, Bounded.ClaimsAreBounded};
ghost use Rattle.ffs_certificate.specs.{Certificate.{BlocksAndGroups, KeepingByRule}, Conditions.ConditionsAreReported};
ghost use Rattle.ffs_certificate.specs.{DirsCertificate.SilentIsRight, WorkedExamples.WorkedExamples};
ghost use Rattle.ffs_certificate.specs.ReportRight.{ReportIsRight, StopIsReported};

/// A law of the definitions: a silent check of blocks and groups certifies them.
pub fn blocks_and_groups_are_certified()
    ensures { BlocksAndGroups }
{}

/// A law of the definitions: the fold over steps keeps what the rule of keeping says.
pub fn keeping_is_by_rule()
    ensures { KeepingByRule }
{}

/// With nothing marked, and no inode of class Partial or Unknown, the three checks of directories
/// report nothing exactly where the directories are consistent.
pub fn silent_is_right()
    ensures { SilentIsRight }
{}

/// The certificate: a report on an accepted superblock has no defect exactly where the image is
/// consistent.
pub fn report_is_right()
    ensures { ReportIsRight }
{}

/// However the addresses of a volume point to one another, the block check sees no more Runs than
/// one for each fragment and 22 for each inode.
pub fn claims_are_bounded()
    ensures { ClaimsAreBounded }
{}

/// Where inode 2 is no directory the run stops in the pathname check, after the line on the root,
/// and a defect was reported by then.
pub fn stop_is_reported()
    ensures { StopIsReported }
{}

/// The conditions of a consistent volume hold exactly where none of the messages that speak for
/// them is reported, where the conditions on classes and Runs hold: each by itself, but those on
/// directories, links and counts together.
pub fn conditions_are_reported()
    ensures { ConditionsAreReported }
{}

/// Whole reports of small images: the base image in both orders, which is consistent, and images
/// with a defect; the bytes of messages; and the steps that an inode keeps.
pub fn examples_hold()
    ensures { WorkedExamples }
{}

/// The Runs of an inode hold each logical block once at most, in order, and none past its size.
pub fn blocks_rise()
    ensures { AllBlocksRise }
{}
