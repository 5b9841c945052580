//! Messages that are reported once.

ghost use Rattle.std.specs.Prelude.{◌≡◌, map, OnOk};
ghost use Rattle.ffs_volume.specs.Messages.Kinds.{of_blocks};
ghost use Rattle.ffs_volume.specs.Groups.GroupCheck.{is_reported, note_reported, reported_once, unless};
ghost use Rattle.ffs_report.specs.Progress.{progress, Says};
ghost use Rattle.ffs_groups.specs.Check.{lines_of};
ghost use Rattle.ffs_counts.specs.Once.{reported_of, reported_after};

use ffs_groups::GroupFindings;
use ffs_report::{Line, OutFault, Output, Report};
use ffs_volume::BlockMessage;

/// Which of the messages that come once in a run were reported.
#[derive(Clone, Copy, Debug)]
pub struct AlreadyReported {
    /// FREE BLK COUNT(S) WRONG.
    pub counts: bool,
    /// BLK(S) MISSING.
    pub maps: bool,
    /// SUMMARY INFORMATION BAD.
    pub sums: bool,
}

impl AlreadyReported {
    ghost use Rattle.ffs_volume.specs.Groups.GroupCheck.{unreported};

    /// None was reported.
    pub fn new() -> AlreadyReported
        ensures { reported_of result ≡ unreported }
    {
        AlreadyReported {
            counts: false,
            maps: false,
            sums: false,
        }
    }

    /// Whether this message comes once, and was reported.
    fn is_reported(&self, message: BlockMessage) -> bool
        ensures { result ≡ is_reported (reported_of self.now) message }
    {
        match message {
            BlockMessage::FreeCounts => self.counts,
            BlockMessage::MapsWrong => self.maps,
            BlockMessage::GroupSums => self.sums,
            _ => false,
        }
    }

    /// Notes that this message was reported, if it comes once.
    fn note_reported(&mut self, message: BlockMessage)
        ensures { reported_of self.new ≡ note_reported (reported_of self.old) message }
    {
        match message {
            BlockMessage::FreeCounts => self.counts = true,
            BlockMessage::MapsWrong => self.maps = true,
            BlockMessage::GroupSums => self.sums = true,
            _ => (),
        }
    }
}

/// Says a message where a test fails, unless it was reported before and comes once.
///
/// # Errors
/// A write of the report that failed.
pub fn say_unless<W: Output>(
    once: &mut AlreadyReported,
    right: bool,
    message: BlockMessage,
    report: &mut Report<'_, W>,
) -> Result<(), OutFault>
    ensures said { Says (progress W.sink report.old) (progress W.sink report.new)
        (map of_blocks (reported_once (reported_of once.old) (unless right message))) result }
    ensures reported { reported_of once.new
        ≡ reported_after (reported_of once.old) (unless right message) }
{
    if right || once.is_reported(message) {
        return Ok(());
    }
    once.note_reported(message);
    report.say(&Line::Block(message))
}

/// Says what is wrong with the records of a group. Each of the messages that come once is said only
/// where it wasn't before.
///
/// # Errors
/// A write of the report that failed.
pub fn say_group<W: Output>(
    once: &mut AlreadyReported,
    found: &GroupFindings,
    group: u32,
    report: &mut Report<'_, W>,
) -> Result<(), OutFault>
    ensures said { Says (progress W.sink report.old) (progress W.sink report.new)
        (map of_blocks (reported_once (reported_of once.old) (lines_of found.now group))) result }
    ensures reported { OnOk result (reported_of once.new
        ≡ reported_after (reported_of once.old) (lines_of found.now group)) }
{
    if !found.magic_right {
        report.say(&Line::Block(BlockMessage::GroupMagic { group }))?;
        return say_unless(once, found.counts_right, BlockMessage::FreeCounts, report);
    }
    say_unless(once, found.counts_right, BlockMessage::FreeCounts, report)?;
    say_unless(once, found.maps_right, BlockMessage::MapsWrong, report)?;
    say_unless(once, found.sums_right, BlockMessage::GroupSums, report)
}
