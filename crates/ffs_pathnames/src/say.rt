//! Lines of phase 2, one or two, each where it holds.
ghost use Rattle.std.specs.Prelude.{true};
ghost use Rattle.ffs_volume.specs.Messages.Kinds.{reported};
ghost use Rattle.ffs_report.specs.Progress.{progress};
ghost use Rattle.ffs_pathnames.specs.SaysTreeMessages.{SaysTreeMessages, phase2_message, two_reported};

use ffs_report::{DirectoryLine, DotLine, EntryLine, Line, OutFault, Output, Report};

/// A line of phase 2. A `Line` has all lines of a report, and takes longer to make (DECISIONS.md,
/// "Output").
#[derive(Clone, Copy, Debug)]
pub enum Phase2Line<'a> {
    /// On a directory as a whole.
    Directory(DirectoryLine<&'a [u8]>),
    /// On an entry `.` or `..`.
    Dot(DotLine<&'a [u8]>),
    /// On another entry.
    Entry(EntryLine<&'a [u8]>),
}

/// A line, and whether it is to be reported.
#[derive(Clone, Copy, Debug)]
pub struct LineIf<'a> {
    /// Whether it is to be reported.
    pub holds: bool,
    /// The line.
    pub line: Phase2Line<'a>,
}

/// Says a line.
///
/// # Errors
/// A write of the report that failed.
pub fn say_line<W: Output>(
    line: &Phase2Line<'_>,
    report: &mut Report<'_, W>,
) -> Result<(), OutFault>
    ensures { SaysTreeMessages (progress W.sink report.old) (progress W.sink report.new)
        (reported true (phase2_message line.now)) result }
{
    match *line {
        Phase2Line::Directory(line) => report.say(&Line::Directory(line)),
        Phase2Line::Dot(line) => report.say(&Line::Dot(line)),
        Phase2Line::Entry(line) => report.say(&Line::Entry(line)),
    }
}

/// Says a line where its test holds.
///
/// # Errors
/// A write of the report that failed.
pub fn say_if<W: Output>(line: &LineIf<'_>, report: &mut Report<'_, W>) -> Result<(), OutFault>
    ensures { SaysTreeMessages (progress W.sink report.old) (progress W.sink report.new)
        (reported line.now.holds (phase2_message line.now.line)) result }
{
    if line.holds {
        return say_line(&line.line, report);
    }
    Ok(())
}

/// Says two lines, each where its test holds.
///
/// # Errors
/// A write of the report that failed.
#[tactic(auto, using(crate::proofs::Saying::first_stops))]
pub fn say_two<W: Output>(
    first: &LineIf<'_>,
    second: &LineIf<'_>,
    report: &mut Report<'_, W>,
) -> Result<(), OutFault>
    ensures { SaysTreeMessages (progress W.sink report.old) (progress W.sink report.new)
        (two_reported first.now second.now) result }
{
    say_if(first, report)?;
    say_if(second, report)
}
