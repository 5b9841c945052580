//! A report over an output.
ghost use Rattle.std.specs.Prelude.{◌≡◌};
ghost use Rattle.ffs_volume.specs.Messages.Kinds.{is_defect, of_blocks};
ghost use Rattle.ffs_report.specs.{Lines.message_of, Progress.{progress, starts, AfterPrinting, SaysOne}};

use crate::dup_line::DupLine;
use crate::line::Line;
use crate::line_buffer::LineBuffer;
use crate::output::{OutFault, Output};
use crate::print::print;
use crate::print_line::print_gathered;
use ffs_volume::BlockMessage;

/// The lines that are said on an output, up to the first one that fails.
#[derive(Drop)]
pub struct Report<'a, W> {
    out: &'a mut W,
    /// The buffer in which a line is gathered.
    text: LineBuffer,
    /// The last DUP line.
    dup: DupLine,
    /// Whether a line has failed.
    failed: bool,
    /// Whether a defect was said.
    defect: bool,
}

/// Whether a line reports a defect of the volume.
fn is_defect(line: &Line<'_>) -> bool
    ensures { result ≡ is_defect (message_of line.now) }
{
    match line {
        Line::Optimization | Line::Minfree { .. } => true,
        Line::Block(_) | Line::Directory(_) | Line::Dot(_) | Line::Entry(_) | Line::Reference(_) =>
            true,
        Line::Location { .. }
        | Line::ImageName { .. }
        | Line::BadSuper(_)
        | Line::CannotRead { .. }
        | Line::CannotAlloc
        | Line::Mounted { .. }
        | Line::Heading(_)
        | Line::Summary { .. } => false,
    }
}

impl<'a, W: Output> Report<'a, W> {
    /// A report of which nothing is said yet.
    pub fn new(out: &'a mut W) -> Report<'a, W>
        ensures { progress W.sink result ≡ starts (out.entry.ghost_name) (W.sink out.old) }
    {
        Report {
            out,
            text: LineBuffer::new(),
            dup: DupLine::new(0),
            failed: false,
            defect: false,
        }
    }

    /// Whether a line that reports a defect was said by a call that returned `Ok`.
    pub fn any_defect(&self) -> bool
        ensures { result ≡ (progress W.sink self.now).defect }
    {
        self.defect
    }

    /// Records whether a line was printed, and returns that.
    #[inline(always)]
    fn after(&mut self, printed: Result<(), OutFault>, is_defect: bool) -> Result<(), OutFault>
        ensures { AfterPrinting self.old self.new printed is_defect result }
    {
        match printed {
            Ok(()) => {
                self.defect = self.defect || is_defect;
                Ok(())
            }
            Err(fault) => {
                self.failed = true;
                Err(fault)
            }
        }
    }

    /// Says a line of any kind.
    #[tactic(auto, unfolding(crate::specs::Progress::GoesInOnePut))]
    fn say_any(&mut self, line: &Line<'_>) -> Result<(), OutFault>
        ensures { SaysOne W.sink W.was_put self.old self.new (message_of line.now) result }
    {
        if self.failed {
            return Err(OutFault);
        }
        let printed = print_gathered(self.out, &mut self.text, line);
        self.after(printed, is_defect(line))
    }

    /// Says a DUP line, of a fragment and an inode. Where a volume has many defects, most of its
    /// lines are of this kind, so what a line shares with the one before it isn't made again.
    #[tactic(auto, unfolding(crate::specs::Progress::GoesInOnePut))]
    fn say_dup_line(&mut self, fragment: u32, inode: u32) -> Result<(), OutFault>
        ensures { SaysOne W.sink W.was_put self.old self.new
            (of_blocks (BlockMessage.Dup fragment inode)) result }
    {
        let printed = if self.failed {
            Err(OutFault)
        } else {
            print(self.out, self.dup.line(fragment, inode))
        };
        self.after(printed, true)
    }

    /// Says a line, with its questions: by one put, where its text has less than 2,048 bytes.
    ///
    /// Inlined, so that the match is decided at compile time where the line is a literal.
    ///
    /// # Errors
    /// A write that failed. A prefix of the line's bytes may have gone out then, and each later
    /// call returns `Err` and writes nothing.
    #[inline(always)]
    pub fn say(&mut self, line: &Line<'_>) -> Result<(), OutFault>
        ensures { SaysOne W.sink W.was_put self.old self.new (message_of line.now) result }
    {
        match line {
            Line::Block(BlockMessage::Dup { fragment, inode }) => {
                self.say_dup_line(*fragment, *inode)
            }
            _ => self.say_any(line),
        }
    }
}
