//! Finds in an image what is asked for, and says how that ended.
ghost use Rattle.std.specs.Prelude.{◌≡◌, ◌+◌, ◌*◌, ◌≤◌, ℕ, Option};
ghost use Rattle.ffs_volume.specs.{Messages.Texts.text_of, Disk.Areas.FitsIn};
ghost use Rattle.ffs_report.specs.{Lines.message_of, Sink.Prints};
ghost use Rattle.ffs_layout.specs.Super.{superblock_in};
ghost use Rattle.ffs_check.specs.Moment.{moment};
ghost use Rattle.ffs_finding.specs.Headline.{AnswersCommand, EndsBy, FindsCommand, FindsTarget, TakesForTarget};
ghost use Rattle.ffs_finding.specs.Headline.{command_requests, target_requests};
ghost use Rattle.ffs_finding.specs.declared.find.FindFault.TheVariants.{Failed, NoMemory};
ghost use Rattle.ffs_finding.specs.declared.request.{Target.TheVariants.{Lost, Owner}, Command.TheVariants.Copies};
ghost use Rattle.ffs_finding.specs.declared.request.Command.TheVariants.{InVolume};
ghost use Rattle.ffs_workspace.specs.Ready.{workspace_requests};

use crate::claims::claimed_workspace;
use crate::copies::{WINDOW_BYTES, find_copies};
use crate::fields::find_wrong_fields;
use crate::inode::find_inode;
use crate::lost::find_lost;
use crate::owner::find_owner;
use crate::request::{Command, Target};
use ffs_check::opening::fault_line;
use ffs_check::run::NOT_COMPLETED;
use ffs_image::Image;
use ffs_layout::{Super, read_super};
use ffs_memory::Memory;
use ffs_report::{Line, OutFault, Output, Report, RunFault};
use ffs_volume::SuperFault;
use ffs_walk::Window;
use std::alloc::AllocError;

/// What ends a command before its end.
#[derive(Clone, Copy, Debug)]
pub(crate) enum FindFault {
    /// The superblock is refused, or can't be read.
    Refused(SuperFault),
    /// A later read failed, or the output did.
    Failed(RunFault),
    /// The memory was refused.
    NoMemory,
}

impl From<RunFault> for FindFault {
    ghost from_gives = { λ run fault. fault ≡ Failed run };

    fn from(fault: RunFault) -> Self {
        FindFault::Failed(fault)
    }
}

impl From<AllocError> for FindFault {
    ghost from_gives = { λ refused fault. fault ≡ NoMemory };

    fn from(_refused: AllocError) -> Self {
        FindFault::NoMemory
    }
}

/// Finds in an image what a command asks for, prints it, and returns the exit status: 0, 1 where a
/// defect was found, or 8 where it didn't run to its end.
///
/// A superblock that is refused and a read that failed are reported as a check does; after a write
/// that failed nothing more is printed.
pub fn find_in<M: Memory, I: Image, W: Output>(
    memory: &mut M,
    image: &mut I,
    command: Command,
    out: &mut W,
) -> u8
    ensures finds { FindsCommand command (moment I.Image W.Output image.old out.old)
        (moment I.Image W.Output image.new out.new) (M.account memory.old) (M.account memory.new)
        result }
    ensures requests { M.requests memory.new ≤ M.requests memory.old + command_requests command }
{
    let answer = find(memory, image, command, out);
    end(answer, out)
}

/// Finds in an image what a command asks for, and prints it, but for the line of a fault. Returns
/// whether a defect was found.
///
/// # Errors
/// The superblock is refused, a read of the image or a write failed, or the memory was refused.
fn find<M: Memory, I: Image, W: Output>(
    memory: &mut M,
    image: &mut I,
    command: Command,
    out: &mut W,
) -> Result<bool, FindFault>
    ensures finds { AnswersCommand command (moment I.Image W.Output image.old out.old)
        (moment I.Image W.Output image.new out.new) (M.account memory.old) (M.account memory.new)
        result }
    ensures requests { M.requests memory.new ≤ M.requests memory.old + command_requests command }
{
    match command {
        Command::Copies => find_copies_by_window(memory, image, out),
        Command::InVolume { target, sector } => find_in_volume(memory, image, target, sector, out),
    }
}

/// Takes a window, and finds copies of the superblock, none of which is a defect.
fn find_copies_by_window<M: Memory, I: Image, W: Output>(
    memory: &mut M,
    image: &mut I,
    out: &mut W,
) -> Result<bool, FindFault>
    ensures finds { AnswersCommand Copies (moment I.Image W.Output image.old out.old)
        (moment I.Image W.Output image.new out.new) (M.account memory.old) (M.account memory.new)
        result }
    ensures requests { M.requests memory.new ≤ M.requests memory.old + 1 }
{
    let mut window = Window::over(memory.bytes(WINDOW_BYTES as usize)?);
    find_copies(image, &mut window, out)?;
    Ok(false)
}

/// Reads the superblock at the sector that is asked for, or at the usual place, and finds the
/// target in its volume. Returns whether a defect was found.
fn find_in_volume<M: Memory, I: Image, W: Output>(
    memory: &mut M,
    image: &mut I,
    target: Target,
    sector: Option<u32>,
    out: &mut W,
) -> Result<bool, FindFault>
    ensures finds { AnswersCommand (InVolume target sector)
        (moment I.Image W.Output image.old out.old) (moment I.Image W.Output image.new out.new)
        (M.account memory.old) (M.account memory.new) result }
    ensures requests { M.requests memory.new ≤ M.requests memory.old + target_requests target }
{
    match read_super(image, sector) {
        Ok(superblock) => find_in_accepted(memory, image, target, sector, &superblock, out),
        Err(fault) => Err(FindFault::Refused(fault)),
    }
}

/// Finds the target in the volume of an accepted superblock, and returns whether a defect was
/// found.
///
/// # Errors
/// A read of the image or a write failed, or the memory was refused.
fn find_in_accepted<M: Memory, I: Image, W: Output>(
    memory: &mut M,
    image: &mut I,
    target: Target,
    sector: Option<u32>,
    superblock: &Super,
    out: &mut W,
) -> Result<bool, FindFault>
    requires volume { FitsIn superblock.now.geometry.layout (I.device image.old).size }
    ensures answer { FindsTarget target sector (superblock_in superblock.now)
        (moment I.Image W.Output image.old out.old) (moment I.Image W.Output image.new out.new)
        result }
    ensures memory { TakesForTarget target superblock.now.geometry.layout (M.account memory.old)
        (M.account memory.new) result }
    ensures requests { M.requests memory.new ≤ M.requests memory.old + target_requests target }
{
    match target {
        Target::Inode { number } => {
            find_inode(&superblock.geometry, image, number, out)?;
            Ok(false)
        }
        Target::Fields => Ok(find_wrong_fields(image, sector, superblock, out)?),
        Target::Lost => claim_and_find_lost(memory, image, superblock, out),
        Target::Owner { fragment } => claim_and_find_owner(
            memory, image, superblock, fragment, out,
        ),
    }
}

/// Runs phase 1 of a check, and finds fragments that are lost, or marked as free though they are
/// used.
///
/// # Errors
/// A read of the image or a write failed, or the memory was refused.
fn claim_and_find_lost<M: Memory, I: Image, W: Output>(
    memory: &mut M,
    image: &mut I,
    superblock: &Super,
    out: &mut W,
) -> Result<bool, FindFault>
    requires volume { FitsIn superblock.now.geometry.layout (I.device image.old).size }
    // Whichever sector the superblock came from: only `fields` prints it.
    ensures answer { (sector : Option ℕ) → FindsTarget Lost sector (superblock_in superblock.now)
        (moment I.Image W.Output image.old out.old) (moment I.Image W.Output image.new out.new)
        result }
    ensures memory { TakesForTarget Lost superblock.now.geometry.layout (M.account memory.old)
        (M.account memory.new) result }
    ensures requests { M.requests memory.new ≤ M.requests memory.old + workspace_requests }
{
    let geometry = &superblock.geometry;
    let mut workspace = claimed_workspace(memory, geometry, image)?;
    Ok(find_lost(geometry, image, &mut workspace, out)?)
}

/// Runs phase 1 of a check, and finds what a fragment belongs to.
///
/// # Errors
/// A read of the image or a write failed, or the memory was refused.
fn claim_and_find_owner<M: Memory, I: Image, W: Output>(
    memory: &mut M,
    image: &mut I,
    superblock: &Super,
    fragment: u32,
    out: &mut W,
) -> Result<bool, FindFault>
    requires volume { FitsIn superblock.now.geometry.layout (I.device image.old).size }
    // Whichever sector the superblock came from: only `fields` prints it.
    ensures answer { (sector : Option ℕ) → FindsTarget (Owner fragment) sector
        (superblock_in superblock.now) (moment I.Image W.Output image.old out.old)
        (moment I.Image W.Output image.new out.new) result }
    ensures memory { TakesForTarget (Owner fragment) superblock.now.geometry.layout
        (M.account memory.old) (M.account memory.new) result }
    ensures requests { M.requests memory.new ≤ M.requests memory.old + workspace_requests }
{
    let geometry = &superblock.geometry;
    let mut workspace = claimed_workspace(memory, geometry, image)?;
    find_owner(geometry, image, &mut workspace, fragment, out)?;
    Ok(false)
}

/// Prints the line of a fault, if that has one, and returns the status.
fn end<W: Output>(answer: Result<bool, FindFault>, out: &mut W) -> u8
    ensures { EndsBy (W.sink out.old) (W.sink out.new) answer result }
{
    let line = match answer {
        Ok(defect) => return u8::from(defect),
        Err(FindFault::Refused(fault)) => fault_line(fault),
        Err(FindFault::Failed(RunFault::Read(fault))) => Line::CannotRead {
            sector: fault.sector,
        },
        Err(FindFault::Failed(RunFault::Out(_))) => return NOT_COMPLETED,
        Err(FindFault::NoMemory) => Line::CannotAlloc,
    };
    let _ = print_line(out, &line);
    NOT_COMPLETED
}

/// Prints a line of a report.
fn print_line<W: Output>(out: &mut W, line: &Line<'_>) -> Result<(), OutFault>
    ensures { Prints (W.sink out.old) (W.sink out.new) (text_of (message_of line.now)) result }
{
    Report::new(out).say(line)
}
