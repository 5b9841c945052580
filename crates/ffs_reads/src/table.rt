//! The reads of a check of an image, part by part.
ghost use Rattle.std.specs.Prelude.{◌*◌, ◌≤◌};
ghost use Rattle.ffs_workspace.specs.Ready.{IsReady};
ghost use Rattle.ffs_volume.specs.Disk.Areas.{FitsIn};

use crate::limits::{opening_reads, part_reads, reads_limit};
use crate::messages::MessageCounter;
use crate::parts::{PARTS, Part};
use crate::row::Row;
use ffs_check::args::Args;
use ffs_check::check::check;
use ffs_image::{CountedImage, FileImage, Image};
use ffs_layout::{Super, read_super};
use ffs_pathnames::Root;
use ffs_report::{Report, RunFault};
use ffs_workspace::Workspace;
use std::alloc::{AllocError, Global};
use std::io;
use std::io::ErrorKind;

/// What the columns of a row are.
const HEAD: &str = "part      messages      reads          most  share";

/// The rows of the parts of a check that ran, and that of a whole check.
#[derive(Drop)]
pub struct Table {
    parts: Vec<Row>,
    whole: Row,
}

impl Table {
    /// Counts the reads of the image in a file.
    ///
    /// # Errors
    /// The file can't be opened, and memory that was refused.
    pub fn of(rt: &HostRuntime, name: &str, sector: Option<u32>) -> io::Result<Table> {
        let alloc = rt.alloc();
        let mut image = open(rt, name)?;
        let mut parts = Vec::new(alloc);
        let opened = read_super(&mut image, sector);
        parts.push(Row {
            name: "opening",
            messages: 0,
            reads: image.reads(),
            most: opening_reads(sector),
        })?;
        let (reads, messages) = count_whole(alloc, &mut open(rt, name)?, name, sector);
        let most = match opened {
            Ok(superblock) => {
                count_parts(alloc, &mut image, &superblock, &mut parts)?;
                reads_limit(sector, &superblock.geometry, messages)
            }
            Err(_) => opening_reads(sector),
        };
        let whole = Row {
            name: "whole",
            messages,
            reads,
            most,
        };
        Ok(Table { parts, whole })
    }

    /// Whether no row has more reads than its most, and the parts add up to the whole.
    pub fn is_within(&self) -> bool {
        let mut reads: u64 = 0;
        for part in self.parts.as_slice() {
            if !part.is_within() {
                return false;
            }
            reads = reads.saturating_add(part.reads);
        }
        self.whole.is_within() && reads == self.whole.reads
    }

    /// Prints the rows, after the image's name and a line that says what they have.
    ///
    /// # Errors
    /// Standard output failed.
    pub fn print(&self, rt: &HostRuntime, name: &str) -> io::Result<()> {
        println!(rt; "{name}")?;
        println!(rt; "{HEAD}")?;
        for part in self.parts.as_slice() {
            println!(rt; "{part}")?;
        }
        println!(rt; "{}", self.whole)
    }
}

/// The image in a file of this name, whose reads are counted.
fn open(rt: &HostRuntime, name: &str) -> io::Result<CountedImage<FileImage>> {
    let mut system = *rt;
    match FileImage::open(&mut system, name) {
        Ok(image) => Ok(CountedImage::new(image)),
        Err(_) => Err(io::Error::from(ErrorKind::NotFound)),
    }
}

/// How often a whole check reads an image, and how many messages it says.
fn count_whole(
    alloc: Global,
    image: &mut CountedImage<FileImage>,
    name: &str,
    sector: Option<u32>,
) -> (u64, u64) {
    let mut counter = MessageCounter::new();
    check(alloc, image, &Args { name, sector }, &mut counter);
    (image.reads(), counter.messages())
}

/// Runs the parts after the opening up to the one after which a check doesn't continue, and adds
/// their rows.
fn count_parts<I: Image>(
    alloc: Global,
    image: &mut CountedImage<I>,
    superblock: &Super,
    rows: &mut Vec<Row>,
) -> Result<(), AllocError>
    requires volume { FitsIn superblock.now.geometry.layout
        (⟦<CountedImage<I> as Image>⟧.device image.old).size }
{
    let mut workspace = Workspace::new(alloc, &superblock.geometry)?;
    for part in PARTS {
        let (row, answer) = count_part(part, image, superblock, &mut workspace);
        rows.push(row)?;
        if !matches!(answer, Ok(Root::Go)) {
            break;
        }
    }
    Ok(())
}

/// Runs a part, and returns its row and its answer.
fn count_part<I: Image>(
    part: Part,
    image: &mut CountedImage<I>,
    superblock: &Super,
    workspace: &mut Workspace,
) -> (Row, Result<Root, RunFault>)
    requires ready { IsReady superblock.now.geometry.layout
        (⟦<CountedImage<I> as Image>⟧.device image.old) workspace.old }
    ensures ready { IsReady superblock.now.geometry.layout
        (⟦<CountedImage<I> as Image>⟧.device image.new) workspace.new }
{
    let before = image.reads();
    let mut counter = MessageCounter::new();
    let answer = part.run(superblock, image, workspace, &mut Report::new(&mut counter));
    // The heading of the part is none of the messages that its limit counts.
    let messages = counter.messages().saturating_sub(1);
    let row = Row {
        name: part.name(),
        messages,
        reads: image.reads().saturating_sub(before),
        most: part_reads(part, &superblock.geometry, messages),
    };
    (row, answer)
}
