//! Each read and each write of a check fails in turn, and the last flush of a run.

use crate::Tally;
use crate::row::Row;
use ffs_check::args::Args;
use ffs_check::check::check;
use ffs_image::{FuseImage, Image};
use ffs_report::{Counted, FuseWriter};
use ffs_volume::{End, SuperFault};
use std::io;
use std::io::{ErrorKind, Write};

/// The rows over which each read and each write fails in turn.
const ROWS: [&str; 4] = [
    "clean 0",
    "shared_fragment 1",
    "entry_length_zero 1",
    "lost_cycle 1",
];

/// The rows with trees of indirect blocks that point to themselves.
const TREES: [&str; 2] = ["triple_tree_self 1", "indirect_claims_itself 1"];

/// A run over one of them makes fewer reads than this.
const READ_LIMIT: u64 = 300;

/// What is printed of the clean image where the chunk of its root can't be read.
const CUT_AT_ROOT: &[u8] =
    b"** t.img (NO WRITE)\n** Last Mounted on /mnt\n** Phase 1 - Check Blocks and Sizes\n** Phase 2 - Check Pathnames\nCAN NOT READ: BLK 72\n";

/// Compares each run with what a fault leaves of the row's report.
///
/// # Errors
/// A row that can't be read, memory that was refused, and standard output that failed.
pub fn compare(rt: &HostRuntime, tally: &mut Tally) -> io::Result<()> {
    for line in ROWS {
        let row = Row::read(rt, line)?;
        fail_reads(rt, &row, tally)?;
        fail_writes(rt, &row, tally)?;
        fail_flush(rt, &row, tally)?;
    }
    for line in TREES {
        let row = Row::read(rt, line)?;
        bound_reads(rt, &row, tally)?;
    }
    fail_root(rt, tally)
}

/// The read of the root's chunk fails.
fn fail_root(rt: &HostRuntime, tally: &mut Tally) -> io::Result<()> {
    let row = Row::read(rt, "clean 8")?;
    let mut image = FuseImage::touching(row.in_memory(rt.alloc())?, 72);
    let (end, text) = row.checked(rt.alloc(), &mut image);
    let agrees = end == End::ReadFault(72) && text.as_slice() == CUT_AT_ROOT;
    tally.count(rt, row.name.as_str(), "its root fails", agrees)
}

/// A run makes fewer reads than would blow a fuse.
fn bound_reads(rt: &HostRuntime, row: &Row, tally: &mut Tally) -> io::Result<()> {
    let mut image = FuseImage::nth(row.in_memory(rt.alloc())?, READ_LIMIT);
    let (end, text) = row.checked(rt.alloc(), &mut image);
    let agrees = image.failures() == 0 && end.status() == row.status && text == row.report;
    tally.count(rt, row.name.as_str(), "few reads", agrees)
}

/// Each read fails in turn, until a run has no failure.
fn fail_reads(rt: &HostRuntime, row: &Row, tally: &mut Tally) -> io::Result<()> {
    for k in 1..u64::MAX {
        let mut image = FuseImage::nth(row.in_memory(rt.alloc())?, k);
        let (end, text) = row.checked(rt.alloc(), &mut image);
        if image.failures() == 0 {
            let agrees = end.status() == row.status && text == row.report;
            return tally.count(rt, row.name.as_str(), "no read fails", agrees);
        }
        let failed = image.failed();
        let is_reported = end == End::ReadFault(failed)
            || end == End::Refused(SuperFault::CannotRead { sector: failed });
        let line = format!(in rt.alloc(); "CAN NOT READ: BLK {failed}\n")?;
        let agrees = is_reported && is_cut(text.as_slice(), row.report.as_slice(), line.as_bytes());
        tally.count(rt, row.name.as_str(), "a read fails", agrees)?;
    }
    Ok(())
}

/// Whether a text is a prefix of a report that ends with a whole line, and then a last line.
fn is_cut(text: &[u8], report: &[u8], last: &[u8]) -> bool {
    let (prefix, end) = text.split_at(text.len().saturating_sub(last.len()));
    end == last && report.starts_with(prefix) && prefix.ends_with(b"\n".as_slice())
}

/// The writer stops at each byte in turn.
fn fail_writes(rt: &HostRuntime, row: &Row, tally: &mut Tally) -> io::Result<()> {
    let args = Args {
        name: "t.img",
        sector: None,
    };
    for bytes in 0..row.report.len() {
        let mut writer = FuseWriter::new(Vec::new(rt.alloc()), bytes as u64);
        let mut image = row.in_memory(rt.alloc())?;
        let end = check(
            rt.alloc(),
            &mut image,
            &args,
            &mut Counted::new(&mut writer),
        );
        let text = writer.into_inner();
        let agrees = end == End::WriteFault && text.as_slice() == &row.report[..bytes];
        tally.count(rt, row.name.as_str(), "a write fails", agrees)?;
    }
    Ok(())
}

/// A writer that takes all bytes, and whose flush fails.
#[derive(Drop)]
struct Unflushed {
    text: Vec<u8>,
}

impl Write for Unflushed {
    fn write(&mut self, buf: &[u8]) -> io::Result<usize> {
        self.text.write(buf)
    }

    fn flush(&mut self) -> io::Result<()> {
        Err(io::Error::from(ErrorKind::Other))
    }
}

/// Of a run in a file the last flush alone fails.
fn fail_flush(rt: &HostRuntime, row: &Row, tally: &mut Tally) -> io::Result<()> {
    let mut out = Unflushed {
        text: Vec::new(rt.alloc()),
    };
    let status = row.run_over_file(rt, &mut out)?;
    let agrees = status == 8 && out.text == row.report;
    tally.count(rt, row.name.as_str(), "the flush fails", agrees)
}
