//! The most reads that a check may make (`Report/Reads` of `ffs_volume`).
ghost use Rattle.std.specs.Prelude.{◌≡◌};
ghost use Rattle.ffs_volume.specs.Report.Reads.{group_reads, opening_reads, pathname_reads, reads_limit, scan_reads};
ghost use Rattle.ffs_volume.specs.Report.Reads.{sweep_reads};
ghost use Rattle.ffs_reads.specs.Limits.{in_u64, part_reads};

use crate::parts::Part;
use ffs_layout::{Geometry, Layout};
use ffs_workspace::{LINE_READS, RUNS_WITHOUT_CLAIM};

/// How many summary records are read at once.
const RECORDS_AT_ONCE: u32 = 256;

/// The superblock, and its last copy where no sector is asked for.
pub fn opening_reads(sector: Option<u32>) -> u64
    ensures { result ≡ opening_reads sector }
{
    match sector {
        None => 2,
        Some(_) => 1,
    }
}

/// To go over all inodes and their blocks.
fn sweep_reads(layout: &Layout) -> u64
    ensures { result ≡ in_u64 (sweep_reads layout.now) }
{
    let inodes = u64::from(layout.ncg) * u64::from(layout.ipg);
    inodes
        .saturating_mul(1 + RUNS_WITHOUT_CLAIM)
        .saturating_add(layout.size.into())
}

/// To go over the blocks of the inode tables, and over the blocks of all inodes.
fn scan_reads(geometry: &Geometry) -> u64
    ensures { result ≡ in_u64 (scan_reads geometry.now.layout) }
{
    let layout = &geometry.layout;
    let inodes = u64::from(layout.ncg) * u64::from(layout.ipg);
    inodes
        .saturating_mul(RUNS_WITHOUT_CLAIM)
        .saturating_add(layout.size.into())
        .saturating_add(inodes / u64::from(layout.inopb))
}

/// Phase 2, where so many messages are said.
fn pathname_reads(layout: &Layout, messages: u64) -> u64
    ensures { result ≡ in_u64 (pathname_reads layout.now messages) }
{
    sweep_reads(layout)
        .saturating_mul(4)
        .saturating_add(messages.saturating_mul(LINE_READS))
}

/// Phase 5: the block of each group, and the summary records.
fn group_reads(layout: &Layout) -> u64
    ensures { result ≡ group_reads layout.now }
{
    u64::from(layout.ncg) + u64::from(layout.ncg.div_ceil(RECORDS_AT_ONCE))
}

/// A part of a check that says so many messages after its heading.
pub fn part_reads(part: Part, geometry: &Geometry, messages: u64) -> u64
    ensures { result ≡ in_u64 (part_reads part geometry.now.layout messages) }
{
    let layout = &geometry.layout;
    match part {
        Part::Phase1 => scan_reads(geometry),
        Part::Phase1b => sweep_reads(layout),
        Part::Phase2 => pathname_reads(layout, messages),
        Part::Phase3 | Part::Phase4 => messages,
        Part::Phase5 => group_reads(layout),
        Part::Summary => 0,
    }
}

/// A whole check that says so many messages.
pub fn reads_limit(sector: Option<u32>, geometry: &Geometry, messages: u64) -> u64
    ensures { result ≡ in_u64 (reads_limit sector geometry.now.layout messages) }
{
    let layout = &geometry.layout;
    scan_reads(geometry)
        .saturating_add(sweep_reads(layout))
        .saturating_add(pathname_reads(layout, messages))
        .saturating_add(messages)
        .saturating_add(group_reads(layout))
        .saturating_add(opening_reads(sector))
}
