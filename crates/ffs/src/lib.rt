//! The checker of UFS1 images as a library, by one name: the whole check, each of its phases, and
//! what they work on.
//!
//! A caller is a crate in Rattle, beside these, with a line `name: ffs` in `crates.txt`: it lists
//! `ffs` alone, and finds here all that the crates below give out for callers. Each item keeps its
//! contract, and the page of its own crate says what it does. What the program `ffs_find` prints is
//! in `ffs_finding`, which this crate doesn't give out.
//!
//! ```text
//! let mut image = MemoryImage::new(bytes);
//! let args = Args { name: "an image in memory", sector: None };
//! let mut text = Vec::new(alloc);
//! let end = check(alloc, &mut image, &args, &mut Counted::new(&mut text));
//! ```
//!
//! The check of a file is the same over a `FileImage`. `rt` is the `HostRuntime` that `main` is
//! given, and the opening fails where the file can't be opened:
//!
//! ```text
//! let mut system = rt;
//! let mut image = FileImage::open(&mut system, "root.img")?;
//! ```
//!
//! The same in parts, each by its own call, with one report for all of them:
//!
//! ```text
//! let superblock = check_opening(&mut image, &args, &mut out)?;
//! let mut workspace = Workspace::new(alloc, &superblock.geometry)?;
//! let end = check_rest(&mut image, &superblock, &mut workspace, &mut out);
//! ```
//!
//! or phase by phase:
//!
//! ```text
//! let geometry = &superblock.geometry;
//! let mut report = Report::new(&mut out);
//! phase1(geometry, &mut image, &mut workspace, &mut report)?;
//! if workspace.has_dups() { phase1b(geometry, &mut image, &mut workspace, &mut report)?; }
//! if let Root::Stop = phase2(geometry, &mut image, &mut workspace, &mut report)? { return Ok(()); }
//! phase3(geometry, &mut image, &mut workspace, &mut report)?;
//! phase4(geometry, &mut image, &mut workspace, &mut report)?;
//! phase5(&superblock, &mut image, &mut workspace, &mut report)?;
//! summary(&superblock, &workspace, &mut report)?;
//! ```
//!
//! `run` and `run_over` check the file, or the image of an opener, that the words of a command line
//! name; the program itself starts by `start` of `ffs_check`, which does the same. These two,
//! `check_rest`, `path_of`, `Chunks` with `runs`, and the fields of a `Geometry` by their names
//! exist for callers of the library. Call `workspace.forget_windows()` between the last phase and
//! `path_of`.
#![tactic(auto)]

// Images: bytes at a place, or a fault with its sector.
pub use ffs_image::{
    CountedImage, FileImage, FuseImage, Image, ImageFault, LimitedImage, MemoryImage, OpenFault,
};

// Memory: what a check takes, counted.
pub use ffs_memory::{FixedList, FuseMemory, Memory, SystemMemory};

// The layout of a volume: superblock, geometry, inodes, groups, entries.
pub use ffs_layout::{
    Entry, Geometry, Group, GroupSummary, Inode, Layout, Order, Super, SuperFault, decode_inode,
    entry_at, read_super,
};

// The report: messages, and where their bytes go.
pub use ffs_report::{
    Counted, DirectoryLine, DotLine, EntryLine, FuseWriter, Heading, Line, MutedWriter, OutFault,
    Outlet, Output, ReferenceLine, Report, RunFault,
};
pub use ffs_volume::{Attr, BlockMessage, Label};

// The walk over an inode's blocks.
pub use ffs_volume::{Class, Step};
pub use ffs_walk::{Blocks, Walk, Window, class_of};

// The block check: all memory of a check, phases 1 and 1b.
pub use ffs_claims::{phase1, phase1b};
pub use ffs_workspace::Workspace;

// Names: chunks and entries of directories, the survey, paths, phases 2 and 3.
pub use ffs_connectivity::phase3;
pub use ffs_names::{Chunks, role_of, survey};
pub use ffs_pathnames::{Root, phase2};
pub use ffs_paths::{PathText, path_of};
pub use ffs_volume::Role;

// Counts: phases 4 and 5, and the summary.
pub use ffs_counts::{phase4, phase5, summary};

// The whole check, and how it ends.
pub use ffs_check::args::Args;
pub use ffs_check::check::{check, check_in, check_rest};
pub use ffs_check::opener::Opener;
pub use ffs_check::opening::check_opening;
pub use ffs_check::run::{run, run_over};
pub use ffs_volume::End;
