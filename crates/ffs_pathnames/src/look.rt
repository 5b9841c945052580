//! A first look at a directory, once over its chunks: whether it is sure that nothing is reported
//! of its entries, whether each chunk is sound, and whether a hole is kept. It stamps the inodes
//! that belong to the directory. `look_directory` makes it within a limit on reads: it reads the
//! inode, and looks at the chunks.
ghost use Rattle.std.specs.Prelude.{◌≡◌, ◌+◌, ◌≤◌, ◌&&◌, true, false, List, [], ◌∷◌};
ghost use Rattle.ffs_workspace.specs.Moments.{work_moment};
ghost use Rattle.ffs_volume.specs.{Costs.DirectoryReads.{directory_cost, directory_runs}, declared.Order.Order};
ghost use Rattle.ffs_volume.specs.{declared.Role.Role, Directories.{Entries.{Chunk, chunk_of, is_sound}, Roles.Volume}};
ghost use Rattle.ffs_image.specs.Known.{ForBytes};
ghost use Rattle.ffs_pathnames.specs.{KnowsAtDirectory.{KnowsAtDirectory, KnowsDirectory}};
ghost use Rattle.ffs_pathnames.specs.{ReadsLeft.KnowsForLook, DirectoryLooks.{IsChunksLook, IsFirstLook, LooksAt, StampsOwn}};
ghost use Rattle.ffs_pathnames.specs.{DirectoryLooks.TakesLook, StartChunks.start_chunk, Looks.{StampsEntries, roled_in}};
ghost use Rattle.ffs_pathnames.specs.{Ready.CanLookAt, Sees.{CanLook, CanStamp, Sees, stamps_in}};
ghost use Rattle.ffs_layout.specs.Entry.{entry_value};
ghost use Rattle.ffs_pathnames.specs.PassedNames as names;

use crate::inodes::Inodes;
use crate::verdict::{is_harmless, verdict_at_look};
use ffs_image::{Image, ImageFault, LimitedImage};
use ffs_layout::{Entry, Geometry};
use ffs_memory::FilledList;
use ffs_names::{ChunkEntries, Chunks, gap_of, role_of};
use ffs_volume::constants::{DIRBLKSIZ, ROOTINO};
use ffs_volume::{Inode, Order, Role};
use ffs_workspace::{Workspace, with_due};

/// A directory that is read.
#[derive(Clone, Copy, Debug)]
pub struct Directory {
    /// Its number.
    pub number: u32,
    /// Its inode.
    pub inode: Inode,
}

/// What a look at all chunks of a directory finds.
#[derive(Clone, Copy, Debug)]
pub struct ChunksLook {
    /// Whether it is sure that nothing is reported of their entries.
    pub quiet: bool,
    /// Whether all of them are sound.
    pub sound: bool,
    /// Whether a hole is among the kept steps of the directory.
    pub gap: bool,
    /// Whether a chunk is at the start of the file.
    pub started: bool,
}

/// What a first look at a directory finds, before anything is reported of it.
#[derive(Clone, Copy, Debug)]
pub struct FirstLook {
    /// Its inode.
    pub inode: Inode,
    /// What its chunks show.
    pub chunks: ChunksLook,
}

/// Looks at a directory for the first time: reads its inode, looks at its chunks once, stamps the
/// inodes that belong to it, and puts the chunk at the start of the file into `start`, if one is
/// there. `reads_left` is how many reads may be made of directories' own blocks; it falls by those
/// that are made, at least, and by no more than the directory costs. Bytes that stay, of
/// which the workspace holds what was found, never ask for more.
///
/// # Errors
/// A read of the image that failed.
pub fn look_directory<I: Image>(
    geometry: &Geometry,
    image: &mut I,
    workspace: &mut Workspace,
    reads_left: &mut u64,
    dir: u32,
    start: &mut [u8; DIRBLKSIZ],
) -> Result<FirstLook, ImageFault>
    requires { CanLookAt geometry.now.layout (I.device image.old) workspace.old dir }
    ensures looks { LooksAt geometry.now.layout
        (KnowsForLook geometry.now.layout (I.device image.old) workspace.old dir reads_left.old)
        (λ f b. IsFirstLook geometry.now.layout b dir workspace.old f start.new
        × StampsOwn geometry.now.layout b dir workspace.old workspace.new)
        (work_moment I.Image image.old workspace.old) (work_moment I.Image image.new workspace.new)
        result }
    ensures cost { TakesLook
        (KnowsAtDirectory geometry.now.layout (I.device image.old).contents workspace.old dir)
        (λ b. directory_cost geometry.now.layout b dir)
        (I.reads image.old) (I.reads image.new) reads_left.old reads_left.new }
{
    let mut limited = LimitedImage::new(image, *reads_left);
    let looked = look_directory_unlimited(geometry, &mut limited, workspace, dir, start);
    *reads_left = limited.left();
    if limited.is_spent() {
        // See `LimitedImage`: bytes that stay never ask for so many reads.
        return Ok(refused_look());
    }
    looked
}

/// As `look_directory`, with no limit on reads: so no clause speaks of reads that are left.
fn look_directory_unlimited<I: Image>(
    geometry: &Geometry,
    image: &mut I,
    workspace: &mut Workspace,
    dir: u32,
    start: &mut [u8; DIRBLKSIZ],
) -> Result<FirstLook, ImageFault>
    requires { CanLookAt geometry.now.layout (I.device image.old) workspace.old dir }
    ensures looks { LooksAt geometry.now.layout
        (KnowsAtDirectory geometry.now.layout (I.device image.old).contents workspace.old dir)
        (λ f b. IsFirstLook geometry.now.layout b dir workspace.old f start.new
        × StampsOwn geometry.now.layout b dir workspace.old workspace.new)
        (work_moment I.Image image.old workspace.old) (work_moment I.Image image.new workspace.new)
        result }
    ensures cost { ForBytes
        (KnowsAtDirectory geometry.now.layout (I.device image.old).contents workspace.old dir)
        (λ b. I.reads image.new ≤ I.reads image.old + directory_cost geometry.now.layout b dir) }
{
    let inode = workspace
        .windows
        .table
        .inode_by_piece(geometry, dir, image)?;
    let directory = Directory { number: dir, inode };
    let chunks = look_chunks(geometry, image, workspace, &directory, start)?;
    Ok(FirstLook { inode, chunks })
}

/// What is said of a directory of which no more may be read: that its chunks are corrupted, and hold
/// neither `.` nor `..`; its size is said to be 0, which is too short. Nothing is said of its
/// entries. Bytes that stay, of which the workspace holds what was found, never come so far. A line is said, since
/// silence would pass the directory as right: each line of phase 2 is a defect, so the check doesn't
/// end as consistent.
fn refused_look() -> FirstLook
    ensures { result.chunks ≡ record {
      quiet = true;
      sound = false;
      gap = false;
      started = false;
    } }
{
    FirstLook {
        inode: Inode {
            mode: 0,
            nlink: 0,
            size: 0,
            mtime: 0,
            addresses: [0; 15],
            blocks: 0,
            uid: 0,
        },
        chunks: ChunksLook {
            quiet: true,
            sound: false,
            gap: false,
            started: false,
        },
    }
}

/// Looks at the chunks of a directory once: at their entries, at holes, and at the chunk at the
/// start of the file, which is put into `start`. The inodes that belong to the directory are
/// stamped.
///
/// # Errors
/// A read of the image that failed.
fn look_chunks<I: Image>(
    geometry: &Geometry,
    image: &mut I,
    workspace: &mut Workspace,
    directory: &Directory,
    start: &mut [u8; DIRBLKSIZ],
) -> Result<ChunksLook, ImageFault>
    requires { CanLookAt geometry.now.layout (I.device image.old) workspace.old
        directory.now.number }
    ensures looks { LooksAt geometry.now.layout
        (KnowsDirectory geometry.now.layout (I.device image.old) workspace.old directory.now)
        (λ c b. IsChunksLook geometry.now.layout b directory.now.number workspace.old c start.new
        × StampsOwn geometry.now.layout b directory.now.number workspace.old workspace.new)
        (work_moment I.Image image.old workspace.old) (work_moment I.Image image.new workspace.new)
        result }
    ensures cost { ForBytes
        (KnowsDirectory geometry.now.layout (I.device image.old) workspace.old directory.now)
        (λ b. I.reads image.new
        ≤ I.reads image.old + directory_runs geometry.now.layout b directory.now.number) }
{
    let cut = workspace.noted_cut(directory.number);
    let inodes = Inodes {
        kinds: workspace.kinds.as_slice(),
        marked: &workspace.marked,
        parents: &workspace.parents,
    };
    let flags = &workspace.flags;
    let windows = &mut workspace.windows;
    // In phase 2 this list has the words of directories (`Workspace::words`).
    let words = &mut workspace.words;
    let order = geometry.layout.order;
    let mut chunks = Chunks::start(geometry, &directory.inode, cut);
    let mut bytes = [0u8; DIRBLKSIZ];
    let mut quiet = true;
    let mut sound = true;
    let mut started = false;
    'chunks: while let Some(offset) = chunks.next(
        image,
        &mut windows.blocks,
        &mut windows.current,
        &mut bytes,
    )? {
        let chunk = DirectoryChunk {
            dir: directory.number,
            at_start: offset == 0,
            bytes: &bytes,
        };
        let looked = look_chunk(&inodes, order, flags, words, &chunk);
        quiet &= looked.quiet;
        sound &= looked.sound;
        started = keep_start(offset, &bytes, started, start);
    }
    let gap = gap_of(image, &mut windows.blocks, &mut chunks)?;
    Ok(ChunksLook {
        quiet,
        sound,
        gap,
        started,
    })
}

/// Keeps a chunk that is at the start of the file, if none is kept yet, and returns whether one is.
fn keep_start(
    offset: u64,
    chunk: &[u8; DIRBLKSIZ],
    started: bool,
    start: &mut [u8; DIRBLKSIZ],
) -> bool
    ensures { (order : Order) (cs : List Chunk)
        → start_chunk (chunk_of order offset chunk.now ∷ cs) started order start.old
        ≡ start_chunk cs result order start.new }
{
    if started || offset != 0 {
        return started;
    }
    *start = *chunk;
    true
}

/// A chunk of a directory.
#[derive(Clone, Copy, Debug)]
pub struct DirectoryChunk<'a> {
    /// The directory.
    pub dir: u32,
    /// Whether the chunk is at the start of the file.
    pub at_start: bool,
    /// Its bytes.
    pub bytes: &'a [u8; DIRBLKSIZ],
}

/// What a look at the entries of a chunk finds.
#[derive(Clone, Copy, Debug)]
struct ChunkLook {
    /// Whether it is sure that nothing is reported of them.
    quiet: bool,
    /// Whether they fill the chunk.
    sound: bool,
}

/// Looks at the entries of a chunk of a directory, and stamps the inodes that belong to that.
fn look_chunk(
    inodes: &Inodes<'_>,
    order: Order,
    flags: &FilledList<bool>,
    words: &mut FilledList<u32>,
    chunk: &DirectoryChunk<'_>,
) -> ChunkLook
    requires { CanLook inodes.now chunk.now.dir flags.now.items words.old.items }
    // Whether it is sure that nothing is reported of them.
    ensures quiet { (vol : Volume) → Sees vol inodes.now → result.quiet
        ≡ names.are_quiet vol chunk.now.dir flags.now.items (stamps_in inodes.now words.old.items)
        (roled_in order chunk.now) }
    // Whether they fill the chunk.
    ensures sound { result.sound ≡ is_sound order chunk.now.bytes.now }
    ensures stamps { StampsEntries inodes.now chunk.now.dir (roled_in order chunk.now) words.old
        words.new }
{
    let dir = chunk.dir;
    let mut entries = ChunkEntries::of_chunk(order, chunk.bytes);
    let mut quiet = true;
    'entries: while let Some((index, entry)) = entries.next() {
        quiet = match role_of(chunk.at_start, index, &entry) {
            Role::Empty | Role::Dot | Role::Dotdot => quiet,
            Role::Extra => false,
            Role::Plain => look_plain(inodes, dir, flags, words, &entry, quiet),
        };
    }
    ChunkLook {
        quiet,
        sound: entries.place == DIRBLKSIZ,
    }
}

/// Looks at a plain entry, and stamps the inode that it names, if that belongs to the directory.
/// Returns whether it is sure that nothing is reported of it, nor of the entries before it, where
/// `quiet` says that it is sure of these. Where it isn't, a line may come or not.
#[tactic(auto, unfolding(crate::specs::PassedNames::is_quiet))]
fn look_plain(
    inodes: &Inodes<'_>,
    dir: u32,
    flags: &FilledList<bool>,
    words: &mut FilledList<u32>,
    entry: &Entry<'_>,
    quiet: bool,
) -> bool
    requires { CanLook inodes.now dir flags.now.items words.old.items }
    ensures quiet { (vol : Volume) → Sees vol inodes.now → result ≡ (quiet && names.is_quiet vol dir
        flags.now.items (stamps_in inodes.now words.old.items)
        (record { role = Role.Plain; entry = entry_value entry.now })) }
    ensures stamps { StampsEntries inodes.now dir
        (record { role = Role.Plain; entry = entry_value entry.now } ∷ []) words.old words.new }
{
    // A harmless entry names no directory, so nothing is stamped.
    if is_harmless(inodes, flags, entry) {
        return quiet;
    }
    // After an entry that isn't quiet the chunk isn't either, so no other verdict is asked.
    let still = quiet && verdict_at_look(inodes, dir, flags, words, entry).is_silent();
    stamp(inodes, dir, words, entry);
    still
}

/// Stamps the inode that a plain entry names, if that inode belongs to the directory: sets the bit
/// of its word that says that its parent entry is due. The place in the word stays.
fn stamp(inodes: &Inodes<'_>, dir: u32, words: &mut FilledList<u32>, entry: &Entry<'_>)
    requires { CanStamp inodes.now dir words.old.items }
    ensures { StampsEntries inodes.now dir
        (record { role = Role.Plain; entry = entry_value entry.now } ∷ []) words.old words.new }
{
    // A whiteout names no inode, and the root has no parent entry.
    if entry.number <= ROOTINO || entry.number >= inodes.count() {
        return;
    }
    if inodes.belongs(dir, entry.number) {
        let index = entry.number as usize;
        words.set(index, with_due(words[index]));
    }
}
