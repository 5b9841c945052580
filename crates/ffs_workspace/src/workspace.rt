//! The memory of a check, taken once.

ghost use Rattle.std.specs.Prelude.{◌≡◌, ◌+◌, ◌*◌, ◌<◌, ◌≤◌, [], ◌∷◌, IfOk, false, slice_index, vec_len};
ghost use Rattle.ffs_layout.specs.declared.geometry.Geometry.{Geometry};
ghost use Rattle.ffs_volume.specs.{declared.Layout.Layout, Report.Memory.held_limit};
ghost use Rattle.ffs_workspace.specs.Ready.{MakesInMemory, workspace_requests};
ghost use Rattle.ffs_memory.specs.Account.{IsFilled};

use crate::notes::cut_in;
use crate::table::Table;
use ffs_layout::Geometry;
use ffs_maps::FragmentMap;
use ffs_memory::{FilledList, FixedList, Memory, SystemMemory};
use ffs_walk::{Blocks, Window};
use std::alloc::{AllocError, Global};

/// The buffers that an image is read into.
#[derive(Drop)]
pub struct Windows {
    /// A piece of the inode table. In phase 5 summary records.
    pub table: Table,
    /// The indirect blocks that a walk is in.
    pub blocks: Blocks,
    /// A data block of the current directory. In phase 5 a group block.
    pub current: Window,
    /// A data block of another directory, or its chunk with a parent entry: paths are read here, so
    /// that the current directory stays in `current`.
    pub other: Window,
}

/// What a check keeps: two maps with a bit for each fragment, 25 bytes for each inode, and six
/// blocks: one each for `table`, `current` and `other`, and three for `blocks`.
#[derive(Drop)]
pub struct Workspace {
    /// The fragments that are used: the reserved ones, and those that kept offers claim.
    pub used: FragmentMap,
    /// The fragments with a DUP line. Phase 1b clears each of which it has reported the first kept
    /// offer.
    pub duplicates: FragmentMap,
    /// Whether fragments had a DUP line, as the last phase 1 that ended with `Ok` found it: in a new
    /// workspace, whether it printed one. No later phase changes it.
    pub has_dups: bool,
    /// What each inode is (`Kind`).
    pub kinds: FixedList<u8>,
    /// The inodes that are marked: of class Unknown, or with a BAD or DUP line.
    pub marked: FilledList<bool>,
    /// The inodes that a plain entry names.
    pub named: FilledList<bool>,
    /// The directories that are reached from the root.
    pub reached: FilledList<bool>,
    /// Flags that are used one after another:
    ///
    /// ```text
    /// phase    which inodes are flagged                        lent as
    /// survey   the calm directories                            calm
    /// phase 2  of suspect inodes (marked ones, directories     flags
    ///          of size 0) those that a plain entry has named;
    ///          of others still the calm ones
    /// phase 3  the least directory of each cycle of parents    leaders
    /// ```
    pub flags: FilledList<bool>,
    /// How many entries refer to each inode, counted on from `links_start`.
    pub references: FilledList<u64>,
    /// Whether the survey is made. Before the first one each count of `references` is where it
    /// starts; one that a read cut short has counted some of them, and no later call finds them
    /// right.
    pub surveyed: bool,
    /// What is noted of each inode (`note_of`): how many offers it keeps, if its eleventh dup offer
    /// cut it; if not, 2^31 + 128 plus the address of its chunk for a directory of one; else 0.
    pub notes: FilledList<u32>,
    /// The parent of each directory, or 0.
    pub parents: FilledList<u32>,
    /// Numbers of 32 bits that are used one after another:
    ///
    /// ```text
    /// phase    what the numbers are                            lent as
    /// survey   the reached directories, level after level      queue
    /// phase 2  of each directory where its parent entry is     words
    ///          (noted_part), and a bit: while places are
    ///          noted, whether its chunks are to be read, and
    ///          then whether its parent entry is due
    /// phase 3  of each directory which walk over parents met   walk_of
    ///          it
    /// ```
    ///
    /// The survey leaves all of them at 0; after phase 3 they note no place.
    pub words: FilledList<u32>,
    /// How many Runs phase 1 has looked at. It is counted for its bound, which is proved: nothing
    /// is decided by it.
    pub runs_seen: u64,
    /// How many Runs phase 1b has looked at: the same.
    pub runs_again: u64,
    /// How many bad Runs the current inode has so far.
    pub bad: u32,
    /// How many dup offers the current inode keeps so far.
    pub dup_offers: u32,
    /// How many offers the current inode keeps so far, bad and dup ones among them.
    pub kept: u64,
    /// Whether a Tail of the current inode was seen.
    pub tail: bool,
    /// The buffers that the image is read into.
    pub windows: Windows,
}

impl Workspace {
    ghost use Rattle.ffs_image.specs.Device.{Device};
    ghost use Rattle.ffs_workspace.specs.{Lengths.IsFor, Holds.has_unreported_dups};
    ghost use Rattle.ffs_volume.specs.{Encodings.Notes.cut_in, Report.Memory.held_of};
    ghost use Rattle.ffs_workspace.specs.Ready.{CanRead, IsNew, IsReady};
    ghost use Rattle.ffs_memory.specs.System.{AsksOfSystem};

    /// Takes all memory of a check of the volume from an allocator, and holds nothing yet.
    ///
    /// # Errors
    /// The memory was refused.
    #[tactic(auto, using(ffs_memory::proofs::Asking::of_system))]
    pub fn new(alloc: Global, geometry: &Geometry) -> Result<Workspace, AllocError>
        ensures new { IfOk result (IsNew geometry.now.layout) }

        // It is refused only where the system refused a request.
        ensures asks { AsksOfSystem (held_of geometry.now.layout) result }
    {
        Workspace::in_memory(&mut SystemMemory::new(alloc), geometry)
    }

    /// Takes all memory of a check of the volume, and holds nothing yet.
    ///
    /// # Errors
    /// The memory was refused.
    #[tactic(auto, using(crate::proofs::Requests::refusals))]
    pub fn in_memory<M: Memory>(
        memory: &mut M,
        geometry: &Geometry,
    ) -> Result<Workspace, AllocError>
        // What it holds was granted and no byte more, or a request was refused.
        ensures made { MakesInMemory (M.account memory.old) (M.account memory.new)
            (held_of geometry.now.layout) result (IsNew geometry.now.layout) }

        // It asks for each map, list and buffer once.
        ensures requests { M.requests memory.new ≤ M.requests memory.old
            + workspace_requests }
    {
        let inodes = geometry.inodes() as usize;
        let used = FragmentMap::in_memory(memory, geometry.layout.size)?;
        let duplicates = FragmentMap::in_memory(memory, geometry.layout.size)?;
        let kinds = memory.bytes(inodes)?;
        let FlagLists {
            marked,
            named,
            reached,
            flags,
        } = flag_lists(memory, inodes)?;
        let references = memory.long_numbers(inodes)?;
        let WordLists {
            notes,
            parents,
            words,
        } = word_lists(memory, inodes)?;
        let windows = Windows::in_memory(memory, geometry)?;
        Ok(Workspace {
            used,
            duplicates,
            has_dups: false,
            kinds,
            marked,
            named,
            reached,
            flags,
            references,
            surveyed: false,
            notes,
            parents,
            words,
            runs_seen: 0,
            runs_again: 0,
            bad: 0,
            dup_offers: 0,
            kept: 0,
            tail: false,
            windows,
        })
    }

    /// Lets the windows hold nothing, so that whatever is asked of them is read anew: they may hold
    /// what another image gave. Each phase does so before it reads, and phase 2 also after the
    /// survey.
    pub fn forget_windows(&mut self)
        ensures only { self.new ≡ record self.old { windows = self.new.windows } }
        ensures forgets { (v : Layout) (d : Device) → IsReady v d self.old → CanRead v d self.new }
        ensures begins { self.new.windows.table.first ≡ self.old.windows.table.first }
        ensures empty { self.new.windows.table.count ≡ 0 }
    {
        self.windows.table.forget();
        self.windows.table.window.length = 0;
        self.windows.blocks.held = [None; 3];
        self.windows.current.length = 0;
        self.windows.other.length = 0;
    }

    /// How many bytes its maps, lists and buffers take.
    pub fn held(&self) -> u64
        requires { (geometry : Geometry) × IsFor geometry.layout self.now }
        ensures { (v : Layout) → IsFor v self.now → (result ≡ held_of v) × (result ≤ held_limit v) }
    {
        let maps = self.used.held() + self.duplicates.held();
        let bytes = self.kinds.len()
            + self.marked.len()
            + self.named.len()
            + self.reached.len()
            + self.flags.len();
        let words = self.notes.len() + self.parents.len() + self.words.len();
        let lists = bytes as u64 + 4 * words as u64 + 8 * self.references.len() as u64;
        let buffers = self.windows.table.window.buffer.len()
            + self.windows.blocks.buffer.len()
            + self.windows.current.buffer.len()
            + self.windows.other.buffer.len();
        maps + lists + buffers as u64
    }

    /// Whether fragments had a DUP line, as the last phase 1 that ended with `Ok` found it, so that
    /// phase 1b is to run (fsck(8)): in a new workspace, whether it printed one. It is false before
    /// that. A phase 1 that failed leaves the answer as it was, and so do the later phases.
    pub fn has_dups(&self) -> bool
        ensures { result ≡ self.now.has_dups }
    {
        self.has_dups
    }

    /// Whether some fragment has a DUP line and its first kept offer isn't reported yet: this asks
    /// `duplicates`, which phase 1b clears, and not `has_dups`.
    pub fn has_unreported_dups(&self) -> bool
        ensures { result ≡ has_unreported_dups self.now }
    {
        self.duplicates.count_ones() != 0
    }

    /// How many offers an inode keeps that its eleventh dup offer cut, else 0.
    #[inline(always)]
    pub fn noted_cut(&self, number: u32) -> u32
        requires { number < vec_len self.now.notes }
        ensures { result ≡ cut_in (slice_index self.now.notes.items number) }
    {
        cut_in(self.notes[number as usize])
    }

    /// How many Runs phases 1 and 1b have looked at. After one of them failed no contract says that
    /// its count is exact.
    pub fn runs(&self) -> [u64; 2]
        ensures { result ≡ self.now.runs_seen ∷ self.now.runs_again ∷ [] }
    {
        [self.runs_seen, self.runs_again]
    }
}

impl Windows {
    ghost use Rattle.ffs_workspace.specs.Ready.{AreNewWindows};

    fn in_memory<M: Memory>(memory: &mut M, geometry: &Geometry) -> Result<Windows, AllocError>
        ensures made { MakesInMemory (M.account memory.old) (M.account memory.new)
            (6 * geometry.now.layout.bsize) result (AreNewWindows geometry.now.layout) }
        ensures requests { M.requests memory.new ≤ M.requests memory.old + 4 }
    {
        let size = geometry.layout.bsize as usize;
        let table = Table::over(memory.bytes(size)?);
        let blocks = Blocks::over(memory.bytes(3 * size)?);
        let current = Window::over(memory.bytes(size)?);
        let other = Window::over(memory.bytes(size)?);
        Ok(Windows {
            table,
            blocks,
            current,
            other,
        })
    }
}

/// The lists with a flag for each inode.
#[derive(Drop)]
struct FlagLists {
    marked: FilledList<bool>,
    named: FilledList<bool>,
    reached: FilledList<bool>,
    flags: FilledList<bool>,
}

fn flag_lists<M: Memory>(memory: &mut M, n: usize) -> Result<FlagLists, AllocError>
    ensures made { MakesInMemory (M.account memory.old) (M.account memory.new) (4 * n) result
        (λ lists. IsFilled n false lists.marked × IsFilled n false lists.named
        × IsFilled n false lists.reached × IsFilled n false lists.flags) }
    ensures requests { M.requests memory.new ≤ M.requests memory.old + 4 }
{
    let marked = memory.flags(n)?;
    let named = memory.flags(n)?;
    let reached = memory.flags(n)?;
    let flags = memory.flags(n)?;
    Ok(FlagLists {
        marked,
        named,
        reached,
        flags,
    })
}

/// The lists with a number of 32 bits for each inode.
#[derive(Drop)]
struct WordLists {
    notes: FilledList<u32>,
    parents: FilledList<u32>,
    words: FilledList<u32>,
}

fn word_lists<M: Memory>(memory: &mut M, n: usize) -> Result<WordLists, AllocError>
    ensures made { MakesInMemory (M.account memory.old) (M.account memory.new) (12 * n) result
        (λ lists. IsFilled n 0 lists.notes × IsFilled n 0 lists.parents
        × IsFilled n 0 lists.words) }
    ensures requests { M.requests memory.new ≤ M.requests memory.old + 3 }
{
    let notes = memory.numbers(n)?;
    let parents = memory.numbers(n)?;
    let words = memory.numbers(n)?;
    Ok(WordLists {
        notes,
        parents,
        words,
    })
}
