//! Where the parent entries of directories are in the image.
//!
//! To note a place is to keep it in the list `words` of the workspace, for the directory whose
//! parent entry is there. A note is another thing: what phase 1 left of an inode in the list
//! `notes`.

ghost use Rattle.std.specs.Prelude.{◌≡◌, ◌+◌, ◌<◌, ◌≤◌, ◌^◌, ◌∷◌, [], true, false, IfOk, OnOk, MatchResult, length};
ghost use Rattle.std.specs.{Prelude.vec_len, List.flat_map};
ghost use Rattle.ffs_workspace.specs.{Moments.work_moment, Found.{WithBlockCheck, WithSurvey}, Holds.HoldsSurvey};
ghost use Rattle.ffs_workspace.specs.{Ready.CanRead, Tables.{CanReadInode, TableAfter}};
ghost use Rattle.ffs_image.specs.{Device.ForContents, Known.ForBytes};
ghost use Rattle.ffs_layout.specs.Entry.{entry_value};
ghost use Rattle.ffs_volume.specs.Directories.{Entries.entries_of, Roles.{is_dir, role_of as role_in, roled_chunk}};
ghost use Rattle.ffs_volume.specs.{Directories.{Roles.roled_from, Volumes.volume_of}, Encodings.Notes.note_at};
ghost use Rattle.ffs_volume.specs.Costs.DirectoryReads.{noted_directory_cost};
ghost use Rattle.ffs_names.specs.Noting.{noting_moment, is_child_of, BeginsNotes, CanNote, CanNoteChunks};
ghost use Rattle.ffs_names.specs.Noting.{CanNoteDirectory, HoldsPlaces, NotingDirectoryLeaves, NotingChunksLeaves};
ghost use Rattle.ffs_names.specs.Noting.{NotingLeaves, NotesDirectory, NotesEach, NotesInWords, NotesRight};
ghost use Rattle.ffs_names.specs.{Noting.parents_sweep_cost, Costs.{BeginsChunks, BeginsReads, SweepsOnce}};
ghost use Rattle.ffs_names.specs.Readings.{rest};

use crate::chunk_entries::ChunkEntries;
use crate::chunks::Chunks;
use crate::one_chunk::one_chunk_at;
use crate::role::role_of;
use ffs_image::{Image, ImageFault, LimitedImage};
use ffs_layout::{Entry, Geometry};
use ffs_memory::FilledList;
use ffs_volume::constants::{DIRBLKSIZ, ROOTINO};
use ffs_volume::{Class, Order, Role};
use ffs_workspace::{
    Table, Windows, Workspace, address_in, cut_in, is_due, noted_part, sweep_reads, with_due,
    without_due, word_of_part,
};

/// Whether a directory is the parent of an inode, by the stored parents alone: these give one to no
/// inode but directories. The root has no parent entry, so it is the child of none.
fn is_child_of(parents: &FilledList<u32>, dir: u32, number: u32) -> bool
    requires { 0 < dir }
    ensures { result ≡ is_child_of parents.now.items dir number }
{
    if number as usize >= parents.len() {
        return false;
    }
    parents[number as usize] == dir && number != ROOTINO
}

/// Notes the place of a chunk of `dir` for the inode that an entry of it names, if `dir` is its
/// parent, the entry is plain, and no place is noted yet.
fn note_entry(
    entry: &Entry<'_>,
    dir: u32,
    place: u32,
    parents: &FilledList<u32>,
    words: &mut FilledList<u32>,
)
    requires { CanNote parents.now words.old dir place }
    ensures { NotesInWords parents.now words.old words.new dir place
        (record { role = role_in false 0 (entry_value entry.now); entry = entry_value entry.now }
        ∷ []) }
{
    // Whether an entry is plain depends neither on its index nor on its chunk's place in the file:
    // any will do here.
    if role_of(false, 0, entry) != Role::Plain || !is_child_of(parents, dir, entry.number) {
        return;
    }
    let index = entry.number as usize;
    let word = words[index];
    if noted_part(word).is_none() {
        // The bits of a place are 0 in the word, and `place` has no others: the sum sets these
        // alone.
        words.set(index, word + place);
    }
}

/// Notes the place of a chunk of `dir` for each inode that a plain entry of it names, if `dir` is
/// its parent, and no place is noted yet.
fn note_chunk(
    order: Order,
    chunk: &[u8; DIRBLKSIZ],
    dir: u32,
    place: u32,
    parents: &FilledList<u32>,
    words: &mut FilledList<u32>,
)
    requires { CanNote parents.now words.old dir place }
    ensures { NotesInWords parents.now words.old words.new dir place
        (roled_from false 0 (entries_of order chunk.now)) }
{
    let mut entries = ChunkEntries::of_chunk(order, chunk);
    'entries: while let Some((_index, entry)) = entries.next() {
        note_entry(&entry, dir, place, parents, words);
    }
}

/// Notes the places of the chunks of `dir`, of which none was given yet: each for the inodes that a
/// plain entry of it is the first to name, if `dir` is their parent.
///
/// # Errors
/// A read of the image that failed.
fn note_chunks<I: Image>(
    image: &mut I,
    windows: &mut Windows,
    chunks: &mut Chunks,
    dir: u32,
    parents: &FilledList<u32>,
    words: &mut FilledList<u32>,
) -> Result<(), ImageFault>
    requires { CanNoteChunks parents.now dir
        (noting_moment I.Image image.old windows.old chunks.old words.old) }
    ensures right { ForContents (I.device image.old).contents
        (λ b. NotesRight chunks.old.walk.geometry.layout b
        (flat_map roled_chunk (rest b chunks.old)) words.old.items words.new.items) }
    ensures each { OnOk result (ForContents (I.device image.old).contents
        (λ b. NotesEach chunks.old.walk.geometry.layout b (is_child_of parents.now.items dir)
        (flat_map roled_chunk (rest b chunks.old)) words.old.items words.new.items)) }
    ensures leaves { NotingChunksLeaves parents.now dir
        (noting_moment I.Image image.old windows.old chunks.old words.old)
        (noting_moment I.Image image.new windows.new chunks.new words.new) result }
{
    let order = chunks.walk.geometry.layout.order;
    let mut chunk = [0u8; DIRBLKSIZ];
    'chunks: while let Some(_offset) = chunks.next(
        image,
        &mut windows.blocks,
        &mut windows.current,
        &mut chunk,
    )? {
        let word = word_of_part(&chunks.walk.geometry, chunks.last_place());
        note_chunk(order, &chunk, dir, word, parents, words);
    }
    Ok(())
}

/// A reading of the chunks of a directory, by its note (`ffs_workspace::note_of`).
///
/// # Errors
/// A read of the image that failed.
fn chunks_of<I: Image>(
    geometry: &Geometry,
    image: &mut I,
    table: &mut Table,
    dir: u32,
    note: u32,
) -> Result<Chunks, ImageFault>
    requires { CanReadInode geometry.now.layout (I.device image.old) dir table.old }
    ensures chunks { ForContents (I.device image.old).contents
        (λ b. note ≡ note_at geometry.now.layout b dir
        → is_dir (volume_of geometry.now.layout b) dir ≡ true → MatchResult result
        (BeginsChunks geometry.now.layout b dir (I.reads image.old) (I.reads image.new))
        (λ _. I.reads image.new
        ≤ I.reads image.old + noted_directory_cost geometry.now.layout b dir)) }
    ensures begins { IfOk result (BeginsReads geometry.now) }
    ensures leaves { TableAfter geometry.now.layout (I.device image.old) (I.device image.new)
        table.new result }
{
    if let Some(address) = address_in(note) {
        let inode = one_chunk_at(address);
        return Ok(Chunks::of_class(geometry, &inode, Class::Dir, 0));
    }
    let inode = table.inode_by_piece(geometry, dir, image)?;
    Ok(Chunks::of_class(geometry, &inode, Class::Dir, cut_in(note)))
}

/// Notes the places of the parent entries that are in a directory.
///
/// # Errors
/// A read of the image that failed.
fn note_directory<I: Image>(
    geometry: &Geometry,
    image: &mut I,
    workspace: &mut Workspace,
    dir: u32,
) -> Result<(), ImageFault>
    requires { CanNoteDirectory geometry.now.layout (I.device image.old) workspace.old dir }
    ensures notes { ForBytes
        (WithBlockCheck geometry.now.layout (I.device image.old) workspace.old)
        (λ bytes. is_dir (volume_of geometry.now.layout bytes) dir ≡ true
        → NotesDirectory geometry.now.layout bytes dir
        (work_moment I.Image image.old workspace.old)
        (work_moment I.Image image.new workspace.new) result) }
    ensures leaves { NotingDirectoryLeaves geometry.now.layout dir
        (work_moment I.Image image.old workspace.old) (work_moment I.Image image.new workspace.new)
        result }
{
    let note = workspace.notes[dir as usize];
    let table = &mut workspace.windows.table;
    let mut chunks = chunks_of(geometry, image, table, dir, note)?;
    note_chunks(
        image,
        &mut workspace.windows,
        &mut chunks,
        dir,
        &workspace.parents,
        &mut workspace.words,
    )
}

/// Sets the due bit in the word of each directory that is the parent of a reached one: its chunks
/// are due to be read. (Once the places are noted the same bit says that its parent entry is due.)
/// No place is noted yet.
fn flag_parents(reached: &FilledList<bool>, parents: &FilledList<u32>, words: &mut FilledList<u32>)
    requires lengths { (vec_len parents.now ≡ vec_len reached.now)
        × (vec_len words.old ≡ vec_len reached.now) × (vec_len reached.now < 2 ^ 31) }
    ensures { BeginsNotes reached.now.items parents.now.items words.new }
{
    words.fill(0);
    let count = reached.len() as u32;
    for number in ROOTINO + 1..count {
        let parent = parents[number as usize];
        if reached[number as usize] && (ROOTINO..count).contains(&parent) {
            let index = parent as usize;
            words.set(index, with_due(words[index]));
        }
    }
}

/// As `note_places`, with no limit on reads. Its clauses are the same, but for `reads`.
///
/// # Errors
/// A read of the image that failed.
fn note_places_unlimited<I: Image>(
    geometry: &Geometry,
    image: &mut I,
    workspace: &mut Workspace,
) -> Result<(), ImageFault>
    requires { CanRead geometry.now.layout (I.device image.old) workspace.old }
    ensures places { OnOk result (ForBytes
        (WithSurvey geometry.now.layout (I.device image.old) workspace.old)
        (λ bytes. HoldsPlaces geometry.now.layout bytes workspace.new)) }
    ensures still { ForBytes
        (WithSurvey geometry.now.layout (I.device image.old) workspace.old)
        (λ bytes. HoldsSurvey geometry.now.layout bytes workspace.new) }
    ensures parents { ForBytes
        (WithSurvey geometry.now.layout (I.device image.old) workspace.old)
        (λ bytes. I.reads image.new ≤ I.reads image.old
        + parents_sweep_cost geometry.now.layout bytes workspace.old) }
    ensures leaves { NotingLeaves geometry.now.layout (work_moment I.Image image.old workspace.old)
        (work_moment I.Image image.new workspace.new) result }
{
    flag_parents(&workspace.reached, &workspace.parents, &mut workspace.words);
    for dir in ROOTINO..geometry.inodes() {
        // Here the bit says that the directory's chunks are due to be read.
        let word = workspace.words[dir as usize];
        if is_due(word) {
            workspace.words.set(dir as usize, without_due(word));
            note_directory(geometry, image, workspace, dir)?;
        }
    }
    Ok(())
}

/// Notes in `words`, of each directory that is reached from the root, where its parent entry is in
/// the image (`ffs_workspace::word_of_part`): then a path takes one read for each of its
/// directories. Each of their parents is read once at most. Afterwards no parent entry is due. The
/// windows change too. No more reads are made than those of a sweep (`sweep_reads`).
///
/// # Errors
/// A read of the image that failed. Each place that is noted is right then too, so what the survey
/// found is held still.
#[tactic(auto, using(ffs_image::proofs::Limits::served, ffs_image::proofs::Limits::read_over, ffs_workspace::proofs::Readiness::can_read_same, crate::proofs::Limits::noted_within, crate::proofs::Limits::parents_within))]
pub fn note_places<I: Image>(
    geometry: &Geometry,
    image: &mut I,
    workspace: &mut Workspace,
) -> Result<(), ImageFault>
    requires { CanRead geometry.now.layout (I.device image.old) workspace.old }
    ensures places { OnOk result (ForBytes
        (WithSurvey geometry.now.layout (I.device image.old) workspace.old)
        (λ bytes. HoldsPlaces geometry.now.layout bytes workspace.new)) }
    ensures still { ForBytes
        (WithSurvey geometry.now.layout (I.device image.old) workspace.old)
        (λ bytes. HoldsSurvey geometry.now.layout bytes workspace.new) }
    ensures reads { SweepsOnce geometry.now.layout
        (WithSurvey geometry.now.layout (I.device image.old) workspace.old)
        (I.reads image.old) (I.reads image.new) }
    // No more reads are made than the parents of reached directories take.
    ensures parents { ForBytes
        (WithSurvey geometry.now.layout (I.device image.old) workspace.old)
        (λ bytes. I.reads image.new ≤ I.reads image.old
        + parents_sweep_cost geometry.now.layout bytes workspace.old) }
    ensures leaves { NotingLeaves geometry.now.layout (work_moment I.Image image.old workspace.old)
        (work_moment I.Image image.new workspace.new) result }
{
    let mut limited = LimitedImage::new(image, sweep_reads(geometry));
    let noted = note_places_unlimited(geometry, &mut limited, workspace);
    if limited.is_spent() {
        // See `LimitedImage`: bytes that stay never ask for so many reads. Of others no place is
        // noted: the words of some directories may still have the bit that says that their chunks
        // are to be read.
        workspace.words.fill(0);
        return Ok(());
    }
    noted
}
