//! The name of a directory in its parent.

ghost use Rattle.std.specs.Prelude.{◌≡◌, ◌==◌, ◌+◌, ◌≤◌, ◌&&◌, ◌/◌, false, true, max, IfOk, OnOk, length};
ghost use Rattle.ffs_workspace.specs.{Moments.work_moment, Found.WithBlockCheck};
ghost use Rattle.ffs_image.specs.Known.{ForBytes};
ghost use Rattle.ffs_volume.specs.Directories.{Entries.entries_of, Roles.{is_dir, is_plain, role_of, roled_from}};
ghost use Rattle.ffs_volume.specs.{Directories.Volumes.volume_of, Encodings.Places.entries_in_chunks};
ghost use Rattle.ffs_volume.specs.{declared.constants.TheConstants.DIRBLKSIZ, Costs.DirectoryReads.directory_cost};
ghost use Rattle.ffs_layout.specs.Entry.{entry_value};
ghost use Rattle.ffs_paths.specs.{Climbing.{FindsFirstName, FindsName, FindsNoted, IsNameIn}, NameTexts.name_bytes};
ghost use Rattle.ffs_paths.specs.Reads.{AsksForPlace, ForTree, CanReadFor, OnlyReads, ReadsName, ReadsPlace};

use crate::name_text::NameText;
use ffs_image::{Image, ImageFault};
use ffs_layout::{Entry, Geometry};
use ffs_names::{ChunkEntries, Entries, role_of};
use ffs_survey::is_plain;
use ffs_volume::constants::DIRBLKSIZ;
use ffs_volume::{Order, Role};
use ffs_workspace::{Workspace, noted_part, part_size};

/// Whether an entry of this role and number names an inode in the directory tree.
pub fn is_naming(role: Role, number: u32, inode: u32) -> bool
    ensures { result ≡ (is_plain role && (number == inode)) }
{
    is_plain(role) && number == inode
}

/// Whether an entry names an inode in the directory tree. Whether it is plain doesn't depend on its
/// chunk's place in the file, so it is asked as if that weren't the first. Its number is looked at
/// first, since most entries have another one.
#[inline(always)]
fn is_naming_entry(index: usize, entry: &Entry<'_>, inode: u32) -> bool
    ensures { result ≡ (is_plain (role_of false index (entry_value entry.now))
        && (entry.now.number == inode)) }
{
    entry.number == inode && is_plain(role_of(false, index, entry))
}

/// Finds the name of an inode in a chunk, by its first plain entry there. Returns whether there is
/// one.
fn find_in_chunk(order: Order, chunk: &[u8; DIRBLKSIZ], number: u32, name: &mut NameText) -> bool
    ensures { FindsFirstName number (roled_from false 0 (entries_of order chunk.now))
        (name_bytes name.new) result }
{
    let mut entries = ChunkEntries::of_chunk(order, chunk);
    'entries: while let Some((index, entry)) = entries.next() {
        if is_naming_entry(index, &entry, number) {
            name.set(entry.name);
            return true;
        }
    }
    false
}

/// Finds the name of an inode in chunks that follow one another, by the first plain entry in them.
/// Returns whether there is one.
fn find_in_chunks(order: Order, bytes: &[u8], number: u32, name: &mut NameText) -> bool
    ensures { FindsFirstName number
        (entries_in_chunks order (length bytes.now / DIRBLKSIZ) bytes.now) (name_bytes name.new)
        result }
{
    let (chunks, _) = bytes.as_chunks::<DIRBLKSIZ>();
    for chunk in chunks {
        if find_in_chunk(order, chunk, number, name) {
            return true;
        }
    }
    false
}

/// Finds the name of a directory in its parent, in the part of the image that is noted as the place
/// of it. Returns whether it is there.
#[tactic(auto, using(ffs_workspace::proofs::PartLaws::part_in_block), unfolding(ffs_image::specs::Reads::ReadsAtMostOnce))]
fn find_by_place<I: Image>(
    geometry: &Geometry,
    image: &mut I,
    workspace: &mut Workspace,
    dir: u32,
    name: &mut NameText,
) -> Result<bool, ImageFault>
    requires { CanReadFor geometry.now.layout (I.device image.old) workspace.old dir }
    ensures finds { IfOk result (FindsNoted geometry.now.layout (I.device image.old) workspace.old
        dir (name_bytes name.new)) }
    ensures leaves { ReadsPlace geometry.now.layout dir
        (work_moment I.Image image.old workspace.old) (work_moment I.Image image.new workspace.new)
        result }
    ensures asks { AsksForPlace I.was_read geometry.now.layout workspace.old dir image.old
        image.new }
{
    let Some(part) = noted_part(workspace.words[dir as usize]) else {
        return Ok(false);
    };
    let size = part_size(geometry);
    let place = size as u64 * u64::from(part);
    let end = u64::from(geometry.layout.size) * u64::from(geometry.layout.fsize);
    if place + size as u64 > end {
        return Ok(false);
    }
    let window = &mut workspace.windows.other;
    window.fill(image, place, size)?;
    let order = geometry.layout.order;
    Ok(find_in_chunks(order, window.bytes(), dir, name))
}

/// Finds the name of a directory in its parent, by all entries of the parent: that of the first
/// plain entry that names it, and none where no entry does. Of an image that gives its bytes the
/// parent's inode and each of its Runs are read once at most.
///
/// # Errors
/// A read of the image that failed.
pub fn search_name<I: Image>(
    geometry: &Geometry,
    image: &mut I,
    workspace: &mut Workspace,
    parent: u32,
    dir: u32,
    name: &mut NameText,
) -> Result<(), ImageFault>
    requires { CanReadFor geometry.now.layout (I.device image.old) workspace.old parent }
    ensures name { OnOk result (ForTree geometry.now.layout (I.device image.old) workspace.old
        (λ g. IsNameIn g dir parent (name_bytes name.new))) }
    ensures reads { OnlyReads geometry.now.layout (I.device image.old) (I.device image.new)
        workspace.old workspace.new result }
    ensures counted { ForBytes
        (WithBlockCheck geometry.now.layout (I.device image.old) workspace.old)
        (λ b. is_dir (volume_of geometry.now.layout b) parent ≡ true
        → I.reads image.new ≤ I.reads image.old + directory_cost geometry.now.layout b parent) }
{
    name.clear();
    let cut = workspace.noted_cut(parent);
    let inode = workspace
        .windows
        .table
        .inode_by_piece(geometry, parent, image)?;
    let mut entries = Entries::start(geometry, &inode, cut);
    'entries: while let Some(entry) = entries.next(
        image,
        &mut workspace.windows.blocks,
        &mut workspace.windows.other,
    )? {
        if is_naming(entry.role, entry.number, dir) {
            name.set(entries.name());
            return Ok(());
        }
    }
    Ok(())
}

/// Finds the name of a directory in its parent: that of the first plain entry there that names it,
/// and none where no entry does.
///
/// # Errors
/// A read of the image that failed.
pub fn find_name<I: Image>(
    geometry: &Geometry,
    image: &mut I,
    workspace: &mut Workspace,
    parent: u32,
    dir: u32,
    name: &mut NameText,
) -> Result<(), ImageFault>
    // Both inodes are of the volume just where the one with the greater number is.
    requires { CanReadFor geometry.now.layout (I.device image.old) workspace.old (max dir parent) }
    ensures finds { OnOk result (FindsName geometry.now.layout (I.device image.old) workspace.old
        dir parent (name_bytes name.new)) }
    ensures leaves { ReadsName geometry.now.layout dir
        (work_moment I.Image image.old workspace.old) (work_moment I.Image image.new workspace.new)
        result }
    ensures counted { ForBytes
        (WithBlockCheck geometry.now.layout (I.device image.old) workspace.old)
        (λ b. is_dir (volume_of geometry.now.layout b) parent ≡ true
        → I.reads image.new
        ≤ I.reads image.old + (1 + directory_cost geometry.now.layout b parent)) }
{
    if find_by_place(geometry, image, workspace, dir, name)? {
        return Ok(());
    }
    search_name(geometry, image, workspace, parent, dir, name)
}
