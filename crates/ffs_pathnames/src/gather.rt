//! What the lines of an entry and of a directory show: paths, and what an inode says of itself.
ghost use Rattle.std.specs.Prelude.{◌≡◌};
ghost use Rattle.ffs_pathnames.specs.Ready.{CanMakePath, CanIfWanted, CanMakePaths};
ghost use Rattle.ffs_pathnames.specs.Gathers.{GathersEntry, GathersExtra, GathersOwnPathAndAttr, GathersPathsAndAttr};
ghost use Rattle.ffs_pathnames.specs.Gathers.{PutsWanted, ReadsAttr, asks_attr, asks_path};
ghost use Rattle.ffs_layout.specs.Entry.{entry_value};
ghost use Rattle.ffs_workspace.specs.Ready.{CanRead};
ghost use Rattle.ffs_paths.specs.Reads.{CanReadFor};

use crate::entry_texts::{EntryTexts, make_path_once};
use crate::paths::put_path;
use ffs_image::{Image, ImageFault};
use ffs_layout::{Entry, Geometry};
use ffs_paths::{EntryPaths, KeptParent, PathText};
use ffs_volume::verdict::Verdict;
use ffs_volume::{Attr, Role};
use ffs_workspace::Workspace;

/// An entry of a directory, with its role there.
#[derive(Clone, Copy, Debug)]
pub struct DirectoryEntry<'a> {
    /// The directory.
    pub dir: u32,
    /// The entry's role.
    pub role: Role,
    /// The entry.
    pub entry: Entry<'a>,
}

/// Gathers what the messages on an entry of a directory show, and makes the path of that directory
/// where it wasn't made yet.
///
/// # Errors
/// A read of the image that failed.
#[inline(always)]
pub fn gather_entry<I: Image>(
    geometry: &Geometry,
    image: &mut I,
    workspace: &mut Workspace,
    texts: &mut EntryTexts,
    entry: &DirectoryEntry<'_>,
    verdict: &Verdict,
) -> Result<Attr, ImageFault>
    requires { CanIfWanted (asks_attr verdict.now) geometry.now.layout entry.now.entry.number
        (CanMakePath geometry.now.layout (I.device image.old) workspace.old texts.old.kept_parent
        entry.now.dir) }
    ensures { GathersEntry I.Image geometry.now.layout image.old image.new workspace.old
        workspace.new entry.now verdict.now texts.old texts.new result }
{
    make_path_once(geometry, image, workspace, texts, entry.dir)?;
    gather_paths_and_attr(geometry, image, workspace, texts, &entry.entry, verdict)
}

/// Gathers what the message on an extra entry of a directory shows: the path of the directory into
/// `texts`, and its attributes.
///
/// # Errors
/// A read of the image that failed.
pub fn gather_extra<I: Image>(
    geometry: &Geometry,
    image: &mut I,
    workspace: &mut Workspace,
    texts: &mut EntryTexts,
    dir: u32,
) -> Result<Attr, ImageFault>
    requires { CanMakePath geometry.now.layout (I.device image.old) workspace.old
        texts.old.kept_parent dir }
    ensures { GathersExtra I.Image geometry.now.layout image.old image.new workspace.old
        workspace.new dir texts.old texts.new result }
{
    make_path_once(geometry, image, workspace, texts, dir)?;
    let paths = &texts.paths;
    paths.directory.put(&mut texts.shown_directory);
    read_attr(geometry, image, workspace, dir)
}

/// Gathers what the messages on an entry show, once the path of its directory is made: the entry's
/// path and that of the directory that it names into `texts`, and the attributes of its inode.
#[tactic(auto, using(std::proofs::lemmas::Result::err_from_is_err_and, crate::proofs::ReadyLaws::gather_failed))]
#[inline(always)]
fn gather_paths_and_attr<I: Image>(
    geometry: &Geometry,
    image: &mut I,
    workspace: &mut Workspace,
    texts: &mut EntryTexts,
    entry: &Entry<'_>,
    verdict: &Verdict,
) -> Result<Attr, ImageFault>
    requires { CanIfWanted (asks_attr verdict.now) geometry.now.layout entry.now.number
        (CanMakePaths geometry.now.layout (I.device image.old) workspace.old
        texts.old.kept_parent) }
    ensures { GathersPathsAndAttr I.Image geometry.now.layout image.old image.new workspace.old
        workspace.new (entry_value entry.now) verdict.now texts.old texts.new result }
{
    let wanted = asks_path(verdict);
    gather_named_path(geometry, image, workspace, texts, wanted, entry.number)?;
    gather_own_path_and_attr(geometry, image, workspace, &mut texts.paths, entry, verdict)
}

/// Puts the path of the directory that an entry names into `texts`, where it is asked for.
fn gather_named_path<I: Image>(
    geometry: &Geometry,
    image: &mut I,
    workspace: &mut Workspace,
    texts: &mut EntryTexts,
    wanted: bool,
    dir: u32,
) -> Result<(), ImageFault>
    requires { CanIfWanted wanted geometry.now.layout dir (CanMakePaths geometry.now.layout
        (I.device image.old) workspace.old texts.old.kept_parent) }
    ensures { PutsWanted I.Image geometry.now.layout image.old image.new workspace.old workspace.new
        wanted dir texts.old texts.new result }
{
    if !wanted {
        return Ok(());
    }
    let kept_parent = &mut texts.kept_parent;
    put_path(
        geometry,
        image,
        workspace,
        kept_parent,
        dir,
        &mut texts.shown_directory,
    )
}

/// Gathers what is shown of an entry besides paths of directories, once its directory's is made:
/// the entry's path, and the attributes of its inode. It reads once at most.
#[inline(always)]
fn gather_own_path_and_attr<I: Image>(
    geometry: &Geometry,
    image: &mut I,
    workspace: &mut Workspace,
    paths: &mut EntryPaths,
    entry: &Entry<'_>,
    verdict: &Verdict,
) -> Result<Attr, ImageFault>
    requires { CanIfWanted (asks_attr verdict.now) geometry.now.layout entry.now.number
        (CanRead geometry.now.layout (I.device image.old) workspace.old) }
    ensures { GathersOwnPathAndAttr I.Image geometry.now.layout image.old image.new workspace.old
        workspace.new (entry_value entry.now) verdict.now paths.old paths.new result }
{
    paths.put(entry.name);
    if !asks_attr(verdict) {
        // No line of this verdict shows attributes, so none are read.
        return Ok(no_attr(entry.number));
    }
    read_attr(geometry, image, workspace, entry.number)
}

/// Whether the messages of a verdict show the attributes of the inode that the entry names.
fn asks_attr(verdict: &Verdict) -> bool
    ensures { result ≡ asks_attr verdict.now }
{
    matches!(verdict, Verdict::Unallocated | Verdict::Named(_))
}

/// Whether they show the path of the directory that it names.
fn asks_path(verdict: &Verdict) -> bool
    ensures { result ≡ asks_path verdict.now }
{
    matches!(verdict, Verdict::Named(defects) if defects.extraneous)
}

/// The attributes of an inode that wasn't read.
fn no_attr(number: u32) -> Attr {
    Attr {
        number,
        uid: 0,
        mode: 0,
        size: 0,
        mtime: 0,
    }
}

/// Reads what messages show of the inode of a number.
fn read_attr<I: Image>(
    geometry: &Geometry,
    image: &mut I,
    workspace: &mut Workspace,
    number: u32,
) -> Result<Attr, ImageFault>
    requires { CanReadFor geometry.now.layout (I.device image.old) workspace.old number }
    ensures { ReadsAttr I.Image geometry.now.layout image.old image.new workspace.old workspace.new
        number result }
{
    let inode = workspace
        .windows
        .table
        .inode_by_piece(geometry, number, image)?;
    Ok(Attr::of(number, &inode))
}
