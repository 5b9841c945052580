//! The texts that lines of entries show, with the path of the directory that the entries are in: the
//! first line makes that.
ghost use Rattle.std.specs.Prelude.{◌≡◌, ℕ, List, Option};
ghost use Rattle.ffs_volume.specs.declared.Layout.{Layout};
ghost use Rattle.ffs_pathnames.specs.{Ready.CanMakePath, Gathers.{BeginsPath, MakesPath, MakesPathLimited, SparesPath}};

use crate::paths::forget_parent;
use ffs_image::{Image, ImageFault, LimitedImage};
use ffs_layout::Geometry;
use ffs_paths::{DirectoryPath, EntryPaths, KeptParent, PathBuffer, PathText};
use ffs_workspace::{PATH_READS, Workspace};

/// The texts that lines of entries show: those of an entry are written over the ones before.
#[derive(Drop)]
pub struct EntryTexts {
    /// What is kept from the path of one directory to that of the next.
    pub kept_parent: KeptParent,
    /// Whether the path of the directory that the entries are in is settled: the first line makes
    /// it, or gives it up (`make_path`). Where it is given up, all lines of the directory show that
    /// of an earlier directory, or `?` if none was made yet.
    pub path_settled: bool,
    /// The path of the directory that the entries are in, and that of the last entry.
    pub paths: EntryPaths,
    /// The path of the directory that a line shows: the entry names it, or an extra entry is in it.
    pub shown_directory: PathText,
}

impl EntryTexts {
    ghost use Rattle.ffs_paths.specs.KeptParents.{HoldsKeptParent};
    ghost use Rattle.ffs_workspace.specs.declared.workspace.Workspace as workspaces;

    /// Of no directory.
    pub fn none() -> EntryTexts
        ensures { (v : Layout) (contents : Option (List ℕ)) (w : workspaces.Workspace)
            → HoldsKeptParent v contents w result.kept_parent }
    {
        EntryTexts {
            kept_parent: KeptParent::none(),
            path_settled: false,
            paths: EntryPaths::of(DirectoryPath {
                reached: false,
                names: PathBuffer::new(),
            }),
            shown_directory: PathText::new(),
        }
    }
}

/// As `make_path`, with no limit on reads. Its clause `spares` is the same, and by `makes` the
/// path is always made.
fn make_path_unlimited<I: Image>(
    geometry: &Geometry,
    image: &mut I,
    workspace: &mut Workspace,
    texts: &mut EntryTexts,
    dir: u32,
) -> Result<(), ImageFault>
    requires { CanMakePath geometry.now.layout (I.device image.old) workspace.old
        texts.old.kept_parent dir }
    ensures makes { MakesPath I.Image geometry.now.layout image.old image.new workspace.old
        workspace.new dir texts.old texts.new result }
    ensures spares { SparesPath I.Image geometry.now.layout image.old image.new workspace.old
        workspace.new dir texts.old.kept_parent texts.new.kept_parent result }
{
    let path = texts.kept_parent.path_to(geometry, image, workspace, dir)?;
    texts.paths = EntryPaths::of(path);
    texts.path_settled = true;
    Ok(())
}

/// Makes the path of a directory for the lines on its entries. No more is read than a path reads at
/// most. It is apart from `make_path_once`, which is called for each line: a function clears the
/// room of its locals each time that it is entered, and those here are large.
#[inline(never)]
fn make_path<I: Image>(
    geometry: &Geometry,
    image: &mut I,
    workspace: &mut Workspace,
    texts: &mut EntryTexts,
    dir: u32,
) -> Result<(), ImageFault>
    requires { CanMakePath geometry.now.layout (I.device image.old) workspace.old
        texts.old.kept_parent dir }
    ensures makes { MakesPathLimited I.Image geometry.now.layout image.old image.new workspace.old
        workspace.new dir texts.old texts.new result }
    ensures spares { SparesPath I.Image geometry.now.layout image.old image.new workspace.old
        workspace.new dir texts.old.kept_parent texts.new.kept_parent result }
{
    let mut limited = LimitedImage::new(image, PATH_READS);
    let result = make_path_unlimited(geometry, &mut limited, workspace, texts, dir);
    if limited.is_spent() {
        // See `LimitedImage`: bytes that stay never ask for so many reads. Of others the path that
        // was there before stays, for all lines of the directory.
        forget_parent(&mut texts.kept_parent);
        texts.path_settled = true;
        return Ok(());
    }
    result
}

/// Makes the path of a directory for the lines on its entries, where it wasn't made yet.
///
/// # Errors
/// A read of the image that failed.
#[inline(always)]
pub fn make_path_once<I: Image>(
    geometry: &Geometry,
    image: &mut I,
    workspace: &mut Workspace,
    texts: &mut EntryTexts,
    dir: u32,
) -> Result<(), ImageFault>
    requires { CanMakePath geometry.now.layout (I.device image.old) workspace.old
        texts.old.kept_parent dir }
    ensures { BeginsPath I.Image geometry.now.layout image.old image.new workspace.old
        workspace.new dir texts.old texts.new result }
{
    if texts.path_settled {
        return Ok(());
    }
    make_path(geometry, image, workspace, texts, dir)
}
