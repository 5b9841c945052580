//! The path of a directory for one line, within a limit on reads.
ghost use Rattle.std.specs.Prelude.{ℕ, List, Option};
ghost use Rattle.ffs_volume.specs.declared.Layout.{Layout};
ghost use Rattle.ffs_pathnames.specs.{Gathers.{PutsPath, SparesPath}, Ready.CanMakePath};
ghost use Rattle.ffs_workspace.specs.{declared.workspace.Workspace.Workspace as WorkspaceIn};
ghost use Rattle.ffs_paths.specs.KeptParents.{HoldsKeptParent};

use ffs_image::{Image, ImageFault, LimitedImage};
use ffs_layout::Geometry;
use ffs_paths::{KeptParent, PathText};
use ffs_workspace::{PATH_READS, Workspace};

/// Keeps nothing of a parent any more.
pub fn forget_parent(kept_parent: &mut KeptParent)
    ensures { (v : Layout) (contents : Option (List ℕ)) (w : WorkspaceIn)
        → HoldsKeptParent v contents w kept_parent.new }
{
    kept_parent.parent = 0;
    kept_parent.child = 0;
}

/// Writes the path of a directory. No more is read than a path reads at most.
///
/// # Errors
/// A read of the image that failed.
pub fn put_path<I: Image>(
    geometry: &Geometry,
    image: &mut I,
    workspace: &mut Workspace,
    kept_parent: &mut KeptParent,
    dir: u32,
    path: &mut PathText,
) -> Result<(), ImageFault>
    requires { CanMakePath geometry.now.layout (I.device image.old) workspace.old kept_parent.old
        dir }
    ensures puts { PutsPath I.Image geometry.now.layout image.old image.new workspace.old
        workspace.new dir path.new.items kept_parent.new result }
    ensures spares { SparesPath I.Image geometry.now.layout image.old image.new workspace.old
        workspace.new dir kept_parent.old kept_parent.new result }
{
    let mut limited = LimitedImage::new(image, PATH_READS);
    let result = kept_parent.put_path(geometry, &mut limited, workspace, dir, path);
    if limited.is_spent() {
        // See `LimitedImage`: bytes that stay never ask for so many reads. Of others the text stays.
        forget_parent(kept_parent);
        return Ok(());
    }
    result
}
