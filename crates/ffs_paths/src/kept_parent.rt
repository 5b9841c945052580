//! The path of a directory's parent, kept for the directory that comes next.

ghost use Rattle.std.specs.Prelude.{◌≡◌, ◌↔◌, ◌<◌, ℕ, List, Option, Some, IfOk, OnOk, OnErr, min, vec_len};
ghost use Rattle.ffs_workspace.specs.{Moments.work_moment, declared.workspace.Workspace.Workspace as WorkspaceIn};
ghost use Rattle.ffs_volume.specs.{declared.Layout.Layout, Directories.Paths.dir_path};
ghost use Rattle.ffs_paths.specs.{Climbing.IsParentOf, DirectoryPaths.IsPathOf, Reads.ForTree};
ghost use Rattle.ffs_paths.specs.KeptParents.{CanKeepChild, HasPathOf, HoldsKeptParent, StoresPathOf, kept_moment};
ghost use Rattle.ffs_paths.specs.KeptParents.{PathCosts, CanMakePath};

use crate::buffer::{PathBuffer, PathText};
use crate::name::find_name;
use crate::name_text::NameText;
use crate::path::{DirectoryPath, directory_path, is_reached, put_directory};
use ffs_image::{Image, ImageFault};
use ffs_layout::Geometry;
use ffs_volume::constants::ROOTINO;
use ffs_workspace::Workspace;

/// The parent of a directory that is reached and isn't the root, and None of any other inode.
fn reached_parent(workspace: &Workspace, dir: u32) -> Option<u32>
    requires { dir < min (vec_len workspace.now.reached) (vec_len workspace.now.parents) }
    ensures { (p : ℕ) → (result ≡ Some p) ↔ IsParentOf workspace.now dir p }
{
    if dir <= ROOTINO || !is_reached(workspace, dir) {
        return None;
    }
    let parent = workspace.parents[dir as usize];
    if parent == 0 || parent as usize >= workspace.parents.len() {
        return None;
    }
    Some(parent)
}

/// The directory whose path was made last, and its parent with the parent's path.
///
/// Where the next directory has the same parent, or is in the last one, the way up to the root
/// isn't climbed again.
#[derive(Drop)]
pub struct KeptParent {
    /// The parent, or 0 for none.
    pub parent: u32,
    /// The path of the parent.
    pub path: DirectoryPath,
    /// The directory whose path was made last, or 0 for none.
    pub child: u32,
    /// The name of that directory in its parent.
    pub name: NameText,
}

impl KeptParent {
    /// No path is kept.
    pub fn none() -> KeptParent
        ensures { (v : Layout) (contents : Option (List ℕ)) (w : WorkspaceIn)
            → HoldsKeptParent v contents w result }
    {
        KeptParent {
            parent: 0,
            path: DirectoryPath {
                reached: false,
                names: PathBuffer::new(),
            },
            child: 0,
            name: NameText::new(),
        }
    }

    /// Keeps the path of this parent, unless it is kept already.
    fn keep_path_of<I: Image>(
        &mut self,
        geometry: &Geometry,
        image: &mut I,
        workspace: &mut Workspace,
        dir: u32,
    ) -> Result<(), ImageFault>
        requires { CanMakePath geometry.now.layout (I.device image.old) workspace.old self.old
            dir }
        ensures keeps { StoresPathOf geometry.now.layout dir
            (work_moment I.Image image.old workspace.old)
            (work_moment I.Image image.new workspace.new) self.new result }
        ensures same { HasPathOf self.old dir
            → (image.new ≡ image.old) × (workspace.new ≡ workspace.old) }
        ensures still { OnErr result (HoldsKeptParent geometry.now.layout
            (I.device image.new).contents workspace.new self.new) }
    {
        if self.parent == dir {
            return Ok(());
        }
        if self.child == dir {
            self.path = self.path.child(self.name.as_slice());
        } else {
            // After a failed read no path is kept.
            self.parent = 0;
            self.child = 0;
            put_directory(geometry, image, workspace, dir, &mut self.path)?;
        }
        self.parent = dir;
        self.child = 0;
        Ok(())
    }

    /// Keeps the path of the directory's parent, and the name of the directory in it.
    fn keep_child<I: Image>(
        &mut self,
        geometry: &Geometry,
        image: &mut I,
        workspace: &mut Workspace,
        parent: u32,
        dir: u32,
    ) -> Result<(), ImageFault>
        requires { CanKeepChild geometry.now.layout (I.device image.old) workspace.old self.old
            parent dir }
        ensures costs { PathCosts geometry.now.layout dir
            (kept_moment I.Image image.old workspace.old self.old)
            (kept_moment I.Image image.new workspace.new self.new) result }
        ensures still { OnErr result (HoldsKeptParent geometry.now.layout
            (I.device image.new).contents workspace.new self.new) }
    {
        self.keep_path_of(geometry, image, workspace, parent)?;
        self.child = 0;
        find_name(geometry, image, workspace, parent, dir, &mut self.name)?;
        self.child = dir;
        Ok(())
    }

    /// The path of a directory, for all lines on it and on its entries.
    ///
    /// # Errors
    /// A read of the image that failed. What is kept is right still.
    pub fn path_to<I: Image>(
        &mut self,
        geometry: &Geometry,
        image: &mut I,
        workspace: &mut Workspace,
        dir: u32,
    ) -> Result<DirectoryPath, ImageFault>
        requires { CanMakePath geometry.now.layout (I.device image.old) workspace.old self.old
            dir }
        ensures path { IfOk result (λ path.
            ForTree geometry.now.layout (I.device image.old) workspace.old
            (λ g. IsPathOf g dir path)) }
        ensures costs { PathCosts geometry.now.layout dir
            (kept_moment I.Image image.old workspace.old self.old)
            (kept_moment I.Image image.new workspace.new self.new) result }
        ensures still { OnErr result (HoldsKeptParent geometry.now.layout
            (I.device image.new).contents workspace.new self.new) }
    {
        let Some(parent) = reached_parent(workspace, dir) else {
            return directory_path(geometry, image, workspace, dir);
        };
        self.keep_child(geometry, image, workspace, parent, dir)?;
        Ok(self.path.child(self.name.as_slice()))
    }

    /// Writes the path of a directory.
    ///
    /// # Errors
    /// A read of the image that failed. What is kept is right still, and the text is as it was.
    pub fn put_path<I: Image>(
        &mut self,
        geometry: &Geometry,
        image: &mut I,
        workspace: &mut Workspace,
        dir: u32,
        text: &mut PathText,
    ) -> Result<(), ImageFault>
        requires { CanMakePath geometry.now.layout (I.device image.old) workspace.old self.old
            dir }
        ensures path { OnOk result (ForTree geometry.now.layout (I.device image.old) workspace.old
            (λ g. text.new.items ≡ dir_path g dir)) }
        ensures untouched { OnErr result (text.new ≡ text.old) }
        ensures costs { PathCosts geometry.now.layout dir
            (kept_moment I.Image image.old workspace.old self.old)
            (kept_moment I.Image image.new workspace.new self.new) result }
        ensures still { OnErr result (HoldsKeptParent geometry.now.layout
            (I.device image.new).contents workspace.new self.new) }
    {
        let Some(parent) = reached_parent(workspace, dir) else {
            directory_path(geometry, image, workspace, dir)?.put(text);
            return Ok(());
        };
        self.keep_child(geometry, image, workspace, parent, dir)?;
        self.path.put_entry(self.name.as_slice(), text);
        Ok(())
    }
}
