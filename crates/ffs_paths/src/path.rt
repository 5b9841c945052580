//! The path of a directory, for all lines on it and on its entries.

ghost use Rattle.std.specs.Prelude.{◌≡◌, ◌<◌, ◌≤◌, ℕ, List, [], ◌∷◌, ◌++◌, length, vec_len, Some, option_map, IfOk, OnErr, OnOk};
ghost use Rattle.ffs_workspace.specs.Moments.{work_moment};
ghost use Rattle.ffs_volume.specs.Directories.{Graph.{Graph, level}, Paths.{dir_path, entry_path, names_down}};
ghost use Rattle.ffs_workspace.specs.Holds.{bool_at};
ghost use Rattle.ffs_paths.specs.{Buffers.HoldsNames, Climbing.{in_room, path_in}, DirectoryPaths.{HoldsPath, IsPathOf}};
ghost use Rattle.ffs_paths.specs.{Reads.{CanClimb, ForTree, CanReadFor, ReadsNames}, Slashes.HaveNoSlash};
ghost use Rattle.ffs_volume.specs.declared.constants.TheConstants.{DIRBLKSIZ};

use crate::buffer::{LONGEST_NAME, PathBuffer, PathText};
use crate::name::find_name;
use crate::name_text::NameText;
use ffs_image::{Image, ImageFault};
use ffs_layout::Geometry;
use ffs_volume::constants::ROOTINO;
use ffs_workspace::Workspace;

/// The path of a directory: the names from the root down to it, if it is reached.
#[derive(Drop)]
pub struct DirectoryPath {
    /// Whether it is reached from the root.
    pub reached: bool,
    /// The names from the root down to it.
    pub names: PathBuffer,
}

impl DirectoryPath {
    /// Writes the path of the directory in place of a text: `?` where it is not reached.
    pub fn put(&self, text: &mut PathText)
        ensures { (g : Graph) (dir : ℕ) → IsPathOf g dir self.now → text.new.items
            ≡ dir_path g dir }
    {
        if self.reached {
            self.names.put(text);
        } else {
            text.clear();
            text.push(b'?');
        }
    }

    /// The path of a directory in it, of this name: not reached, where it isn't.
    pub fn child(&self, name: &[u8]) -> DirectoryPath
        requires { length name.now ≤ DIRBLKSIZ }
        ensures names { (names : List (List ℕ)) → HoldsPath self.now (Some names)
            → HaveNoSlash (names ++ name.now ∷ [])
            → HoldsPath result (Some (names ++ name.now ∷ [])) }
        ensures reached { result.reached ≡ self.now.reached }
    {
        DirectoryPath {
            reached: self.reached,
            names: self.names.with_last(name),
        }
    }

    /// Writes the path of an entry of the directory in place of a text: leading names are dropped
    /// where 1,024 bytes don't hold all, and the entry's own where they don't hold it.
    pub fn put_entry(&self, name: &[u8], text: &mut PathText)
        ensures { (g : Graph) (dir : ℕ) → IsPathOf g dir self.now → text.new.items
            ≡ in_room (entry_path g dir name.now) }
    {
        if self.reached {
            self.names.put_with(name, text);
            return;
        }
        text.clear();
        text.push(b'?');
        if name.len() > LONGEST_NAME {
            return;
        }
        text.push(b'/');
        text.try_extend_from_slice(name).unwrap();
    }
}

/// Whether a directory is reached from the root.
#[inline]
pub fn is_reached(workspace: &Workspace, dir: u32) -> bool
    requires { dir < vec_len workspace.now.reached }
    ensures { result ≡ bool_at workspace.now.reached.items dir }
{
    workspace.reached[dir as usize]
}

/// Writes the names down to a directory that is reached in place of others, from the last one up,
/// until they are cut.
///
/// # Errors
/// A read of the image that failed.
fn climb<I: Image>(
    geometry: &Geometry,
    image: &mut I,
    workspace: &mut Workspace,
    dir: u32,
    path: &mut PathBuffer,
) -> Result<(), ImageFault>
    requires { CanClimb geometry.now.layout (I.device image.old) workspace.old dir }
    ensures path { OnOk result
        (ForTree geometry.now.layout (I.device image.old) workspace.old (λ g.
        (k : ℕ) → level g dir ≡ Some k → HoldsNames path.new (names_down g k dir))) }
    ensures leaves { ReadsNames geometry.now.layout dir
        (work_moment I.Image image.old workspace.old) (work_moment I.Image image.new workspace.new)
        result }
{
    // How many inodes there are: no way up has more steps. Each list of the workspace has this
    // length.
    let count = workspace.notes.len();
    path.clear();
    let mut name = NameText::new();
    let mut at = dir;
    'up: for step in 0..count {
        if at == ROOTINO {
            return Ok(());
        }
        if path.cut {
            return Ok(());
        }
        let parent = workspace.parents[at as usize];
        if parent as usize >= count {
            return Ok(());
        }
        find_name(geometry, image, workspace, parent, at, &mut name)?;
        path.push_front(name.as_slice());
        at = parent;
    }
    Ok(())
}

/// Writes the path of a directory in place of another one.
///
/// # Errors
/// A read of the image that failed. What the path is then is unspecified.
pub fn put_directory<I: Image>(
    geometry: &Geometry,
    image: &mut I,
    workspace: &mut Workspace,
    dir: u32,
    path: &mut DirectoryPath,
) -> Result<(), ImageFault>
    requires { CanReadFor geometry.now.layout (I.device image.old) workspace.old dir }
    ensures path { OnOk result (ForTree geometry.now.layout (I.device image.old) workspace.old
        (λ g. IsPathOf g dir path.new)) }
    ensures leaves { ReadsNames geometry.now.layout dir
        (work_moment I.Image image.old workspace.old) (work_moment I.Image image.new workspace.new)
        result }
{
    path.reached = is_reached(workspace, dir);
    if path.reached {
        climb(geometry, image, workspace, dir, &mut path.names)?;
    }
    Ok(())
}

/// The path of a directory, for all lines on it and on its entries.
///
/// # Errors
/// A read of the image that failed.
pub fn directory_path<I: Image>(
    geometry: &Geometry,
    image: &mut I,
    workspace: &mut Workspace,
    dir: u32,
) -> Result<DirectoryPath, ImageFault>
    requires { CanReadFor geometry.now.layout (I.device image.old) workspace.old dir }
    ensures path { IfOk result (λ path.
        ForTree geometry.now.layout (I.device image.old) workspace.old (λ g. IsPathOf g dir path)) }
    ensures leaves { ReadsNames geometry.now.layout dir
        (work_moment I.Image image.old workspace.old) (work_moment I.Image image.new workspace.new)
        result }
{
    let mut path = DirectoryPath {
        reached: false,
        names: PathBuffer::new(),
    };
    put_directory(geometry, image, workspace, dir, &mut path)?;
    Ok(path)
}

/// Writes the path of a directory, or of the entry `name` of it: the names from the root down, and
/// `?` in place of what is not reached or has no room in 1,024 bytes.
///
/// The windows hold what this image gives: after a phase, `Workspace::forget_windows` is called
/// first.
///
/// # Errors
/// A read of the image that failed. The text is as it was then.
pub fn path_of<I: Image>(
    geometry: &Geometry,
    image: &mut I,
    workspace: &mut Workspace,
    dir: u32,
    name: Option<&[u8]>,
    text: &mut PathText,
) -> Result<(), ImageFault>
    requires { CanReadFor geometry.now.layout (I.device image.old) workspace.old dir }
    ensures path { OnOk result (ForTree geometry.now.layout (I.device image.old) workspace.old
        (λ g. text.new.items ≡ path_in g dir (option_map (λ n. n.now) name.entry))) }
    ensures untouched { OnErr result (text.new ≡ text.old) }
    ensures leaves { ReadsNames geometry.now.layout dir
        (work_moment I.Image image.old workspace.old) (work_moment I.Image image.new workspace.new)
        result }
{
    let path = directory_path(geometry, image, workspace, dir)?;
    match name {
        None => path.put(text),
        Some(name) => path.put_entry(name, text),
    }
    Ok(())
}
