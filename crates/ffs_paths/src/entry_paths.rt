//! The paths of the entries of a directory, one after another.

ghost use Rattle.std.specs.Prelude.{◌≡◌, ◌<◌, ◌≤◌, ℕ, [], length as length_of};
ghost use Rattle.ffs_volume.specs.Directories.{Graph.Graph, Paths.entry_path};
ghost use Rattle.ffs_paths.specs.{Climbing.in_room, DirectoryPaths.IsPathOf, EntryPaths.BeginsWith};
ghost use Rattle.ffs_volume.specs.declared.constants.TheConstants.{MAXPATHLEN};

use crate::buffer::PathText;
use crate::path::DirectoryPath;
use ffs_memory::copy_short;
use ffs_volume::constants::MAXPATHLEN;

/// The path of a directory, and the path of the entry of it that was asked for last.
///
/// What the paths of all entries begin with is written once: only the name changes from one entry
/// to the next.
#[derive(Drop)]
pub struct EntryPaths {
    /// The path of the directory.
    pub directory: DirectoryPath,
    /// The directory's path, `/` and a name.
    pub bytes: [u8; MAXPATHLEN],
    /// How many bytes come before the name. 0 where the directory isn't reached, or where its path
    /// and a `/` take more than 1,024 bytes.
    pub begins: usize,
    /// How many bytes are the path of the last entry, or 0 where that is `text`.
    pub length: usize,
    /// The path of the last entry, where that leaves names out.
    pub text: PathText,
    ghost long: { length_of bytes ≡ MAXPATHLEN },
    ghost in_bytes: { length ≤ MAXPATHLEN },
    ghost prefix: { 0 < begins → BeginsWith directory begins bytes },
}

/// Writes what the paths of all entries begin with. Returns how many bytes that is, or 0 where the
/// directory isn't reached, or where its path and a `/` take more than 1,024 bytes.
fn put_prefix(directory: &DirectoryPath, bytes: &mut [u8; MAXPATHLEN]) -> usize
    ensures { 0 < result → BeginsWith directory.now result bytes.new }
{
    let names = &directory.names;
    if !directory.reached || names.cut || names.start == 0 {
        return 0;
    }
    let end = MAXPATHLEN - names.start;
    bytes[..end].copy_from_slice(&names.bytes[names.start..]);
    bytes[end] = b'/';
    end + 1
}

impl EntryPaths {
    ghost use Rattle.ffs_paths.specs.LastPaths.{last_path};

    /// The paths of the entries of a directory with this path. None was asked for yet.
    pub fn of(directory: DirectoryPath) -> EntryPaths
        ensures directory { result.directory ≡ directory }
        ensures unasked { last_path result ≡ [] }
    {
        let mut bytes = [0u8; MAXPATHLEN];
        let begins = put_prefix(&directory, &mut bytes);
        EntryPaths {
            directory,
            bytes,
            begins,
            length: 0,
            text: PathText::new(),
        }
    }

    /// Writes the path of an entry of this name in place of the last one.
    #[inline(always)]
    pub fn put(&mut self, name: &[u8])
        ensures path { (g : Graph) (dir : ℕ) → IsPathOf g dir self.old.directory
            → last_path self.new ≡ in_room (entry_path g dir name.now) }
        ensures same { self.new.directory ≡ self.old.directory }
    {
        let begins = self.begins;
        if begins == 0 || name.len() > MAXPATHLEN - begins {
            self.length = 0;
            self.directory.put_entry(name, &mut self.text);
            return;
        }
        let end = begins + name.len();
        copy_short(&mut self.bytes[begins..end], name);
        self.length = end;
    }

    /// The path of the entry that was asked for last.
    #[inline]
    pub fn last(&self) -> &[u8]
        ensures { result.now ≡ last_path self.now }
    {
        if self.length == 0 {
            return self.text.as_slice();
        }
        &self.bytes[..self.length]
    }
}
