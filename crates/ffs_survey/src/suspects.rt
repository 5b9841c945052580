//! Which inodes are suspect or dead.
ghost use Rattle.std.specs.Prelude.{◌≡◌, ◌<◌, length, min, vec_len};
ghost use Rattle.ffs_survey.specs.Survey.{suspect_at, dead_at};

use ffs_memory::FilledList;
use ffs_volume::constants::ROOTINO;
use ffs_volume::kinds::Kind;

/// Whether an inode is suspect: marked, or a directory of size 0.
pub fn is_suspect(kinds: &[u8], marked: &FilledList<bool>, number: usize) -> bool
    requires { number < min (length kinds.now) (vec_len marked.now) }
    ensures { result ≡ suspect_at kinds.now marked.now.items number }
{
    let kind = Kind {
        code: kinds[number],
    };
    marked[number] | kind.is_empty_dir()
}

/// Whether an inode is dead: suspect, not the root, and named by no plain entry.
pub fn is_dead(
    kinds: &[u8],
    marked: &FilledList<bool>,
    named: &FilledList<bool>,
    number: u32,
) -> bool
    requires { number < min (length kinds.now) (min (vec_len marked.now) (vec_len named.now)) }
    ensures { result ≡ dead_at kinds.now marked.now.items named.now.items number }
{
    is_suspect(kinds, marked, number as usize) && number != ROOTINO && !named[number as usize]
}
