//! Lists with a number for each inode: kinds and parents.
ghost use Rattle.std.specs.Prelude.{◌≡◌};
ghost use Rattle.ffs_survey.specs.Survey.{number_at};
ghost use Rattle.ffs_volume.specs.Encodings.Kinds.{is_dir_at};

use ffs_memory::FilledList;
use ffs_volume::constants::ROOTINO;
use ffs_volume::kinds::Kind;

/// The number that a list has at an index, 0 past its end.
#[inline(always)]
pub fn number_of(numbers: &FilledList<u32>, index: usize) -> u32
    ensures { result ≡ number_at numbers.now.items index }
{
    if index >= numbers.len() {
        return 0;
    }
    numbers[index]
}

/// Whether a number is that of a directory, by a list with a kind for each inode. Inodes 0 and 1
/// are none.
pub fn is_dir(kinds: &[u8], number: usize) -> bool
    ensures { result ≡ is_dir_at kinds.now number }
{
    number >= ROOTINO as usize
        && number < kinds.len()
        && (Kind {
            code: kinds[number],
        })
        .is_dir()
}
