//! The role of an entry of a directory.

ghost use Rattle.std.specs.Prelude.{◌≡◌};
ghost use Rattle.ffs_volume.specs.Directories.Roles.{role_of as role_in, is_one_dot as one_dot, is_two_dots as two_dots};
ghost use Rattle.ffs_layout.specs.Entry.{entry_value};

use ffs_layout::Entry;
use ffs_volume::Role;

/// Whether a name is `.`. The byte is asked for before the length: few names begin with a dot, but
/// lengths are mixed.
pub fn is_one_dot(name: &[u8]) -> bool
    ensures { result ≡ one_dot name.now }
{
    matches!(name, [b'.', rest @ ..] if rest.is_empty())
}

/// Whether a name is `..`. The first byte is asked for before the length, as for `.`.
pub fn is_two_dots(name: &[u8]) -> bool
    ensures { result ≡ two_dots name.now }
{
    matches!(name, [b'.', rest @ ..] if is_one_dot(rest))
}

/// The role of an entry at an index of its chunk; `at_start` says that the chunk is at the start of
/// the file (dir(5)).
///
/// `.` is right as the first entry of the first chunk alone, and `..` as its second; elsewhere they
/// are extra. An entry with the number 0 is empty.
#[inline(always)]
#[tactic(auto, unfolding(ffs_volume::specs::Directories::Roles::role_of))]
pub fn role_of(at_start: bool, index: usize, entry: &Entry<'_>) -> Role
    ensures { result ≡ role_in at_start index (entry_value entry.now) }
{
    if entry.number == 0 {
        return Role::Empty;
    }
    // Few names begin with a dot: no other is asked for more than its first byte.
    if !matches!(entry.name, [b'.', ..]) {
        return Role::Plain;
    }
    if is_one_dot(entry.name) {
        if at_start && index == 0 {
            Role::Dot
        } else {
            Role::Extra
        }
    } else if is_two_dots(entry.name) {
        if at_start && index == 1 {
            Role::Dotdot
        } else {
            Role::Extra
        }
    } else {
        Role::Plain
    }
}
