//! Where parent entries are in the image: that of a directory in the only chunk of the root, and
//! that of one in the second chunk of another directory.

ghost use Rattle.std.specs.Prelude.{◌≡◌, IfOk};
ghost use Rattle.ffs_workspace.specs.Lengths.{IsFor};
ghost use Rattle.ffs_volume.specs.Blocks.Inodes.{inodes_of};

use crate::compare::same;
use ffs_layout::{Geometry, Order};
use ffs_memory::FilledList;
use ffs_names::note_places;
use ffs_samples::{Number, geometry, image_of, inode, set_first_filled};
use ffs_volume::Class;
use ffs_workspace::{Workspace, is_due, note_of, noted_part};
use std::alloc::{AllocError, Global};
use std::test::Fail;

/// 2 is the parent of 3, and 3 that of 5. The only chunk of 2 is noted: it is at fragment 40.
fn surveyed(alloc: Global, geometry: &Geometry) -> Result<Workspace, AllocError>
    requires { inodes_of geometry.now.layout ≡ 32 }
    ensures made { IfOk result (λ w. IsFor geometry.now.layout w) }
{
    let mut workspace = Workspace::new(alloc, geometry)?;
    let mut root = inode(0o40755, 512);
    root.addresses[0] = 40;
    workspace.notes.set(2, note_of(Class::Dir, &root, 0));
    set_first_filled(
        &mut workspace.reached,
        &[false, false, true, true, false, true],
    );
    set_first_filled(&mut workspace.parents, &[0, 0, 2, 2, 0, 3]);
    Ok(workspace)
}

/// The root has `.`, `a` (3) and `b` (4). Inode 3 has 1,024 bytes at fragment 41: an empty entry,
/// and then `c` (5).
static NUMBERS: [Number; 19] = [
    (29056, 2, 0o40755),
    (29064, 8, 1024),
    (29096, 4, 41),
    (40960, 4, 2),
    (40964, 2, 12),
    (40966, 2, 0x0104),
    (40968, 1, 46),
    (40972, 4, 3),
    (40976, 2, 12),
    (40978, 2, 0x0104),
    (40980, 1, 97),
    (40984, 4, 4),
    (40988, 2, 488),
    (40990, 2, 0x0108),
    (40992, 1, 98),
    (41988, 2, 512),
    (42496, 4, 5),
    (42500, 2, 512),
    (42502, 4, 0x0063_0104),
];

/// The parts of the image that are noted in the words of inodes 2 to 5, and whether one of them is
/// due.
fn noted_in(words: &FilledList<u32>) -> ([Option<u32>; 4], bool) {
    let mut places = [None; 4];
    let mut due = false;
    for index in 0..4 {
        if index + 2 < words.len() {
            let word = words[index + 2];
            places[index] = noted_part(word);
            due |= is_due(word);
        }
    }
    (places, due)
}

/// The same of the volume.
fn noted(alloc: Global) -> Result<([Option<u32>; 4], bool), Fail> {
    let geometry = geometry(Order::Little)?;
    let mut image = image_of(Order::Little, &NUMBERS, alloc)?;
    let mut workspace = surveyed(alloc, &geometry)?;
    workspace.forget_windows();
    let read = note_places(&geometry, &mut image, &mut workspace);
    let found = noted_in(&workspace.words);
    drop(workspace);
    read?;
    Ok(found)
}

#[test]
fn notes_places_of_parent_entries(rt: HostRuntime) -> Result<(), Fail> {
    let wanted = ([None, Some(80), None, Some(83)], false);
    same(&rt, &noted(rt.alloc())?, &wanted);
    Ok(())
}
