//! A survey that is made again, also by phase 2: references are counted once.

ghost use Rattle.std.specs.Prelude.{◌*◌, ◌≤◌};
ghost use Rattle.ffs_workspace.specs.Ready.{IsReady};
ghost use Rattle.ffs_volume.specs.Disk.Areas.{FitsIn};

use crate::compare::same;
use ffs_claims::phase1;
use ffs_counts::phase4;
use ffs_image::Image;
use ffs_layout::{Geometry, Order};
use ffs_names::survey;
use ffs_pathnames::phase2;
use ffs_paths::{PathText, path_of};
use ffs_report::{Counted, Output, Report, RunFault};
use ffs_samples::{Number, geometry, image_of};
use ffs_workspace::Workspace;
use std::alloc::Global;
use std::test::Fail;

/// The root has `.`, `..` and `a` (3), which is a directory with `.` and `..`: three entries refer
/// to the root, and two to the other directory. So many links they have. Their chunks are the
/// fragments 36 and 37.
static NUMBERS: [Number; 26] = [
    (28928, 2, 0o40755),
    (28930, 2, 3),
    (28936, 8, 512),
    (28968, 4, 36),
    (29032, 4, 2),
    (29056, 2, 0o40755),
    (29058, 2, 2),
    (29064, 8, 512),
    (29096, 4, 37),
    (29160, 4, 2),
    (36864, 4, 2),
    (36868, 2, 12),
    (36870, 3, 0x2e_0104),
    (36876, 4, 2),
    (36880, 2, 12),
    (36882, 4, 0x2e2e_0204),
    (36888, 4, 3),
    (36892, 2, 488),
    (36894, 3, 0x61_0104),
    (37888, 4, 3),
    (37892, 2, 12),
    (37894, 3, 0x2e_0104),
    (37900, 4, 2),
    (37904, 2, 500),
    (37906, 4, 0x2e2e_0204),
    (37910, 1, 0),
];

/// Phase 1, two surveys, phase 2, the path of a directory, and phase 4 before and after another
/// survey.
fn check_twice<I: Image, W: Output>(
    geometry: &Geometry,
    image: &mut I,
    workspace: &mut Workspace,
    path: &mut PathText,
    report: &mut Report<'_, W>,
) -> Result<(), RunFault>
    requires { IsReady geometry.now.layout (I.device image.old) workspace.old }
{
    phase1(geometry, image, workspace, report)?;
    survey(geometry, image, workspace)?;
    survey(geometry, image, workspace)?;
    phase2(geometry, image, workspace, report)?;
    if geometry.inodes() <= 3 {
        return Ok(());
    }
    workspace.forget_windows();
    path_of(geometry, image, workspace, 3, None, path)?;
    phase4(geometry, image, workspace, report)?;
    survey(geometry, image, workspace)?;
    phase4(geometry, image, workspace, report)
}

/// What comes of them, and what they print.
fn printed<I: Image>(
    geometry: &Geometry,
    image: &mut I,
    workspace: &mut Workspace,
    path: &mut PathText,
    alloc: Global,
) -> (Result<(), RunFault>, Vec<u8>)
    requires { IsReady geometry.now.layout (I.device image.old) workspace.old }
{
    let mut text = Vec::new(alloc);
    let mut out = Counted::new(&mut text);
    let mut report = Report::new(&mut out);
    let end = check_twice(geometry, image, workspace, path, &mut report);
    (end, text)
}

/// The same of an image, with the path.
fn checked<I: Image>(
    geometry: &Geometry,
    image: &mut I,
    alloc: Global,
) -> Result<(Vec<u8>, PathText), Fail>
    requires { FitsIn geometry.now.layout (I.device image.old).size }
{
    let mut path = PathText::new();
    let mut workspace = Workspace::new(alloc, geometry)?;
    let (end, text) = printed(geometry, image, &mut workspace, &mut path, alloc);
    drop(workspace);
    end?;
    Ok((text, path))
}

#[test]
fn counts_references_once(rt: HostRuntime) -> Result<(), Fail> {
    let geometry = geometry(Order::Little)?;
    let mut image = image_of(Order::Little, &NUMBERS, rt.alloc())?;
    let (text, path) = checked(&geometry, &mut image, rt.alloc())?;
    same(&rt, &path.as_slice(), &b"/a".as_slice());
    same(
        &rt,
        &text.as_slice(),
        &b"** Phase 1 - Check Blocks and Sizes\n** Phase 2 - Check Pathnames\n** Phase 4 - Check Reference Counts\n** Phase 4 - Check Reference Counts\n".as_slice(),
    );
    Ok(())
}
