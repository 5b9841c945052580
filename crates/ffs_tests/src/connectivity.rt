//! What is reported of a volume with directories that are cut off.

ghost use Rattle.std.specs.Prelude.{◌≡◌, IfOk};
ghost use Rattle.ffs_workspace.specs.{Lengths.IsFor, Ready.IsReady};
ghost use Rattle.ffs_volume.specs.Blocks.Inodes.{inodes_of};

use crate::compare::same;
use ffs_connectivity::{flag_leaders, phase3};
use ffs_image::Image;
use ffs_layout::{Geometry, Order};
use ffs_report::{Counted, Report, RunFault};
use ffs_samples::{Number, flags, geometry, image_of, numbers, set_first, set_first_filled};
use ffs_workspace::Workspace;
use std::alloc::{AllocError, Global};
use std::test::Fail;

/// Directories 2 to 8: 2 is reached, 3 has no parent, 4 is empty and without a name, 5 and 6 are
/// each other's parents, 4 is that of 7, and 3 that of 8.
fn surveyed(alloc: Global, geometry: &Geometry) -> Result<Workspace, AllocError>
    requires { inodes_of geometry.now.layout ≡ 32 }
    ensures made { IfOk result (λ w. IsFor geometry.now.layout w) }
{
    let mut workspace = Workspace::new(alloc, geometry)?;
    set_first(&mut workspace.kinds, &[0, 0, 4, 4, 5, 4, 4, 4, 4]);
    set_first_filled(&mut workspace.reached, &[false, false, true]);
    set_first_filled(&mut workspace.parents, &[0, 0, 0, 0, 0, 6, 5, 4, 3]);
    Ok(workspace)
}

/// Inode 3: a directory of 512 bytes, changed a day after the epoch, of the owner 7.
static LOST: [Number; 4] = [
    (29056, 2, 0o40755),
    (29064, 8, 512),
    (29080, 4, 86400),
    (29168, 4, 7),
];

/// What comes of the connectivity check, what it prints, and whether it found a defect.
fn printed<I: Image>(
    geometry: &Geometry,
    image: &mut I,
    workspace: &mut Workspace,
    alloc: Global,
) -> (Result<(), RunFault>, Vec<u8>, bool)
    requires { IsReady geometry.now.layout (I.device image.old) workspace.old }
{
    let mut text = Vec::new(alloc);
    let mut out = Counted::new(&mut text);
    let mut report = Report::new(&mut out);
    let end = phase3(geometry, image, workspace, &mut report);
    let defect = report.any_defect();
    (end, text, defect)
}

/// The same of these directories.
fn reported(alloc: Global) -> Result<(Vec<u8>, bool), Fail> {
    let geometry = geometry(Order::Little)?;
    let mut image = image_of(Order::Little, &LOST, alloc)?;
    let mut workspace = surveyed(alloc, &geometry)?;
    let (end, text, defect) = printed(&geometry, &mut image, &mut workspace, alloc);
    drop(workspace);
    end?;
    Ok((text, defect))
}

#[test]
fn reports_cut_off_directories(rt: HostRuntime) -> Result<(), Fail> {
    let (text, defect) = reported(rt.alloc())?;
    same(&rt, &defect, &true);
    same(
        &rt,
        &text.as_slice(),
        &b"** Phase 3 - Check Connectivity\nUNREF DIR I=3 OWNER=7 MODE=40755\nSIZE=512 MTIME=86400\nRECONNECT? no\n\nUNREF DIR I=5 OWNER=0 MODE=0\nSIZE=0 MTIME=0\nRECONNECT? no\n\nUNREF DIR I=7 OWNER=0 MODE=0\nSIZE=0 MTIME=0\nRECONNECT? no\n\n".as_slice(),
    );
    Ok(())
}

/// The least number of each cycle leads it: the root's own, and that of 5 and 6.
#[test]
fn leads_a_cycle_by_its_least_number(rt: HostRuntime) -> Result<(), AllocError> {
    let parents = numbers(&[0, 0, 2, 2, 0, 6, 5, 0], rt.alloc())?;
    let mut walk_of = numbers(&[7; 8], rt.alloc())?;
    let mut leaders = flags(&[true; 8], rt.alloc())?;
    flag_leaders(&parents, &mut walk_of, &mut leaders);
    same(
        &rt,
        &[leaders[0], leaders[2], leaders[3], leaders[5], leaders[6]],
        &[false, true, false, true, false],
    );
    Ok(())
}
