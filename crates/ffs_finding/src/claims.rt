//! The fragments that inodes claim: phase 1 of a check (fsck(8)), run for what it leaves.
ghost use Rattle.std.specs.Prelude.{◌≡◌, ◌+◌, ◌*◌, ◌≤◌, Ok, length};
ghost use Rattle.ffs_volume.specs.{Report.Reads.scan_reads, Disk.Areas.FitsIn};
ghost use Rattle.ffs_finding.specs.Claims.{TakesClaims, discarding};
ghost use Rattle.ffs_workspace.specs.Ready.{workspace_requests};

use crate::find::FindFault;
use ffs_claims::phase1;
use ffs_image::Image;
use ffs_layout::Geometry;
use ffs_memory::Memory;
use ffs_report::{OutFault, Output, Report};
use ffs_workspace::Workspace;

/// An output that takes everything and keeps nothing.
#[derive(Drop)]
struct Discarding;

impl Output for Discarding {
    ghost sink = { λ _. discarding };

    // A piece is taken whole.
    ghost was_put = { λ _ piece result _. result ≡ Ok (length piece) };

    fn failures(&self) -> u64 {
        0
    }

    fn put(&mut self, piece: &[u8]) -> Result<usize, OutFault> {
        Ok(piece.len())
    }
}

/// Takes the memory of a check of a volume, and runs phase 1 in it, over an output that drops its
/// lines.
///
/// # Errors
/// The memory was refused, or a read of the image failed.
pub(crate) fn claimed_workspace<M: Memory, I: Image>(
    memory: &mut M,
    geometry: &Geometry,
    image: &mut I,
) -> Result<Workspace, FindFault>
    requires { FitsIn geometry.now.layout (I.device image.old).size }
    ensures takes { TakesClaims geometry.now.layout (I.device image.old) (I.device image.new)
        (M.account memory.old) (M.account memory.new) result }
    ensures reads { I.reads image.new ≤ I.reads image.old + scan_reads geometry.now.layout }
    ensures requests { M.requests memory.new ≤ M.requests memory.old + workspace_requests }
{
    let mut workspace = Workspace::in_memory(memory, geometry)?;
    let mut dropped = Discarding;
    phase1(
        geometry,
        image,
        &mut workspace,
        &mut Report::new(&mut dropped),
    )?;
    Ok(workspace)
}
