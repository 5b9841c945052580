//! The first kept offers of fragments that have a DUP line, reported once each.

ghost use Rattle.std.specs.{List.range_with_len, Prelude.{◌≡◌, [], ◌∷◌, OnErr, OnOk, map}};
ghost use Rattle.ffs_volume.specs.Blocks.{BlockCheck.first_offer_lines, KeptOffers.offer_of};
ghost use Rattle.ffs_report.specs.Progress.{progress, Says};
ghost use Rattle.ffs_maps.specs.Bits.{bits_of};
ghost use Rattle.ffs_claims.specs.{Lines.of_lines, Moments.claim_moment};
ghost use Rattle.ffs_claims.specs.Reporting.{CanReport, ReportsOffer, ReportsOffers};

use ffs_layout::Geometry;
use ffs_report::{Line, OutFault, Output, Report};
use ffs_volume::BlockMessage;
use ffs_workspace::Workspace;

/// Reports a kept offer, and marks its inode, where its fragment has a DUP line whose first kept
/// offer isn't reported yet: then it is that one. Where the output fails it counts as not reported.
fn report_offer<W: Output>(
    geometry: &Geometry,
    workspace: &mut Workspace,
    number: u32,
    fragment: u64,
    report: &mut Report<'_, W>,
) -> Result<(), OutFault>
    requires { CanReport geometry.now.layout workspace.old number }
    ensures said { Says (progress W.sink report.old) (progress W.sink report.new)
        (of_lines (first_offer_lines (bits_of workspace.old.duplicates)
        (offer_of number fragment ∷ [])))
        result }
    ensures reported { OnOk result (ReportsOffer geometry.now.layout (offer_of number fragment)
        workspace.old workspace.new) }
    ensures unreported { OnErr result (workspace.new ≡ workspace.old) }
{
    // Of a bad Run: nothing there is dup.
    if fragment >= u64::from(geometry.layout.size) {
        return Ok(());
    }
    let index = fragment as u32;
    if !workspace.duplicates.get(index) {
        return Ok(());
    }
    report.say(&Line::Block(BlockMessage::Dup {
        fragment: index,
        inode: number,
    }))?;
    workspace.duplicates.clear(index);
    workspace.marked.set(number as usize, true);
    Ok(())
}

/// Reports, one after another, those of the kept offers of a Run that are the first of a fragment
/// with a DUP line.
///
/// # Errors
/// A write of the report that failed.
pub fn report_run<W: Output>(
    geometry: &Geometry,
    workspace: &mut Workspace,
    number: u32,
    start: u32,
    len: u32,
    report: &mut Report<'_, W>,
) -> Result<(), OutFault>
    requires { CanReport geometry.now.layout workspace.old number }
    ensures reported { ReportsOffers geometry.now.layout
        (map (offer_of number) (range_with_len start len))
        (claim_moment W.Output workspace.old report.old)
        (claim_moment W.Output workspace.new report.new) result }
    ensures runs { workspace.new.runs_again ≡ workspace.old.runs_again }
{
    for index in 0..len {
        report_offer(
            geometry,
            workspace,
            number,
            u64::from(start) + u64::from(index),
            report,
        )?;
    }
    Ok(())
}
