//! The offers of Runs, and what is reported of them.

ghost use Rattle.std.specs.Prelude.{◌≡◌, ℕ, IfOk, IsTrue, Option, false, true};
ghost use Rattle.ffs_volume.specs.{Blocks.Claims.offer_lines, Disk.Areas.{is_fragment_in_range, is_run_in_range}};
ghost use Rattle.ffs_report.specs.Progress.{progress, Says};
ghost use Rattle.ffs_workspace.specs.Holds.{claims_of};
ghost use Rattle.ffs_claims.specs.{Bounds.step_bound, Claiming.{CanSeeNext, CanSeeStep, CanTakeOffers, ClaimsInArea}};
ghost use Rattle.ffs_claims.specs.{Claiming.{ClaimsStep, TakesOffer, TakesOffers}, Leaves.CanOffer};
ghost use Rattle.ffs_claims.specs.{Moments.claim_moment, Lines.{has_dup_line, of_lines}};
ghost use Rattle.ffs_volume.specs.Blocks.Claims as claims;
ghost use Rattle.ffs_volume.specs.declared.Step.TheVariants as steps;

use crate::area::{DataArea, Run};
use crate::lines::{say_bad, say_dup, say_tail};
use ffs_layout::Geometry;
use ffs_report::{OutFault, Output, Report};
use ffs_volume::Step;
use ffs_volume::constants::{MAXBAD, MAXDUP};
use ffs_workspace::Workspace;

/// Whether the next step of the current inode is seen.
pub fn is_open(workspace: &Workspace) -> bool
    ensures { result ≡ claims.is_open (claims_of workspace.now) }
{
    workspace.bad <= MAXBAD && workspace.dup_offers <= MAXDUP
}

/// Whether the fragment of an offer is in range. `known_in_range` says that its whole Run is known
/// to be: then the fragment isn't looked at. Where it is false, the fragment may be in range still.
#[inline(always)]
#[tactic(auto, unfolding(ffs_volume::specs::Disk::Areas::is_fragment_in_range))]
fn fragment_in_range(geometry: &Geometry, fragment: u64, known_in_range: bool) -> bool
    requires known { IsTrue known_in_range
        → is_fragment_in_range geometry.now.layout fragment ≡ true }
    ensures { result ≡ is_fragment_in_range geometry.now.layout fragment }
{
    // `ok` asks for the size too: it is asked for here so that the fragment has room in 32 bits.
    known_in_range || (fragment < u64::from(geometry.layout.size) && geometry.ok(fragment as u32))
}

/// Takes an offer, and reports nothing. Returns whether the offer is dup and kept, and so has a DUP
/// line, which `take_offer` says. `known_in_range` is that of `fragment_in_range`.
#[inline(always)]
#[tactic(auto, using(crate::proofs::Frames::stay, ffs_volume::proofs::Potentials::in_range_below))]
fn take_offer_silently(
    geometry: &Geometry,
    workspace: &mut Workspace,
    fragment: u64,
    known_in_range: bool,
) -> bool
    requires { CanOffer geometry.now.layout workspace.old 1 known_in_range
        (is_fragment_in_range geometry.now.layout fragment) }
    ensures taken { TakesOffer geometry.now.layout fragment workspace.old workspace.new }
    ensures dup { result ≡ has_dup_line geometry.now.layout (claims_of workspace.old) fragment }
{
    if workspace.dup_offers > MAXDUP {
        return false;
    }
    workspace.kept += 1;
    if !fragment_in_range(geometry, fragment, known_in_range) {
        return false;
    }
    let index = fragment as u32;
    if workspace.used.claim(index, 1) {
        return false;
    }
    workspace.dup_offers += 1;
    workspace.duplicates.set(index);
    true
}

/// Takes one offer, and reports what is wrong with it. `known_in_range` says that its Run is known
/// to be in range.
fn take_offer<W: Output>(
    geometry: &Geometry,
    workspace: &mut Workspace,
    number: u32,
    fragment: u64,
    known_in_range: bool,
    report: &mut Report<'_, W>,
) -> Result<(), OutFault>
    requires { CanOffer geometry.now.layout workspace.old 1 known_in_range
        (is_fragment_in_range geometry.now.layout fragment) }
    ensures said { Says (progress W.sink report.old) (progress W.sink report.new)
        (of_lines (offer_lines geometry.now.layout number (claims_of workspace.old) fragment))
        result }
    ensures taken { TakesOffer geometry.now.layout fragment workspace.old workspace.new }
{
    let is_eleventh = workspace.dup_offers == MAXDUP;
    if !take_offer_silently(geometry, workspace, fragment, known_in_range) {
        return Ok(());
    }
    say_dup(fragment as u32, number, is_eleventh, report)
}

/// Takes the offers of a Run, one after another, and reports what is wrong with them.
/// `known_in_range` says that the Run is known to be in range.
fn take_offers<W: Output>(
    geometry: &Geometry,
    workspace: &mut Workspace,
    number: u32,
    run: Run,
    known_in_range: bool,
    report: &mut Report<'_, W>,
) -> Result<(), OutFault>
    requires { CanOffer geometry.now.layout workspace.old run.len known_in_range
        (is_run_in_range geometry.now.layout run.start run.len) }
    ensures { TakesOffers geometry.now.layout number run
        (claim_moment W.Output workspace.old report.old)
        (claim_moment W.Output workspace.new report.new) result }
{
    for index in 0..run.len {
        take_offer(
            geometry,
            workspace,
            number,
            u64::from(run.start) + u64::from(index),
            known_in_range,
            report,
        )?;
    }
    Ok(())
}

/// Takes a Run in range of the current inode: it is claimed at once where its fragments are all
/// unused and lie in one word of the map. Returns whether the next step is seen.
fn take_run_in_range<W: Output>(
    geometry: &Geometry,
    workspace: &mut Workspace,
    number: u32,
    run: Run,
    report: &mut Report<'_, W>,
) -> Result<bool, OutFault>
    requires { CanTakeOffers geometry.now.layout workspace.old run true }
    ensures taken { TakesOffers geometry.now.layout number run
        (claim_moment W.Output workspace.old report.old)
        (claim_moment W.Output workspace.new report.new) result }
    ensures seen { IfOk result (λ seen. seen ≡ claims.is_open (claims_of workspace.new)) }
{
    if workspace.used.claim(run.start, run.len) {
        workspace.kept += u64::from(run.len);
        return Ok(true);
    }
    take_offers(geometry, workspace, number, run, true, report)?;
    Ok(is_open(workspace))
}

/// Takes the offers of a bad Run of the current inode, which isn't cut. No fragment past the volume
/// is in range: so a Run that begins there is kept at once, and nothing of it is claimed or dup.
fn take_bad_run<W: Output>(
    geometry: &Geometry,
    workspace: &mut Workspace,
    number: u32,
    run: Run,
    report: &mut Report<'_, W>,
) -> Result<(), OutFault>
    requires { CanTakeOffers geometry.now.layout workspace.old run false }
    ensures { TakesOffers geometry.now.layout number run
        (claim_moment W.Output workspace.old report.old)
        (claim_moment W.Output workspace.new report.new) result }
{
    if run.start >= geometry.layout.size {
        workspace.kept += u64::from(run.len);
        return Ok(());
    }
    take_offers(geometry, workspace, number, run, false, report)
}

/// Takes a Run of the current inode. Returns whether the next step is seen.
#[tactic(auto, using(crate::proofs::Frames::stay))]
fn take_run<W: Output>(
    geometry: &Geometry,
    workspace: &mut Workspace,
    area: &mut DataArea,
    number: u32,
    run: Run,
    report: &mut Report<'_, W>,
) -> Result<bool, OutFault>
    requires { CanSeeNext geometry.now.layout workspace.old area.old step_bound }
    // Whichever block of the file the Run is, or an indirect block.
    ensures claims { (block : Option ℕ) → ClaimsStep geometry.now.layout number
        (steps.Run run.start run.len block) (claim_moment W.Output workspace.old report.old)
        (claim_moment W.Output workspace.new report.new) result }
    ensures left { ClaimsInArea geometry.now.layout workspace.old workspace.new area.new }
{
    workspace.runs_seen += 1;
    if area.move_to(geometry, run.start, run.len) {
        return take_run_in_range(geometry, workspace, number, run, report);
    }
    let is_eleventh = workspace.bad == MAXBAD;
    workspace.bad += 1;
    say_bad(run.start, number, is_eleventh, report)?;
    if is_eleventh {
        return Ok(false);
    }
    take_bad_run(geometry, workspace, number, run, report)?;
    Ok(is_open(workspace))
}

/// Takes a step of the current inode, which isn't cut. Returns whether the next step is seen.
///
/// # Errors
/// A write of the report that failed.
#[tactic(auto, using(crate::proofs::Frames::stay))]
pub fn claim_step<W: Output>(
    geometry: &Geometry,
    workspace: &mut Workspace,
    area: &mut DataArea,
    number: u32,
    step: Step,
    report: &mut Report<'_, W>,
) -> Result<bool, OutFault>
    requires { CanSeeStep geometry.now.layout workspace.old area.old step }
    ensures claims { ClaimsStep geometry.now.layout number step
        (claim_moment W.Output workspace.old report.old)
        (claim_moment W.Output workspace.new report.new) result }
    ensures left { ClaimsInArea geometry.now.layout workspace.old workspace.new area.new }
{
    match step {
        Step::Run { start, len, .. } => {
            take_run(
                geometry,
                workspace,
                area,
                number,
                Run { start, len },
                report,
            )
        }
        Step::Tail => {
            if !workspace.tail {
                workspace.tail = true;
                say_tail(number, report)?;
            }
            Ok(true)
        }
        Step::Gap => Ok(true),
    }
}
