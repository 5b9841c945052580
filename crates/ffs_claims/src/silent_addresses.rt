//! The words of an indirect block, and the direct addresses of an inode, that are claimed with
//! nothing to report. The single indirect block that a walk is in is the lowest one, with addresses
//! of data: that of the inode's thirteenth address, or any that is under a double one
//! (`Walk::single`).
//!
//! From `claim_words` up: it asks whether the block is held; `claim_held_words` takes the counts
//! out of the workspace, and `claim_counted_words` asks for the byte order, both once;
//! `claim_words_in` goes from word to word. `claim_next` claims one word by `claim_address`, or,
//! where the next one names the fragments after its Run, all such words together by `claim_series`,
//! which `pass_series` counts. Where a word isn't claimed, nothing has changed, and the caller
//! takes it as a step. Below it `claim_direct` does the same for direct addresses, one by one.

ghost use Rattle.std.specs.Prelude.{◌≡◌, ◌≢◌, ◌<◌, false, IsTrue};
ghost use Rattle.ffs_volume.specs.declared.Layout.{Layout};
ghost use Rattle.ffs_walk.specs.{HeldWords.IsInHeldBlock, Windows.HasRoom, Rests.IsAtTop};
ghost use Rattle.ffs_claims.specs.{Claiming.CanSeeNext, SilentAddresses.{CanClaimAddresses, ClaimsAddress}};
ghost use Rattle.ffs_claims.specs.SilentAddresses.{CanClaimAddress, ClaimsAddresses, with_run_counts};
ghost use Rattle.ffs_claims.specs.{Series.{CanClaimNext, ClaimsNext, HasNext, PassesSeries}, Bounds.address_bound};

use crate::area::DataArea;
use ffs_volume::Order;
use ffs_walk::{Blocks, Walk};
use ffs_workspace::Workspace;

/// How many fragments a word of the map of used fragments has: one a bit.
const MAP_WORD: u64 = 64;

/// The counts of a workspace that grow with each word. They are kept apart from it while words are
/// claimed, and so in registers.
#[derive(Clone, Copy)]
struct RunCounts {
    /// How many Runs are looked at.
    runs_seen: u64,
    /// How many offers the current inode keeps.
    kept: u64,
}

impl RunCounts {
    ghost use Rattle.ffs_claims.specs.SilentAddresses.{with_run_counts};

    /// The counts of a workspace.
    #[inline(always)]
    fn of(workspace: &Workspace) -> RunCounts
        ensures { workspace.now ≡ with_run_counts workspace.now result }
    {
        RunCounts {
            runs_seen: workspace.runs_seen,
            kept: workspace.kept,
        }
    }

    /// Writes the counts back into the workspace.
    #[inline(always)]
    fn write_to(&self, workspace: &mut Workspace)
        ensures { workspace.new ≡ with_run_counts workspace.old self.now }
    {
        workspace.runs_seen = self.runs_seen;
        workspace.kept = self.kept;
    }
}

/// Claims what an address of a block of data offers: nothing where it is 0 (a Gap), else its Run of
/// `len` fragments, where that lies in the area, and its fragments are all unused and lie in one
/// word of the map. Returns whether it was so: if not, nothing has changed. The counts are below
/// `address_bound` before, so that they stay below 2^64.
#[inline(always)]
#[tactic(auto, using(crate::proofs::Frames::stay))]
fn claim_address(
    workspace: &mut Workspace,
    counts: &mut RunCounts,
    area: &DataArea,
    address: u32,
    len: u32,
) -> bool
    requires some { 0 < len }
    requires can { CanClaimAddress (with_run_counts workspace.old counts.old) area.now }
    ensures claimed { IsTrue result → (layout : Layout)
        → CanSeeNext layout (with_run_counts workspace.old counts.old) area.now address_bound
        → ClaimsAddress layout address len (with_run_counts workspace.old counts.old)
        (with_run_counts workspace.new counts.new) }
    ensures unchanged { result ≡ false → with_run_counts workspace.new counts.new
        ≡ with_run_counts workspace.old counts.old }
{
    if address == 0 {
        return true;
    }
    if !area.contains(address, len) || !workspace.used.claim(address, len) {
        return false;
    }
    counts.runs_seen += 1;
    counts.kept += u64::from(len);
    true
}

/// Whether the single indirect block that the walk is in has a word left, with this address.
#[inline(always)]
fn comes_next(order: Order, walk: &Walk, blocks: &Blocks, address: u64) -> bool
    requires room { HasRoom walk.now.geometry.layout blocks.now }
    requires order { order ≡ walk.now.geometry.layout.order }
    ensures { IsTrue result → HasNext blocks.now walk.now address }
{
    walk.has_word() && u64::from(walk.next_address(order, blocks)) == address
}

/// Passes over the next words of the single indirect block that the walk is in, as long as they
/// name Runs in turn, from an address on, that lie in one word of the map. Returns how many
/// fragments these Runs have.
#[inline(always)]
fn pass_series(order: Order, walk: &mut Walk, blocks: &Blocks, address: u32) -> u32
    requires some { address ≢ 0 }
    requires held { IsInHeldBlock blocks.now walk.old }
    requires room { HasRoom walk.old.geometry.layout blocks.now }
    requires order { order ≡ walk.old.geometry.layout.order }
    ensures { PassesSeries walk.old.geometry.layout blocks.now address result walk.old walk.new }
{
    let frag = u64::from(walk.geometry.layout.frag);
    let start = u64::from(address);
    // A Run that begins after this fragment doesn't lie in the same word of the map.
    let last = start - start % MAP_WORD + MAP_WORD - frag;
    let mut end = start;
    while end <= last && comes_next(order, walk, blocks, end) {
        walk.pass_word();
        end += frag;
    }
    (end - start) as u32
}

/// Claims at once what the next words of an indirect block of data offer, where they name Runs in
/// turn, from an address on, that lie in the area, and whose fragments are all unused. Returns
/// whether it was so: if not, nothing has changed.
#[inline(always)]
fn claim_series(
    order: Order,
    workspace: &mut Workspace,
    counts: &mut RunCounts,
    area: &DataArea,
    walk: &mut Walk,
    address: u32,
) -> bool
    requires some { address ≢ 0 }
    requires can { CanClaimNext (with_run_counts workspace.old counts.old) area.now walk.old }
    requires order { order ≡ walk.old.geometry.layout.order }
    ensures claimed { IsTrue result → ClaimsNext (with_run_counts workspace.old counts.old)
        (with_run_counts workspace.new counts.new) walk.old walk.new }
    ensures unchanged { result ≡ false → (with_run_counts workspace.new counts.new
        ≡ with_run_counts workspace.old counts.old) × (walk.new ≡ walk.old) }
{
    let mut ahead = *walk;
    let len = pass_series(order, &mut ahead, &workspace.windows.blocks, address);
    if len == 0 || !area.contains(address, len) {
        return false;
    }
    if !workspace.used.claim(address, len) {
        return false;
    }
    counts.runs_seen += u64::from(len / walk.geometry.layout.frag);
    counts.kept += u64::from(len);
    *walk = ahead;
    true
}

/// Claims what the next word of an indirect block of data offers, or the Runs that it and the words
/// after it name in turn. Returns whether it did: if not, nothing has changed.
#[inline(always)]
fn claim_next(
    order: Order,
    workspace: &mut Workspace,
    counts: &mut RunCounts,
    area: &DataArea,
    walk: &mut Walk,
) -> bool
    requires can { CanClaimNext (with_run_counts workspace.old counts.old) area.now walk.old }
    requires order { order ≡ walk.old.geometry.layout.order }
    ensures claimed { IsTrue result → ClaimsNext (with_run_counts workspace.old counts.old)
        (with_run_counts workspace.new counts.new) walk.old walk.new }
    ensures unchanged { result ≡ false → (with_run_counts workspace.new counts.new
        ≡ with_run_counts workspace.old counts.old) × (walk.new ≡ walk.old) }
{
    let address = walk.next_address(order, &workspace.windows.blocks);
    let end = u64::from(address) + u64::from(walk.geometry.layout.frag);
    let mut ahead = *walk;
    ahead.pass_word();
    if address != 0 && comes_next(order, &ahead, &workspace.windows.blocks, end) {
        return claim_series(order, workspace, counts, area, walk, address);
    }
    if !claim_address(workspace, counts, area, address, walk.geometry.layout.frag) {
        return false;
    }
    *walk = ahead;
    true
}

/// Claims what the next words offer, up to one with something to report, with the counts apart from
/// the workspace, and for an order that is known where this is inlined.
#[inline(always)]
#[tactic(auto, using(crate::proofs::Frames::stay))]
fn claim_words_in(
    order: Order,
    workspace: &mut Workspace,
    counts: &mut RunCounts,
    area: &DataArea,
    walk: &mut Walk,
)
    requires can { CanClaimAddresses (with_run_counts workspace.old counts.old) area.now walk.old }
    requires held { IsInHeldBlock workspace.old.windows.blocks walk.old }
    requires order { order ≡ walk.old.geometry.layout.order }
    ensures { ClaimsAddresses walk.old.geometry.layout (with_run_counts workspace.old counts.old)
        (with_run_counts workspace.new counts.new) walk.old walk.new }
{
    while walk.has_word() {
        if !claim_next(order, workspace, counts, area, walk) {
            return;
        }
    }
}

/// Claims what the next words offer, up to one with something to report, with the counts apart from
/// the workspace.
#[inline(always)]
fn claim_counted_words(
    workspace: &mut Workspace,
    counts: &mut RunCounts,
    area: &DataArea,
    walk: &mut Walk,
)
    requires can { CanClaimAddresses (with_run_counts workspace.old counts.old) area.now walk.old }
    requires held { IsInHeldBlock workspace.old.windows.blocks walk.old }
    ensures { ClaimsAddresses walk.old.geometry.layout (with_run_counts workspace.old counts.old)
        (with_run_counts workspace.new counts.new) walk.old walk.new }
{
    // The order is asked for once, and not for each word.
    match walk.geometry.layout.order {
        Order::Little => claim_words_in(Order::Little, workspace, counts, area, walk),
        Order::Big => claim_words_in(Order::Big, workspace, counts, area, walk),
    }
}

/// Claims what the next words of the single indirect block that the walk is in offer, as long as
/// nothing is to be reported of them. The block is held. It isn't inlined, so that its loops have
/// the registers for themselves.
#[inline(never)]
fn claim_held_words(workspace: &mut Workspace, area: &DataArea, walk: &mut Walk)
    requires can { CanClaimAddresses workspace.old area.now walk.old }
    requires held { IsInHeldBlock workspace.old.windows.blocks walk.old }
    ensures { ClaimsAddresses walk.old.geometry.layout workspace.old workspace.new walk.old
        walk.new }
{
    // What each word asks for or changes is a local value, which no write to the map can change,
    // and is written back once.
    let area = *area;
    let mut passing = *walk;
    let mut counts = RunCounts::of(workspace);
    claim_counted_words(workspace, &mut counts, &area, &mut passing);
    *walk = passing;
    counts.write_to(workspace);
}

/// Claims what the next words of the single indirect block that the walk is in offer, as long as
/// nothing is to be reported of them and each Run is claimed at once. The claims are then those
/// that the steps of these words would leave.
#[inline(always)]
#[tactic(auto, using(crate::proofs::Frames::stay))]
pub fn claim_words(workspace: &mut Workspace, area: &DataArea, walk: &mut Walk)
    requires { CanClaimAddresses workspace.old area.now walk.old }
    ensures { ClaimsAddresses walk.old.geometry.layout workspace.old workspace.new walk.old
        walk.new }
{
    if walk.is_in_held_block(&workspace.windows.blocks) {
        claim_held_words(workspace, area, walk);
    }
}

/// Claims what the inode's direct addresses that come next offer, up to one with something to
/// report, with the counts apart from the workspace.
#[inline(always)]
#[tactic(auto, using(crate::proofs::Frames::stay))]
fn claim_counted_direct(
    workspace: &mut Workspace,
    counts: &mut RunCounts,
    area: &DataArea,
    walk: &mut Walk,
)
    requires can { CanClaimAddresses (with_run_counts workspace.old counts.old) area.now walk.old }
    requires top { IsAtTop walk.old }
    ensures claims { ClaimsAddresses walk.old.geometry.layout
        (with_run_counts workspace.old counts.old) (with_run_counts workspace.new counts.new)
        walk.old walk.new }
    ensures top { IsAtTop walk.new }
{
    while walk.has_direct() {
        let (address, len) = walk.next_direct();
        if !claim_address(workspace, counts, area, address, len) {
            return;
        }
        walk.pass_direct();
    }
}

/// Claims what the inode's direct addresses that come next offer, as long as nothing is to be
/// reported of them and each Run is claimed at once. The claims are then those that their steps
/// would leave. The walk is in no indirect block.
#[inline(always)]
pub fn claim_direct(workspace: &mut Workspace, area: &DataArea, walk: &mut Walk)
    requires can { CanClaimAddresses workspace.old area.now walk.old }
    requires top { IsAtTop walk.old }
    ensures claims { ClaimsAddresses walk.old.geometry.layout workspace.old workspace.new walk.old
        walk.new }
    ensures top { IsAtTop walk.new }
{
    let area = *area;
    let mut counts = RunCounts::of(workspace);
    claim_counted_direct(workspace, &mut counts, &area, walk);
    counts.write_to(workspace);
}
