//! Cycles of parents.
ghost use Rattle.std.specs.Prelude.{length};
ghost use Rattle.ffs_connectivity.specs.Cycles.{parent_in, CanFollow, CanFlagLeaders, ComesBack, IsLeastOn, FlagsEachLeader, NotesWalk};

use ffs_memory::FilledList;
use ffs_survey::number_of;

/// Walks from `start` from parent to parent, and notes in `walk_of` what it passes, until there is
/// no parent or one that a walk has passed. Returns a number on the cycle that it closed, if it
/// closed one.
///
/// `walk_of` has, of each number, 1 more than the start of the walk that passed it, and 0 where
/// none did.
fn walk_parents(start: u32, parents: &FilledList<u32>, walk_of: &mut FilledList<u32>) -> Option<u32>
    requires { CanFollow parents.now.items walk_of.old.items start }
    ensures { NotesWalk parents.now.items start walk_of.old walk_of.new result }
{
    let mut at = start;
    'up: loop {
        walk_of.set(at as usize, start + 1);
        let next = number_of(parents, at as usize);
        if next == 0 {
            return None;
        }
        if next as usize >= parents.len() {
            return None;
        }
        let seen = number_of(walk_of, next as usize);
        if seen == start + 1 {
            return Some(next);
        }
        if seen != 0 {
            return None;
        }
        at = next;
    }
}

/// The least number on the cycle of parents that `found` is on.
fn least_on(found: u32, parents: &FilledList<u32>) -> u32
    requires { ComesBack parents.now.items found }
    ensures { IsLeastOn (parent_in parents.now.items) (length parents.now.items) found result }
{
    let mut least = found;
    let mut at = number_of(parents, found as usize);
    'round: while at != found {
        if at < least {
            least = at;
        }
        at = number_of(parents, at as usize);
    }
    least
}

/// Flags in `leaders` each number that is the least on a cycle of parents. A parent of 0, or past
/// the list, is none. Each number is passed once or twice, so the time is linear in their count.
/// What `walk_of` and `leaders` held before is forgotten.
#[tactic(auto, using(crate::proofs::Walks::past_leader))]
pub fn flag_leaders(
    parents: &FilledList<u32>,
    walk_of: &mut FilledList<u32>,
    leaders: &mut FilledList<bool>,
)
    requires { CanFlagLeaders parents.now.items walk_of.old.items leaders.old.items }
    ensures { FlagsEachLeader parents.now.items walk_of.old walk_of.new leaders.old leaders.new }
{
    walk_of.fill(0);
    leaders.fill(false);
    for start in 0..parents.len() as u32 {
        if number_of(walk_of, start as usize) != 0 {
            continue;
        }
        let Some(found) = walk_parents(start, parents, walk_of) else {
            continue;
        };
        leaders.set(least_on(found, parents) as usize, true);
    }
}
