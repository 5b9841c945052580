//! The fragments that no inode may claim.

ghost use Rattle.ffs_workspace.specs.Lengths.{IsFor};
ghost use Rattle.ffs_claims.specs.Claiming.{Reserves};

use crate::store::clear_counts;
use ffs_layout::Geometry;
use ffs_workspace::Workspace;

/// Sets the reserved fragments in the map `used`, and the count of Runs and all counts of the
/// current inode to 0.
pub fn reserve(geometry: &Geometry, workspace: &mut Workspace)
    requires { IsFor geometry.now.layout workspace.old }
    ensures { Reserves geometry.now.layout workspace.old workspace.new }
{
    clear_counts(workspace);
    workspace.runs_seen = 0;
    workspace.used.reserve(geometry);
}
