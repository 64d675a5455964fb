ghost use Rattle.std.specs.Prelude.{◌≤◌, ◌<◌, ◌+◌, ◌^◌, IfSome, MatchOption, unsigned_abs};
ghost use Rattle.mesh_probe.specs.Answers.{IsHold, IsOnly, IsOutside};

use crate::Hold;
use crate::search::first_found;
use samples::Field;
use snap_rule::Shares;
use st_base::{Ledger, Place};

/// The first tetrahedron of the mesh that holds a point, and none where none does. Where all of its weights are above 0, no
/// other one holds the point. Each coordinate of the point is below 2^40 in size.
///
/// The lowest vertex of the lattice tetrahedron of one that holds the point is one of twelve. Each of these has six lattice
/// tetrahedra, of four vertices: so the ledger rises by at most 288.
pub fn probe<L: Ledger>(field: &Field, shares: Shares, point: Place, ledger: &mut L) -> Option<Hold>
    requires x { unsigned_abs point.x < 2 ^ 40 }
    requires y { unsigned_abs point.y < 2 ^ 40 }
    requires z { unsigned_abs point.z < 2 ^ 40 }
    requires room { L.count ledger.old + 288 < 2 ^ 64 }
    ensures hold { MatchOption result (IsOutside field.now shares point) (IsHold field.now shares point) }
    ensures only { IfSome result (IsOnly field.now shares point) }
    ensures more { L.count ledger.old ≤ L.count ledger.new }
    ensures few { L.count ledger.new ≤ L.count ledger.old + 288 }
{
    first_found(field, shares, point, ledger)
}
