ghost use Rattle.std.specs.Prelude.{◌≡◌, IfOk};
ghost use Rattle.definitions.specs.Mesh.{mesh};

use mesh_lists::tets_of;
use st_base::NoMemory;
use std::alloc::Global;
use survey::Survey;
use vertex_numbers::Starts;

/// The tetrahedra of a survey's mesh, each as the numbers of its four nodes from 0, on one thread: 16 bytes for each.
pub fn list_tets(alloc: Global, survey: &Survey) -> Result<Vec<[u32; 4]>, NoMemory>
    ensures { IfOk result (λ ts. ts.items ≡ (mesh survey.now.subject.field survey.now.subject.shares).tets) }
{
    let states = survey.states();
    let count = survey.offsets().tets();
    let starts = Starts::of_all(alloc, states)?.starts;
    tets_of(alloc, states, &starts, count as usize)
}
