ghost use Rattle.slab_work.specs.Few.{AllAreFew};

/// The mesh of a field has at most 18 tetrahedra for each vertex, and so fewer than 2^32, and fewer than 2^31 nodes.
pub fn tets_are_few()
    ensures { AllAreFew }
{}
