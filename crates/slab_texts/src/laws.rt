//! Laws of the lines and the angles of layers. Each is the contract of a function that does nothing.
ghost use Rattle.slab_texts.specs.Laws.{AllSlabsJoin, AllSpansAreAll, AllSpansJoin, AnglesAreFractions};

/// Lines and angles of layers, and of those that follow, are those of both.
pub fn spans_join()
    ensures { AllSpansJoin }
{}

/// Those of all layers are those of the mesh.
pub fn spans_are_all()
    ensures { AllSpansAreAll }
{}

/// Those of each slab, one slab after another, are those of the mesh.
pub fn slabs_join()
    ensures { AllSlabsJoin }
{}

/// Angles of tetrahedra that are measured are fractions.
pub fn angles_are_fractions()
    ensures { AnglesAreFractions }
{}
