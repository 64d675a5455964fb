ghost use Rattle.file_audit.specs.Laws.{MeshesAreDone};

/// The files of the mesh of any field in index units come to Done.
pub fn meshes_are_done()
    ensures { MeshesAreDone }
{}
