/// What `--help` prints.
pub const HELP: &str = "\
stuff: tetrahedral meshes of volumes, by isosurface stuffing

  mesh IN OUT level=L [below=yes] [step=S] [long=A] [short=B]
       [workers=W] [slab=T] [first=F] [units=U] [faces=yes]
              fill the region above the level with tetrahedra: write OUT.node
              and OUT.ele (TetGen), and print the numbers of nodes and
              tetrahedra and the least and the greatest dihedral angle
  stream IN OUT level=L [below=yes] [step=S] [long=A] [short=B]
         [workers=W] [slab=T] [first=F] [units=U]
              write the same two files and print the same as mesh; some lines
              are written while the next are made
  count IN level=L [below=yes] [step=S]
              count the lattice vertices above, on and below the level
  probe IN level=L at=X,Y,Z [below=yes] [step=S] [long=A] [short=B]
              print which tetrahedron of the mesh of IN holds a point, and the
              weights of its nodes there, or that the point is outside
  audit IN    judge the finished files IN.node and IN.ele, and print that
              they are sound, or end with status 11 or 12
  demo size=N seed=S [workers=W] [slab=T]
              count and mesh a test volume of N x N x N samples, N from 1 to
              128, at level 199.5, without files
  --help      print this
  --version   print the version

IN is a MetaImage file (.mha) with whole numbers of 1, 2 or 4 bytes, not
compressed, and its data in the same file. OUT, and IN of audit, is what the
names of files begin with. The words behind these stand in any order, each at
most once.

  level=L   the level: an optional -, a whole number up to 4294967295, and
            then nothing, .0 or .5 (no default)
  below=yes the region lies below the level (default: above it)
  step=S    of the samples on each axis keep each S-th, S from 1 to 64
            (default 1)
  long=A, short=B
            a vertex is moved onto a cut of the surface that is at most A or
            B of 4096 parts of a long or short edge away: A up to 1023, B up
            to 2047 (default 1023 and 1687)
  first=F   number nodes, tetrahedra and boundary triangles from F, 0 or 1
            (default 0)
  units=U   coordinates in voxels of the file (index, the default) or in the
            units of the head (world): each times ElementSpacing of its axis,
            plus Offset; angles are those of the mesh in voxels
  faces=yes write OUT.face and OUT.neigh too: the boundary triangles, and
            the neighbours of each tetrahedron (default: not)
  at=X,Y,Z  a point: whole numbers below 2^40 in size, each with an optional -,
            in units of 1/8192 of a kept voxel step from the first sample (no
            default)
  size=N, seed=S
            N from 1 to 128, S from 0 to 18446744073709551615 (no default)
  workers=W, slab=T
            W workers make the mesh, in slabs of 2 T layers of the lattice:
            1 to 64 each (default 4); what is written does not depend on
            them. Take W as the number of cores that are free. Thin slabs
            spread a flat volume over more workers and take less memory;
            thick ones repeat less work at their borders

Status:
  0  done
  2  bad words
  3  bad header
  4  header not supported
  5  too large
  6  the data end early
  7  read fault
  8  write fault
  9  no memory
  10 faces=yes, and more than 33554432 tetrahedra
  11 a file of audit is not of the form that is read
  12 the tetrahedra of audit are not sound
";

/// What `--version` prints.
pub const VERSION: &str = "stuff 0.1.0\n";
