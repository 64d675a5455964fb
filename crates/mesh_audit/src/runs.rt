ghost use Rattle.std.specs.Prelude.{◌≡◌, ◌≢◌, ◌<◌, ◌≤◌, ◌+◌, ◌^◌, ◌==◌, ◌&&◌, ℕ, nat_lt, length, if◌then◌else◌, count_by};
ghost use Rattle.std.specs.List.Sorted.{IsNonDecreasingBy};
ghost use Rattle.mesh_audit.specs.Triangles.{key_of, key_at, least_with, is_pair, LeastTet, AreTriangles, is_one_of_many, is_turned_pair, is_alone};

use crate::triangles::{Triangle, key, same_direction};

/// What stands out among triangles: the least tetrahedron with a triangle that more than two have,
/// the least with one that just two have, directed the same way, and how many triangles are alone.
#[derive(Clone, Copy, Debug, PartialEq, Eq)]
pub struct Findings {
    pub crowded: Option<u32>,
    pub turned: Option<u32>,
    pub boundary: usize,
}

// The end of the triangles from `start` on that have the same nodes as the one there.
fn run_end(triangles: &[Triangle], start: usize) -> usize
    requires { start < length triangles.now }
    ensures some { start < result }
    ensures within { result ≤ length triangles.now }
    ensures same { (k : ℕ) → start ≤ k → k < result → key_at triangles.now k ≡ key_at triangles.now start }
    ensures ends { result < length triangles.now → key_at triangles.now result ≢ key_at triangles.now start }
{
    let first = key(triangles[start].nodes);
    let mut end = start + 1;
    while end < triangles.len() && key(triangles[end].nodes) == first {
        end += 1;
    }
    end
}

// The least of a number that may be there and those of the triangles' tetrahedra.
fn least(so_far: Option<u32>, run: &[Triangle]) -> Option<u32>
    ensures { result ≡ least_with so_far run.now }
{
    let mut least = so_far;
    for triangle in run {
        least = Some(match least {
            Some(tet) => tet.min(triangle.tet),
            None => triangle.tet,
        });
    }
    least
}

// Two triangles, both directed the same way.
fn pair(run: &[Triangle]) -> bool
    ensures { result ≡ is_pair run.now }
{
    match run {
        [first, second] => same_direction(first.nodes, second.nodes),
        _ => false,
    }
}

impl Findings {
    // Adds all triangles that have the same nodes.
    fn add(&mut self, run: &[Triangle])
        requires { self.old.boundary + 1 < 2 ^ 64 }
        ensures crowded { self.new.crowded ≡ (if nat_lt 2 (length run.now)
            then least_with self.old.crowded run.now else self.old.crowded) }
        ensures turned { self.new.turned ≡ (if is_pair run.now
            then least_with self.old.turned run.now else self.old.turned) }
        ensures boundary { self.new.boundary ≡ (if length run.now == 1
            then self.old.boundary + 1 else self.old.boundary) }
    {
        if run.len() > 2 {
            self.crowded = least(self.crowded, run);
        }
        if pair(run) {
            self.turned = least(self.turned, run);
        }
        if run.len() == 1 {
            self.boundary += 1;
        }
    }
}

/// What stands out among triangles in the order of their nodes.
pub fn find(triangles: &[Triangle]) -> Findings
    requires sorted { IsNonDecreasingBy (λ t. key_of t.nodes) triangles.now }
    requires nodes { AreTriangles triangles.now }
    ensures crowded { LeastTet (is_one_of_many triangles.now) triangles.now result.crowded }
    ensures turned { LeastTet (is_turned_pair triangles.now) triangles.now result.turned }
    ensures boundary { result.boundary ≡ count_by (is_alone triangles.now) triangles.now }
{
    let mut found = Findings {
        crowded: None,
        turned: None,
        boundary: 0,
    };
    let mut start = 0;
    while start < triangles.len() {
        let end = run_end(triangles, start);
        found.add(&triangles[start..end]);
        start = end;
    }
    found
}
