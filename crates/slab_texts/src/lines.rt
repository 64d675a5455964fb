ghost use Rattle.std.specs.Prelude.{◌≡◌, ◌+◌, ◌<◌, ◌≤◌, ◌^◌, ◌++◌, ◌∷◌, [], List, All, OnOk, flat_map, length, map};
ghost use Rattle.std.specs.List.{enumerate_from};
ghost use Rattle.definitions.specs.declared.Extreme.{Extreme};
ghost use Rattle.definitions.specs.declared.Place.{Place};
ghost use Rattle.definitions.specs.Angles.{angles_of, extremes_of};
ghost use Rattle.definitions.specs.Soundness.{corner_places};
ghost use Rattle.definitions.specs.Vectors.{place_at};
ghost use Rattle.slab_texts.specs.Nodes.{AreInRow};
ghost use Rattle.mesh_lists.specs.Parts.{whole_tets};
ghost use Rattle.slab_texts.specs.Stars.{AreStar};
ghost use Rattle.slab_texts.specs.Texts.{Adds, AreAmong, AreMeasuredIn, IsAmong, lines_if};

use crate::Nodes;
use dihedral::Remembering;
use mesh_lists::{Whole, six_tets};
use node_ele_write::Pen;
use st_base::{NoMemory, Place};

/// Lines of tetrahedra, whether they are written or only counted, the number from which nodes and tetrahedra are
/// numbered in them, the number of the next one from 0, and the extremes of the angles so far.
#[derive(Drop)]
pub struct TetLines {
    pub text: Vec<u8>,
    pub writes: bool,
    pub numbering: u8,
    pub number: u64,
    pub angles: Remembering,
}

// The place of the node with a number.
fn place_of(nodes: &Nodes, number: u32) -> Place
    requires { IsAmong nodes.now number }
    ensures { (all : List Place) → AreInRow all nodes.now.first nodes.now.places.items → result ≡ place_at all number }
{
    nodes.places[(number - nodes.first) as usize]
}

// The places of a tetrahedron's nodes.
fn places_of(nodes: &Nodes, numbers: [u32; 4]) -> [Place; 4]
    requires { All (IsAmong nodes.now) numbers }
    ensures { (all : List Place) → AreInRow all nodes.now.first nodes.now.places.items → result ≡ corner_places all numbers }
{
    let [a, b, c, d] = numbers;
    [
        place_of(nodes, a),
        place_of(nodes, b),
        place_of(nodes, c),
        place_of(nodes, d),
    ]
}

// The lines of the next tetrahedra, where lines are written.
fn push_text(tets: &[[u32; 4]], pen: &mut Pen, out: &mut TetLines) -> Result<(), NoMemory>
    requires small { All (All (λ n. n < 2 ^ 31)) tets.now }
    requires room { out.old.number + length tets.now < 2 ^ 63 }
    ensures text { OnOk result (out.new.text.items ≡ out.old.text.items ++ lines_if out.old.writes out.old.numbering out.old.number tets.now) }
    ensures writes { out.new.writes ≡ out.old.writes }
    ensures numbering { out.new.numbering ≡ out.old.numbering }
    ensures number { out.new.number ≡ out.old.number }
    ensures angles { out.new.angles ≡ out.old.angles }
{
    if out.writes {
        let first = out.numbering;
        let number = u64::from(first) + out.number;
        pen.ele_lines(&mut out.text, number, u32::from(first), tets)
    } else {
        Ok(())
    }
}

// The angles of a tetrahedron with a number, whose nodes have these numbers.
#[inline(always)]
fn take_tet(nodes: &Nodes, numbers: [u32; 4], number: u64, angles: &mut Remembering)
    requires among { All (IsAmong nodes.now) numbers }
    requires measured { AreMeasuredIn nodes.now (numbers ∷ []) }
    ensures { (all : List Place) → AreInRow all nodes.now.first nodes.now.places.items → (xs : List Extreme) → angles.old ≡ extremes_of xs → angles.new ≡ extremes_of (xs ++ angles_of all (number, numbers)) }
{
    angles.take(places_of(nodes, numbers), number, numbers);
}

// The angles of tetrahedra that are numbered from `number` on.
fn take_all(nodes: &Nodes, tets: &[[u32; 4]], number: u64, angles: &mut Remembering)
    requires among { All (AreAmong nodes.now) tets.now }
    requires measured { AreMeasuredIn nodes.now tets.now }
    requires room { number + length tets.now < 2 ^ 63 }
    ensures { (all : List Place) → AreInRow all nodes.now.first nodes.now.places.items → (xs : List Extreme) → angles.old ≡ extremes_of xs → angles.new ≡ extremes_of (xs ++ flat_map (angles_of all) (enumerate_from number tets.now)) }
{
    for n in 0..tets.len() {
        take_tet(nodes, tets[n], number + n as u64, angles);
    }
}

/// Tetrahedra, one after another.
pub fn push_all(
    nodes: &Nodes,
    tets: &[[u32; 4]],
    pen: &mut Pen,
    out: &mut TetLines,
) -> Result<(), NoMemory>
    requires among { All (AreAmong nodes.now) tets.now }
    requires measured { AreMeasuredIn nodes.now tets.now }
    requires room { out.old.number + length tets.now < 2 ^ 63 }
    ensures adds { OnOk result (Adds nodes.now out.old tets.now out.new) }
    ensures few { out.new.number ≤ out.old.number + length tets.now }
{
    push_text(tets, pen, out)?;
    take_all(nodes, tets, out.number, &mut out.angles);
    out.number += tets.len() as u64;
    Ok(())
}

// The lines of the six lattice tetrahedra at a vertex where they are whole and known, where lines are written.
fn push_known_six(whole: &Whole, pen: &mut Pen, out: &mut TetLines) -> Result<(), NoMemory>
    requires small { All (All (λ n. n < 2 ^ 31)) (whole_tets whole.now.own whole.now.later) }
    requires room { out.old.number + 6 < 2 ^ 63 }
    ensures text { OnOk result (out.new.text.items ≡ out.old.text.items ++ lines_if out.old.writes out.old.numbering out.old.number (whole_tets whole.now.own whole.now.later)) }
    ensures writes { out.new.writes ≡ out.old.writes }
    ensures numbering { out.new.numbering ≡ out.old.numbering }
    ensures number { OnOk result (out.new.number ≡ out.old.number + 6) }
    ensures few { out.new.number ≤ out.old.number + 6 }
    ensures angles { out.new.angles ≡ out.old.angles }
{
    if out.writes {
        let first = out.numbering;
        let number = u64::from(first) + out.number;
        let later = &whole.later;
        let others = [
            later.first,
            later.second,
            later.third,
            later.fourth,
            later.fifth,
            later.sixth,
            later.seventh,
        ];
        pen.star_lines(&mut out.text, number, u32::from(first), whole.own, &others)?;
    }
    out.number += 6;
    Ok(())
}

// The six where they are whole and not known yet.
fn push_new_six(
    nodes: &Nodes,
    whole: &Whole,
    pen: &mut Pen,
    out: &mut TetLines,
) -> Result<(), NoMemory>
    requires among { All (AreAmong nodes.now) (whole_tets whole.now.own whole.now.later) }
    requires measured { AreMeasuredIn nodes.now (whole_tets whole.now.own whole.now.later) }
    requires room { out.old.number + 6 < 2 ^ 63 }
    ensures adds { OnOk result (Adds nodes.now out.old (whole_tets whole.now.own whole.now.later) out.new) }
    ensures few { out.new.number ≤ out.old.number + 6 }
{
    push_all(nodes, &six_tets(whole), pen, out)?;
    out.angles.learn_star();
    Ok(())
}

/// The six lattice tetrahedra at a vertex where they are whole. Once their angles are known, no place is looked up.
pub fn push_whole(
    nodes: &Nodes,
    whole: &Whole,
    pen: &mut Pen,
    out: &mut TetLines,
) -> Result<(), NoMemory>
    requires among { All (AreAmong nodes.now) (whole_tets whole.now.own whole.now.later) }
    requires measured { AreMeasuredIn nodes.now (whole_tets whole.now.own whole.now.later) }
    requires star { AreStar nodes.now whole.now.own whole.now.later }
    requires room { out.old.number + 6 < 2 ^ 63 }
    ensures adds { OnOk result (Adds nodes.now out.old (whole_tets whole.now.own whole.now.later) out.new) }
    ensures few { out.new.number ≤ out.old.number + 6 }
{
    if out.angles.knows_star() {
        push_known_six(whole, pen, out)
    } else {
        push_new_six(nodes, whole, pen, out)
    }
}
