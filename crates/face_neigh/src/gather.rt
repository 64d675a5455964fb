ghost use Rattle.std.specs.Prelude.{◌≡◌, ◌<◌, ◌≤◌, ◌++◌, [], ◌∷◌, length, flat_map, IfOk, OnOk, IsPermutation};

use crate::side::Side;
use st_base::NoMemory;
use std::alloc::Global;

// By how many bits nodes up to the greatest are to be shifted, so that fewer than so many numbers come out.
fn shift_of(greatest: u32, count: usize) -> u32 {
    for shift in 0..31 {
        if ((greatest >> shift) as usize) < count {
            return shift;
        }
    }
    31
}

// The greatest of the least nodes.
fn greatest_low(sides: &[Side]) -> u32 {
    let mut greatest = 0;
    for side in sides {
        greatest = greatest.max(side.low);
    }
    greatest
}

// So many groups, with nothing in them yet.
fn no_groups(alloc: Global, count: usize) -> Result<Vec<Vec<Side>>, NoMemory>
    ensures empty { IfOk result (λ groups. flat_map (λ g. g.items) groups.items ≡ []) }
    ensures length { IfOk result (λ groups. length groups.items ≡ count) }
{
    let Ok(mut groups) = Vec::with_capacity(alloc, count) else {
        return Err(NoMemory);
    };
    for _ in 0..count {
        if groups.push(Vec::new(alloc)).is_err() {
            return Err(NoMemory);
        }
    }
    Ok(groups)
}

// Puts a triangle into the group of its least node.
fn put(groups: &mut [Vec<Side>], side: Side, shift: u32) -> Result<(), NoMemory>
    requires { 0 < length groups.old }
    ensures { OnOk result (IsPermutation (flat_map (λ g. g.items) groups.old ++ side ∷ []) (flat_map (λ g. g.items) groups.new)) }
{
    let group = (side.low.wrapping_shr(shift) as usize).min(groups.len() - 1);
    if groups[group].push(side).is_err() {
        return Err(NoMemory);
    }
    Ok(())
}

// Puts each triangle into its group.
fn spread(groups: &mut [Vec<Side>], sides: &[Side], shift: u32) -> Result<(), NoMemory>
    requires { 0 < length groups.old }
    ensures { OnOk result (IsPermutation (flat_map (λ g. g.items) groups.old ++ sides.now) (flat_map (λ g. g.items) groups.new)) }
{
    for number in 0..sides.len() {
        put(groups, sides[number], shift)?;
    }
    Ok(())
}

// The triangles in groups, by their least nodes.
fn grouped(alloc: Global, sides: &[Side]) -> Result<Vec<Vec<Side>>, NoMemory>
    ensures { IfOk result (λ groups. IsPermutation sides.now (flat_map (λ g. g.items) groups.items)) }
{
    let count = sides.len() / 256 + 1;
    let shift = shift_of(greatest_low(sides), count);
    let mut groups = no_groups(alloc, count)?;
    spread(&mut groups, sides, shift)?;
    Ok(groups)
}

// Sorts the triangles from a place on.
fn sort_from(sides: &mut [Side], from: usize)
    requires { from ≤ length sides.old }
    ensures { IsPermutation sides.old sides.new }
{
    sides[from..].sort_unstable_by_key(|side| side.key());
}

// Appends the triangles of a group, sorted.
fn append_sorted(sides: &mut Vec<Side>, group: &[Side]) -> Result<(), NoMemory>
    ensures { OnOk result (IsPermutation (sides.old.items ++ group.now) sides.new.items) }
{
    let from = sides.len();
    if sides.extend_from_slice(group).is_err() {
        return Err(NoMemory);
    }
    sort_from(sides, from);
    Ok(())
}

// Appends the triangles of each group, sorted in themselves.
fn join(sides: &mut Vec<Side>, groups: &[Vec<Side>]) -> Result<(), NoMemory>
    ensures { OnOk result (IsPermutation (sides.old.items ++ flat_map (λ g. g.items) groups.now) sides.new.items) }
{
    for number in 0..groups.len() {
        append_sorted(sides, &groups[number])?;
    }
    Ok(())
}

/// Brings triangles together whose least nodes are near, and sorts those, so that all are in order.
pub fn gather(alloc: Global, sides: &mut Vec<Side>) -> Result<(), NoMemory>
    ensures { OnOk result (IsPermutation sides.old.items sides.new.items) }
{
    let groups = grouped(alloc, sides)?;
    sides.clear();
    join(sides, &groups)
}
