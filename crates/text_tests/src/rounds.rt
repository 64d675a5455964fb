ghost use Rattle.std.specs.Prelude.{◌≡◌, ◌≤◌, IfSome};
ghost use Rattle.command_line.specs.Grammar.{IsPlan};
ghost use Rattle.slab_work.specs.Surveyed.{AreKept};

use bcc_lattice::vertex_count;
use command_line::Plan;
use samples::Field;
use slab_work::{Survey, emit_nodes, emit_tets, source_of, survey};
use small_images::{
    ONE_SAMPLE_ELE_FILE, ONE_SAMPLE_ELE_FILE_FROM_ONE, ONE_SAMPLE_NODE_FILE,
    ONE_SAMPLE_NODE_FILE_FROM_ONE, one_sample, phantom_field,
};
use snap_rule::Shares;
use st_base::{Frame, OpenGate, Tally};
use std::alloc::Global;
use std::test::*;
use std::thread::Threads;
use table_lines::cut;

// How many lines of tetrahedra the first slab of two layers of one sample has.
const FIRST_TETS: usize = 16;

// Numbers of workers, and of double layers of a slab.
const PLANS: [(u32, u32); 6] = [(1, 1), (2, 1), (3, 1), (64, 1), (2, 3), (3, 64)];

// What stands behind the first line of a file.
fn behind_line(file: &[u8]) -> &[u8] {
    cut(file, b'\n').1
}

// So many lines, and what stands behind them.
fn after_lines(text: &[u8], count: usize) -> (&[u8], &[u8]) {
    let mut rest = text;
    for _ in 0..count {
        rest = behind_line(rest);
    }
    text.split_at(text.len().saturating_sub(rest.len()))
}

fn plan_of(workers: u32, slab: u32) -> Option<Plan>
    ensures { IfSome result IsPlan }
{
    if 1 <= workers && workers <= 64 && 1 <= slab && slab <= 64 {
        Some(Plan { workers, slab })
    } else {
        None
    }
}

fn survey_of<'f, R: Threads + Sync>(
    rt: &R,
    alloc: Global,
    field: &'f Field,
    plan: Plan,
) -> Option<Survey<'f>>
    requires { IsPlan plan }
    ensures { IfSome result (λ s. s.subject.field ≡ field.now) }
{
    let shares = Shares::new(1023, 1687)?;
    let _ = vertex_count(field.dims());
    let Ok(ledgers) = Vec::from_elem(alloc, Tally::new(), plan.workers as usize) else {
        return None;
    };
    match survey(rt, alloc, field, shares, plan, &OpenGate, ledgers) {
        Ok((survey, _)) => Some(survey),
        Err(_) => None,
    }
}

// Both texts of a survey without their first lines, round by round.
fn texts<R: Threads + Sync>(
    rt: &R,
    alloc: Global,
    survey: &Survey,
    plan: Plan,
    numbering: u32,
) -> Option<(Vec<u8>, Vec<u8>)>
    requires plan { IsPlan plan }
    requires numbering { numbering ≤ 1 }
    requires sizes { AreKept 1 survey.now.subject.field.dims }
{
    let slabs = source_of(survey).slabs();
    let mut nodes = Vec::new(alloc);
    let mut tets = Vec::new(alloc);
    let mut first = 0u32;
    let frame = Frame {
        step: 1,
        world: None,
    };
    for _ in 0..slabs {
        if first >= slabs {
            return Some((nodes, tets));
        }
        let parts = emit_nodes(rt, alloc, survey, frame, numbering, plan, &OpenGate, first).ok()?;
        for part in parts.as_slice() {
            nodes.extend_from_slice(&part.text).ok()?;
        }
        let parts = emit_tets(rt, alloc, survey, frame, numbering, plan, &OpenGate, first).ok()?;
        for part in parts.as_slice() {
            tets.extend_from_slice(&part.text).ok()?;
        }
        first = first.saturating_add(u32::try_from(parts.len()).ok()?);
    }
    Some((nodes, tets))
}

// The same of a field, whose sizes are small.
fn texts_of<R: Threads + Sync>(
    rt: &R,
    alloc: Global,
    field: &Field,
    plan: Plan,
    numbering: u32,
) -> Option<(Vec<u8>, Vec<u8>)>
    requires plan { IsPlan plan }
    requires numbering { numbering ≤ 1 }
{
    let dims = field.dims();
    if dims.nx > 8 || dims.ny > 8 || dims.nz > 8 {
        return None;
    }
    let survey = survey_of(rt, alloc, field, plan)?;
    texts(rt, alloc, &survey, plan, numbering)
}

#[test]
fn one_sample_has_these_lines_whoever_makes_them(rt: HostRuntime) {
    let alloc = rt.alloc();
    let Some(field) = one_sample(alloc) else {
        panic!(rt; "no field")
    };
    for (workers, slab) in PLANS {
        let Some(plan) = plan_of(workers, slab) else {
            panic!(rt; "no plan")
        };
        let Some((nodes, tets)) = texts_of(&rt, alloc, &field, plan, 0) else {
            panic!(rt; "no memory")
        };
        assert_eq!(rt; nodes.as_slice(), behind_line(ONE_SAMPLE_NODE_FILE));
        assert_eq!(rt; tets.as_slice(), behind_line(ONE_SAMPLE_ELE_FILE));
    }
}

#[test]
fn lines_are_numbered_from_1(rt: HostRuntime) {
    let alloc = rt.alloc();
    let (Some(field), Some(plan)) = (one_sample(alloc), plan_of(2, 1)) else {
        panic!(rt; "no field")
    };
    let Some((nodes, tets)) = texts_of(&rt, alloc, &field, plan, 1) else {
        panic!(rt; "no memory")
    };
    assert_eq!(rt;
        nodes.as_slice(),
        behind_line(ONE_SAMPLE_NODE_FILE_FROM_ONE)
    );
    assert_eq!(rt; tets.as_slice(), behind_line(ONE_SAMPLE_ELE_FILE_FROM_ONE));
}

#[test]
fn noise_has_the_same_lines_whoever_makes_them(rt: HostRuntime) {
    let alloc = rt.alloc();
    let (Some(field), Some(single)) = (phantom_field(alloc, 5), plan_of(1, 1)) else {
        panic!(rt; "no field")
    };
    let Some((nodes, tets)) = texts_of(&rt, alloc, &field, single, 0) else {
        panic!(rt; "no memory")
    };
    assert!(rt; nodes.len() > 1000 && tets.len() > 1000);
    for (workers, slab) in PLANS {
        let Some(plan) = plan_of(workers, slab) else {
            panic!(rt; "no plan")
        };
        let Some(same) = texts_of(&rt, alloc, &field, plan, 0) else {
            panic!(rt; "no memory")
        };
        assert_eq!(rt; same.0.as_slice(), nodes.as_slice());
        assert_eq!(rt; same.1.as_slice(), tets.as_slice());
    }
}

#[test]
fn a_round_of_one_worker(rt: HostRuntime) {
    let alloc = rt.alloc();
    let (Some(field), Some(plan)) = (one_sample(alloc), plan_of(1, 1)) else {
        panic!(rt; "no field")
    };
    let Some(survey) = survey_of(&rt, alloc, &field, plan) else {
        panic!(rt; "no memory")
    };
    assert!(rt; 0 < source_of(&survey).slabs());
    let frame = Frame {
        step: 1,
        world: None,
    };
    let Ok(parts) = emit_tets(&rt, alloc, &survey, frame, 0, plan, &OpenGate, 0) else {
        panic!(rt; "no memory")
    };
    assert_eq!(rt; parts.len(), 3);
    let [one, two, three] = parts.as_slice() else {
        panic!(rt; "three parts")
    };
    assert_eq!(rt; [one.slab, two.slab, three.slab], [0, 1, 2]);
    let (first, other) = after_lines(behind_line(ONE_SAMPLE_ELE_FILE), FIRST_TETS);
    assert_eq!(rt; one.text.as_slice(), first);
    assert_eq!(rt; two.text.as_slice(), other);
    assert!(rt; three.text.is_empty() && three.extremes.is_none());
    let Some(extremes) = one.extremes else {
        panic!(rt; "there are tetrahedra")
    };
    let least = extremes.least;
    assert_eq!(rt; [least.cosine.num, least.cosine.den], [1, 4]);
    assert_eq!(rt; least.cosine.sign, 1);
    assert_eq!(rt; least.tet, 0);
    assert_eq!(rt; least.ends, [1, 7]);
}
