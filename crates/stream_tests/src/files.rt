ghost use Rattle.std.specs.Prelude.{◌≤◌};

use crate::made::{plan_of, stream, survey_of};
use desk_mem::MemDesk;
use dihedral::Extremes;
use node_ele_write::PutFault;
use small_images::{
    ONE_SAMPLE_ELE_FILE, ONE_SAMPLE_ELE_FILE_FROM_ONE, ONE_SAMPLE_NODE_FILE,
    ONE_SAMPLE_NODE_FILE_FROM_ONE, one_sample,
};
use st_base::{OpenGate, Port};
use std::alloc::Global;
use std::process::Abort;
use std::test::*;
use std::thread::Threads;
use table_lines::{field, number};

// The number of workers, the port, the number of the first line, how many bytes the port takes, how many it has at the
// end, and its faults.
const ROWS: &str = "\
1|node|0|9999|809|0
64|node|0|9999|809|0
1|node|1|9999|810|0
64|node|1|9999|810|0
1|node|0|30|30|1
64|node|1|30|30|1
1|node|0|9|9|1
1|ele|0|9999|289|0
64|ele|0|9999|289|0
2|ele|1|9999|294|0
2|ele|0|288|288|1
3|ele|0|0|0|1
";

// The extremes of the angles of one sample's tetrahedra: the least cosine is a quarter, at the first of them.
fn are_found<R: Abort>(rt: &R, port: Port, found: Option<Extremes>) {
    match (port, found) {
        (Port::Node, None) => {}
        (Port::Ele, Some(found)) => {
            let least = found.least;
            assert_eq!(rt; [least.cosine.num, least.cosine.den], [1, 4]);
            assert_eq!(rt; least.tet, 0);
        }
        _ => panic!(rt; "other extremes"),
    }
}

// What a desk has at the end whose Node, or whose Ele, takes so many bytes, and what the call answered.
fn streamed<R: Threads + Sync + Abort>(
    rt: &R,
    alloc: Global,
    workers: u32,
    port: Port,
    numbering: u32,
    limit: u64,
) -> (MemDesk, Result<Option<Extremes>, PutFault>)
    requires { numbering ≤ 1 }
{
    let field = one_sample(alloc).expect(rt, "a field");
    let plan = plan_of(workers).expect(rt, "a plan");
    let survey = survey_of(rt, alloc, &field, plan).expect(rt, "memory");
    let gate = &OpenGate;
    let mut desk = MemDesk::new(alloc);
    if matches!(port, Port::Node) {
        let at = Port::Node;
        let head = b"15 3 0 1\n";
        desk.fail_output_after(at, limit);
        let found = stream(
            rt, alloc, &survey, numbering, plan, gate, at, head, &mut desk,
        );
        return (desk, found);
    }
    let at = Port::Ele;
    desk.fail_output_after(at, limit);
    let head = b"24 4 0\n";
    let found = stream(
        rt, alloc, &survey, numbering, plan, gate, at, head, &mut desk,
    );
    (desk, found)
}

fn check<R: Threads + Sync + Abort>(rt: &R, alloc: Global, row: &[u8]) {
    let (workers, rest) = field(row);
    let (port, rest) = field(rest);
    let (first, rest) = field(rest);
    let (limit, rest) = field(rest);
    let (has, faults) = field(rest);
    let numbering = number(first).min(1);
    let (port, other, file) = match (port, numbering) {
        (b"node", 0) => (Port::Node, Port::Ele, ONE_SAMPLE_NODE_FILE),
        (b"node", _) => (Port::Node, Port::Ele, ONE_SAMPLE_NODE_FILE_FROM_ONE),
        (_, 0) => (Port::Ele, Port::Node, ONE_SAMPLE_ELE_FILE),
        (_, _) => (Port::Ele, Port::Node, ONE_SAMPLE_ELE_FILE_FROM_ONE),
    };
    let limit = u64::from(number(limit));
    let (desk, found) = streamed(rt, alloc, number(workers), port, numbering, limit);
    let (wanted, _) = file.split_at(file.len().min(number(has) as usize));
    assert_eq!(rt; desk.text(port), wanted);
    assert_eq!(rt; desk.faults(port), u64::from(number(faults)));
    assert!(rt; desk.text(other).is_empty());
    match found {
        Ok(found) => {
            assert_eq!(rt; desk.faults(port), 0);
            are_found(rt, port, found);
        }
        Err(fault) => assert_eq!(rt; fault, PutFault::WriteFault),
    }
}

#[test]
fn one_sample_is_streamed_to_these_files(rt: HostRuntime) {
    let alloc = rt.alloc();
    for row in ROWS.lines() {
        check(&rt, alloc, row.as_bytes());
    }
}
