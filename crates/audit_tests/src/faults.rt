use crate::rows::desk_of;
use desk_mem::MemDesk;
use file_audit::{audit_files, sound_text};
use st_base::{Status, Verdict};

const NODES: &[u8] = b"4 3 0 1\n1 0 0 0 1\n2 1 0 0 1\n3 0 1 0 1\n4 0 0 1 1\n";

const TETS: &[u8] = b"1 4 0\n1 1 2 3 4\n";

// Each input fails behind so many bytes, at its end too, and so many files were opened.
#[test]
fn tells_a_fault_of_reading(rt: HostRuntime) {
    let alloc = rt.alloc();
    let ele = b"1 4 0;0 0 1 2 3;# a comment, so that this text is the longer one;";
    for (bytes, opened) in [(0, 1), (5, 1), (48, 1), (49, 2)] {
        let mut desk = desk_of(alloc, b"five", ele).expect(&rt, "memory");
        desk.fail_input_after(bytes);
        let answer = audit_files(alloc, &mut desk, b"out");
        assert_eq!(rt; answer, Err(Status::ReadFault));
        assert_eq!(rt; desk.names().len(), opened);
    }
}

// A file that isn't there could not be opened.
#[test]
fn tells_a_file_that_is_not_there(rt: HostRuntime) {
    let alloc = rt.alloc();
    let mut desk = MemDesk::new(alloc);
    assert_eq!(rt; audit_files(alloc, &mut desk, b"a"), Err(Status::ReadFault));
    assert_eq!(rt; desk.names().len(), 0);
    desk.put_input(b"a.node", NODES).expect(&rt, "memory");
    assert_eq!(rt; audit_files(alloc, &mut desk, b"a"), Err(Status::ReadFault));
    assert_eq!(rt; desk.names().len(), 1);
    assert_eq!(rt; desk.input_faults(), 2);
    desk.put_input(b"a.ele", TETS).expect(&rt, "memory");
    let sound = Verdict::Sound {
        nodes: 4,
        tets: 1,
        boundary: 4,
    };
    assert_eq!(rt; audit_files(alloc, &mut desk, b"a"), Ok(sound));
    assert_eq!(rt; desk.names().len(), 3);
    assert_eq!(rt; desk.input_faults(), 2);
}

#[test]
fn tells_that_a_mesh_is_sound(rt: HostRuntime) {
    let text = sound_text(rt.alloc(), 15, 24, 0).expect(&rt, "memory");
    assert_eq!(rt;
        text.as_slice(),
        b"sound nodes 15 tetrahedra 24 boundary 0\n".as_slice()
    );
}
