use face_neigh::{face_line, neigh_line};

const MAX: u32 = u32::MAX;

#[test]
fn lines_of_triangles(rt: HostRuntime) {
    for (number, nodes, line) in [
        (0, [0, 2, 1], "0 0 2 1\n"),
        (10, [9, 100, 99], "10 9 100 99\n"),
        (
            MAX,
            [MAX; 3],
            "4294967295 4294967295 4294967295 4294967295\n",
        ),
    ] {
        let mut out = Vec::new(rt.alloc());
        face_line(&mut out, number, nodes).expect(&rt, "memory");
        assert_eq!(rt; out.as_slice(), line.as_bytes());
    }
}

#[test]
fn lines_of_neighbours(rt: HostRuntime) {
    for (number, across, line) in [
        (0, [None; 4], "0 -1 -1 -1 -1\n"),
        (7, [Some(0), None, None, Some(10)], "7 0 -1 -1 10\n"),
        (
            MAX,
            [Some(MAX); 4],
            "4294967295 4294967295 4294967295 4294967295 4294967295\n",
        ),
    ] {
        let mut out = Vec::new(rt.alloc());
        neigh_line(&mut out, number, across).expect(&rt, "memory");
        assert_eq!(rt; out.as_slice(), line.as_bytes());
    }
}
