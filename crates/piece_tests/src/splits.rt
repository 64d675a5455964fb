use quad_split::{Diagonal, split_prism, split_pyramid, split_quad};

// Keys are written out at each call, since a call wants to know that no two are equal.
#[test]
fn quadrilaterals_and_solids(rt: HostRuntime) {
    assert_eq!(rt; split_quad([5, 9, 2, 7]), Diagonal::First);
    assert_eq!(rt; split_quad([5, 2, 9, 7]), Diagonal::Second);
    assert_eq!(rt;
        split_pyramid([1, 2, 3, 4, 5]),
        [[0, 1, 2, 3], [0, 1, 3, 4]]
    );
    assert_eq!(rt;
        split_pyramid([5, 1, 2, 3, 4]),
        [[1, 2, 3, 0], [1, 3, 4, 0]]
    );
    assert_eq!(rt;
        split_prism([1, 2, 3, 4, 5, 6]),
        [[0, 1, 2, 5], [0, 1, 4, 5], [0, 3, 4, 5]]
    );
}
