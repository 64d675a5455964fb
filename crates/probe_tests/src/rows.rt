use crate::fields::{held_at, line_at, survey_of};
use small_images::field_of;
use snap_rule::Shares;
use st_base::{Dims, Place};

// The sample of an image of one; a point; what is told of it.
const ROWS: &str = "\
1 | 0 0 0 | tetrahedron 0 weights 0 0 0 44894461952
1 | 0 0 -4096 | tetrahedron 0 weights 44894461952 0 0 0
1 | 0 -1000 -2000 | tetrahedron 0 weights 10960562000 9588736000 9588736000 14756427952
1 | 0 0 -4097 | outside
1 | 0 0 4096 | tetrahedron 20 weights 0 0 0 44894461952
1 | 0 0 4097 | outside
1 | 1 2 3 | tetrahedron 23 weights 44845146446 9588736 10960562 28766208
1 | -700 900 1100 | tetrahedron 23 weights 25442624752 15341977600 2192112400 1917747200
1 | 2341 2341 2341 | tetrahedron 14 weights 0 0 0 44894461952
1 | 2341 2341 2342 | outside
1 | -3000 -100 50 | tetrahedron 7 weights 479436800 31785629800 1438310400 11191084952
1 | 4096 0 0 | tetrahedron 8 weights 0 0 0 44894461952
1 | -4096 0 1 | outside
1 | 500 -2000 -500 | tetrahedron 4 weights 0 9588736000 18864882952 16440843000
1 | -1 1 3000 | tetrahedron 21 weights 12004559042 0 32870725438 19177472
1 | 1099511627775 0 0 | outside
1 | -1099511627775 -1099511627775 -1099511627775 | outside
1 | 0 1099511627775 0 | outside
1 | 0 0 -1099511627775 | outside
0 | 0 0 0 | outside
";

const ONE: Dims = Dims {
    nx: 1,
    ny: 1,
    nz: 1,
};

fn point_of(text: &str) -> Option<Place> {
    let (x, rest) = text.split_once(' ')?;
    let (y, z) = rest.split_once(' ')?;
    Some(Place {
        x: x.parse().ok()?,
        y: y.parse().ok()?,
        z: z.parse().ok()?,
    })
}

#[test]
fn points_in_the_mesh_of_one_sample(rt: HostRuntime) {
    let alloc = rt.alloc();
    let shares = Shares::new(1023, 1687).expect(&rt, "shares");
    for row in ROWS.lines() {
        let (sample, rest) = row.split_once(" | ").expect(&rt, "a sample");
        let (point, wanted) = rest.split_once(" | ").expect(&rt, "a point");
        let samples = if sample == "1" { [1i64] } else { [0i64] };
        let field = field_of(alloc, ONE, &samples, 1, false).expect(&rt, "a field");
        let survey = survey_of(&rt, alloc, &field, shares).expect(&rt, "a survey");
        let point = point_of(point).expect(&rt, "a point");
        let (_, states) = held_at(&survey, point).expect(&rt, "a point that is not too far away");
        let line = line_at(alloc, &survey, point).expect(&rt, "memory");
        let wanted = format!(in alloc; "{wanted}\n").expect(&rt, "memory");
        assert_eq!(rt; line.as_slice(), wanted.as_bytes());
        assert!(rt; states <= 288);
    }
}
