//! How the rows of the tables are read. A row is a line: numbers parted by blanks, bars between
//! its parts, and an arrow before what is wanted.
ghost use Rattle.std.specs.Prelude.{◌≤◌};

/// The numbers of a row, by whatever words they are parted; none where there are not `N`.
pub fn numbers<const N: usize>(row: &str) -> Option<[i64; N]> {
    let mut numbers = [0; N];
    let mut len = 0usize;
    for word in row.split_whitespace() {
        if let Ok(number) = word.parse::<i64>() {
            if len >= N {
                return None;
            }
            numbers[len] = number;
            len += 1;
        }
    }
    if len == N { Some(numbers) } else { None }
}

/// The same of numbers without signs.
pub fn naturals<const N: usize>(row: &str) -> Option<[u32; N]>
    requires { N ≤ 100 }
{
    let mut naturals = [0; N];
    let numbers = numbers::<N>(row)?;
    for n in 0..N {
        naturals[n] = u32::try_from(numbers[n]).ok()?;
    }
    Some(naturals)
}

/// What stands before the first bar of a row, and what stands behind it.
pub fn part(row: &str) -> (&str, &str) {
    row.split_once('|').unwrap_or((row, ""))
}
