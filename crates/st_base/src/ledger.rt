ghost use Rattle.std.specs.Prelude.{◌≡◌, ℕ, ◌+◌, ◌<◌, ◌^◌};

/// A count of the vertices for which a state was made.
pub trait Ledger {
    /// The count.
    ghost count: { Self → ℕ };

    /// Raises the count by `n`.
    fn add(&mut self, n: u64)
        requires { count self.old + n < 2 ^ 64 }
        ensures { count self.new ≡ count self.old + n };
}

/// A ledger that holds its count alone.
#[derive(Clone, Copy, Debug, PartialEq, Eq)]
pub struct Tally {
    count: u64,
}

impl Tally {
    /// A ledger that begins at 0.
    ///
    /// ```
    /// let mut tally = Tally::new();
    /// tally.add(3);
    /// let three = tally.count();
    /// ```
    pub fn new() -> Tally
        ensures { result.count ≡ 0 }
    {
        Tally { count: 0 }
    }

    /// The count so far.
    pub fn count(&self) -> u64
        ensures { result ≡ self.now.count }
    {
        self.count
    }
}

impl Ledger for Tally {
    ghost count = { λ tally. tally.count };

    fn add(&mut self, n: u64) {
        self.count += n;
    }
}
