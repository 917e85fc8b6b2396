// What a heap counts.
ghost use Rattle.std.specs.Prelude.{◌≡◌, ◌-◌, ◌≤◌};
ghost use Rattle.exact_heap.specs.Counted.{no_counts};

/// How much a heap has done.
#[derive(Clone, Copy, Debug)]
pub(crate) struct Counts {
    /// The number of objects that were ever placed.
    pub(crate) clock: u64,
    /// The number of frees that took effect.
    pub(crate) frees: u64,
    /// The number of heap calls.
    pub(crate) calls: u64,
}

impl Counts {
    /// Nothing is done yet.
    pub(crate) fn new() -> Counts
        ensures { result ≡ no_counts }
    {
        Counts {
            clock: 0,
            frees: 0,
            calls: 0,
        }
    }

    /// The number of objects that weren't freed yet.
    pub(crate) fn owned(&self) -> u64
        requires { self.now.frees ≤ self.now.clock }
        ensures { result ≡ self.now.clock - self.now.frees }
    {
        self.clock - self.frees
    }
}
