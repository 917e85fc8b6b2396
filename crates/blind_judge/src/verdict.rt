// What is said of a run: docs/judge.md.

ghost use Rattle.blind_judge.specs.Verdicts.{OneVerdict};

use infinite_heap::{Access, Why};

/// What is said of a run on the infinite heap: that it lets nothing depend on an address or an unset byte
/// and stays within what the patches cover, or else what it does first that it isn't to.
#[derive(Clone, Copy, Debug, PartialEq, Eq, Drop)]
pub enum Verdict {
    Clear,
    Blur { pc: u32, why: Why },
    Uncovered { access: Access },
}

/// Why nothing is said of a run.
#[derive(Clone, Copy, Debug, PartialEq, Eq, Drop)]
pub enum JudgeRefusal {
    /// So many cells of objects were stored, as many as the limit or more.
    Cells { count: u64 },
    /// More input was asked for than is kept.
    Input,
    /// The source of the input failed.
    Source,
    /// Want of memory.
    Memory,
}

/// Any two verdicts on one run are the same.
pub fn one_verdict()
    ensures { OneVerdict }
{}
