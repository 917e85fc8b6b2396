ghost use Rattle.rv_memory.specs.Laws.{TestsHoldAtEach, TestsHoldFromEach, SpansAreWhole, MemoriesAreTheirAddresses};

/// A span is its addresses, one by one, and a memory is what it says of each address. The body is
/// empty: a caller has the clauses.
pub fn spans_are_their_bytes()
    ensures at_each { TestsHoldAtEach }
    ensures from_each { TestsHoldFromEach }
    ensures whole { SpansAreWhole }
    ensures memories { MemoriesAreTheirAddresses }
{}
