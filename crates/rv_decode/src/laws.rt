// Laws of the table of instructions, for proofs over definitions; the functions do nothing.
ghost use Rattle.rv_decode.specs.Laws.{ReadsBack, RowsAreInRange};

/// Each instruction whose fields are in range is the one that its word is.
#[tactic(auto, using(crate::proofs::Round::reads_back))]
pub fn reads_back()
    ensures { ReadsBack }
{}

/// Whatever a word is, its fields are in range.
#[tactic(auto, using(crate::proofs::Range::rows_are_in_range))]
pub fn rows_are_in_range()
    ensures { RowsAreInRange }
{}
