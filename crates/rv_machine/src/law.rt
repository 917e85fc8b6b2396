// Laws of the two machines. Each is a function that does nothing but name the laws that it rests on, and its
// contract is the law.
ghost use Rattle.rv_machine.specs.Facts.{Facts};
ghost use Rattle.rv_machine.specs.Laws.{StepsMatch, ProgramsStayOutside, BytesStart, RunsMatch, RecordsAreKnown, RunsKeepRules, NamelessAreHeapless, StepsStayMapped, RunsStayMapped, RaisedTablesCover};

use rv_decode::rows_are_in_range;
use value_laws::{
    decisions_hold, lift_is_sound, loads_stand, numbers_are_bytes, operations_give_words,
    places_go_on, raised_patches_cover, stores_match,
};

// What the laws of the crates below say together.
pub(crate) fn laws_below()
    ensures { Facts }
{
    operations_give_words();
    lift_is_sound();
    decisions_hold();
    loads_stand();
    stores_match();
    numbers_are_bytes();
    places_go_on();
    rows_are_in_range();
}

use exact_heap::{histories_stay_lawful, miniheaps_are_mapped};

/// A step of the infinite-heap machine and one of a guest on flat memory from matching states match: as long as
/// what the first records is harmless where the objects lie, both do the same, and the states after it match.
pub fn steps_match()
    ensures { StepsMatch }
{
    laws_below();
}

/// A run on flat memory prints the bytes of the run on the infinite heap, and ends as it does, whatever the seed, where
/// the program has no heap functions, the latter is clear and what it records is covered by the patches.
pub fn runs_match()
    ensures outside { ProgramsStayOutside }
    ensures bytes { BytesStart }
    ensures run { RunsMatch }
    ensures heapless { NamelessAreHeapless }
{
    steps_match();
    records_are_known();
}

/// What a run on the infinite heap records is of objects that there are at that step.
pub fn records_are_known()
    ensures { RecordsAreKnown }
{
    laws_below();
}

/// A run keeps what it was started with: its program's heap functions, and its patches.
pub fn runs_keep_rules()
    ensures { RunsKeepRules }
{}

/// In a run memory stays mapped as it was outside of the heap region, and inside it exactly the heap's miniheaps are
/// mapped. They may be written to, and are never run.
pub fn runs_stay_mapped()
    ensures step { StepsStayMapped }
    ensures run { RunsStayMapped }
{
    histories_stay_lawful();
    miniheaps_are_mapped();
}

/// What a patch table covers on the infinite heap, every table covers whose entries are no lower.
pub fn raised_tables_cover()
    ensures { RaisedTablesCover }
{
    raised_patches_cover();
}
