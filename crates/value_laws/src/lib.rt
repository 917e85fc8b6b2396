//! Laws of the infinite heap. Each is a function that does nothing and whose contract is the law: wherever the
//! objects lie, what the infinite heap says of values, decisions and memory stands for what happens to words and
//! bytes; and what patches cover stays covered where they are raised.
#![tactic(auto)]

ghost use Rattle.infinite_heap.specs.Lift.{number_result, kept_operand, moved_pointer, distance, masked_low_part, changed_low_bits, low_part_at_top, combined_cells, shifted_cells, order_result, low_result};
ghost use Rattle.infinite_heap.specs.Covered.{IsBelow};
ghost use Rattle.value_laws.specs.OperationLaws.{GivesWords, IsSoundRow, IsSoundAlignedRow, UnknownStands, LiftIsSound};
ghost use Rattle.value_laws.specs.DecisionLaws.{OrderHolds, SignedOrderHolds, EqualityHolds};
ghost use Rattle.value_laws.specs.LayoutLaws.{AddressesAreWhole, ValuesStay, MemoryStays, PlacesGoOn, SlotsLieInRegion};
ghost use Rattle.value_laws.specs.PatchLaws.{ReachIsLeast, RecordsStay, RunsStay};
ghost use Rattle.value_laws.specs.MemoryLaws.{CellsStand, LoadedStands, PointerLoads, OutsideLoads, PointerStores, OutsideStores, LoadStands, StoreMatches, WrittenIsRead, OthersStay, NumbersStand, NumbersAreBytes};

/// An operation on words gives a word.
pub fn operations_give_words()
    ensures { GivesWords }
{}

/// Under every layout of aligned objects in the heap region, each row of the table of operations gives a value
/// that stands for the result on words.
pub fn rows_are_sound()
    ensures two_numbers { IsSoundRow number_result }
    ensures idle_number { IsSoundRow kept_operand }
    ensures pointer_moved { IsSoundRow moved_pointer }
    ensures pointer_distance { IsSoundRow distance }
    ensures low_part_masked { IsSoundAlignedRow masked_low_part }
    ensures low_bits_changed { IsSoundAlignedRow changed_low_bits }
    ensures low_part_shifted { IsSoundRow low_part_at_top }
    ensures cell_by_cell { IsSoundRow combined_cells }
    ensures cells_shifted { IsSoundRow shifted_cells }
    ensures order_decided { IsSoundRow order_result }
    ensures low_parts_alone { IsSoundRow low_result }
    ensures everything_else { UnknownStands }
{}

/// Under every layout of aligned objects in the heap region, an operation on values stands for the operation on
/// the words that they stand for.
pub fn lift_is_sound()
    ensures { LiftIsSound }
{}

/// A decided order of two values is that of their words, and so is a decided equality whose records are
/// harmless.
pub fn decisions_hold()
    ensures unsigned { OrderHolds }
    ensures signed { SignedOrderHolds }
    ensures equal { EqualityHolds }
{}

/// Cells that are read stand for the bytes that are read, through a pointer or outside the heap region, and the
/// value of loaded cells for the word of those bytes.
pub fn loads_stand()
    ensures through_pointers { PointerLoads }
    ensures outside { OutsideLoads }
    ensures values { LoadedStands }
    ensures whole { LoadStands }
{}

/// A store keeps memory matching, through a pointer where each byte of it is harmless, or outside the heap
/// region.
pub fn stores_match()
    ensures cells { CellsStand }
    ensures through_pointers { PointerStores }
    ensures outside { OutsideStores }
    ensures whole { StoreMatches }
{}

/// A list of numbers stands for itself as a list of bytes, and for no other.
pub fn numbers_are_bytes()
    ensures stand { NumbersStand }
    ensures alone { NumbersAreBytes }
{}

/// What was written to an object is read back, and nothing else has changed.
pub fn written_is_read()
    ensures written { WrittenIsRead }
    ensures others { OthersStay }
{}

/// Where offsets and slots lie under a layout.
pub fn places_go_on()
    ensures whole { AddressesAreWhole }
    ensures along { PlacesGoOn }
    ensures held { SlotsLieInRegion }
{}

/// Under a later layout values stand for the same words, and memory still matches where old cells and bytes stay.
pub fn later_layouts_keep()
    ensures values { ValuesStay }
    ensures memory { MemoryStays }
{}

/// The reach of an object under a patch table is the least power of two, 16 at least, that is at least 1 and at least
/// its size plus its site's pad.
pub fn reach_is_least()
    ensures { ReachIsLeast 4 }
{}

/// What a patch table covers stays covered under every table that it is below: each record, and each run.
pub fn raised_patches_cover()
    ensures records { RecordsStay IsBelow }
    ensures runs { RunsStay IsBelow }
{}
