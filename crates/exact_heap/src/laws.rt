ghost use Rattle.exact_heap.specs.Laws.{HeldSlotsAreApart, ObjectsLieWithin, TakenAreCounted, FindsWholeSlots, PlacesInWholeSlots, SearchKeepsObjects, PlacementEnds, TurnsAreEnough, BeginsWhole, PlacesQuietly, MallocIsQuiet, MemalignIsQuiet, CallocIsQuiet, FreeIsQuiet, ReallocIsQuiet, EndIsQuiet, PlacesAlike, BeginsIsomorphic, MallocIsSame, MemalignIsSame, CallocIsSame, FreeIsSame, ReallocIsSame, BeginsLawful, MallocIsLawful, MemalignIsLawful, CallocIsLawful, FreeIsLawful, ReallocIsLawful, EndIsLawful, ObjectsAreTimed, HeapsAreLawful, StoresKeepHome, MappingKeepsHome};
ghost use Rattle.exact_heap.specs.HeldSlots.{HoldersHaveHeldSlots};
ghost use Rattle.exact_heap.specs.Held.{MallocKeepsHeld, MemalignKeepsHeld, CallocKeepsHeld, FreeKeepsHeld, ReallocKeepsHeld, MallocGivesNewBytes, MemalignGivesNewBytes, CallocGivesZeros, ReallocGivesNewBytes, ReallocCopies};
ghost use Rattle.exact_heap.specs.NewSlots.{MallocGivesNewSlot, MemalignGivesNewSlot, CallocGivesNewSlot, NoneReallocGivesNewSlot, ReallocGivesNewSlot};
ghost use Rattle.exact_heap.specs.Mapped.{MallocKeepsMapped, MemalignKeepsMapped, CallocKeepsMapped, FreeKeepsMapped, ReallocKeepsMapped, SlotsAreMapped, NothingIsMapped};
ghost use Rattle.exact_heap.specs.ObjectsAfter.{AddsOne, CountsOneMore, ChangesOne, KeepsCount, MallocEnds, MemalignEnds, CallocEnds, FreeEnds, ReallocEnds};
ghost use Rattle.exact_heap.specs.Owned.{OwnersOwn, OwnersAreFound, OthersHaveNone, NoneIsOwned, InnerHaveNone, ForeignHaveNone};
ghost use Rattle.exact_heap.specs.Dues.{ReleasedSlotsAreFree, ReleasedHaveNone, NewHeapKeepsDues, MallocKeepsDues, MemalignKeepsDues, CallocKeepsDues, FreeKeepsDues, ReallocKeepsDues};
ghost use Rattle.exact_heap.specs.Lasting.{HoldersHeld, MallocKeepsObjects, MemalignKeepsObjects, CallocKeepsObjects, FreeKeepsObjects, ReallocKeepsObjects};
ghost use Rattle.exact_heap.specs.Patched.{NewHeapFollowsPatches, MallocFollowsPatches, MemalignFollowsPatches, CallocFollowsPatches, FreeFollowsPatches, ReallocFollowsPatches};
ghost use Rattle.exact_heap.specs.Unowned.{MallocLeavesUnowned, MemalignLeavesUnowned, CallocLeavesUnowned, FreeLeavesUnowned, ReallocLeavesUnowned, EndLeavesUnowned, MallocIsOneCall, MemalignIsOneCall, CallocIsOneCall, FreeIsOneCall, ReallocIsOneCall};

use crate::parts::slot_laws;
use miniheap::slots_have_their_places;

/// The slots that objects hold are apart from each other, and each object's slot lies within the miniheaps.
/// The call does nothing: a caller has the clauses.
pub fn held_slots_are_apart()
    ensures apart { HeldSlotsAreApart }
    ensures within { ObjectsLieWithin }
    ensures counted { TakenAreCounted }
{
    slots_have_their_places();
    slot_laws();
}

/// A slot that an object holds is in the state of a held one. The call does nothing: a caller has the clause.
pub fn holders_have_held_slots()
    ensures { HoldersHaveHeldSlots }
{
    slot_laws();
}

/// No object is ever placed in a slot that is held, bad or broken. The call does nothing: a caller has the
/// clauses.
pub fn placed_slots_are_whole()
    ensures found { FindsWholeSlots }
    ensures placed { PlacesInWholeSlots }
    ensures objects { SearchKeepsObjects }
{
    slot_laws();
}

/// A placement finds a slot, or there is no room for the class's next miniheap. The call does nothing: a caller has
/// the clauses.
pub fn placement_ends()
    ensures ends { PlacementEnds }
    ensures enough { TurnsAreEnough }
{
    slot_laws();
}

/// Where each byte of every slot that is neither held nor bad is the canary's, nothing is signalled, no slot
/// becomes bad, and that stays so. The call does nothing: a caller has the clauses.
pub fn whole_heaps_are_quiet()
    ensures begins { BeginsWhole }
    ensures place { PlacesQuietly }
    ensures malloc { MallocIsQuiet }
    ensures memalign { MemalignIsQuiet }
    ensures calloc { CallocIsQuiet }
    ensures free { FreeIsQuiet }
    ensures realloc { ReallocIsQuiet }
    ensures check_end { EndIsQuiet }
{
    slot_laws();
}

/// Where each byte of every slot that is neither held nor bad is the canary's, a seed decides addresses alone. To
/// the same calls heaps of any two seeds have the same miniheaps and the same objects, and room is wanting at the
/// same calls, with the same two numbers. The call does nothing: a caller has the clauses.
pub fn seeds_decide_addresses_alone()
    ensures place { PlacesAlike }
    ensures begins { BeginsIsomorphic }
    ensures malloc { MallocIsSame }
    ensures memalign { MemalignIsSame }
    ensures calloc { CallocIsSame }
    ensures free { FreeIsSame }
    ensures realloc { ReallocIsSame }
{
    slot_laws();
}

/// A heap's history is lawful from its beginning on, and each call keeps it so. The call does nothing: a caller has
/// the clauses.
pub fn histories_stay_lawful()
    ensures begins { BeginsLawful }
    ensures malloc { MallocIsLawful }
    ensures memalign { MemalignIsLawful }
    ensures calloc { CallocIsLawful }
    ensures free { FreeIsLawful }
    ensures realloc { ReallocIsLawful }
    ensures check_end { EndIsLawful }
    ensures timed { ObjectsAreTimed }
    ensures stood_for { HeapsAreLawful }
{
    slot_laws();
}

/// Stores of the guest keep what a heap asks of its memory, and so does mapping outside of the heap region. The
/// call does nothing: a caller has the clauses.
pub fn stores_keep_home()
    ensures stores { StoresKeepHome }
    ensures mapping { MappingKeepsHome }
{}

/// What a heap has mapped. A call keeps that exactly the miniheaps are mapped in the heap region, and what is mapped outside of it.
/// Each slot of a heap that isn't spent is mapped. The call does nothing: a caller has the clauses.
pub fn miniheaps_are_mapped()
    ensures malloc { MallocKeepsMapped }
    ensures memalign { MemalignKeepsMapped }
    ensures calloc { CallocKeepsMapped }
    ensures free { FreeKeepsMapped }
    ensures realloc { ReallocKeepsMapped }
    ensures slots { SlotsAreMapped }
    ensures nothing { NothingIsMapped }
{
    slot_laws();
}

/// Of a slot that no object holds after a heap call, each byte is what it was before, or the slot has just been made or
/// filled with the canary. Each signal of the call names a byte that was broken before it, in a slot that no object held.
/// The call does nothing: a caller has the clauses.
pub fn unowned_slots_are_left_alone()
    ensures malloc { MallocLeavesUnowned }
    ensures memalign { MemalignLeavesUnowned }
    ensures calloc { CallocLeavesUnowned }
    ensures free { FreeLeavesUnowned }
    ensures realloc { ReallocLeavesUnowned }
    ensures check_end { EndLeavesUnowned }
{
    slot_laws();
}

/// Each heap call is counted once, places one object at most and keeps the seed. The call does nothing: a caller has the
/// clauses.
pub fn calls_are_counted()
    ensures malloc { MallocIsOneCall }
    ensures memalign { MemalignIsOneCall }
    ensures calloc { CallocIsOneCall }
    ensures free { FreeIsOneCall }
    ensures realloc { ReallocIsOneCall }
{}

/// A heap call keeps each byte outside of the heap region, and each in a slot that is held before and after it. The bytes
/// of a new object are zero or the canary's, and where it stands for an old one, the old one's. The call does nothing: a
/// caller has the clauses.
pub fn held_slots_are_kept()
    ensures malloc { MallocKeepsHeld }
    ensures memalign { MemalignKeepsHeld }
    ensures calloc { CallocKeepsHeld }
    ensures free { FreeKeepsHeld }
    ensures realloc { ReallocKeepsHeld }
    ensures malloc_bytes { MallocGivesNewBytes }
    ensures memalign_bytes { MemalignGivesNewBytes }
    ensures calloc_bytes { CallocGivesZeros }
    ensures realloc_bytes { ReallocGivesNewBytes }
    ensures copies { ReallocCopies }
{
    slot_laws();
}

/// The objects after each heap call. What is refused answers 0 and changes none, and neither does want of heap room. A new
/// object comes last, and those that are due are released. A free changes its object alone. The call does nothing: a
/// caller has the clauses.
pub fn objects_after_calls()
    ensures new { AddsOne }
    ensures new_count { CountsOneMore }
    ensures change { ChangesOne }
    ensures change_count { KeepsCount }
    ensures malloc { MallocEnds }
    ensures memalign { MemalignEnds }
    ensures calloc { CallocEnds }
    ensures free { FreeEnds }
    ensures realloc { ReallocEnds }
{
    slot_laws();
}

/// The owner of an address is the one owned object that has it. An address inside of an object's slot has no other, and an
/// address in no held slot has none. The call does nothing: a caller has the clauses.
pub fn owners_are_exact()
    ensures own { OwnersOwn }
    ensures found { OwnersAreFound }
    ensures none { OthersHaveNone }
    ensures not_owned { NoneIsOwned }
    ensures inner { InnerHaveNone }
    ensures foreign { ForeignHaveNone }
{
    slot_laws();
}

/// A deferred object is due later than the clock, and a released one was due by then. No object holds the slot of one that
/// was due at the present clock: nothing has been placed since. So it is in a new heap, and each call keeps it so. The
/// call does nothing: a caller has the clauses.
pub fn released_addresses_are_free()
    ensures slots { ReleasedSlotsAreFree }
    ensures none { ReleasedHaveNone }
    ensures begins { NewHeapKeepsDues }
    ensures malloc { MallocKeepsDues }
    ensures memalign { MemalignKeepsDues }
    ensures calloc { CallocKeepsDues }
    ensures free { FreeKeepsDues }
    ensures realloc { ReallocKeepsDues }
{
    slot_laws();
}

/// Where the patches stay, they decide each object's class and front, and the due of each that was freed. So it is in a new
/// heap, and each call under the same patches keeps it so. The call does nothing: a caller has the clauses.
pub fn patches_decide()
    ensures begins { NewHeapFollowsPatches }
    ensures malloc { MallocFollowsPatches }
    ensures memalign { MemalignFollowsPatches }
    ensures calloc { CallocFollowsPatches }
    ensures free { FreeFollowsPatches }
    ensures realloc { ReallocFollowsPatches }
{
    slot_laws();
}

/// Each object has its place and what was asked for as long as the heap is, and once it isn't owned or doesn't hold its slot,
/// that stays so. The call does nothing: a caller has the clauses.
pub fn objects_last()
    ensures holders { HoldersHeld }
    ensures malloc { MallocKeepsObjects }
    ensures memalign { MemalignKeepsObjects }
    ensures calloc { CallocKeepsObjects }
    ensures free { FreeKeepsObjects }
    ensures realloc { ReallocKeepsObjects }
{
    slot_laws();
}

/// Each byte of a new object's slot is zero or the canary's, those before and behind the object too. Where an object is moved,
/// so is each that isn't copied. The call does nothing: a caller has the clauses.
pub fn new_slots_are_fresh()
    ensures malloc { MallocGivesNewSlot }
    ensures memalign { MemalignGivesNewSlot }
    ensures calloc { CallocGivesNewSlot }
    ensures none_realloc { NoneReallocGivesNewSlot }
    ensures realloc { ReallocGivesNewSlot }
{
    slot_laws();
}
