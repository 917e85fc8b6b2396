ghost use Rattle.miniheap.specs.Laws.{SlotsHoldTheirAddresses, SlotsLieWithin, SlotsAreApart, SlotsAreAligned, SlotsBeginAtMultiples, SlotsAreKnown, SlotsAreFound, SlotsFollow, SlotsStay, SlotsAreAdded, SlotsAreAtPlaces, PlacesHoldTheirAddresses, PlacesLieWithin, PlacesAreApart, PlacesBeginAtMultiples, PlacesAreKnown, PlacesAreFound, PlacesAreNumbered, NumbersAreApart, PlacesStay, SlotsFit, SlotsAreFew, SlotsStandOnce, TakingCounts, ReleasingCounts, GrowingCounts, DrawsFindFreeSlots, SearchesGoRound};

/// What holds of the slots of every heap, whichever of them are held or bad. The body is empty: a
/// caller has the clauses.
pub fn slots_have_their_places()
    ensures hold { SlotsHoldTheirAddresses }
    ensures within { SlotsLieWithin }
    ensures apart { SlotsAreApart }
    ensures aligned { SlotsAreAligned }
    ensures multiples { SlotsBeginAtMultiples }
    ensures known { SlotsAreKnown }
    ensures found { SlotsAreFound }
    ensures follow { SlotsFollow }
    ensures stay { SlotsStay }
    ensures added { SlotsAreAdded }
{}

/// What holds of where the slots of all miniheaps lie, and that each heap's slots lie there. The body is
/// empty: a caller has the clauses.
pub fn places_hold_the_slots()
    ensures slots { SlotsAreAtPlaces }
    ensures hold { PlacesHoldTheirAddresses }
    ensures within { PlacesLieWithin }
    ensures apart { PlacesAreApart }
    ensures multiples { PlacesBeginAtMultiples }
    ensures known { PlacesAreKnown }
    ensures found { PlacesAreFound }
    ensures numbered { PlacesAreNumbered }
    ensures once { NumbersAreApart }
    ensures stay { PlacesStay }
{}

/// How many slots there are, and how the numbers of a class's slots and of its taken slots follow what
/// happens to them. The body is empty: a caller has the clauses.
pub fn slots_are_counted()
    ensures fit { SlotsFit }
    ensures few { SlotsAreFew }
    ensures once { SlotsStandOnce }
    ensures taking { TakingCounts }
    ensures releasing { ReleasingCounts }
    ensures growing { GrowingCounts }
{}

/// The words of every seed pick a free slot of each class that needn't grow. The body is empty: a caller
/// has the clause.
pub fn draws_find_free_slots()
    ensures { DrawsFindFreeSlots }
{}

/// The search for the next free slot, worked out for twelve slots. The body is empty: a caller has the
/// clause.
pub fn searches_go_round()
    ensures { SearchesGoRound }
{}
