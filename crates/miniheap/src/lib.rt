//! The slots of the guest's heap: miniheaps of one class each, which slots of them are held, bad and
//! free, when a class grows, and how a free slot is drawn by the words of a seed.
//! `docs/heap-layout.md` states the rules. Only `Grid::grow` takes memory.
#![tactic(auto)]

mod heap;
mod laws;
mod place;
mod places;
mod seeded;
mod states;

pub use heap::Grid;
pub use laws::{
    draws_find_free_slots, places_hold_the_slots, searches_go_round, slots_are_counted,
    slots_have_their_places,
};
pub use place::{Miniheap, Slot, SlotPlace, SlotState};
pub use places::{GrowRefusal, Places};
pub use seeded::Words;
