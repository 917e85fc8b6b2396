//! The heap of a guest.
#![tactic(auto)]

mod calls;
mod counts;
mod freeing;
mod heap;
mod laws;
mod parts;
mod placing;
mod row;
mod rows;
mod rules;
mod signal;
mod signals;
mod slot_table;
mod slots;
mod spoiling;

pub use heap::Heap;
pub use laws::{
    calls_are_counted, held_slots_are_apart, held_slots_are_kept, histories_stay_lawful,
    holders_have_held_slots, miniheaps_are_mapped, new_slots_are_fresh, objects_after_calls,
    objects_last, owners_are_exact, patches_decide, placed_slots_are_whole, placement_ends,
    released_addresses_are_free, seeds_decide_addresses_alone, stores_keep_home,
    unowned_slots_are_left_alone, whole_heaps_are_quiet,
};
pub use row::SlotRow;
pub use signal::{HeapRefusal, Place, Signal};
