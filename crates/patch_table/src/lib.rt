//! Patch tables: a pad and a front for each allocation site, a deferral for each pair of an allocation
//! site and a free site. A table is read from its text and written as its text, and two tables are
//! joined by the greater entry at each key.
#![tactic(auto)]

mod joining;
mod laws;
mod line;
mod reading;
mod table;
mod writing;

pub use laws::{
    below_is_an_order, every_text_is_answered, join_is_the_greater_entry, join_is_the_least_above,
    one_answer, one_text_a_table, raise_is_a_join,
};
pub use reading::PatchRefusal;
pub use table::Patches;

#[cfg(test)]
mod tests;
