//! One guest: a program that is run step by step.
#![tactic(auto)]

mod access;
mod decoded;
mod ended;
mod execute;
mod fields;
mod hart;
mod heap_calls;
mod law;
mod living;
mod machine;
mod memory;
mod names;
mod outcome;
mod settings;
mod shape;
mod stack;
mod stop;
mod stores;
mod system;

pub use ended::Ended;
pub use law::{
    raised_tables_cover, records_are_known, runs_keep_rules, runs_match, runs_stay_mapped,
    steps_match,
};
pub use machine::Machine;
pub use settings::Settings;
pub use shape::steps_are_shaped;
pub use stop::{Stop, Waiting};
pub use stores::stores_are_recorded;
