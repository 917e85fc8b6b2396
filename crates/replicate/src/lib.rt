//! Several runs of a guest under different seeds, which vote on what is printed.
#![tactic(auto)]

mod answer;
mod arrival;
mod clear;
mod gate;
mod group;
mod isolated;
mod law;
mod lead;
mod opened;
mod printed;
mod run;
mod schedules;
mod seat;
mod seat_gate;
mod seat_start;
mod settled;
mod start;
mod turn;
mod votes;

pub use answer::{GateAnswer, Patched, Retired};
pub use arrival::{Arrival, same_arrivals_are_equal};
pub use clear::{clear_groups_stay_whole, clear_rounds_stay_whole};
pub use group::Group;
pub use law::{steps_add_up, steps_are_counted};
pub use run::run_group;
pub use schedules::{
    each_replica_arrives, gates_and_rounds_are_one, replicas_wait_for_writes, runs_are_one,
    schedules_are_rounds, turns_keep_the_lead,
};
