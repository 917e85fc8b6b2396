//! One whole run of a guest: its steps, what it reads and prints, and how it ends.
#![tactic(auto)]

mod clear;
mod laws;
mod ran;
mod run;
mod step;
mod turn;
mod unstopped;
mod watch;

pub use clear::{clear_runs_match, clear_runs_print_prefixes};
pub use laws::{images_are_sound, places_in_the_input_rise, signals_are_of_stored_bytes};
pub use ran::{Ending, Ran, RunRefusal};
pub use run::{MOST_STEPS, run_one};
pub use step::{Progress, advance, advances_are_steps};
pub use unstopped::unstopped_runs_are_flat_runs;

#[cfg(test)]
mod tests;
