//! The instructions of RV32I, the M extension and FENCE.I as words, and as text.
#![tactic(auto)]

mod fields;
mod laws;
mod reading;
#[cfg(test)]
mod tests;
mod text;
mod writing;

pub use laws::{reads_back, rows_are_in_range};
pub use reading::decode;
pub use text::show;
pub use writing::encode;
