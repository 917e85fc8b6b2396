// What a run is set to.
use patch_table::Patches;

/// What a guest is run with.
#[derive(Drop)]
pub struct Settings {
    /// The seed of the heap's words: it decides where objects lie.
    pub seed: u64,
    /// Whether every object begins with zeros. Otherwise new objects hold the canary.
    pub zero: bool,
    /// The patches that the heap goes by.
    pub patches: Patches,
}
