// What a gate answers, and what it leaves in the lists of a group.
use layout_run::Ending;

/// What a gate comes to.
#[derive(Clone, Copy, Debug, PartialEq, Eq, Drop)]
pub enum GateAnswer {
    /// The gate is open, and the replicas go on.
    Passed,
    /// Replica `i` hasn't arrived, and none before it is missing. Nothing has changed.
    Waiting { i: u8 },
    /// The group has ended so.
    Ended(Ending),
    /// At most half of the `live` replicas have come to the same: the largest group of these has `largest`.
    Lost { largest: u8, live: u8 },
}

/// A replica that came to something else than the others at a gate.
#[derive(Clone, Copy, Debug, Default, PartialEq, Eq, Drop)]
pub struct Retired {
    pub replica: u8,
    pub gate: u64,
}

/// A gate that changed the table, with the sites and the pairs of sites that were found there.
#[derive(Clone, Copy, Debug, PartialEq, Eq, Drop)]
pub struct Patched {
    pub gate: u64,
    pub pads: u64,
    pub defers: u64,
}
