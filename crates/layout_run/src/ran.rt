// What a run comes to.
use exact_heap::Place;
use heap_image::Image;
use infinite_heap::FaultKind;

/// How a run has ended.
#[derive(Clone, Copy, Debug, PartialEq, Eq, Drop)]
pub enum Ending {
    /// The guest has exited with this code.
    Exit { code: u8 },
    /// The guest's instruction at `pc` has faulted, with the address that the fault speaks of.
    Fault { kind: FaultKind, pc: u32, addr: u32 },
    /// The budget of steps was used up.
    Budget,
    /// A heap call has met no room: the miniheaps have `used` bytes, and the next one wants `wanted` more.
    Room { used: u32, wanted: u32 },
    /// The heap call was made after which the run was to be stopped.
    Stopped,
}

/// What a run comes to.
#[derive(Drop)]
pub struct Ran {
    pub ending: Ending,
    /// The steps that were counted.
    pub steps: u64,
    /// The objects that were placed.
    pub clock: u64,
    /// The frees that took effect.
    pub frees: u64,
    /// The broken canaries that were seen, those of the check at the end among them.
    pub signals: u64,
    /// When the first of them was seen.
    pub first: Option<Place>,
    /// Where one was asked for, the image of the place where the run was stopped, of that of its first signal where it was
    /// to be stopped nowhere, or else of its end.
    pub image: Option<Image>,
}

/// Why a run was cut short.
#[derive(Clone, Copy, Debug, PartialEq, Eq, Drop)]
pub enum RunRefusal {
    /// Want of memory.
    Memory,
    /// The tape keeps no more of the input.
    Input,
    /// The source of the input failed.
    Source,
    /// Standard output failed.
    Out,
    /// Standard error failed.
    Err,
}
