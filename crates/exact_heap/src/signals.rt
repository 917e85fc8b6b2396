// The broken canaries that a heap has seen: the first of them, and their number.
ghost use Rattle.std.specs.Prelude.{◌≡◌, ◌+◌, ◌<◌, ◌^◌};
ghost use Rattle.exact_heap.specs.SeenSignals.{no_signals, with_signal};

use crate::signal::Signal;
use arrayvec::ArrayVec;
use std::marker::Model;

// How many signals are kept.
const KEPT: usize = 64;

/// The first 64 signals, and the number of all.
#[derive(Drop)]
pub(crate) struct Signals {
    first: ArrayVec<Signal, 64>,
    count: u64,
}

impl Model for Signals {
    ghost use Rattle.exact_heap.specs.SeenSignals.{SeenSignals};

    ghost Value = { SeenSignals };

    ghost view = { λ a. record { first = a.first.items; count = a.count } };
}

impl Signals {
    /// No signal yet.
    pub(crate) fn new() -> Signals
        ensures { result ≡ no_signals }
    {
        Signals {
            first: ArrayVec::new(),
            count: 0,
        }
    }

    /// One signal more.
    pub(crate) fn add(&mut self, signal: Signal)
        requires { self.old.count + 1 < 2 ^ 64 }
        ensures { self.new ≡ with_signal self.old signal }
    {
        if self.first.len() < KEPT {
            self.first.push(signal);
        }
        self.count += 1;
    }

    /// The first 64.
    pub(crate) fn first(&self) -> &[Signal]
        ensures { result.now ≡ self.now.first }
    {
        self.first.as_slice()
    }

    /// The number of all.
    pub(crate) fn count(&self) -> u64
        ensures { result ≡ self.now.count }
    {
        self.count
    }
}
