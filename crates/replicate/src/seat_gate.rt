// What a gate does with a replica.
ghost use Rattle.std.specs.Prelude.{◌≡◌, List, ℕ, Some, IfOk, OnOk, IsSome, false};
ghost use Rattle.layout_run.specs.Whole.{ended_as};
ghost use Rattle.patch_table.specs.Table.{IsBelow};
ghost use Rattle.rv_machine.specs.declared.ended.Ended.{Ended};
ghost use Rattle.rv_machine.specs.Flat.{Flat};
ghost use Rattle.rv_machine.specs.Stands.{IsAt, core_of};
ghost use Rattle.rv_memory.specs.Memory.{span};
ghost use Rattle.replicate.specs.Replicas.{end_of, mark_of};

use crate::arrival::Arrival;
use crate::seat::{Mark, Seat};
use exact_heap::Place;
use heap_image::Image;
use infinite_heap::Bytes;
use layout_run::{Ending, Progress};
use patch_table::{Patches, below_is_an_order, join_is_the_least_above};
use rv_machine::{Machine, steps_are_shaped};
use std::alloc::{AllocError, Global};

// The bytes of a span, to be printed.
fn write_of(
    alloc: Global,
    machine: &Machine,
    fd: u32,
    addr: u32,
    len: u32,
) -> Result<Arrival, AllocError>
    requires { IsSome (span (core_of machine.now).memory.bytes addr len) }
    ensures { IfOk result (λ arrival. (bytes : List ℕ) → span (core_of machine.now).memory.bytes addr len ≡ Some bytes → arrival ≡ Arrival.Write fd bytes) }
{
    let bytes = machine.bytes_of(alloc, addr, len)?;
    Ok(Arrival::Write {
        fd,
        bytes: Bytes::new(bytes),
    })
}

// What a replica has come to that has ended so.
fn arrival_of(ending: Ending) -> Option<Arrival>
    ensures { (ended : Ended) → ending ≡ ended_as (Some ended) → result ≡ Some (end_of ended) }
{
    match ending {
        Ending::Exit { code } => Some(Arrival::Exit { code }),
        Ending::Fault { kind, pc, addr: _ } => Some(Arrival::Fault { kind, pc }),
        Ending::Room { used, wanted } => Some(Arrival::Room { used, wanted }),
        _ => None,
    }
}

// How far a machine is.
pub(crate) fn mark_at(machine: &Machine) -> Mark
    ensures { (flat : Flat) → IsAt flat.guest machine.now → result ≡ mark_of flat }
{
    let heap = machine.heap();
    Mark {
        steps: machine.steps(),
        clock: heap.clock(),
        signals: heap.signal_count(),
    }
}

// The join of a table with another, which is that one where none of its entries is below the first table's.
fn raised(own: &Patches, table: &Patches) -> Result<Patches, AllocError>
    ensures below { IfOk result (IsBelow own.now) }
    ensures table { IsBelow own.now table.now → IfOk result (λ patches. patches ≡ table.now) }
{
    below_is_an_order();
    join_is_the_least_above();
    table.keep_limits();
    let mut patches = own.copy()?;
    patches.join(table)?;
    patches.keep_limits();
    Ok(patches)
}

impl Seat {
    ghost use Rattle.rv_machine.specs.Flat.{with_guest};
    ghost use Rattle.rv_machine.specs.Guest.{with_patches};
    ghost use Rattle.rv_machine.specs.Stands.{tag_in};
    ghost use Rattle.replicate.specs.Gates.{has_signalled, image_of, written};
    ghost use Rattle.replicate.specs.Replicas.{Replica, at_end};
    ghost use Rattle.replicate.specs.Seats.{IsSameSeat, IsSeat};
    ghost use Rattle.replicate.specs.Votes.{vote_of};

    // Its end, where it waits for no write and no gate was due.
    fn at_end(&self) -> Option<Arrival>
        ensures { (r : Replica) → IsSeat r self.now → r.waits ≡ false → result ≡ at_end self.now.budget r.flat r.flat.guest.core.ended }
    {
        match self.state {
            Some(Progress::Ended(ending)) => arrival_of(ending),
            _ => {
                if self.machine.steps() >= self.budget {
                    Some(Arrival::Budget)
                } else {
                    None
                }
            }
        }
    }

    /// What it has come to, if it has and it is live. The bytes of a write are copied.
    pub(crate) fn vote(&self, alloc: Global) -> Result<Option<Arrival>, AllocError>
        ensures { (r : Replica) → IsSeat r self.now → IfOk result (λ vote. vote ≡ vote_of self.now.budget r) }
    {
        steps_are_shaped();
        if !self.live {
            return Ok(None);
        }
        if let Some(Progress::Prints { fd, addr, len }) = self.state {
            return Ok(Some(write_of(alloc, &self.machine, fd, addr, len)?));
        }
        if self.is_due() {
            return Ok(Some(Arrival::Clock));
        }
        Ok(self.at_end())
    }

    /// Whether canaries were seen broken since the last open gate.
    pub(crate) fn has_signalled(&self) -> bool
        ensures { (r : Replica) → IsSeat r self.now → result ≡ has_signalled r }
    {
        self.mark.signals < self.machine.heap().signal_count()
    }

    /// The image of its heap after the calls that it has made.
    pub(crate) fn image(&self, alloc: Global) -> Result<Image, AllocError>
        ensures { (r : Replica) → IsSeat r self.now → IfOk result (λ image. image ≡ image_of (tag_in self.now.machine) r) }
    {
        match self.machine.heap().calls() {
            // no replica makes so many heap calls
            u64::MAX => Err(AllocError),
            calls => Image::take(alloc, &self.machine, Place::Call(calls)),
        }
    }

    // Makes the write that it waits for.
    fn finish(&mut self)
        ensures written { (r : Replica) → IsSeat r self.old → IsSeat (record r { flat = written r; waits = false }) self.new }
        ensures same { IsSameSeat self.old self.new }
    {
        steps_are_shaped();
        if let Some(
            Progress::Prints {
                fd: _,
                addr: _,
                len: _,
            },
        ) = self.state
        {
            self.machine.wrote();
            self.state = Some(Progress::Going);
        }
    }

    /// Goes on behind the gate: the write that it waits for is made, and its way to the next gate is counted from here.
    pub(crate) fn pass(&mut self)
        ensures passed { (r : Replica) → IsSeat r self.old → IsSeat (record { flat = written r; waits = false; live = r.live; mark = mark_of (written r) }) self.new }
        ensures same { IsSameSeat self.old self.new }
    {
        self.finish();
        self.mark = mark_at(&self.machine);
    }

    /// Goes by this table from now on, none of whose entries is below its own.
    pub(crate) fn adopt(&mut self, table: &Patches) -> Result<(), AllocError>
        ensures adopts { (r : Replica) → IsSeat r self.old → IsBelow r.flat.guest.rules.patches table.now → OnOk result (IsSeat (record r { flat = with_guest r.flat (with_patches r.flat.guest table.now) }) self.new) }
        ensures same { IsSameSeat self.old self.new }
    {
        let patches = raised(self.machine.heap().patches(), table)?;
        self.machine.set_patches(patches);
        Ok(())
    }

    /// It votes no more.
    pub(crate) fn retire(&mut self)
        ensures retired { (r : Replica) → IsSeat r self.old → IsSeat (record r { live = false }) self.new }
        ensures same { IsSameSeat self.old self.new }
    {
        self.live = false;
    }
}
