// The seats of a new group.
ghost use Rattle.std.specs.Prelude.{◌≡◌, ◌≤◌, IfOk, Ok, length, map, string_bytes};
ghost use Rattle.std.specs.List.{AllByRecursion, range_with_len};
ghost use Rattle.infinite_heap.specs.Elf.{program_of};
ghost use Rattle.infinite_heap.specs.Loaded.{Loaded};
ghost use Rattle.infinite_heap.specs.Start.{IsWithin};
ghost use Rattle.layout_run.specs.Whole.{most_steps};
ghost use Rattle.replicate.specs.GroupStands.{HaveTag};
ghost use Rattle.replicate.specs.Rounds.{replica_at, seed_behind};
ghost use Rattle.replicate.specs.Runs.{HasReadNothing};
ghost use Rattle.rv_machine.specs.Stands.{tag_in};
ghost use Rattle.replicate.specs.Seats.{IsSeat};
ghost use Rattle.replicate.specs.Standings.{SeatsAre};

use crate::seat::Seat;
use rv_machine::Settings;
use std::alloc::{AllocError, Global};

// The settings with the i-th seed behind theirs.
fn reseeded(settings: &Settings, i: u8) -> Result<Settings, AllocError>
    ensures { IfOk result (λ copy. copy ≡ record settings.now { seed = seed_behind settings.now.seed i }) }
{
    Ok(Settings {
        seed: settings.seed.wrapping_add(u64::from(i)),
        zero: settings.zero,
        patches: settings.patches.copy()?,
    })
}

// Replica `i` before its first step.
fn seat_at(
    alloc: Global,
    file: &[u8],
    args: &[String],
    settings: &Settings,
    budget: u64,
    i: u8,
) -> Result<Seat, AllocError>
    requires args { IsWithin (map string_bytes args.now) }
    requires budget { budget ≤ most_steps }
    ensures starts { (program : Loaded) → program_of file.now ≡ Ok program → IfOk result (λ seat. IsSeat (replica_at program (map string_bytes args.now) settings.now i) seat) }
    ensures tag { (program : Loaded) → program_of file.now ≡ Ok program → IfOk result (λ seat. tag_in seat.machine ≡ program.tag) }
    ensures budget { IfOk result (λ seat. seat.budget ≡ budget) }
    ensures place { IfOk result (λ seat. seat.place ≡ 0) }
{
    let settings = reseeded(settings, i)?;
    Seat::start(alloc, file, args, settings, budget)
}

/// So many replicas before their first step, numbered from 0.
pub(crate) fn seats_of(
    alloc: Global,
    file: &[u8],
    args: &[String],
    settings: &Settings,
    budget: u64,
    count: u8,
) -> Result<Vec<Seat>, AllocError>
    requires args { IsWithin (map string_bytes args.now) }
    requires budget { budget ≤ most_steps }
    ensures are { (program : Loaded) → program_of file.now ≡ Ok program → IfOk result (λ seats. SeatsAre budget (map (replica_at program (map string_bytes args.now) settings.now) (range_with_len 0 count)) seats.items) }
    ensures tags { (program : Loaded) → program_of file.now ≡ Ok program → IfOk result (λ seats. HaveTag program.tag seats.items) }
    ensures unread { IfOk result (λ seats. AllByRecursion HasReadNothing seats.items) }
    ensures count { IfOk result (λ seats. length seats.items ≡ count) }
{
    let mut seats = Vec::new(alloc);
    for i in 0..count {
        let seat = seat_at(alloc, file, args, settings, budget, i)?;
        seats.push(seat)?;
    }
    Ok(seats)
}
