// A replica at its start.
ghost use Rattle.std.specs.Prelude.{◌≡◌, ◌≤◌, IfOk, Ok, true, false, map, string_bytes};
ghost use Rattle.infinite_heap.specs.Elf.{program_of};
ghost use Rattle.infinite_heap.specs.Loaded.{Loaded};
ghost use Rattle.infinite_heap.specs.Start.{IsWithin};
ghost use Rattle.layout_run.specs.Whole.{most_steps};
ghost use Rattle.rv_machine.specs.Flat.{flat_start};
ghost use Rattle.rv_machine.specs.Guest.{guest_start};
ghost use Rattle.rv_machine.specs.Stands.{IsAt, core_of, tag_in};
ghost use Rattle.layout_run.specs.Advances.{IsGoing};

use crate::seat::Seat;
use crate::seat_gate::mark_at;
use elf_load::load;
use layout_run::Progress;
use rv_machine::{Machine, Settings};
use std::alloc::{AllocError, Global};

// A machine before its first step, with the program of an ELF file.
fn machine_of(
    alloc: Global,
    file: &[u8],
    args: &[String],
    settings: Settings,
) -> Result<Machine, AllocError>
    requires { IsWithin (map string_bytes args.now) }
    ensures stands { (program : Loaded) → program_of file.now ≡ Ok program → IfOk result (IsAt (guest_start program (map string_bytes args.now) settings)) }
    ensures tag { (program : Loaded) → program_of file.now ≡ Ok program → IfOk result (λ machine. tag_in machine ≡ program.tag) }
    ensures going { IfOk result IsGoing }
    ensures steps { IfOk result (λ machine. (core_of machine).steps ≡ 0) }
{
    let Ok(program) = load(alloc, file) else {
        return Err(AllocError);
    };
    Machine::start(alloc, program, args, settings)
}

impl Seat {
    ghost use Rattle.replicate.specs.Replicas.{mark_of};
    ghost use Rattle.replicate.specs.Seats.{IsSeat};

    /// A replica before its first step, with the program of an ELF file. `file` is one that `load` accepts.
    pub(crate) fn start(
        alloc: Global,
        file: &[u8],
        args: &[String],
        settings: Settings,
        budget: u64,
    ) -> Result<Seat, AllocError>
        requires args { IsWithin (map string_bytes args.now) }
        requires budget { budget ≤ most_steps }
        ensures starts { (program : Loaded) → program_of file.now ≡ Ok program → IfOk result (IsSeat (record {
          flat = flat_start program (map string_bytes args.now) settings;
          waits = false;
          live = true;
          mark = mark_of (flat_start program (map string_bytes args.now) settings);
        })) }
        ensures tag { (program : Loaded) → program_of file.now ≡ Ok program → IfOk result (λ seat. tag_in seat.machine ≡ program.tag) }
        ensures budget { IfOk result (λ seat. seat.budget ≡ budget) }
        ensures place { IfOk result (λ seat. seat.place ≡ 0) }
    {
        let machine = machine_of(alloc, file, args, settings)?;
        let mark = mark_at(&machine);
        Ok(Seat {
            machine,
            place: 0,
            state: Some(Progress::Going),
            live: true,
            mark,
            budget,
        })
    }
}
