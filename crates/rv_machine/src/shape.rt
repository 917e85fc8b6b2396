// What holds of each step.
ghost use Rattle.rv_machine.specs.Core.{Core};
ghost use Rattle.rv_machine.specs.Guest.{Guest};
ghost use Rattle.rv_machine.specs.HeapCalls.{guest_next};
ghost use Rattle.rv_machine.specs.Shape.{IsShaped, IsGuestShaped};
ghost use Rattle.rv_machine.specs.Steps.{next};

/// A step that goes on or prints doesn't end the guest, and one that exits does; a read or a write has its
/// place in a1 and its length in a2, and a write prints one byte at least. A guest with its heap reads and
/// prints as its core does, and each step leaves its heap functions and its patches.
pub fn steps_are_shaped()
    ensures core { (core : Core) → IsShaped core (next core) }
    ensures guest { (g : Guest) → IsGuestShaped g (guest_next g) }
{}
