// Whether a machine still stands for its guest.
ghost use Rattle.std.specs.Prelude.{◌≡◌, true};
ghost use Rattle.exact_heap.specs.Heaps.{HasHome, IsSpent};

use crate::machine::Machine;

impl Machine {
    ghost use Rattle.rv_machine.specs.Guest.{Guest};
    ghost use Rattle.rv_machine.specs.Stands.{AwaitsAt, heap_in, space_in};
    ghost use Rattle.rv_machine.specs.declared.stop.Waiting.{Waiting};

    /// Whether no step wanted memory. Then the guest's memory is as its heap asks.
    pub fn lives(&self) -> bool
        ensures home { result ≡ true → HasHome (heap_in self.now) (space_in self.now) }
        ensures heap { result ≡ true → ¬ (IsSpent (heap_in self.now)) }
        ensures known { (g : Guest) (answer : Waiting) → AwaitsAt g answer self.now → result ≡ true }
    {
        !self.hart.spent && !self.heap.is_spent()
    }
}
