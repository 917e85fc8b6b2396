// What an instruction changes of the heap region.
ghost use Rattle.rv_machine.specs.Stored.{StoresAreRecorded};

use crate::law::laws_below;

/// From matching states, an instruction changes no byte of the heap region but where the infinite-heap machine records a
/// store, unless it blurs.
pub fn stores_are_recorded()
    ensures { StoresAreRecorded }
{
    laws_below();
}
