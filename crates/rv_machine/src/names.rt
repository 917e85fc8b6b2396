// The program's heap functions: which one stands at an address, and where none stands.
ghost use Rattle.std.specs.Prelude.{◌≡◌, ◌<◌, ◌≤◌, ◌+◌, ◌^◌, ℕ, None};
ghost use Rattle.infinite_heap.specs.InfiniteHeap.{call_at};

use infinite_heap::{HeapCall, HeapName};

/// A stretch of addresses.
#[derive(Clone, Copy, Debug, PartialEq, Eq, Drop)]
pub struct Quiet {
    pub from: u32,
    pub len: u32,
}

/// The heap function at an address.
pub(crate) fn call_at(names: &[HeapName], addr: u32) -> Option<HeapCall>
    ensures { result ≡ call_at names.now addr }
{
    for name in names {
        if name.at == addr {
            return Some(name.call);
        }
    }
    None
}

/// The stretch round an address in which no heap function stands.
pub(crate) fn quiet_around(names: &[HeapName], addr: u32) -> Quiet
    ensures bounded { result.from + result.len ≤ 2 ^ 32 }
    ensures nameless { (a : ℕ) → result.from ≤ a → a < result.from + result.len → call_at names.now a ≡ None }
{
    let mut low = 0;
    let mut high = u32::MAX;
    for name in names {
        if name.at < addr {
            if low <= name.at {
                low = name.at + 1;
            }
        } else if name.at < high {
            high = name.at;
        }
    }
    Quiet {
        from: low,
        len: high.saturating_sub(low),
    }
}
