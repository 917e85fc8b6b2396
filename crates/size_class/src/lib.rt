//! The size classes of the guest's heap, and how large its miniheaps are. A slot of class c has
//! 2^c bytes. No call takes memory.
#![tactic(auto)]

ghost use Rattle.std.specs.Prelude.{ℕ, ◌≡◌, ◌<◌, ◌≤◌, ◌^◌, ◌↔◌, IsNone, IfSome};
ghost use Rattle.size_class.specs.Classes.{class_of, IsLeastClass, first_slots, nth_bytes};

/// The least class: a slot has 16 bytes.
pub const LEAST: u8 = 4;

/// The greatest class: a slot has 4 MiB.
pub const GREATEST: u8 = 22;

/// The class of an allocation that needs `need` bytes, its pad included: the least whose slots
/// hold them. A need of 0 is one of 1. There is none exactly above 2^22 bytes.
pub fn class_of(need: u32) -> Option<u8>
    ensures none { IsNone result ↔ (2 ^ 22 < need) }
    ensures value { IfSome result (λ c. c ≡ class_of need) }
    ensures least { IfSome result (IsLeastClass need) }
    ensures in_classes { IfSome result (λ c. c ≤ 22) }
{
    if need > 1 << GREATEST {
        return None;
    }
    Some(bits_of(need.max(1 << LEAST) - 1))
}

// The number of binary digits.
fn bits_of(n: u32) -> u8
    requires positive { 0 < n }
    requires bounded { n < 2 ^ 22 }
    ensures above { n < 2 ^ result }
    ensures below { (d : ℕ) → n < 2 ^ d → result ≤ d }
{
    (32 - n.leading_zeros()) as u8
}

/// The number of slots of a class's first miniheap: 64 KiB of them, and at least 4.
pub fn first_slots(class: u8) -> u32
    requires low { 4 ≤ class }
    requires high { class ≤ 22 }
    ensures { result ≡ first_slots class }
{
    if class < 14 { 1 << (16 - class) } else { 4 }
}

/// The bytes of a class's miniheap that comes after `nth` others of the class, so that the first
/// has the number 0. There are none exactly where they would be above 2^31.
pub fn miniheap_bytes(class: u8, nth: u8) -> Option<u32>
    requires low { 4 ≤ class }
    requires high { class ≤ 22 }
    requires nth_high { nth ≤ 31 }
    ensures none { IsNone result ↔ (2 ^ 31 < nth_bytes class nth) }
    ensures value { IfSome result (λ n. n ≡ nth_bytes class nth) }
{
    let bytes = (first_slots(class) as u64) << class << nth;
    if bytes > 1 << 31 {
        None
    } else {
        Some(bytes as u32)
    }
}

ghost use Rattle.size_class.specs.Laws.{ClassesAreLeast, LeastClassesAreOne, SlotsDivide, SlotsRise, FirstSlotsBelow, FirstSlotsAbove, FirstBytesFit};

/// The class of a need in range is a class, its slots hold the need, and it is at most each class whose slots
/// do. The body is empty: a caller has the clauses.
pub fn classes_are_least()
    ensures least { ClassesAreLeast }
    ensures one { LeastClassesAreOne }
{}

/// Slot sizes are powers of two, so the smaller of two divides the other. The body is empty: a caller has the
/// clauses.
pub fn slots_are_powers()
    ensures divide { SlotsDivide }
    ensures rise { SlotsRise }
    ensures first_below { FirstSlotsBelow }
    ensures first_above { FirstSlotsAbove }
    ensures first_bytes { FirstBytesFit }
{}

#[cfg(test)]
mod tests {
    use super::*;

    #[test]
    fn finds_the_least_class_that_holds_a_need(rt: HostRuntime) {
        for (need, class) in [
            (0, Some(4)),
            (16, Some(4)),
            (17, Some(5)),
            (4096, Some(12)),
            (4097, Some(13)),
            (1 << 21, Some(21)),
            ((1 << 21) + 1, Some(22)),
            (1 << 22, Some(22)),
            ((1 << 22) + 1, None),
            (u32::MAX, None),
        ] {
            assert_eq!(rt; class_of(need), class, "for {need} bytes");
        }
    }

    #[test]
    fn sizes_miniheaps_by_class_and_number(rt: HostRuntime) {
        assert_eq!(rt; first_slots(4), 4096);
        assert_eq!(rt; first_slots(13), 8);
        assert_eq!(rt; first_slots(16), 4);
        assert_eq!(rt; first_slots(22), 4);
        assert_eq!(rt; miniheap_bytes(4, 0), Some(65_536));
        assert_eq!(rt; miniheap_bytes(4, 15), Some(1 << 31));
        assert_eq!(rt; miniheap_bytes(4, 16), None);
        assert_eq!(rt; miniheap_bytes(21, 7), Some(1_073_741_824));
        assert_eq!(rt; miniheap_bytes(22, 6), Some(1_073_741_824));
        assert_eq!(rt; miniheap_bytes(22, 7), Some(1 << 31));
        assert_eq!(rt; miniheap_bytes(22, 31), None);
    }
}
