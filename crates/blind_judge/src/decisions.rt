// Order and equality of values, where they are decided: docs/infinite-heap.md, "Order" and "Equality".

ghost use Rattle.std.specs.Prelude.{◌≡◌};
ghost use Rattle.std.specs.Option.{option_map};
ghost use Rattle.infinite_heap.specs.Equality.{same, two_pointers, pointer_and_number};
ghost use Rattle.infinite_heap.specs.Objects.{size_in};
ghost use Rattle.infinite_heap.specs.Order.{below, below_signed, near};
ghost use Rattle.infinite_heap.specs.Region.{in_region, region_end};
ghost use Rattle.blind_judge.specs.Decisions.{decision_of};
ghost use Rattle.blind_judge.specs.Objects.{objects_of};

use crate::objects::{Object, size_in};
use infinite_heap::{REGION_FROM, Value};

/// The heap region ends before this address.
pub const REGION_END: u32 = 0x8000_0000;

/// The farthest offset whose place is still above its object's address and in the heap region.
pub const FARTHEST: u32 = 0x20_0000;

/// The pointers that an answer looked at, as objects with offsets.
#[derive(Clone, Copy, Debug, PartialEq, Eq, Drop)]
pub enum Looks {
    Nothing,
    Both {
        object: u64,
        offset: u32,
        other: u64,
        other_offset: u32,
    },
}

/// An answer, with the pointers whose objects have to be in use for it.
#[derive(Clone, Copy, Debug, PartialEq, Eq, Drop)]
pub struct Decision {
    pub answer: bool,
    pub looks: Looks,
}

/// An address of the heap region.
#[inline(always)]
pub fn in_region(n: u32) -> bool
    ensures { result ≡ in_region n }
{
    REGION_FROM <= n && n < REGION_END
}

#[inline(always)]
fn near(d: u32) -> bool
    ensures { result ≡ near d }
{
    d <= FARTHEST
}

/// Whether x is below y as unsigned words, where that is decided.
pub fn below(x: Value, y: Value) -> Option<bool>
    ensures { result ≡ below x y }
{
    match (x, y) {
        (Value::Num(m), Value::Num(n)) => Some(m < n),
        (
            Value::Ptr {
                object: o,
                offset: d,
            },
            Value::Ptr {
                object: p,
                offset: e,
            },
        ) => {
            if o == p && near(d) && near(e) {
                Some(d < e)
            } else {
                None
            }
        }
        (Value::Ptr { offset: d, .. }, Value::Num(n)) => {
            if near(d) && !in_region(n) {
                Some(REGION_END <= n)
            } else {
                None
            }
        }
        (Value::Num(n), Value::Ptr { offset: d, .. }) => {
            if near(d) && !in_region(n) {
                Some(n < REGION_FROM)
            } else {
                None
            }
        }
        _ => None,
    }
}

/// Whether x is below y as signed words, where that is decided.
pub fn below_signed(x: Value, y: Value) -> Option<bool>
    ensures { result ≡ below_signed x y }
{
    match (x, y) {
        (Value::Num(m), Value::Num(n)) => Some(m.cast_signed() < n.cast_signed()),
        (
            Value::Ptr {
                object: o,
                offset: d,
            },
            Value::Ptr {
                object: p,
                offset: e,
            },
        ) => {
            if o == p && near(d) && near(e) {
                Some(d < e)
            } else {
                None
            }
        }
        (Value::Ptr { offset: d, .. }, Value::Num(n)) => {
            if near(d) && !in_region(n) {
                Some(false)
            } else {
                None
            }
        }
        (Value::Num(n), Value::Ptr { offset: d, .. }) => {
            if near(d) && !in_region(n) {
                Some(true)
            } else {
                None
            }
        }
        _ => None,
    }
}

/// Whether x and y are equal, where that is decided.
pub fn same(objects: &[Object], x: Value, y: Value) -> Option<Decision>
    ensures { option_map decision_of result ≡ same (size_in (objects_of objects.now)) x y }
{
    match (x, y) {
        (Value::Num(m), Value::Num(n)) => Some(Decision {
            answer: m == n,
            looks: Looks::Nothing,
        }),
        (Value::Ptr { offset: d, .. }, Value::Num(n)) => pointer_and_number(d, n),
        (Value::Num(n), Value::Ptr { offset: d, .. }) => pointer_and_number(d, n),
        (
            Value::Ptr {
                object: o,
                offset: d,
            },
            Value::Ptr {
                object: p,
                offset: e,
            },
        ) => { two_pointers(objects, o, d, p, e) }
        _ => None,
    }
}

fn pointer_and_number(d: u32, n: u32) -> Option<Decision>
    ensures { option_map decision_of result ≡ pointer_and_number d n }
{
    if near(d) && !in_region(n) {
        return Some(Decision {
            answer: false,
            looks: Looks::Nothing,
        });
    }
    None
}

fn two_pointers(objects: &[Object], o: u64, d: u32, p: u64, e: u32) -> Option<Decision>
    ensures { option_map decision_of result ≡ two_pointers (size_in (objects_of objects.now)) o d p e }
{
    if o == p {
        return Some(Decision {
            answer: d == e,
            looks: Looks::Nothing,
        });
    }
    if d < size_in(objects, o).max(1) && e < size_in(objects, p).max(1) {
        let looks = Looks::Both {
            object: o,
            offset: d,
            other: p,
            other_offset: e,
        };
        return Some(Decision {
            answer: false,
            looks,
        });
    }
    None
}
