// What masks make of low bits that are known: of any value's low four, and of those of a pointer below its
// object's alignment.

ghost use Rattle.std.specs.Prelude.{◌≡◌};
ghost use Rattle.infinite_heap.specs.Lift.{changed_by, changed_low_bits, masked_by, masked_low_part, masked_pointer, masked_value};
ghost use Rattle.infinite_heap.specs.Objects.{alignment_in};
ghost use Rattle.blind_judge.specs.Objects.{objects_of};

use crate::objects::{Object, alignment_in};
use crate::words::low_part;
use infinite_heap::{Operation, Value};

/// And with a mask of low bits that are known, on either side.
pub fn masked_low_part(objects: &[Object], op: Operation, x: Value, y: Value) -> Option<Value>
    ensures { result ≡ masked_low_part (alignment_in (objects_of objects.now)) op x y }
{
    match op {
        Operation::And => match masked_by(objects, x, y) {
            Some(v) => Some(v),
            None => masked_by(objects, y, x),
        },
        _ => None,
    }
}

fn masked_by(objects: &[Object], x: Value, y: Value) -> Option<Value>
    ensures { result ≡ masked_by (alignment_in (objects_of objects.now)) x y }
{
    match masked_value(x, y) {
        Some(v) => Some(v),
        None => masked_pointer(objects, x, y),
    }
}

fn masked_value(x: Value, y: Value) -> Option<Value>
    ensures { result ≡ masked_value x y }
{
    match x {
        Value::Num(n) => {
            if n >= 16 {
                return None;
            }
            match low_part(y) {
                Some(b) => Some(Value::Num(u32::from(b) & n)),
                None => None,
            }
        }
        _ => None,
    }
}

fn masked_pointer(objects: &[Object], x: Value, y: Value) -> Option<Value>
    ensures { result ≡ masked_pointer (alignment_in (objects_of objects.now)) x y }
{
    match (x, y) {
        (Value::Num(n), Value::Ptr { object, offset }) => {
            if n < alignment_in(objects, object) {
                return Some(Value::Num(offset & n));
            }
            None
        }
        _ => None,
    }
}

/// And, or, xor of a pointer and a number that changes only bits below the object's alignment.
pub fn changed_low_bits(objects: &[Object], op: Operation, x: Value, y: Value) -> Option<Value>
    ensures { result ≡ changed_low_bits (alignment_in (objects_of objects.now)) op x y }
{
    match (x, y) {
        (Value::Ptr { object, offset }, Value::Num(n)) => changed_by(
            objects, op, object, offset, n,
        ),
        (Value::Num(n), Value::Ptr { object, offset }) => changed_by(
            objects, op, object, offset, n,
        ),
        _ => None,
    }
}

fn changed_by(objects: &[Object], op: Operation, object: u64, offset: u32, n: u32) -> Option<Value>
    ensures { result ≡ changed_by (alignment_in (objects_of objects.now)) op object offset n }
{
    let alignment = alignment_in(objects, object);
    match op {
        Operation::And => {
            if u64::from(n) + u64::from(alignment) >= 0x1_0000_0000 {
                return Some(Value::Ptr {
                    object,
                    offset: offset & n,
                });
            }
            None
        }
        Operation::Or => {
            if n < alignment {
                return Some(Value::Ptr {
                    object,
                    offset: offset | n,
                });
            }
            None
        }
        Operation::Xor => {
            if n < alignment {
                return Some(Value::Ptr {
                    object,
                    offset: offset ^ n,
                });
            }
            None
        }
        _ => None,
    }
}
