// Operations on values, by the rows of the table in docs/infinite-heap.md, "Operations". Entry point: `lift`.

ghost use Rattle.std.specs.Prelude.{◌≡◌};
ghost use Rattle.infinite_heap.specs.Lift.{distance, is_idle_left, is_idle_right, kept_left, kept_operand, kept_right, lift, low_parts_by, low_result, moved_pointer, number_result, order_result};
ghost use Rattle.infinite_heap.specs.Objects.{alignment_in};
ghost use Rattle.blind_judge.specs.Objects.{objects_of};

use crate::combining::combined_cells;
use crate::decisions::{below, below_signed};
use crate::masking::{changed_low_bits, masked_low_part};
use crate::objects::Object;
use crate::shifting::{low_part_at_top, shifted_cells};
use crate::words::low_part;
use infinite_heap::{Cell, Operation, Value, alu};

/// The result of an operation on two values, a number wherever both are numbers.
#[inline(always)]
#[tactic(auto, unfolding(infinite_heap::specs::Lift::lift))]
pub fn lift(objects: &[Object], op: Operation, x: Value, y: Value) -> Value
    ensures { result ≡ lift (alignment_in (objects_of objects.now)) op x y }
{
    match number_result(op, x, y) {
        Some(v) => v,
        None => lift_in_general(objects, op, x, y),
    }
}

#[inline(never)]
#[tactic(auto, unfolding(infinite_heap::specs::Lift::lift))]
fn lift_in_general(objects: &[Object], op: Operation, x: Value, y: Value) -> Value
    ensures { result ≡ lift (alignment_in (objects_of objects.now)) op x y }
{
    if let Some(v) = number_result(op, x, y) {
        return v;
    }
    if let Some(v) = kept_operand(op, x, y) {
        return v;
    }
    if let Some(v) = moved_pointer(op, x, y) {
        return v;
    }
    if let Some(v) = distance(op, x, y) {
        return v;
    }
    if let Some(v) = masked_low_part(objects, op, x, y) {
        return v;
    }
    if let Some(v) = changed_low_bits(objects, op, x, y) {
        return v;
    }
    if let Some(v) = low_part_at_top(op, x, y) {
        return v;
    }
    if let Some(v) = combined_cells(op, x, y) {
        return v;
    }
    if let Some(v) = shifted_cells(op, x, y) {
        return v;
    }
    if let Some(v) = order_result(op, x, y) {
        return v;
    }
    match low_result(op, x, y) {
        Some(v) => v,
        None => Value::Mix {
            c0: Cell::Unset,
            c1: Cell::Unset,
            c2: Cell::Unset,
            c3: Cell::Unset,
        },
    }
}

#[inline(always)]
fn number_result(op: Operation, x: Value, y: Value) -> Option<Value>
    ensures { result ≡ number_result op x y }
{
    match (x, y) {
        (Value::Num(x), Value::Num(y)) => Some(Value::Num(alu(op, x, y))),
        _ => None,
    }
}

fn kept_operand(op: Operation, x: Value, y: Value) -> Option<Value>
    ensures { result ≡ kept_operand op x y }
{
    match kept_left(op, x, y) {
        Some(v) => Some(v),
        None => kept_right(op, x, y),
    }
}

fn kept_left(op: Operation, x: Value, y: Value) -> Option<Value>
    ensures { result ≡ kept_left op x y }
{
    match y {
        Value::Num(n) => { if is_idle_right(op, n) { Some(x) } else { None } }
        _ => None,
    }
}

fn kept_right(op: Operation, x: Value, y: Value) -> Option<Value>
    ensures { result ≡ kept_right op x y }
{
    match x {
        Value::Num(n) => { if is_idle_left(op, n) { Some(y) } else { None } }
        _ => None,
    }
}

fn is_idle_right(op: Operation, n: u32) -> bool
    ensures { result ≡ is_idle_right op n }
{
    match op {
        Operation::Add | Operation::Sub | Operation::Or | Operation::Xor => n == 0,
        Operation::Sll | Operation::Srl | Operation::Sra => n % 32 == 0,
        _ => false,
    }
}

fn is_idle_left(op: Operation, n: u32) -> bool
    ensures { result ≡ is_idle_left op n }
{
    match op {
        Operation::Add | Operation::Or | Operation::Xor => n == 0,
        _ => false,
    }
}

fn moved_pointer(op: Operation, x: Value, y: Value) -> Option<Value>
    ensures { result ≡ moved_pointer op x y }
{
    match (op, x, y) {
        (Operation::Add, Value::Ptr { object, offset }, Value::Num(n)) => {
            Some(Value::Ptr {
                object,
                offset: alu(Operation::Add, offset, n),
            })
        }
        (Operation::Add, Value::Num(n), Value::Ptr { object, offset }) => {
            Some(Value::Ptr {
                object,
                offset: alu(Operation::Add, offset, n),
            })
        }
        (Operation::Sub, Value::Ptr { object, offset }, Value::Num(n)) => {
            Some(Value::Ptr {
                object,
                offset: alu(Operation::Sub, offset, n),
            })
        }
        _ => None,
    }
}

fn distance(op: Operation, x: Value, y: Value) -> Option<Value>
    ensures { result ≡ distance op x y }
{
    match (op, x, y) {
        (
            Operation::Sub,
            Value::Ptr { object, offset },
            Value::Ptr {
                object: other,
                offset: end,
            },
        ) => {
            if object == other {
                return Some(Value::Num(alu(Operation::Sub, offset, end)));
            }
            None
        }
        _ => None,
    }
}

fn order_result(op: Operation, x: Value, y: Value) -> Option<Value>
    ensures { result ≡ order_result op x y }
{
    let decided = match op {
        Operation::Slt => below_signed(x, y),
        Operation::Sltu => below(x, y),
        _ => None,
    };
    match decided {
        Some(b) => Some(Value::Num(u32::from(b))),
        None => None,
    }
}

fn low_result(op: Operation, x: Value, y: Value) -> Option<Value>
    ensures { result ≡ low_result op x y }
{
    match op {
        Operation::Add | Operation::Sub | Operation::And | Operation::Or | Operation::Xor => {
            low_parts_by(op, low_part(x), low_part(y))
        }
        _ => None,
    }
}

fn low_parts_by(op: Operation, x: Option<u8>, y: Option<u8>) -> Option<Value>
    ensures { result ≡ low_parts_by op x y }
{
    match (x, y) {
        (Some(b), Some(c)) => { Some(Value::Low((alu(op, u32::from(b), u32::from(c)) % 16) as u8)) }
        _ => None,
    }
}
