// The operations on words, carried out.

ghost use Rattle.std.specs.Prelude.{◌≡◌};
ghost use Rattle.infinite_heap.specs.Alu.{alu};
ghost use Rattle.infinite_heap.specs.declared.instr.Operation.TheVariants.{Mulh, Mulhsu, Mulhu, Div, Divu, Rem, Remu};

use crate::instr::Operation;

/// The result of an operation on two words, as the RISC-V Unprivileged ISA manual has it for RV32I and the M
/// extension. Shifts take the low five bits of `y`. Division by zero gives all ones and the dividend as the
/// remainder; -2^31 by -1 gives -2^31 and the remainder 0.
#[inline(always)]
pub fn alu(operation: Operation, x: u32, y: u32) -> u32
    ensures { result ≡ alu operation x y }
{
    match operation {
        Operation::Add => x.wrapping_add(y),
        Operation::Sub => x.wrapping_sub(y),
        Operation::Sll => x.wrapping_shl(y),
        Operation::Slt => (x.cast_signed() < y.cast_signed()) as u32,
        Operation::Sltu => (x < y) as u32,
        Operation::Xor => x ^ y,
        Operation::Srl => x.wrapping_shr(y),
        Operation::Sra => x.cast_signed().wrapping_shr(y).cast_unsigned(),
        Operation::Or => x | y,
        Operation::And => x & y,
        Operation::Mul => x.wrapping_mul(y),
        Operation::Mulh => mulh(x, y),
        Operation::Mulhsu => mulhsu(x, y),
        Operation::Mulhu => mulhu(x, y),
        Operation::Div => div(x, y),
        Operation::Divu => divu(x, y),
        Operation::Rem => rem(x, y),
        Operation::Remu => remu(x, y),
    }
}

#[inline(always)]
fn mulh(x: u32, y: u32) -> u32
    ensures { result ≡ alu Mulh x y }
{
    let product = i64::from(x.cast_signed()) * i64::from(y.cast_signed());
    ((product >> 32) as i32).cast_unsigned()
}

#[inline(always)]
fn mulhsu(x: u32, y: u32) -> u32
    ensures { result ≡ alu Mulhsu x y }
{
    let product = i64::from(x.cast_signed()) * i64::from(y);
    ((product >> 32) as i32).cast_unsigned()
}

#[inline(always)]
fn mulhu(x: u32, y: u32) -> u32
    ensures { result ≡ alu Mulhu x y }
{
    let product = u64::from(x) * u64::from(y);
    (product >> 32) as u32
}

#[inline(always)]
fn div(x: u32, y: u32) -> u32
    ensures { result ≡ alu Div x y }
{
    if y == 0 {
        return u32::MAX;
    }
    x.cast_signed()
        .wrapping_div(y.cast_signed())
        .cast_unsigned()
}

#[inline(always)]
fn divu(x: u32, y: u32) -> u32
    ensures { result ≡ alu Divu x y }
{
    if y == 0 { u32::MAX } else { x / y }
}

#[inline(always)]
fn rem(x: u32, y: u32) -> u32
    ensures { result ≡ alu Rem x y }
{
    if y == 0 {
        return x;
    }
    x.cast_signed()
        .wrapping_rem(y.cast_signed())
        .cast_unsigned()
}

#[inline(always)]
fn remu(x: u32, y: u32) -> u32
    ensures { result ≡ alu Remu x y }
{
    if y == 0 { x } else { x % y }
}

#[cfg(test)]
mod tests;
