// The operation on words that an instruction's name stands for.
ghost use Rattle.std.specs.Prelude.{◌≡◌};
ghost use Rattle.infinite_heap.specs.Operations.{operation_of};

use crate::instr::{Op, Operation};

/// The operation of a register or an immediate form, as `Add` for both ADD and ADDI (RISC-V Unprivileged
/// ISA manual, "Integer Computational Instructions"); None for a name that is no operation on two words.
#[inline(always)]
pub fn operation_of(op: Op) -> Option<Operation>
    ensures { result ≡ operation_of op }
{
    match op {
        Op::Addi | Op::Add => Some(Operation::Add),
        Op::Sub => Some(Operation::Sub),
        Op::Slli | Op::Sll => Some(Operation::Sll),
        Op::Slti | Op::Slt => Some(Operation::Slt),
        Op::Sltiu | Op::Sltu => Some(Operation::Sltu),
        Op::Xori | Op::Xor => Some(Operation::Xor),
        Op::Srli | Op::Srl => Some(Operation::Srl),
        Op::Srai | Op::Sra => Some(Operation::Sra),
        Op::Ori | Op::Or => Some(Operation::Or),
        Op::Andi | Op::And => Some(Operation::And),
        Op::Mul => Some(Operation::Mul),
        Op::Mulh => Some(Operation::Mulh),
        Op::Mulhsu => Some(Operation::Mulhsu),
        Op::Mulhu => Some(Operation::Mulhu),
        Op::Div => Some(Operation::Div),
        Op::Divu => Some(Operation::Divu),
        Op::Rem => Some(Operation::Rem),
        Op::Remu => Some(Operation::Remu),
        _ => None,
    }
}
