// An instruction in the form in which it is carried out.
ghost use Rattle.std.specs.Prelude.{◌≡◌};
ghost use Rattle.infinite_heap.specs.InRange.{IsInRange};
ghost use Rattle.rv_machine.specs.Fields.{fields_of};

use infinite_heap::{Instr, Op};

/// The name of an instruction, its registers, and its immediate as a word; 0 stands for what it has none of.
#[derive(Clone, Copy, Debug, PartialEq, Eq, Drop)]
pub struct Fields {
    pub op: Op,
    pub rd: u8,
    pub rs1: u8,
    pub rs2: u8,
    pub imm: u32,
}

impl Fields {
    fn new(op: Op, rd: u8, rs1: u8, rs2: u8, imm: u32) -> Fields
        ensures { result ≡ record { op = op; rd = rd; rs1 = rs1; rs2 = rs2; imm = imm } }
    {
        Fields {
            op,
            rd,
            rs1,
            rs2,
            imm,
        }
    }
}

/// The fields of an instruction.
pub(crate) fn fields_of(instr: Instr) -> Fields
    requires { IsInRange instr }
    ensures { result ≡ fields_of instr }
{
    match instr {
        Instr::Alu { op, rd, rs1, rs2 } => Fields::new(op, rd, rs1, rs2, 0),
        Instr::AluImm { op, rd, rs1, imm } => Fields::new(op, rd, rs1, 0, imm.cast_unsigned()),
        Instr::Lui { rd, top } => Fields::new(Op::Lui, rd, 0, 0, top << 12),
        Instr::Auipc { rd, top } => Fields::new(Op::Auipc, rd, 0, 0, top << 12),
        Instr::Jal { rd, imm } => Fields::new(Op::Jal, rd, 0, 0, imm.cast_unsigned()),
        Instr::Jalr { rd, rs1, imm } => Fields::new(Op::Jalr, rd, rs1, 0, imm.cast_unsigned()),
        Instr::Branch { op, rs1, rs2, imm } => Fields::new(op, 0, rs1, rs2, imm.cast_unsigned()),
        Instr::Load { op, rd, rs1, imm } => Fields::new(op, rd, rs1, 0, imm.cast_unsigned()),
        Instr::Store { op, rs1, rs2, imm } => Fields::new(op, 0, rs1, rs2, imm.cast_unsigned()),
        Instr::System { op } => Fields::new(op, 0, 0, 0, 0),
    }
}
