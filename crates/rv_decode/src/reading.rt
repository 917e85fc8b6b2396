// From a word to its instruction.
ghost use Rattle.std.specs.Prelude.{◌≡◌, ◌==◌, IfSome, pos, if◌then◌else◌};
ghost use Rattle.infinite_heap.specs.Row as row;
ghost use Rattle.infinite_heap.specs.Row.{row};
ghost use Rattle.infinite_heap.specs.InRange.{IsInRange};
ghost use Rattle.infinite_heap.specs.declared.instr.Instr.TheVariants as instr;

use crate::fields::{funct7, imm_b, imm_i, imm_j, imm_s, rd, rs1, rs2, top};
use infinite_heap::{Instr, Op};

#[inline(always)]
fn branch(op: Op, word: u32) -> Option<Instr>
    ensures { result ≡ Some (instr.Branch op (row.rs1 word) (row.rs2 word) (row.imm_b word)) }
{
    Some(Instr::Branch {
        op,
        rs1: rs1(word),
        rs2: rs2(word),
        imm: imm_b(word),
    })
}

#[inline(always)]
fn load(op: Op, word: u32) -> Option<Instr>
    ensures { result ≡ Some (instr.Load op (row.rd word) (row.rs1 word) (row.imm_i word)) }
{
    Some(Instr::Load {
        op,
        rd: rd(word),
        rs1: rs1(word),
        imm: imm_i(word),
    })
}

#[inline(always)]
fn store(op: Op, word: u32) -> Option<Instr>
    ensures { result ≡ Some (instr.Store op (row.rs1 word) (row.rs2 word) (row.imm_s word)) }
{
    Some(Instr::Store {
        op,
        rs1: rs1(word),
        rs2: rs2(word),
        imm: imm_s(word),
    })
}

#[inline(always)]
fn alu_imm(op: Op, word: u32) -> Option<Instr>
    ensures { result ≡ Some (instr.AluImm op (row.rd word) (row.rs1 word) (row.imm_i word)) }
{
    Some(Instr::AluImm {
        op,
        rd: rd(word),
        rs1: rs1(word),
        imm: imm_i(word),
    })
}

#[inline(always)]
fn shift(op: Op, word: u32) -> Option<Instr>
    ensures { result ≡ Some (instr.AluImm op (row.rd word) (row.rs1 word) (pos (row.rs2 word))) }
{
    Some(Instr::AluImm {
        op,
        rd: rd(word),
        rs1: rs1(word),
        imm: i32::from(rs2(word)),
    })
}

#[inline(always)]
fn alu(op: Op, word: u32) -> Option<Instr>
    ensures { result ≡ Some (instr.Alu op (row.rd word) (row.rs1 word) (row.rs2 word)) }
{
    Some(Instr::Alu {
        op,
        rd: rd(word),
        rs1: rs1(word),
        rs2: rs2(word),
    })
}

// One of two operations on registers, by funct7.
#[inline(always)]
fn plain_or_multiply(plain: Op, multiply: Op, word: u32) -> Option<Instr>
    ensures { result ≡ (if row.funct7 word == 0
        then Some (instr.Alu plain (row.rd word) (row.rs1 word) (row.rs2 word))
        else if row.funct7 word == 1
        then Some (instr.Alu multiply (row.rd word) (row.rs1 word) (row.rs2 word))
        else None) }
{
    match funct7(word) {
        0 => alu(plain, word),
        1 => alu(multiply, word),
        _ => None,
    }
}

/// The instruction that a word is, by the tables of the RISC-V Unprivileged ISA manual for RV32I, M and
/// FENCE.I. The reserved fields of FENCE and FENCE.I are ignored; ECALL and EBREAK are whole words. None
/// for a word that is in no row of these tables.
#[inline(always)]
#[tactic(auto, unfolding(infinite_heap::specs::Row::row))]
pub fn decode(word: u32) -> Option<Instr>
    ensures row { result ≡ row word }
    ensures in_range { IfSome result IsInRange }
{
    if word % 4 != 3 {
        return None;
    }
    match word / 4096 % 8 + word / 4 % 32 * 8 {
        0x68..=0x6f => Some(Instr::Lui {
            rd: rd(word),
            top: top(word),
        }),
        0x28..=0x2f => Some(Instr::Auipc {
            rd: rd(word),
            top: top(word),
        }),
        0xd8..=0xdf => Some(Instr::Jal {
            rd: rd(word),
            imm: imm_j(word),
        }),
        0xc8 => Some(Instr::Jalr {
            rd: rd(word),
            rs1: rs1(word),
            imm: imm_i(word),
        }),
        0xc0 => branch(Op::Beq, word),
        0xc1 => branch(Op::Bne, word),
        0xc4 => branch(Op::Blt, word),
        0xc5 => branch(Op::Bge, word),
        0xc6 => branch(Op::Bltu, word),
        0xc7 => branch(Op::Bgeu, word),
        0x00 => load(Op::Lb, word),
        0x01 => load(Op::Lh, word),
        0x02 => load(Op::Lw, word),
        0x04 => load(Op::Lbu, word),
        0x05 => load(Op::Lhu, word),
        0x40 => store(Op::Sb, word),
        0x41 => store(Op::Sh, word),
        0x42 => store(Op::Sw, word),
        0x20 => alu_imm(Op::Addi, word),
        0x21 => match funct7(word) {
            0 => shift(Op::Slli, word),
            _ => None,
        },
        0x22 => alu_imm(Op::Slti, word),
        0x23 => alu_imm(Op::Sltiu, word),
        0x24 => alu_imm(Op::Xori, word),
        0x25 => match funct7(word) {
            0 => shift(Op::Srli, word),
            0x20 => shift(Op::Srai, word),
            _ => None,
        },
        0x26 => alu_imm(Op::Ori, word),
        0x27 => alu_imm(Op::Andi, word),
        0x60 => match funct7(word) {
            0 => alu(Op::Add, word),
            1 => alu(Op::Mul, word),
            0x20 => alu(Op::Sub, word),
            _ => None,
        },
        0x61 => plain_or_multiply(Op::Sll, Op::Mulh, word),
        0x62 => plain_or_multiply(Op::Slt, Op::Mulhsu, word),
        0x63 => plain_or_multiply(Op::Sltu, Op::Mulhu, word),
        0x64 => plain_or_multiply(Op::Xor, Op::Div, word),
        0x65 => match funct7(word) {
            0 => alu(Op::Srl, word),
            1 => alu(Op::Divu, word),
            0x20 => alu(Op::Sra, word),
            _ => None,
        },
        0x66 => plain_or_multiply(Op::Or, Op::Rem, word),
        0x67 => plain_or_multiply(Op::And, Op::Remu, word),
        0x18 => Some(Instr::System { op: Op::Fence }),
        0x19 => Some(Instr::System { op: Op::FenceI }),
        0xe0 => match word {
            0x0000_0073 => Some(Instr::System { op: Op::Ecall }),
            0x0010_0073 => Some(Instr::System { op: Op::Ebreak }),
            _ => None,
        },
        _ => None,
    }
}
