// From an instruction to its text.
ghost use Rattle.std.specs.Prelude.{◌≡◌, IfOk, string_bytes};
ghost use Rattle.rv_decode.specs.Text.{name_of, target, text_of};
ghost use Rattle.infinite_heap.specs.InRange.{IsInRange};

use infinite_heap::{Instr, Op};
use std::alloc::{AllocError, Global};

fn name_of(op: Op) -> &'static str
    ensures { result.now ≡ name_of op }
{
    match op {
        Op::Lui => "lui",
        Op::Auipc => "auipc",
        Op::Jal => "jal",
        Op::Jalr => "jalr",
        Op::Beq => "beq",
        Op::Bne => "bne",
        Op::Blt => "blt",
        Op::Bge => "bge",
        Op::Bltu => "bltu",
        Op::Bgeu => "bgeu",
        Op::Lb => "lb",
        Op::Lh => "lh",
        Op::Lw => "lw",
        Op::Lbu => "lbu",
        Op::Lhu => "lhu",
        Op::Sb => "sb",
        Op::Sh => "sh",
        Op::Sw => "sw",
        Op::Addi => "addi",
        Op::Slti => "slti",
        Op::Sltiu => "sltiu",
        Op::Xori => "xori",
        Op::Ori => "ori",
        Op::Andi => "andi",
        Op::Slli => "slli",
        Op::Srli => "srli",
        Op::Srai => "srai",
        Op::Add => "add",
        Op::Sub => "sub",
        Op::Sll => "sll",
        Op::Slt => "slt",
        Op::Sltu => "sltu",
        Op::Xor => "xor",
        Op::Srl => "srl",
        Op::Sra => "sra",
        Op::Or => "or",
        Op::And => "and",
        Op::Mul => "mul",
        Op::Mulh => "mulh",
        Op::Mulhsu => "mulhsu",
        Op::Mulhu => "mulhu",
        Op::Div => "div",
        Op::Divu => "divu",
        Op::Rem => "rem",
        Op::Remu => "remu",
        Op::Fence => "fence",
        Op::FenceI => "fence.i",
        Op::Ecall => "ecall",
        Op::Ebreak => "ebreak",
    }
}

// Where a branch or a jump at `pc` goes to.
fn target(pc: u32, imm: i32) -> u32
    ensures { result ≡ target pc imm }
{
    pc.wrapping_add(imm.cast_unsigned())
}

/// The text of an instruction at the address `pc`, as `addi x1, x2, -4` (docs/instructions.md, "Text"):
/// registers `x0` to `x31`, numbers in decimal, and the target of a branch or a jump, modulo 2^32, as
/// eight hexadecimal digits. Refused for want of memory alone.
#[tactic(auto, using(hex_text::specs::Laws::eight_digits), unfolding(crate::specs::Text::text_of))]
pub fn show(alloc: Global, instr: &Instr, pc: u32) -> Result<String, AllocError>
    requires { IsInRange instr.now }
    ensures { IfOk result (λ text. string_bytes text ≡ text_of instr.now pc) }
{
    match *instr {
        Instr::Alu { op, rd, rs1, rs2 } => {
            let name = name_of(op);
            format!(in alloc; "{name} x{rd}, x{rs1}, x{rs2}")
        }
        Instr::AluImm { op, rd, rs1, imm } => {
            let name = name_of(op);
            format!(in alloc; "{name} x{rd}, x{rs1}, {imm}")
        }
        Instr::Lui { rd, top } => format!(in alloc; "lui x{rd}, 0x{top:x}"),
        Instr::Auipc { rd, top } => format!(in alloc; "auipc x{rd}, 0x{top:x}"),
        Instr::Jal { rd, imm } => {
            let to = target(pc, imm);
            format!(in alloc; "jal x{rd}, 0x{to:08x}")
        }
        Instr::Jalr { rd, rs1, imm } => format!(in alloc; "jalr x{rd}, {imm}(x{rs1})"),
        Instr::Branch { op, rs1, rs2, imm } => {
            let name = name_of(op);
            let to = target(pc, imm);
            format!(in alloc; "{name} x{rs1}, x{rs2}, 0x{to:08x}")
        }
        Instr::Load { op, rd, rs1, imm } => {
            let name = name_of(op);
            format!(in alloc; "{name} x{rd}, {imm}(x{rs1})")
        }
        Instr::Store { op, rs1, rs2, imm } => {
            let name = name_of(op);
            format!(in alloc; "{name} x{rs2}, {imm}(x{rs1})")
        }
        Instr::System { op } => String::from_str(alloc, name_of(op)),
    }
}
