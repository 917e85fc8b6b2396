// From an instruction to its word.
ghost use Rattle.std.specs.Prelude.{◌≡◌, ◌<◌, ◌+◌, ◌*◌, ◌^◌};
ghost use Rattle.infinite_heap.specs.Row.{row};
ghost use Rattle.infinite_heap.specs.InRange.{IsInRange, HoldsImm};
ghost use Rattle.rv_decode.specs.Word.{r_form, i_form, s_form, b_form, u_form, j_form, funct3_of, funct7_of, imm_word, system_word, word_of};

use infinite_heap::{Instr, Op};

fn funct3_of(op: Op) -> u32
    ensures value { result ≡ funct3_of op }
    ensures narrow { result < 8 }
{
    match op {
        Op::Bne | Op::Lh | Op::Sh | Op::Slli | Op::Sll | Op::Mulh => 1,
        Op::Lw | Op::Sw | Op::Slti | Op::Slt | Op::Mulhsu => 2,
        Op::Sltiu | Op::Sltu | Op::Mulhu => 3,
        Op::Blt | Op::Lbu | Op::Xori | Op::Xor | Op::Div => 4,
        Op::Bge | Op::Lhu | Op::Srli | Op::Srai | Op::Srl | Op::Sra | Op::Divu => 5,
        Op::Bltu | Op::Ori | Op::Or | Op::Rem => 6,
        Op::Bgeu | Op::Andi | Op::And | Op::Remu => 7,
        _ => 0,
    }
}

fn funct7_of(op: Op) -> u32
    ensures value { result ≡ funct7_of op }
    ensures narrow { result < 64 }
{
    match op {
        Op::Sub | Op::Sra | Op::Srai => 0x20,
        Op::Mul | Op::Mulh | Op::Mulhsu | Op::Mulhu | Op::Div | Op::Divu | Op::Rem | Op::Remu => 1,
        _ => 0,
    }
}

fn system_word(op: Op) -> u32
    ensures { result ≡ system_word op }
{
    match op {
        Op::Fence => 0x0ff0_000f,
        Op::FenceI => 0x0000_100f,
        Op::Ecall => 0x0000_0073,
        Op::Ebreak => 0x0010_0073,
        _ => 0,
    }
}

// Two registers and the constant fields, at the places that the R, S and B forms share.
fn registers(rs2: u8, rs1: u8, funct3: u32) -> u32
    requires two { rs2 < 32 }
    requires one { rs1 < 32 }
    requires narrow { funct3 < 8 }
    ensures value { result ≡ rs2 * 2 ^ 20 + rs1 * 2 ^ 15 + funct3 * 2 ^ 12 }
{
    (u32::from(rs2) << 20) + (u32::from(rs1) << 15) + (funct3 << 12)
}

// The forms, with the opcode's bits at the end.
fn r_word(funct7: u32, rs2: u8, rs1: u8, funct3: u32, rd: u8, opcode: u32) -> u32
    requires regs { (rs2 < 32) × (rs1 < 32) × (rd < 32) }
    requires constants { (funct7 < 64) × (funct3 < 8) × (opcode < 128) }
    ensures { result ≡ r_form funct7 rs2 rs1 funct3 rd opcode }
{
    (funct7 << 25) + registers(rs2, rs1, funct3) + (u32::from(rd) << 7) + opcode
}

fn i_word(imm: i32, rs1: u8, funct3: u32, rd: u8, opcode: u32) -> u32
    requires regs { (rs1 < 32) × (rd < 32) }
    requires constants { (funct3 < 8) × (opcode < 128) }
    ensures { result ≡ i_form imm rs1 funct3 rd opcode }
{
    (imm.cast_unsigned() << 20) + registers(0, rs1, funct3) + (u32::from(rd) << 7) + opcode
}

fn s_word(imm: i32, rs2: u8, rs1: u8, funct3: u32, opcode: u32) -> u32
    requires regs { (rs2 < 32) × (rs1 < 32) }
    requires constants { (funct3 < 8) × (opcode < 128) }
    ensures { result ≡ s_form imm rs2 rs1 funct3 opcode }
{
    let imm = imm.cast_unsigned();
    (imm >> 5 << 25) + registers(rs2, rs1, funct3) + ((imm & 31) << 7) + opcode
}

fn b_word(imm: i32, rs2: u8, rs1: u8, funct3: u32, opcode: u32) -> u32
    requires regs { (rs2 < 32) × (rs1 < 32) }
    requires constants { (funct3 < 8) × (opcode < 128) }
    ensures { result ≡ b_form imm rs2 rs1 funct3 opcode }
{
    let imm = imm.cast_unsigned();
    let high = (imm >> 12 << 31) + ((imm >> 5 & 63) << 25);
    let low = ((imm >> 1 & 15) << 8) + ((imm >> 11 & 1) << 7);
    high + registers(rs2, rs1, funct3) + low + opcode
}

fn u_word(top: u32, rd: u8, opcode: u32) -> u32
    requires fields { (top < 2 ^ 20) × (rd < 32) × (opcode < 128) }
    ensures { result ≡ u_form top rd opcode }
{
    (top << 12) + (u32::from(rd) << 7) + opcode
}

fn j_word(imm: i32, rd: u8, opcode: u32) -> u32
    requires fields { (rd < 32) × (opcode < 128) }
    ensures { result ≡ j_form imm rd opcode }
{
    let imm = imm.cast_unsigned();
    let high = (imm >> 20 << 31) + ((imm >> 1 & 1023) << 21);
    let low = ((imm >> 11 & 1) << 20) + ((imm >> 12 & 255) << 12);
    high + low + (u32::from(rd) << 7) + opcode
}

/// The word of an instruction, whose fields have to be in range: it decodes to that instruction. FENCE
/// is `0x0ff0000f`, and FENCE.I `0x0000100f`.
#[tactic(auto, using(crate::proofs::Round::reads_back), unfolding(crate::specs::Word::word_of))]
pub fn encode(instr: &Instr) -> u32
    requires { IsInRange instr.now }
    ensures word { result ≡ word_of instr.now }
    ensures reads_back { row result ≡ Some instr.now }
{
    match *instr {
        Instr::Alu { op, rd, rs1, rs2 } => {
            r_word(funct7_of(op), rs2, rs1, funct3_of(op), rd, 0x33)
        }
        Instr::AluImm { op, rd, rs1, imm } => imm_word(op, rd, rs1, imm),
        Instr::Lui { rd, top } => u_word(top, rd, 0x37),
        Instr::Auipc { rd, top } => u_word(top, rd, 0x17),
        Instr::Jal { rd, imm } => j_word(imm, rd, 0x6f),
        Instr::Jalr { rd, rs1, imm } => i_word(imm, rs1, 0, rd, 0x67),
        Instr::Branch { op, rs1, rs2, imm } => b_word(imm, rs2, rs1, funct3_of(op), 0x63),
        Instr::Load { op, rd, rs1, imm } => i_word(imm, rs1, funct3_of(op), rd, 0x03),
        Instr::Store { op, rs1, rs2, imm } => s_word(imm, rs2, rs1, funct3_of(op), 0x23),
        Instr::System { op } => system_word(op),
    }
}

fn imm_word(op: Op, rd: u8, rs1: u8, imm: i32) -> u32
    requires regs { (rs1 < 32) × (rd < 32) }
    requires imm { HoldsImm op imm }
    ensures { result ≡ imm_word op rd rs1 imm }
{
    let funct3 = funct3_of(op);
    match op {
        Op::Slli | Op::Srli | Op::Srai => {
            r_word(
                funct7_of(op),
                (imm.cast_unsigned() & 31) as u8,
                rs1,
                funct3,
                rd,
                0x13,
            )
        }
        _ => i_word(imm, rs1, funct3, rd, 0x13),
    }
}
