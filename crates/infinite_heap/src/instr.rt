// Instructions, by the names of the RISC-V Unprivileged ISA manual.

/// The name of an instruction: RV32I, the M extension, and FENCE.I.
#[derive(Clone, Copy, Debug, PartialEq, Eq, Drop)]
pub enum Op {
    Lui,
    Auipc,
    Jal,
    Jalr,
    Beq,
    Bne,
    Blt,
    Bge,
    Bltu,
    Bgeu,
    Lb,
    Lh,
    Lw,
    Lbu,
    Lhu,
    Sb,
    Sh,
    Sw,
    Addi,
    Slti,
    Sltiu,
    Xori,
    Ori,
    Andi,
    Slli,
    Srli,
    Srai,
    Add,
    Sub,
    Sll,
    Slt,
    Sltu,
    Xor,
    Srl,
    Sra,
    Or,
    And,
    Mul,
    Mulh,
    Mulhsu,
    Mulhu,
    Div,
    Divu,
    Rem,
    Remu,
    Fence,
    FenceI,
    Ecall,
    Ebreak,
}

/// An instruction with its fields. Registers are 0 to 31, `top` has twenty bits, and an immediate is one
/// that the instruction's form can hold; a shift's is its amount.
#[derive(Clone, Copy, Debug, PartialEq, Eq, Drop)]
pub enum Instr {
    /// An operation on two registers.
    Alu { op: Op, rd: u8, rs1: u8, rs2: u8 },
    /// An operation on a register and an immediate.
    AluImm { op: Op, rd: u8, rs1: u8, imm: i32 },
    Lui { rd: u8, top: u32 },
    Auipc { rd: u8, top: u32 },
    Jal { rd: u8, imm: i32 },
    Jalr { rd: u8, rs1: u8, imm: i32 },
    Branch { op: Op, rs1: u8, rs2: u8, imm: i32 },
    Load { op: Op, rd: u8, rs1: u8, imm: i32 },
    Store { op: Op, rs1: u8, rs2: u8, imm: i32 },
    /// A fence, an environment call or a breakpoint.
    System { op: Op },
}

/// An operation on two words, whichever form its operands come from.
#[derive(Clone, Copy, Debug, PartialEq, Eq, Drop)]
pub enum Operation {
    Add,
    Sub,
    Sll,
    Slt,
    Sltu,
    Xor,
    Srl,
    Sra,
    Or,
    And,
    Mul,
    Mulh,
    Mulhsu,
    Mulhu,
    Div,
    Divu,
    Rem,
    Remu,
}
