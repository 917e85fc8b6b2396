// The pieces of a made program. An instruction's number counts from 0, at the program's first.
ghost use Rattle.std.specs.Prelude.{◌≡◌, ◌<◌, ◌≤◌, ◌^◌, pos};
ghost use Rattle.infinite_heap.specs.declared.instr.Instr.TheVariants as instr;
ghost use Rattle.work_maker.specs.Instrs as spec;

use infinite_heap::{Instr, Op};

/// Where the heap's functions stand, four bytes each, and the program behind them.
pub const MALLOC: u32 = 0x10000;

pub const FREE: u32 = 0x10004;

pub const CALLOC: u32 = 0x10008;

pub const REALLOC: u32 = 0x1000c;

pub const ENTRY: u32 = 0x10010;

// The number of the body's first instruction.
const BODY: u32 = 3;

// The registers: the table of places, the sum, the rounds that are left, and those that calls use.
const PLACES: u8 = 8;

const SUM: u8 = 9;

const ROUNDS: u8 = 18;

const ZERO: u8 = 0;

const RA: u8 = 1;

const A0: u8 = 10;

const A1: u8 = 11;

const A2: u8 = 12;

const A7: u8 = 17;

// System calls.
const WRITE: i32 = 64;

const EXIT: i32 = 93;

fn addi(rd: u8, rs1: u8, imm: i32) -> Instr
    ensures { result ≡ spec.addi rd rs1 imm }
{
    Instr::AluImm {
        op: Op::Addi,
        rd,
        rs1,
        imm,
    }
}

fn load(op: Op, rd: u8, imm: u32, rs1: u8) -> Instr
    requires { imm < 2 ^ 8 }
    ensures { result ≡ instr.Load op rd rs1 (pos imm) }
{
    Instr::Load {
        op,
        rd,
        rs1,
        imm: imm as i32,
    }
}

fn store(op: Op, rs2: u8, imm: u32, rs1: u8) -> Instr
    requires { imm < 2 ^ 9 }
    ensures { result ≡ instr.Store op rs1 rs2 (pos imm) }
{
    Instr::Store {
        op,
        rs1,
        rs2,
        imm: imm as i32,
    }
}

// The instruction of that number, which jumps to an address and leaves its own successor's in rd.
fn jal_to(rd: u8, address: u32, nth: u32) -> Instr
    requires near { address < 2 ^ 20 }
    requires small { nth < 2 ^ 20 }
    ensures { result ≡ spec.jal_to rd address nth }
{
    let from = ENTRY + 4 * nth;
    Instr::Jal {
        rd,
        imm: address as i32 - from as i32,
    }
}

/// The table of places at 0x200000, no sum yet, and 16 rounds to go.
#[tactic(auto, unfolding(crate::specs::Instrs::start))]
pub fn start() -> [Instr; 3]
    ensures { result ≡ spec.start }
{
    [
        Instr::Lui {
            rd: PLACES,
            top: 0x200,
        },
        addi(SUM, ZERO, 0),
        addi(ROUNDS, ZERO, 16),
    ]
}

/// Allocates an object of a size into place k, and stores a byte into its first.
#[tactic(auto, unfolding(crate::specs::Instrs::allocation))]
pub fn allocation(k: u32, size: u32, byte: u32, nth: u32) -> [Instr; 5]
    requires place { k < 64 }
    requires size { size ≤ 1024 }
    requires byte { byte < 128 }
    requires nth { nth < 2 ^ 18 }
    ensures { result ≡ spec.allocation k size byte nth }
{
    [
        addi(A0, ZERO, size as i32),
        jal_to(RA, MALLOC, nth + 1),
        store(Op::Sw, A0, 4 * k, PLACES),
        addi(A1, ZERO, byte as i32),
        store(Op::Sb, A1, 0, A0),
    ]
}

/// Adds the first byte of the object in place k to the sum, and frees the object.
#[tactic(auto, unfolding(crate::specs::Instrs::release))]
pub fn release(k: u32, nth: u32) -> [Instr; 4]
    requires place { k < 64 }
    requires nth { nth < 2 ^ 18 }
    ensures { result ≡ spec.release k nth }
{
    [
        load(Op::Lw, A0, 4 * k, PLACES),
        load(Op::Lbu, A1, 0, A0),
        Instr::Alu {
            op: Op::Add,
            rd: SUM,
            rs1: SUM,
            rs2: A1,
        },
        jal_to(RA, FREE, nth + 3),
    ]
}

/// Ends a round, and goes back to the body unless that was the last.
#[tactic(auto, unfolding(crate::specs::Instrs::again))]
pub fn again(nth: u32) -> [Instr; 3]
    requires { nth < 2 ^ 18 }
    ensures { result ≡ spec.again nth }
{
    [
        addi(ROUNDS, ROUNDS, -1),
        Instr::Branch {
            op: Op::Beq,
            rs1: ROUNDS,
            rs2: ZERO,
            imm: 8,
        },
        jal_to(ZERO, ENTRY + 4 * BODY, nth + 2),
    ]
}

/// Prints the four bytes of the sum, and exits with 0.
#[tactic(auto, unfolding(crate::specs::Instrs::ending))]
pub fn ending() -> [Instr; 9]
    ensures { result ≡ spec.ending }
{
    [
        store(Op::Sw, SUM, 256, PLACES),
        addi(A1, PLACES, 256),
        addi(A0, ZERO, 1),
        addi(A2, ZERO, 4),
        addi(A7, ZERO, WRITE),
        Instr::System { op: Op::Ecall },
        addi(A0, ZERO, 0),
        addi(A7, ZERO, EXIT),
        Instr::System { op: Op::Ecall },
    ]
}
