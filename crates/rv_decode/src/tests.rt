// Words and texts that were made outside: each instruction was assembled by itself with GNU as 2.40 of
// Debian's binutils-riscv64-unknown-elf (-march=rv32im_zifencei -mabi=ilp32), its operands were read from
// objdump (-m riscv:rv32 -M no-aliases,numeric, the place by --adjust-vma), and a script wrote them by the
// rules of docs/instructions.md, "Text".
use crate::{decode, encode, show};
use std::alloc::Global;
use std::process::Abort;
use std::test::Fail;

// One word of each instruction, its address, and its text.
const EACH: [(u32, u32, &str); 49] = [
    (0x1234_50b7, 0x0001_0000, "lui x1, 0x12345"),
    (0xabcd_e117, 0x0001_0000, "auipc x2, 0xabcde"),
    (0x2340_11ef, 0x0001_0000, "jal x3, 0x00011234"),
    (0x0642_8267, 0x0001_0000, "jalr x4, 100(x5)"),
    (0xfdf3_0ee3, 0x0001_0000, "beq x6, x31, 0x0000ffdc"),
    (0x03e3_9463, 0x0001_0000, "bne x7, x30, 0x00010028"),
    (0xfdd4_4ae3, 0x0001_0000, "blt x8, x29, 0x0000ffd4"),
    (0x03c4_d863, 0x0001_0000, "bge x9, x28, 0x00010030"),
    (0xfdb5_66e3, 0x0001_0000, "bltu x10, x27, 0x0000ffcc"),
    (0x03a5_fc63, 0x0001_0000, "bgeu x11, x26, 0x00010038"),
    (0x0071_0603, 0x0001_0000, "lb x12, 7(x2)"),
    (0xff81_9683, 0x0001_0000, "lh x13, -8(x3)"),
    (0x0092_2703, 0x0001_0000, "lw x14, 9(x4)"),
    (0xff62_c783, 0x0001_0000, "lbu x15, -10(x5)"),
    (0x00b3_5803, 0x0001_0000, "lhu x16, 11(x6)"),
    (0x0314_00a3, 0x0001_0000, "sb x17, 33(x8)"),
    (0xfd24_9f23, 0x0001_0000, "sh x18, -34(x9)"),
    (0x0335_21a3, 0x0001_0000, "sw x19, 35(x10)"),
    (0x12ca_8a13, 0x0001_0000, "addi x20, x21, 300"),
    (0xed3b_2a93, 0x0001_0000, "slti x21, x22, -301"),
    (0x12eb_bb13, 0x0001_0000, "sltiu x22, x23, 302"),
    (0xed1c_4b93, 0x0001_0000, "xori x23, x24, -303"),
    (0x130c_ec13, 0x0001_0000, "ori x24, x25, 304"),
    (0xecfd_7c93, 0x0001_0000, "andi x25, x26, -305"),
    (0x005d_9d13, 0x0001_0000, "slli x26, x27, 5"),
    (0x006e_5d93, 0x0001_0000, "srli x27, x28, 6"),
    (0x407e_de13, 0x0001_0000, "srai x28, x29, 7"),
    (0x0031_00b3, 0x0001_0000, "add x1, x2, x3"),
    (0x40e4_8333, 0x0001_0000, "sub x6, x9, x14"),
    (0x0198_15b3, 0x0001_0000, "sll x11, x16, x25"),
    (0x004b_a833, 0x0001_0000, "slt x16, x23, x4"),
    (0x00ff_3ab3, 0x0001_0000, "sltu x21, x30, x15"),
    (0x01a2_cd33, 0x0001_0000, "xor x26, x5, x26"),
    (0x0056_5fb3, 0x0001_0000, "srl x31, x12, x5"),
    (0x4109_d233, 0x0001_0000, "sra x4, x19, x16"),
    (0x01bd_64b3, 0x0001_0000, "or x9, x26, x27"),
    (0x0060_f733, 0x0001_0000, "and x14, x1, x6"),
    (0x0314_09b3, 0x0001_0000, "mul x19, x8, x17"),
    (0x03c7_9c33, 0x0001_0000, "mulh x24, x15, x28"),
    (0x027b_2eb3, 0x0001_0000, "mulhsu x29, x22, x7"),
    (0x032e_b133, 0x0001_0000, "mulhu x2, x29, x18"),
    (0x03d2_43b3, 0x0001_0000, "div x7, x4, x29"),
    (0x0285_d633, 0x0001_0000, "divu x12, x11, x8"),
    (0x0339_68b3, 0x0001_0000, "rem x17, x18, x19"),
    (0x03ec_fb33, 0x0001_0000, "remu x22, x25, x30"),
    (0x0ff0_000f, 0x0001_0000, "fence"),
    (0x0000_100f, 0x0001_0000, "fence.i"),
    (0x0000_0073, 0x0001_0000, "ecall"),
    (0x0010_0073, 0x0001_0000, "ebreak"),
];

// Each form's immediate at its ends and around zero.
const IMMEDIATES: [(u32, u32, &str); 45] = [
    (0x8001_0093, 0x0001_0000, "addi x1, x2, -2048"),
    (0xfff1_0093, 0x0001_0000, "addi x1, x2, -1"),
    (0x0001_0093, 0x0001_0000, "addi x1, x2, 0"),
    (0x0011_0093, 0x0001_0000, "addi x1, x2, 1"),
    (0x7ff1_0093, 0x0001_0000, "addi x1, x2, 2047"),
    (0x8000_8067, 0x0001_0000, "jalr x0, -2048(x1)"),
    (0xfff0_8067, 0x0001_0000, "jalr x0, -1(x1)"),
    (0x0000_8067, 0x0001_0000, "jalr x0, 0(x1)"),
    (0x0010_8067, 0x0001_0000, "jalr x0, 1(x1)"),
    (0x7ff0_8067, 0x0001_0000, "jalr x0, 2047(x1)"),
    (0x8001_2083, 0x0001_0000, "lw x1, -2048(x2)"),
    (0xfff1_2083, 0x0001_0000, "lw x1, -1(x2)"),
    (0x0001_2083, 0x0001_0000, "lw x1, 0(x2)"),
    (0x0011_2083, 0x0001_0000, "lw x1, 1(x2)"),
    (0x7ff1_2083, 0x0001_0000, "lw x1, 2047(x2)"),
    (0x8011_2023, 0x0001_0000, "sw x1, -2048(x2)"),
    (0xfe11_2fa3, 0x0001_0000, "sw x1, -1(x2)"),
    (0x0011_2023, 0x0001_0000, "sw x1, 0(x2)"),
    (0x0011_20a3, 0x0001_0000, "sw x1, 1(x2)"),
    (0x7e11_2fa3, 0x0001_0000, "sw x1, 2047(x2)"),
    (0x8020_8063, 0x0001_0000, "beq x1, x2, 0x0000f000"),
    (0xfe20_8fe3, 0x0001_0000, "beq x1, x2, 0x0000fffe"),
    (0x0020_8063, 0x0001_0000, "beq x1, x2, 0x00010000"),
    (0x0020_8163, 0x0001_0000, "beq x1, x2, 0x00010002"),
    (0x7e20_8fe3, 0x0001_0000, "beq x1, x2, 0x00010ffe"),
    (0x8000_00ef, 0x0020_0000, "jal x1, 0x00100000"),
    (0xffff_f0ef, 0x0020_0000, "jal x1, 0x001ffffe"),
    (0x0000_00ef, 0x0020_0000, "jal x1, 0x00200000"),
    (0x0020_00ef, 0x0020_0000, "jal x1, 0x00200002"),
    (0x7fff_f0ef, 0x0020_0000, "jal x1, 0x002ffffe"),
    (0x0000_0fb7, 0x0001_0000, "lui x31, 0x0"),
    (0x0000_1fb7, 0x0001_0000, "lui x31, 0x1"),
    (0xffff_ffb7, 0x0001_0000, "lui x31, 0xfffff"),
    (0x0000_0f97, 0x0001_0000, "auipc x31, 0x0"),
    (0x0000_1f97, 0x0001_0000, "auipc x31, 0x1"),
    (0xffff_ff97, 0x0001_0000, "auipc x31, 0xfffff"),
    (0x0001_1093, 0x0001_0000, "slli x1, x2, 0"),
    (0x0011_1093, 0x0001_0000, "slli x1, x2, 1"),
    (0x01f1_1093, 0x0001_0000, "slli x1, x2, 31"),
    (0x0001_5093, 0x0001_0000, "srli x1, x2, 0"),
    (0x0011_5093, 0x0001_0000, "srli x1, x2, 1"),
    (0x01f1_5093, 0x0001_0000, "srli x1, x2, 31"),
    (0x4001_5093, 0x0001_0000, "srai x1, x2, 0"),
    (0x4011_5093, 0x0001_0000, "srai x1, x2, 1"),
    (0x41f1_5093, 0x0001_0000, "srai x1, x2, 31"),
];

// Targets past either end of the addresses.
const WRAPPED: [(u32, u32, &str); 4] = [
    (0x0200_006f, 0xffff_fff0, "jal x0, 0x00000010"),
    (0xffdf_f06f, 0x0000_0000, "jal x0, 0xfffffffc"),
    (0x7ff0_1fe3, 0xffff_f800, "bne x0, x31, 0x000007fe"),
    (0x800f_5063, 0x0000_0000, "bge x30, x0, 0xfffff000"),
];

// A program that prints two letters and exits.
const PROGRAM: [(u32, u32, &str); 9] = [
    (0x0001_05b7, 0x0001_0000, "lui x11, 0x10"),
    (0x0245_8593, 0x0001_0004, "addi x11, x11, 36"),
    (0x0010_0513, 0x0001_0008, "addi x10, x0, 1"),
    (0x0030_0613, 0x0001_000c, "addi x12, x0, 3"),
    (0x0400_0893, 0x0001_0010, "addi x17, x0, 64"),
    (0x0000_0073, 0x0001_0014, "ecall"),
    (0x0030_0513, 0x0001_0018, "addi x10, x0, 3"),
    (0x05d0_0893, 0x0001_001c, "addi x17, x0, 93"),
    (0x0000_0073, 0x0001_0020, "ecall"),
];

// Words that are no instruction: text, compressed forms, other base sets and extensions, reserved values of
// funct3 and funct7, and environment calls with a register set.
const OTHERS: [u32; 38] = [
    0x0000_0000,
    0xffff_ffff,
    0x000a_6968,
    0x0000_0001,
    0x0001_05b4,
    0x0001_05b5,
    0x0001_05b6,
    0x0001_009b,
    0x0031_00bb,
    0x0001_3083,
    0x0001_6083,
    0x0001_7083,
    0x0011_3023,
    0x0011_7023,
    0x0201_1093,
    0x4001_1093,
    0x0201_5093,
    0x4201_5093,
    0x0000_9067,
    0x0020_a063,
    0x0020_b063,
    0x4031_10b3,
    0x0431_00b3,
    0x4231_50b3,
    0x8031_00b3,
    0xfe31_00b3,
    0x0000_200f,
    0x0000_700f,
    0x0000_00f3,
    0x0000_8073,
    0x0020_0073,
    0x0010_00f3,
    0x3020_0073,
    0x1050_0073,
    0x3001_10f3,
    0x0001_2087,
    0x0021_202f,
    0x0001_2053,
];

// Fences with other bits set, and the word that each is encoded as.
const FENCES: [(u32, u32); 4] = [
    (0x0000_000f, 0x0ff0_000f),
    (0x8330_000f, 0x0ff0_000f),
    (0xffff_8f8f, 0x0ff0_000f),
    (0xffff_9f8f, 0x0000_100f),
];

// Each word decodes to an instruction with that text, which is encoded as that word.
fn check_rows(rt: &impl Abort, alloc: Global, rows: &[(u32, u32, &str)]) -> Result<(), Fail> {
    for (word, pc, text) in rows {
        let instr = decode(*word).ok_or("no instruction")?;
        let shown = show(alloc, &instr, *pc)?;
        assert_eq!(rt; shown.as_str(), *text, "{word:08x}");
        assert_eq!(rt; encode(&instr), *word, "{text}");
    }
    Ok(())
}

#[test]
fn words_and_texts_agree(rt: HostRuntime) -> Result<(), Fail> {
    check_rows(&rt, rt.alloc(), &EACH)?;
    check_rows(&rt, rt.alloc(), &IMMEDIATES)?;
    check_rows(&rt, rt.alloc(), &WRAPPED)?;
    check_rows(&rt, rt.alloc(), &PROGRAM)
}

#[test]
fn other_words_are_no_instructions(rt: HostRuntime) {
    for word in &OTHERS {
        assert_eq!(rt; decode(*word), None, "{word:08x}");
    }
}

#[test]
fn other_bits_of_fences_are_dropped(rt: HostRuntime) -> Result<(), Fail> {
    for (word, plain) in &FENCES {
        let fence = decode(*word).ok_or("no instruction")?;
        assert_eq!(rt; encode(&fence), *plain, "{word:08x}");
    }
    Ok(())
}
