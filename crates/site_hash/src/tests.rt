use super::Calls;
use infinite_heap::{Instr, Op};
use std::alloc::{AllocError, Global};
use std::test::Fail;

// A call from 0x1000c, and in it a call from 0x1001c.
fn two_calls(alloc: Global) -> Result<Calls, AllocError> {
    let mut calls = Calls::new(alloc)?;
    calls.hint(&Instr::Jal { rd: 1, imm: 64 }, 0x10010);
    calls.hint(&Instr::Jal { rd: 5, imm: 64 }, 0x10020);
    Ok(calls)
}

#[test]
fn hashes_missing_addresses_as_zero(rt: HostRuntime) -> Result<(), Fail> {
    for (link, want) in [
        (0, 0x07ff_0025),
        (0x10018, 0x2232_4c3d),
        (0x1002c, 0x239c_3651),
    ] {
        let mut calls = Calls::new(rt.alloc())?;
        if link != 0 {
            calls.hint(&Instr::Jal { rd: 1, imm: 8 }, link);
        }
        assert_eq!(rt;
            calls.site(),
            want,
            "after a call that returns to {link:#x}"
        );
        calls.ret();
        calls.ret();
        assert_eq!(rt; calls.site(), 0x07ff_0025);
    }
    Ok(())
}

#[test]
fn jumps_push_and_pop_by_their_link_registers(rt: HostRuntime) -> Result<(), Fail> {
    let (unchanged, popped, pushed, exchanged) = (
        0xaf2c_d655,
        0x21a1_8835,
        0xb498_6885,
        0xb04e_5e65,
    );
    let cases = [
        (0, 1, popped),
        (0, 5, popped),
        (6, 5, popped),
        (1, 0, pushed),
        (5, 6, pushed),
        (1, 5, exchanged),
        (5, 1, exchanged),
        (1, 1, pushed),
        (5, 5, pushed),
        (0, 0, unchanged),
        (4, 6, unchanged),
        (2, 3, unchanged),
    ];
    for (rd, rs1, want) in cases {
        let mut calls = two_calls(rt.alloc())?;
        calls.hint(&Instr::Jalr { rd, rs1, imm: 0 }, 0x10030);
        assert_eq!(rt; calls.site(), want, "jalr x{rd}, 0(x{rs1})");
    }
    for (rd, want) in [
        (0, unchanged),
        (1, pushed),
        (4, unchanged),
        (5, pushed),
        (6, unchanged),
    ] {
        let mut calls = two_calls(rt.alloc())?;
        calls.hint(&Instr::Jal { rd, imm: 0 }, 0x10030);
        assert_eq!(rt; calls.site(), want, "jal x{rd}");
    }
    let mut calls = two_calls(rt.alloc())?;
    calls.hint(
        &Instr::AluImm {
            op: Op::Addi,
            rd: 1,
            rs1: 5,
            imm: 0,
        },
        0x10030,
    );
    assert_eq!(rt; calls.site(), unchanged);
    Ok(())
}

#[test]
fn keeps_the_newest_1024(rt: HostRuntime) -> Result<(), Fail> {
    let mut calls = Calls::new(rt.alloc())?;
    for link in 1..1026 {
        calls.hint(&Instr::Jal { rd: 1, imm: 0 }, link);
    }
    assert_eq!(rt; calls.site(), 0x52b6_2820);
    for _ in 0..1019 {
        calls.hint(
            &Instr::Jalr {
                rd: 0,
                rs1: 1,
                imm: 0,
            },
            0,
        );
    }
    assert_eq!(rt; calls.site(), 0x086e_6279, "6, 5, 4, 3 and 2 are left");
    calls.ret();
    assert_eq!(rt; calls.site(), 0x085b_b933);
    for _ in 0..4 {
        calls.ret();
    }
    assert_eq!(rt; calls.site(), 0x07ff_0025, "1 is lost");
    Ok(())
}
