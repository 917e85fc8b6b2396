use super::{breaks, fill, first_break};
use std::alloc::{AllocError, Global};
use std::test::Fail;

const WORD: u32 = 0x0a0b_0c0d;

// The canary of `WORD`, lowest byte first, from the address `phase` on.
fn canary(alloc: Global, len: usize, phase: u32) -> Result<Vec<u8>, AllocError> {
    let word = [0x0d, 0x0c, 0x0b, 0x0a];
    let mut bytes = Vec::new(alloc);
    for i in 0..len {
        bytes.push(word[(phase as usize + i % 4) % 4])?;
    }
    Ok(bytes)
}

#[test]
fn fills_from_any_address(rt: HostRuntime) {
    let cases = [
        (0, [0x0d, 0x0c, 0x0b, 0x0a, 0x0d, 0x0c]),
        (1, [0x0c, 0x0b, 0x0a, 0x0d, 0x0c, 0x0b]),
        (2, [0x0b, 0x0a, 0x0d, 0x0c, 0x0b, 0x0a]),
        (3, [0x0a, 0x0d, 0x0c, 0x0b, 0x0a, 0x0d]),
        (0x4000_0016, [0x0b, 0x0a, 0x0d, 0x0c, 0x0b, 0x0a]),
        (u32::MAX, [0x0a, 0x0d, 0x0c, 0x0b, 0x0a, 0x0d]),
    ];
    for (phase, want) in cases {
        let mut bytes = [0; 6];
        fill(&mut bytes, WORD, phase);
        assert_eq!(rt; bytes, want, "from {phase}");
    }
}

#[test]
fn finds_the_last_byte_at_each_length_and_phase(rt: HostRuntime) -> Result<(), Fail> {
    for len in [0, 1, 31, 32, 33, 64, 95] {
        for phase in 0..4 {
            let mut bytes = canary(rt.alloc(), len, phase)?;
            assert_eq!(rt;
                first_break(&bytes, WORD, phase),
                None,
                "{len} from {phase}"
            );
            assert!(rt; breaks(rt.alloc(), &bytes, WORD, phase)?.is_empty());
            if let Some(last) = bytes.pop() {
                let place = bytes.len();
                bytes.push(last ^ 0x80)?;
                assert_eq!(rt;
                    first_break(&bytes, WORD, phase),
                    Some(place),
                    "{len} from {phase}"
                );
                let places = breaks(rt.alloc(), &bytes, WORD, phase)?;
                assert_eq!(rt; places.as_slice(), [place].as_slice(), "{len} from {phase}");
            }
        }
    }
    Ok(())
}

#[test]
fn lists_all_breaks_in_order(rt: HostRuntime) -> Result<(), Fail> {
    let bytes = [0x0b, 0, 0x0d, 0x0c, 0x0c, 0x0a, 0x0d, 0x0d];
    assert_eq!(rt; first_break(&bytes, WORD, 2), Some(1));
    let places = breaks(rt.alloc(), &bytes, WORD, 2)?;
    assert_eq!(rt; places.as_slice(), [1, 4, 7].as_slice());
    Ok(())
}
