// What readers get of an input that a tape keeps, or that one reader reads on.
ghost use Rattle.std.specs.Prelude.{◌≡◌, ◌+◌, ◌^◌, ◌<◌, ◌≤◌, true, false, None, max, length};

use crate::outside::Failed;
use crate::{MemorySource, Source, Tape, TapeFault};
use std::alloc::{AllocError, Global};
use std::process::Abort;
use std::test::Fail;

fn source_of(alloc: Global, text: &str, failing: &[u64]) -> Result<MemorySource, AllocError> {
    let bytes = Vec::from_slice(alloc, text.as_bytes())?;
    let failing = Vec::from_slice(alloc, failing)?;
    Ok(MemorySource::new(bytes, 3, failing))
}

// Whether a read answers these bytes.
fn reads<S: Source>(
    alloc: Global,
    tape: &mut Tape,
    source: &mut S,
    from: u128,
    len: u32,
    want: &str,
) -> bool
    requires going { tape.old.refused ≡ false }
    requires small { from < 2 ^ 96 }
    requires known { from ≤ tape.old.high }
    requires onward { tape.old.keep ≡ false → from ≡ tape.old.high }
    ensures going { result ≡ true → tape.new.refused ≡ false }
    ensures high { result ≡ true → tape.new.high ≡ max tape.old.high (from + length want.now) }
    ensures keep { tape.new.keep ≡ tape.old.keep }
{
    match tape.read_at(alloc, source, from, len) {
        Ok(bytes) => bytes.as_slice() == want.as_bytes(),
        Err(_) => false,
    }
}

// What the first read of a tape answers.
fn first_bytes<S: Source>(alloc: Global, source: &mut S) -> Result<Vec<u8>, TapeFault> {
    let mut tape = Tape::new(alloc, source, true)?;
    tape.read_at(alloc, source, 0, 3)
}

// Reads parts of an input: each from a place, at most so many bytes, and it is to be these.
fn reads_all<S: Source>(
    rt: &impl Abort,
    alloc: Global,
    source: &mut S,
    keep: bool,
    wanted: &[(u64, u32, &str)],
) -> Result<(), TapeFault> {
    let mut tape = Tape::new(alloc, source, keep)?;
    let mut high = 0u128;
    for (place, len, want) in wanted {
        let from = *place as u128;
        assert!(rt; from <= high && (keep || from == high), "{want}");
        assert!(rt; reads(alloc, &mut tape, source, from, *len, want), "{want}");
        high = high.max(from + want.len() as u128);
    }
    Ok(())
}

// A terminal whose user ends the input, and then goes on.
#[derive(Drop)]
struct Terminal {
    calls: u64,
}

impl Source for Terminal {
    ghost left = { λ _. None };

    ghost faults = { λ _. 0 };

    fn fill(&mut self, buf: &mut [u8]) -> Result<usize, Failed> {
        self.calls = self.calls.saturating_add(1);
        let typed = match self.calls {
            1 => "ab",
            3 => "cd",
            _ => "",
        };
        let count = typed.len().min(buf.len());
        buf[..count].copy_from_slice(&typed.as_bytes()[..count]);
        Ok(count)
    }

    fn tells_bytes(&self) {}
}

#[test]
fn readers_get_the_bytes_at_their_places(rt: HostRuntime) -> Result<(), Fail> {
    let alloc = rt.alloc();
    let several = [(0, 3, "abc"), (0, 2, "ab"), (2, 10, "cdefgh"), (8, 4, "")];
    reads_all(
        &rt,
        alloc,
        &mut source_of(alloc, "abcdefgh", &[])?,
        true,
        &several,
    )?;
    let one = [(0, 3, "abc"), (3, 10, "defgh"), (8, 4, "")];
    reads_all(
        &rt,
        alloc,
        &mut source_of(alloc, "abcdefgh", &[])?,
        false,
        &one,
    )?;
    // a read ends where the source does, which the next one asks again
    let ended = [(0, 4, "ab"), (2, 1, "c")];
    reads_all(&rt, alloc, &mut Terminal { calls: 0 }, true, &ended)?;
    let mut failing = source_of(alloc, "abcdefgh", &[1])?;
    assert_eq!(rt;
        first_bytes(alloc, &mut failing).err(),
        Some(TapeFault::Source)
    );
    Ok(())
}
