// Made programs: their files, and what a trial of them comes to. What is wanted is that of a model of its own, written from
// docs/made-programs.md.
use super::Row::{self, Answers};
use super::{Outside, all_hold, outcome_of};
use std::alloc::{AllocError, Global};
use std::test::Fail;

static TRIALS: &[Row] = &[
    Answers(
        "trial 0
         trial --seed 9 0",
        0,
        b"trial 0 words 18600 sum 001f5240 allocations 33040 frees 33040 signals 0\n",
        "",
    ),
    Answers(
        "trial --seed 0 1",
        0,
        b"trial 1 words 18573 sum 001f9ca0 allocations 32992 frees 32992 signals 0\n",
        "",
    ),
    Answers(
        "trial 4095",
        0,
        b"trial 4095 words 37032 sum 003f7dd0 allocations 65808 frees 65808 signals 0\n",
        "",
    ),
    Answers(
        "trial 4096",
        0,
        b"trial 4096 words 18591 sum 001fa940 allocations 33024 frees 33024 signals 0\n",
        "",
    ),
    Answers(
        "trial --seed 18446744073709551615 4294967295",
        0,
        b"trial 4294967295 words 37023 sum 003eeb60 allocations 65792 frees 65792 signals 0\n",
        "",
    ),
];

#[test]
fn tries_made_programs(rt: HostRuntime) -> Result<(), Fail> {
    all_hold(rt.alloc(), TRIALS)
}

// The FNV-1a hash of 64 bits.
fn hash(bytes: &[u8]) -> u64 {
    let mut hash = 0xcbf2_9ce4_8422_2325u64;
    for byte in bytes {
        hash = (hash ^ u64::from(*byte)).wrapping_mul(0x0100_0000_01b3);
    }
    hash
}

// The size of some bytes, and their hash where it is known.
type Digest = (usize, Option<u64>);

fn fits(bytes: &[u8], (size, wanted): Digest) -> bool {
    match wanted {
        Some(wanted) => bytes.len() == size && hash(bytes) == wanted,
        None => bytes.len() == size,
    }
}

// A call, which part of the outside fails, the status, what is on out, and what the folder has then under the name `p`.
struct Made(&'static str, [u64; 4], u8, Digest, Option<Digest>);

fn file_fits(file: Option<&[u8]>, wanted: Option<Digest>) -> bool {
    match (file, wanted) {
        (None, None) => true,
        (Some(bytes), Some(digest)) => fits(bytes, digest),
        _ => false,
    }
}

fn is_made(alloc: Global, wanted: &Made) -> Result<bool, AllocError> {
    let (status, outside) = outcome_of(alloc, wanted.0, b"", wanted.1)?;
    Ok(status == wanted.2 && has_made(&outside, wanted.3, wanted.4))
}

fn has_made(outside: &Outside, out: Digest, file: Option<Digest>) -> bool {
    fits(outside.out.held(), out) && file_fits(outside.files.file("p"), file)
}

fn all_made(alloc: Global, rows: &[Made]) -> Result<(), Fail> {
    for row in rows {
        if !is_made(alloc, row)? {
            return Err(Fail::new(row.0));
        }
    }
    Ok(())
}

const NOTHING: Digest = (0, Some(0xcbf2_9ce4_8422_2325));

const FILE_0: Digest = (74760, Some(0xb567_d419_d9cb_c62d));

const FILE_4095: Digest = (148_488, Some(0x4c16_be52_f642_aa74));

const FILE_4294967295: Digest = (148_452, Some(0x5796_7722_13e0_2ee7));

static FILES: &[Made] = &[
    Made("make 0", [0; 4], 0, FILE_0, None),
    Made("make --out p 0", [0; 4], 0, NOTHING, Some(FILE_0)),
    Made("make --out p 4095", [0; 4], 0, NOTHING, Some(FILE_4095)),
    Made("make 4294967295", [0; 4], 0, FILE_4294967295, None),
];

#[test]
fn makes_files(rt: HostRuntime) -> Result<(), Fail> {
    all_made(rt.alloc(), FILES)
}

// Where out fails, half of the file stands there.
static HALF: &[Made] = &[Made("make 0", [0, 1, 0, 0], 127, (74760 / 2, None), None)];

#[test]
fn stops_at_a_put_that_fails(rt: HostRuntime) -> Result<(), Fail> {
    all_made(rt.alloc(), HALF)
}
