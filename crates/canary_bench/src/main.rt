//! Fills a run of bytes with the canary, or looks through it, as often as its words say: what bench/canary.sh times.
#![tactic(auto)]

ghost use Rattle.std.specs.Prelude.{◌≡◌, length};

use diefast_canary::{fill, first_break};
use std::alloc::{AllocError, Global};
use std::env;
use std::process::ExitCode;
use std::rt::Env;

const WORD: u32 = 0x0a0b_0c0d;

// What is done over and over.
#[derive(Drop)]
enum Kernel {
    Fill,
    Check,
}

// So many turns of it over so many bytes.
#[derive(Drop)]
struct Job {
    kernel: Kernel,
    bytes: usize,
    turns: u32,
}

// The job of the words behind the program's name, as `check 4096 1000`. Without words it is a short one.
fn job_of<R: Env + AllocGlobal>(rt: &R) -> Option<Job> {
    let mut words = env::args(rt).ok()?.skip(1);
    let Some(kernel) = words.next() else {
        return Some(Job {
            kernel: Kernel::Check,
            bytes: 4096,
            turns: 10,
        });
    };
    let kernel = match kernel.as_str() {
        "fill" => Kernel::Fill,
        "check" => Kernel::Check,
        _ => return None,
    };
    Some(Job {
        kernel,
        bytes: words.next()?.parse::<usize>().ok()?,
        turns: words.next()?.parse::<u32>().ok()?,
    })
}

// Each turn begins at an address of its own, so that none is left out.
fn fill_often(bytes: &mut [u8], turns: u32) -> u32 {
    let mut done = 0u32;
    for turn in 0..turns {
        fill(bytes, WORD, turn);
        done = done.wrapping_add(1);
    }
    done
}

// How many turns found the run intact. All addresses have the same remainder modulo 4.
fn check_often(bytes: &[u8], turns: u32) -> u32 {
    let mut intact = 0u32;
    for turn in 0..turns {
        if first_break(bytes, WORD, turn << 2).is_none() {
            intact = intact.wrapping_add(1);
        }
    }
    intact
}

fn room(alloc: Global, count: usize) -> Result<Vec<u8>, AllocError> {
    let mut bytes = Vec::new(alloc);
    bytes.resize(count, 0)?;
    Ok(bytes)
}

fn main(rt: HostRuntime) -> ExitCode {
    let Some(job) = job_of(&rt) else {
        return ExitCode::from(2);
    };
    let Ok(mut bytes) = room(rt.alloc(), job.bytes) else {
        return ExitCode::from(1);
    };
    fill(&mut bytes, WORD, 0);
    let turns = match job.kernel {
        Kernel::Fill => fill_often(&mut bytes, job.turns),
        Kernel::Check => check_often(&bytes, job.turns),
    };
    match println!(&rt; "{turns}") {
        Ok(()) => ExitCode::from(0),
        Err(_) => ExitCode::from(3),
    }
}
