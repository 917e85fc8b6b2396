// The search for a slot, draw by draw.
ghost use Rattle.std.specs.Prelude.{◌<◌};
ghost use Rattle.exact_heap.specs.Heaps.{HasHome};

use super::guest::Call::{Free, Malloc};
use super::guest::{Guest, guest_with};
use super::model::Model;
use super::rows::{counts, ensure};
use super::{BASE, NO_PATCHES};
use std::alloc::{AllocError, Global};
use std::test::Fail;

// Objects of 256 bytes have a class with as many slots at first.
const SIZE: u32 = 256;

const SLOTS: usize = 256;

// The 64 words from here on name slots that are all held by then.
const BUSY: usize = 6000;

const DRAWS: usize = 64;

// The slots that the words of a seed draw, from word 1 on.
fn draws(alloc: Global, seed: u64) -> Result<Vec<u8>, AllocError> {
    let mut model = Model::new(alloc, seed);
    let mut numbers = Vec::new(alloc);
    for _ in 0..BUSY + 2 * DRAWS {
        numbers.push((model.word() % 256) as u8)?;
    }
    Ok(numbers)
}

// The slot that a word draws.
fn number(draws: &[u8], at: usize) -> usize
    ensures { result < 256 }
{
    match draws.get(at) {
        Some(number) => *number as usize,
        None => 0,
    }
}

// How many draws in a row find a held slot, 64 at most.
fn misses(draws: &[u8], spent: usize, held: &[bool; SLOTS]) -> usize {
    for made in 0..DRAWS {
        if !held[number(draws, spent.saturating_add(made))] {
            return made;
        }
    }
    DRAWS
}

// Places an object, which comes to lie in the slot of that number where one of fewer than 64 draws finds it.
fn place(guest: &mut Guest, number: usize) -> Result<u32, Fail>
    requires { HasHome guest.old.heap guest.old.space }
    ensures { HasHome guest.new.heap guest.new.space }
{
    let addr = guest.make(Malloc(SIZE, 1))?;
    let want = BASE.wrapping_add(SIZE.wrapping_mul((number % SLOTS) as u32));
    ensure(addr == want, "another slot")?;
    Ok(addr)
}

// Holds each slot that the busy words name, and frees what lies elsewhere, until 64 draws would miss.
// Answers how many words were spent.
fn fill(guest: &mut Guest, draws: &[u8], held: &mut [bool; SLOTS]) -> Result<usize, Fail>
    requires { HasHome guest.old.heap guest.old.space }
    ensures { HasHome guest.new.heap guest.new.space }
{
    let wanted = busy(draws);
    let mut spent = 0usize;
    for _ in 0..BUSY {
        let missed = misses(draws, spent, held);
        if missed == DRAWS {
            return Ok(spent);
        }
        spent = spent.saturating_add(missed);
        let found = number(draws, spent);
        spent = spent.saturating_add(1);
        let addr = place(guest, found)?;
        if wanted[found] {
            held[found] = true;
        } else {
            guest.make(Free(addr, 2))?;
        }
    }
    Ok(0)
}

// The slots that the busy words name.
fn busy(draws: &[u8]) -> [bool; SLOTS] {
    let mut wanted = [false; SLOTS];
    for at in BUSY..BUSY + DRAWS {
        wanted[number(draws, at)] = true;
    }
    wanted
}

// The next slot behind one, in cyclic order, that isn't held.
fn next_free(from: usize, held: &[bool; SLOTS]) -> usize {
    for step in 1..SLOTS {
        let number = from.wrapping_add(step) % SLOTS;
        if !held[number] {
            return number;
        }
    }
    from
}

fn miss_often(guest: &mut Guest, draws: &[u8]) -> Result<(), Fail>
    requires { HasHome guest.old.heap guest.old.space }
{
    let mut held = [false; SLOTS];
    let spent = fill(guest, draws, &mut held)?;
    ensure(misses(draws, spent, &held) == DRAWS, "64 misses")?;
    let last = number(draws, spent.saturating_add(DRAWS - 1));
    let next = next_free(last, &held);
    place(guest, next)?;
    if next < SLOTS {
        held[next] = true;
    }
    let spent = spent.saturating_add(DRAWS);
    let missed = misses(draws, spent, &held);
    place(guest, number(draws, spent.saturating_add(missed)))?;
    let [_, _, _, signals] = counts(guest);
    ensure(signals == 0, "no signals")
}

// After 64 draws of held slots the next free slot is taken, and the next call goes on with the words behind.
#[test]
fn takes_the_next_free_slot_after_64_draws(rt: HostRuntime) -> Result<(), Fail> {
    let draws = draws(rt.alloc(), 1)?;
    let mut guest = guest_with(rt.alloc(), 1, NO_PATCHES, false).ok_or("a guest")?;
    miss_often(&mut guest, &draws)
}
