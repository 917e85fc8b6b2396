// Many calls and stray stores, against the rules over plain lists.
ghost use Rattle.exact_heap.specs.Heaps.{HasHome};

use super::BASE;
use super::guest::Call::{Calloc, Free, Malloc, Memalign, Realloc};
use super::guest::{Call, Guest, guest_with};
use super::model::Model;
use super::rows::{counts, ensure};
use std::alloc::{AllocError, Global};
use std::test::Fail;

// What a word stands for: a call that names an object seen earlier, or nothing, for a stray store.
fn drawn_call(word: u32, seen: u32) -> Option<Call> {
    let site = 1 + (word >> 10) % 4;
    let size = 100 + (word >> 12) % 300;
    let old = seen.wrapping_add((word >> 21) % 17 / 16);
    match word % 16 {
        0..=2 => Some(Malloc(size, site)),
        3 | 4 => {
            let align = (1 << ((word >> 8) % 8)) + (word >> 24) / 255;
            Some(Memalign(align, size, site))
        }
        5 => Some(Calloc(size, size * 1024, site)),
        6 | 7 => Some(Calloc(size % 8, size, site)),
        8 | 9 => Some(Realloc(old, size, site)),
        10..=14 => Some(Free(old, 5 + site % 2)),
        _ => None,
    }
}

// A call on both, whose answers have to be the same. A place of what was seen keeps the last address.
fn call_both(guest: &mut Guest, model: &mut Model, call: Call, seen: &mut u32) -> Result<(), Fail>
    requires { HasHome guest.old.heap guest.old.space }
    ensures { HasHome guest.new.heap guest.new.space }
{
    let addr = guest.make(call)?;
    ensure(addr == model.make(call)?, "another answer")?;
    if addr != 0 {
        *seen = addr;
    }
    Ok(())
}

// A store of 0x77 somewhere in the miniheaps.
fn store_both(guest: &mut Guest, model: &mut Model, word: u32) -> Result<(), Fail>
    requires { HasHome guest.old.heap guest.old.space }
    ensures { HasHome guest.new.heap guest.new.space }
{
    let len = model.bytes.len();
    if len == 0 {
        return Ok(());
    }
    let at = word as usize % len;
    let addr = BASE.wrapping_add((at % 0x4000_0000) as u32);
    model.poke(at, 0x77);
    ensure(guest.store(addr, 0x77), "a store is refused")
}

fn play(guest: &mut Guest, model: &mut Model, dice: &mut Model) -> Result<(), Fail>
    requires { HasHome guest.old.heap guest.old.space }
    ensures { HasHome guest.new.heap guest.new.space }
{
    let mut seen = [0u32; 64];
    for _ in 0..10_000 {
        let word = dice.word();
        let place = (word >> 4) as usize % 64;
        match drawn_call(word, seen[place]) {
            Some(call) => call_both(guest, model, call, &mut seen[place])?,
            None => store_both(guest, model, word >> 4)?,
        }
    }
    Ok(())
}

fn same_counts(guest: &Guest, model: &Model) -> bool {
    let signals = model.signals.len();
    counts(guest) == [model.clock, model.frees, model.calls, signals as u64]
        && guest.heap.signals() == &model.signals[..signals.min(64)]
}

fn same_rows(alloc: Global, guest: &Guest, model: &Model) -> Result<bool, AllocError> {
    Ok(guest.heap.rows()?.as_slice() == model.rows(alloc)?.as_slice())
}

fn same_bytes(alloc: Global, guest: &Guest, model: &Model) -> Result<bool, AllocError> {
    let mut bytes = vec![in alloc; 0u8; model.bytes.len()]?;
    let is_read = guest.space.span_read(BASE, &mut bytes).is_ok();
    Ok(is_read && bytes.as_slice() == model.bytes.as_slice())
}

fn compare(alloc: Global, guest: &Guest, model: &Model) -> Result<(), Fail> {
    ensure(same_counts(guest, model), "other counts or signals")?;
    ensure(same_rows(alloc, guest, model)?, "other rows")?;
    ensure(same_bytes(alloc, guest, model)?, "other bytes")
}

// Pads for the sites 1 and 3, fronts for 2 and 3, and deferrals; the model's are the same.
const PATCHES: &[u8] = b"exterm-patches 2
pad 00000001 5
pad 00000003 40
front 00000002 48
front 00000003 16
defer 00000001 00000005 3
defer 00000003 00000006 1
";

#[test]
fn follows_the_rules(rt: HostRuntime) -> Result<(), Fail> {
    let alloc = rt.alloc();
    let mut guest = guest_with(alloc, 7, PATCHES, false).ok_or("a guest")?;
    let mut model = Model::new(alloc, 7);
    play(&mut guest, &mut model, &mut Model::new(alloc, 99))?;
    compare(alloc, &guest, &model)?;
    guest.end();
    model.end()?;
    compare(alloc, &guest, &model)
}
