// A space against a plain list of places, at the last addresses, up to 2^32.
ghost use Rattle.std.specs.Prelude.{◌<◌};

use super::calls::{allows, copy, fetch, fill, first_break, load, map, read, store, write};
use rv_memory::{Rest, Space, StoreFault, Width};

const BASE: u32 = 0xffff_ff40;

const WORD: u32 = 0x8421_c639;

#[derive(Clone, Copy, Debug, PartialEq, Eq)]
struct Place {
    mapped: bool,
    byte: u8,
    writable: bool,
    runs: bool,
}

const NOWHERE: Place = Place {
    mapped: false,
    byte: 0,
    writable: false,
    runs: false,
};

#[derive(Drop)]
struct Plain {
    places: [Place; 192],
}

impl Plain {
    fn at(&self, addr: u64) -> Place {
        let at = addr.wrapping_sub(u64::from(BASE));
        if at < 192 {
            self.places[at as usize]
        } else {
            NOWHERE
        }
    }

    fn put(&mut self, addr: u64, place: Place) {
        let at = addr.wrapping_sub(u64::from(BASE));
        if at < 192 {
            self.places[at as usize] = place;
        }
    }

    fn number(&self, addr: u32, count: u32, running: bool) -> Option<u32> {
        let mut number: u32 = 0;
        for i in (0..count).rev() {
            let place = self.at(u64::from(addr) + u64::from(i));
            if !place.mapped || (running && !place.runs) {
                return None;
            }
            number = number.wrapping_mul(256).wrapping_add(u32::from(place.byte));
        }
        Some(number)
    }

    fn allows(&self, addr: u32, len: u32, writing: bool) -> bool {
        for i in 0..len {
            let place = self.at(u64::from(addr) + u64::from(i));
            if !place.mapped || (writing && !place.writable) {
                return false;
            }
        }
        u64::from(addr) + u64::from(len) <= 0x1_0000_0000
    }

    fn is_free(&self, from: u32, len: u32) -> bool {
        for i in 0..len {
            if self.at(u64::from(from) + u64::from(i)).mapped {
                return false;
            }
        }
        true
    }

    fn map(
        &mut self,
        (from, len): (u32, u32),
        first: &[u8],
        rest: Rest,
        (writable, runs): (bool, bool),
    ) {
        for i in 0..len {
            let byte = match first.get(i as usize) {
                Some(byte) => *byte,
                None => rest_byte(rest, from.wrapping_add(i)),
            };
            let place = Place {
                mapped: true,
                byte,
                writable,
                runs,
            };
            self.put(u64::from(from) + u64::from(i), place);
        }
    }

    fn fill(&mut self, addr: u32, len: u32, rest: Rest) {
        for i in 0..len {
            self.write(
                addr.wrapping_add(i),
                &[rest_byte(rest, addr.wrapping_add(i))],
            );
        }
    }

    fn copy(&mut self, from: u32, to: u32, len: u32) {
        for i in 0..len {
            let byte = self.at(u64::from(from) + u64::from(i)).byte;
            self.write(to.wrapping_add(i), &[byte]);
        }
    }

    // The first byte of a span that isn't the canary's.
    fn first_break(&self, addr: u32, len: u32) -> Option<u32> {
        for i in 0..len {
            let here = addr.wrapping_add(i);
            if self.at(u64::from(here)).byte != rest_byte(Rest::Canary(WORD), here) {
                return Some(here);
            }
        }
        None
    }

    fn write(&mut self, addr: u32, bytes: &[u8]) {
        for (i, byte) in bytes.iter().enumerate() {
            let addr = u64::from(addr).wrapping_add(i as u64);
            let mut place = self.at(addr);
            place.byte = *byte;
            self.put(addr, place);
        }
    }
}

// Fixed pseudo-random numbers.
#[derive(Drop)]
struct Dice(u32);

impl Dice {
    fn next(&mut self) -> u32 {
        let mut x = self.0;
        x ^= x << 13;
        x ^= x >> 17;
        x ^= x << 5;
        self.0 = x;
        x
    }

    fn below(&mut self, n: u32) -> u32
        requires { 0 < n }
        ensures { result < n }
    {
        self.next() % n
    }
}

fn rest_byte(rest: Rest, addr: u32) -> u8 {
    match rest {
        Rest::Zero => 0,
        Rest::Canary(word) => word.to_le_bytes()[(addr % 4) as usize],
    }
}

fn some_rest(dice: &mut Dice) -> Rest {
    match dice.below(4) {
        0 => Rest::Zero,
        1 => Rest::Canary(dice.next()),
        _ => Rest::Canary(WORD),
    }
}

fn some_bytes(dice: &mut Dice) -> [u8; 24] {
    let mut bytes = [0; 24];
    for i in 0..24 {
        bytes[i] = (dice.next() % 256) as u8;
    }
    bytes
}

fn some_addr(dice: &mut Dice) -> u32 {
    BASE + dice.below(192)
}

fn some_width(dice: &mut Dice) -> Width {
    match dice.below(3) {
        0 => Width::One,
        1 => Width::Two,
        _ => Width::Four,
    }
}

fn bytes_in(width: Width) -> u32 {
    match width {
        Width::One => 1,
        Width::Two => 2,
        Width::Four => 4,
    }
}

fn aligned(addr: u32, width: Width) -> u32 {
    match width {
        Width::One => addr,
        Width::Two => addr - addr % 2,
        Width::Four => addr - addr % 4,
    }
}

fn map_both(space: &mut Space, plain: &mut Plain, dice: &mut Dice) -> bool {
    let from = some_addr(dice);
    let len = dice.below(25).min((u32::MAX - from).saturating_add(1));
    let first = some_bytes(dice);
    let first = &first[..dice.below(25) as usize];
    let rest = some_rest(dice);
    let flags = (dice.below(3) > 0, dice.below(2) > 0);
    let lawful = first.len() <= len as usize && plain.is_free(from, len);
    if lawful {
        plain.map((from, len), first, rest, flags);
    }
    map(space, (from, len), first, rest, flags) == lawful
}

fn load_both(space: &Space, plain: &Plain, dice: &mut Dice) -> bool {
    let addr = some_addr(dice);
    let width = some_width(dice);
    let number = plain.number(aligned(addr, width), bytes_in(width), false);
    let word = plain.number(addr - addr % 4, 4, true);
    load(space, addr, width) == number && fetch(space, addr) == word
}

fn store_both(space: &mut Space, plain: &mut Plain, dice: &mut Dice) -> bool {
    let addr = some_addr(dice);
    let width = some_width(dice);
    let value = dice.next();
    let answer = store(space, addr, width, value);
    let from = aligned(addr, width);
    if !plain.allows(from, bytes_in(width), true) {
        return answer == Err(StoreFault::Unmapped);
    }
    let bytes = value.to_le_bytes();
    match width {
        Width::One => plain.write(from, &bytes[..1]),
        Width::Two => plain.write(from, &bytes[..2]),
        Width::Four => plain.write(from, &bytes),
    }
    answer == Ok(())
}

fn read_both(space: &Space, plain: &Plain, dice: &mut Dice) -> bool {
    let addr = some_addr(dice);
    let len = dice.below(25);
    let lawful = plain.allows(addr, len, false);
    let mut bytes = [0xee; 24];
    let is_read = read(space, addr, &mut bytes[..len as usize]);
    for i in 0..24u32 {
        let at_i = plain.at(u64::from(addr) + u64::from(i)).byte;
        let want = if lawful && i < len { at_i } else { 0xee };
        if bytes[i as usize] != want {
            return false;
        }
    }
    is_read == lawful
        && allows(space, addr, len, false) == lawful
        && allows(space, addr, len, true) == plain.allows(addr, len, true)
}

fn write_both(space: &mut Space, plain: &mut Plain, dice: &mut Dice) -> bool {
    let addr = some_addr(dice);
    let bytes = some_bytes(dice);
    let bytes = &bytes[..dice.below(25) as usize];
    let answer = write(space, addr, bytes);
    if !plain.allows(addr, bytes.len() as u32, true) {
        return answer == Err(StoreFault::Unmapped);
    }
    plain.write(addr, bytes);
    answer == Ok(())
}

fn fill_both(space: &mut Space, plain: &mut Plain, dice: &mut Dice) -> bool {
    let addr = some_addr(dice);
    let len = dice.below(25);
    let rest = some_rest(dice);
    let lawful = plain.allows(addr, len, false);
    if lawful {
        plain.fill(addr, len, rest);
    }
    fill(space, addr, len, rest) == lawful
}

fn copy_both(space: &mut Space, plain: &mut Plain, dice: &mut Dice) -> bool {
    let from = some_addr(dice);
    let to = some_addr(dice);
    let len = dice.below(25);
    let both = plain.allows(from, len, false) && plain.allows(to, len, false);
    let lawful = both && from.max(to) - from.min(to) >= len;
    if lawful {
        plain.copy(from, to, len);
    }
    copy(space, from, to, len) == lawful
}

fn search_both(space: &Space, plain: &Plain, dice: &mut Dice) -> bool {
    let addr = some_addr(dice);
    let len = dice.below(25);
    let found = first_break(space, addr, len, WORD);
    if !plain.allows(addr, len, false) {
        return found == None;
    }
    found == Some(plain.first_break(addr, len))
}

// Whether every byte, and whether it may be written to, is the same in both.
fn is_same(space: &Space, plain: &Plain) -> bool {
    for i in 0..192u32 {
        let addr = BASE + i;
        let number = plain.number(addr, 1, false);
        let writable = plain.allows(addr, 1, true);
        if load(space, addr, Width::One) != number || allows(space, addr, 1, true) != writable {
            return false;
        }
    }
    true
}

fn call_both(space: &mut Space, plain: &mut Plain, dice: &mut Dice) -> bool {
    match dice.below(8) {
        0 => map_both(space, plain, dice),
        1 => load_both(space, plain, dice),
        2 => store_both(space, plain, dice),
        3 => read_both(space, plain, dice),
        4 => write_both(space, plain, dice),
        5 => fill_both(space, plain, dice),
        6 => copy_both(space, plain, dice),
        _ => search_both(space, plain, dice),
    }
}

/// The number of the first of 300 calls after which both aren't the same, if there is one.
pub fn first_difference(space: &mut Space, seed: u32) -> Option<u32> {
    let mut plain = Plain {
        places: [NOWHERE; 192],
    };
    let mut dice = Dice(seed);
    for number in 0..300 {
        if !call_both(space, &mut plain, &mut dice) || !is_same(space, &plain) {
            return Some(number);
        }
    }
    None
}
