// An image as text.
ghost use Rattle.std.specs.Prelude.{◌≡◌, ◌≤◌, ◌<◌, ◌++◌, ◌∷◌, [], length, slice_index, EachIndex, string_bytes, codes, decimal, IfOk, OnOk};
ghost use Rattle.std.specs.List.{flat_map};
ghost use Rattle.hex_text.specs.Hex.{hex_of};
ghost use Rattle.miniheap.specs.Layout.{minis, mini_at};
ghost use Rattle.miniheap.specs.Places.{mini_of};
ghost use Rattle.heap_image.specs.Listing.{place_text, counts_text, head_line, mini_line, mini_lines, state_word, object_text, sites_text, owner_line, bad_line, row_line, break_line, text_of};

use crate::image::{Broken, Image};
use crate::reading::with_class;
use exact_heap::{Place, SlotRow};
use hex_text::digits_of;
use miniheap::{Miniheap, Places};
use std::alloc::{AllocError, Global};

impl Image {
    /// The image as lines of text: one of its numbers, then one for each miniheap, each row and each
    /// broken byte.
    pub fn text(&self, alloc: Global) -> Result<Vec<u8>, AllocError>
        ensures { IfOk result (λ text. text.items ≡ text_of self.now) }
    {
        let places = self.places(alloc)?;
        let line = self.head_line(alloc)?;
        let mut out = Vec::new(alloc);
        out.extend_from_slice(line.as_bytes())?;
        put_minis(alloc, &mut out, &places)?;
        put_rows(alloc, &mut out, &self.rows)?;
        put_breaks(alloc, &mut out, &self.broken)?;
        Ok(out)
    }

    /// Where the slots of its miniheaps lie.
    pub fn places(&self, alloc: Global) -> Result<Places, AllocError>
        ensures { IfOk result (λ places. places ≡ self.now.miniheaps) }
    {
        places_of(alloc, &self.miniheaps)
    }

    fn counts_text(&self, alloc: Global) -> Result<String, AllocError>
        ensures { IfOk result (λ text. string_bytes text ≡ counts_text self.now) }
    {
        let miniheaps = self.miniheaps.len();
        let rows = self.rows.len();
        let broken = self.broken.len();
        format!(in alloc; " miniheaps {miniheaps} rows {rows} broken {broken}")
    }

    #[tactic(auto, unfolding(crate::specs::Listing::head_line))]
    fn head_line(&self, alloc: Global) -> Result<String, AllocError>
        ensures { IfOk result (λ text. string_bytes text ≡ head_line self.now) }
    {
        let seed = self.seed;
        let clock = self.clock;
        let place = place_text(alloc, self.place)?;
        let counts = self.counts_text(alloc)?;
        format!(in alloc; "image seed {seed} place {place} clock {clock}{counts}\n")
    }
}

fn place_text(alloc: Global, place: Place) -> Result<String, AllocError>
    ensures { IfOk result (λ text. string_bytes text ≡ place_text place) }
{
    match place {
        Place::Call(n) => format!(in alloc; "{n}"),
        Place::End => format!(in alloc; "end"),
    }
}

// ---- miniheaps

fn places_of(alloc: Global, classes: &[u8]) -> Result<Places, AllocError>
    requires { EachIndex classes.now (λ k. (4 ≤ slice_index classes.now k) × (slice_index classes.now k ≤ 22)) }
    ensures { IfOk result (λ places. places ≡ classes.now) }
{
    let mut places = Places::new(alloc);
    for class in classes {
        places = with_class(places, *class)?;
    }
    Ok(places)
}

#[tactic(auto, using(hex_text::specs::Laws::eight_digits), unfolding(crate::specs::Listing::mini_line))]
fn mini_line(alloc: Global, number: usize, mini: &Miniheap) -> Result<String, AllocError>
    ensures { IfOk result (λ text. string_bytes text ≡ mini_line number (mini_of mini.now)) }
{
    let class = mini.class;
    let base = mini.base;
    let slots = mini.slots;
    format!(in alloc; "mini {number} class {class} base 0x{base:08x} slots {slots}\n")
}

fn put_mini(
    alloc: Global,
    out: &mut Vec<u8>,
    places: &Places,
    number: usize,
) -> Result<(), AllocError>
    requires { number < length places.now }
    ensures { OnOk result (out.new.items ≡ out.old.items ++ mini_line number (mini_at (minis places.now) number)) }
{
    let mini = match places.miniheap(number) {
        Some(mini) => mini,
        None => unreachable!(),
    };
    let line = mini_line(alloc, number, &mini)?;
    out.extend_from_slice(line.as_bytes())
}

fn put_minis(alloc: Global, out: &mut Vec<u8>, places: &Places) -> Result<(), AllocError>
    ensures { OnOk result (out.new.items ≡ out.old.items ++ mini_lines 0 (minis places.now)) }
{
    let count = places.classes().len();
    for number in 0..count {
        put_mini(alloc, out, places, number)?;
    }
    Ok(())
}

// ---- rows

fn state_word(state: u8) -> &'static str
    ensures { result.now ≡ state_word state }
{
    match state {
        0 => "owned",
        1 => "deferred",
        2 => "released",
        _ => "spoiled",
    }
}

fn object_text(alloc: Global, row: &SlotRow) -> Result<String, AllocError>
    ensures { IfOk result (λ text. string_bytes text ≡ object_text row.now) }
{
    let object = row.object;
    let size = row.size;
    let front = row.front;
    format!(in alloc; " object {object} size {size} front {front}")
}

#[tactic(auto, using(hex_text::specs::Laws::eight_digits))]
fn sites_text(alloc: Global, row: &SlotRow) -> Result<String, AllocError>
    ensures { IfOk result (λ text. string_bytes text ≡ sites_text row.now) }
{
    let site = row.site;
    let free_site = row.free_site;
    let freed = row.freed;
    format!(in alloc; " site {site:08x} free {free_site:08x} freed {freed}")
}

#[tactic(auto, using(hex_text::specs::Laws::eight_digits), unfolding(crate::specs::Listing::owner_line))]
fn owner_line(alloc: Global, row: &SlotRow) -> Result<String, AllocError>
    ensures { IfOk result (λ text. string_bytes text ≡ owner_line row.now) }
{
    let addr = row.addr;
    let state = state_word(row.state);
    let object = object_text(alloc, row)?;
    let sites = sites_text(alloc, row)?;
    format!(in alloc; "slot 0x{addr:08x} {state}{object}{sites}\n")
}

#[tactic(auto, using(hex_text::specs::Laws::eight_digits), unfolding(crate::specs::Listing::bad_line))]
fn bad_line(alloc: Global, addr: u32) -> Result<String, AllocError>
    ensures { IfOk result (λ text. string_bytes text ≡ bad_line addr) }
{
    format!(in alloc; "slot 0x{addr:08x} bad\n")
}

fn row_line(alloc: Global, row: &SlotRow) -> Result<String, AllocError>
    ensures { IfOk result (λ text. string_bytes text ≡ row_line row.now) }
{
    if row.state == 4 {
        bad_line(alloc, row.addr)
    } else {
        owner_line(alloc, row)
    }
}

fn put_rows(alloc: Global, out: &mut Vec<u8>, rows: &[SlotRow]) -> Result<(), AllocError>
    ensures { OnOk result (out.new.items ≡ out.old.items ++ flat_map row_line rows.now) }
{
    for row in rows {
        let line = row_line(alloc, row)?;
        out.extend_from_slice(line.as_bytes())?;
    }
    Ok(())
}

// ---- broken bytes

#[tactic(auto, unfolding(hex_text::specs::Hex::hex_of))]
fn two_digits(byte: u8) -> [u8; 2]
    ensures { result ≡ hex_of 2 byte }
{
    let digits = digits_of(u32::from(byte));
    [digits[6], digits[7]]
}

#[tactic(auto, using(hex_text::specs::Laws::eight_digits))]
fn addr_text(alloc: Global, addr: u32) -> Result<String, AllocError>
    ensures { IfOk result (λ text. string_bytes text ≡ codes "break 0x" ++ (hex_of 8 addr ++ codes " ")) }
{
    format!(in alloc; "break 0x{addr:08x} ")
}

#[tactic(auto, unfolding(crate::specs::Listing::break_line))]
fn put_break(alloc: Global, out: &mut Vec<u8>, broken: &Broken) -> Result<(), AllocError>
    ensures { OnOk result (out.new.items ≡ out.old.items ++ break_line broken.now) }
{
    let text = addr_text(alloc, broken.addr)?;
    out.extend_from_slice(text.as_bytes())?;
    out.extend_from_slice(&two_digits(broken.byte))?;
    out.push(b'\n')?;
    Ok(())
}

fn put_breaks(alloc: Global, out: &mut Vec<u8>, broken: &[Broken]) -> Result<(), AllocError>
    ensures { OnOk result (out.new.items ≡ out.old.items ++ flat_map break_line broken.now) }
{
    for b in broken {
        put_break(alloc, out, b)?;
    }
    Ok(())
}
