// The instructions of a program as text.
ghost use Rattle.std.specs.Prelude.{◌≡◌, ◌++◌, ◌∷◌, [], ◌+◌, ◌*◌, ◌≤◌, All, slice_index, string_bytes, codes, IfOk, OnOk};
ghost use Rattle.infinite_heap.specs.Region.{region_from};
ghost use Rattle.infinite_heap.specs.Row.{row};
ghost use Rattle.hex_text.specs.Hex.{hex_of};
ghost use Rattle.exterm_cli.specs.Listing.{byte_in, instr_text, lines_from, listing, segment_lines, word_in, word_line};

use infinite_heap::Segment;
use rv_decode::{decode, show};
use std::alloc::{AllocError, Global};

// The instruction that a word is, as text.
fn instr_text(alloc: Global, addr: u32, word: u32) -> Result<String, AllocError>
    ensures { IfOk result (λ text. string_bytes text ≡ instr_text (row word) addr) }
{
    match decode(word) {
        Some(instr) => show(alloc, &instr, addr),
        None => format!(in alloc; "word"),
    }
}

#[tactic(auto, using(hex_text::specs::Laws::eight_digits), unfolding(crate::specs::Listing::word_line))]
fn word_line(alloc: Global, addr: u32, word: u32) -> Result<String, AllocError>
    ensures { IfOk result (λ text. string_bytes text ≡ word_line addr word) }
{
    let text = instr_text(alloc, addr, word)?;
    format!(in alloc; "{addr:08x}: {word:08x} {text}\n")
}

/// The byte at a place, zero behind the last.
pub fn byte_at(bytes: &[u8], place: usize) -> u8
    ensures { result ≡ slice_index bytes.now place }
{
    if place < bytes.len() { bytes[place] } else { 0 }
}

// The word at an address of a segment.
fn word_in(segment: &Segment, addr: u32) -> u32
    requires low { segment.now.from ≤ addr }
    requires high { addr + 4 ≤ region_from }
    ensures { result ≡ word_in segment.now addr }
{
    let bytes = segment.bytes.as_slice();
    let place = (addr - segment.from) as usize;
    u32::from(byte_at(bytes, place))
        + 256 * u32::from(byte_at(bytes, place + 1))
        + 65536 * u32::from(byte_at(bytes, place + 2))
        + 16777216 * u32::from(byte_at(bytes, place + 3))
}

// Adds the lines of so many words.
fn push_lines(
    alloc: Global,
    text: &mut String,
    segment: &Segment,
    from: u32,
    count: u32,
) -> Result<(), AllocError>
    requires low { segment.now.from ≤ from }
    requires high { from + 4 * count ≤ region_from }
    ensures { OnOk result (string_bytes text.new ≡ string_bytes text.old ++ lines_from segment.now from count) }
{
    for i in 0..count {
        let addr = from + 4 * i;
        let line = word_line(alloc, addr, word_in(segment, addr))?;
        text.push_str(line.as_str())?;
    }
    Ok(())
}

// Adds the lines of a segment that runs.
fn push_segment(alloc: Global, text: &mut String, segment: &Segment) -> Result<(), AllocError>
    requires { segment.now.from + segment.now.len ≤ region_from }
    ensures { OnOk result (string_bytes text.new ≡ string_bytes text.old ++ segment_lines segment.now) }
{
    if !segment.runs {
        return Ok(());
    }
    let first = (segment.from + 3) / 4 * 4;
    let end = segment.from + segment.len;
    push_lines(alloc, text, segment, first, end.saturating_sub(first) / 4)
}

/// The instructions of the segments that run, a line a word.
pub fn listing(alloc: Global, segments: &[Segment]) -> Result<String, AllocError>
    requires { All (λ s. s.from + s.len ≤ region_from) segments.now }
    ensures { IfOk result (λ text. string_bytes text ≡ listing segments.now) }
{
    let mut text = String::new(alloc);
    for segment in segments {
        push_segment(alloc, &mut text, segment)?;
    }
    Ok(text)
}
