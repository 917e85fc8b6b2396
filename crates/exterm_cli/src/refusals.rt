// How words and files are refused.
ghost use Rattle.std.specs.Prelude.{◌≡◌, IfErr, IfOk, codes, string_bytes};
ghost use Rattle.exterm_cli.specs.Parts.{Refuses};
ghost use Rattle.exterm_cli.specs.Plan.{refusal};
ghost use Rattle.exterm_cli.specs.Refusals.{absent, elf_text, image_text, isolate_text, kind_text, mixed_images, name_text, no_image_in, no_patches_in, not_isolated, no_program, patches_text, too_long, unbuilt, words_text, wrong_words, long_input};

use crate::cut::{Cut, Stop};
use crate::report::{Verdict, line};
use crate::words::{Kind, Refusal};
use heap_image::{ImageRefusal, IsoRefusal};
use infinite_heap::ElfRefusal;
use patch_table::PatchRefusal;
use std::alloc::{AllocError, Global};

// A status with its one line, whose text was made.
fn refuse(alloc: Global, status: u8, text: Result<String, AllocError>) -> Stop
    ensures refuses { IfOk text (λ t. Refuses (refusal status (string_bytes t)) result) }
    ensures memory { IfErr text (λ e. result ≡ Stop.CutShort Cut.Memory) }
{
    let Ok(text) = text else {
        return Stop::CutShort(Cut::Memory);
    };
    match line(alloc, text.as_str()) {
        Ok(report) => Stop::Refused(Verdict { status, report }),
        Err(_) => Stop::CutShort(Cut::Memory),
    }
}

// A status with its one line.
fn refuse_as(alloc: Global, status: u8, text: &str) -> Stop
    ensures { Refuses (refusal status text.now) result }
{
    match line(alloc, text) {
        Ok(report) => Stop::Refused(Verdict { status, report }),
        Err(_) => Stop::CutShort(Cut::Memory),
    }
}

fn kind_text(kind: Kind) -> &'static str
    ensures { result.now ≡ kind_text kind }
{
    match kind {
        Kind::Command => "command",
        Kind::Unknown => "unknown",
        Kind::Repeat => "repeat",
        Kind::Value => "value",
        Kind::Name => "name",
        Kind::Excess => "excess",
        Kind::Guest => "guest",
        Kind::Missing => "missing",
    }
}

fn words_text(alloc: Global, refusal: Refusal) -> Result<String, AllocError>
    ensures { IfOk result (λ text. string_bytes text ≡ words_text refusal) }
{
    let place = refusal.place;
    let kind = kind_text(refusal.kind);
    format!(in alloc; "words {place} {kind}")
}

fn elf_text(refusal: ElfRefusal) -> &'static str
    ensures { result.now ≡ elf_text refusal }
{
    match refusal {
        ElfRefusal::Short => "elf short",
        ElfRefusal::Magic => "elf magic",
        ElfRefusal::Class => "elf class",
        ElfRefusal::Kind => "elf kind",
        ElfRefusal::Machine => "elf machine",
        ElfRefusal::Flags => "elf flags",
        ElfRefusal::Headers => "elf headers",
        ElfRefusal::Dynamic => "elf dynamic",
        ElfRefusal::Region => "elf region",
        ElfRefusal::Overlap => "elf overlap",
        ElfRefusal::Total => "elf total",
        ElfRefusal::Entry => "elf entry",
        ElfRefusal::Symbols => "elf symbols",
        ElfRefusal::Memory => "memory",
    }
}

fn patches_text(alloc: Global, k: u64, refusal: PatchRefusal) -> Result<String, AllocError>
    ensures { IfOk result (λ text. string_bytes text ≡ patches_text k refusal) }
{
    match refusal {
        PatchRefusal::Head => format!(in alloc; "patches {k} head"),
        PatchRefusal::Line { n } => format!(in alloc; "patches {k} line {n}"),
        PatchRefusal::Limit { n } => format!(in alloc; "patches {k} limit line {n}"),
        PatchRefusal::Order { n } => format!(in alloc; "patches {k} order line {n}"),
        PatchRefusal::Memory => format!(in alloc; "memory"),
    }
}

fn image_text(alloc: Global, k: u64, refusal: ImageRefusal) -> Result<String, AllocError>
    ensures { IfOk result (λ text. string_bytes text ≡ image_text k refusal) }
{
    match refusal {
        ImageRefusal::Head => format!(in alloc; "image {k} head"),
        ImageRefusal::Short => format!(in alloc; "image {k} short"),
        ImageRefusal::Bad { at } => format!(in alloc; "image {k} bad at {at}"),
        ImageRefusal::Tail => format!(in alloc; "image {k} tail"),
        ImageRefusal::Memory => format!(in alloc; "memory"),
    }
}

fn isolate_text(refusal: IsoRefusal) -> &'static str
    ensures { result.now ≡ isolate_text refusal }
{
    match refusal {
        IsoRefusal::Few => "isolate few",
        IsoRefusal::Mixed => "isolate mixed",
        IsoRefusal::Memory => "memory",
    }
}

fn absent_text(alloc: Global, place: usize) -> Result<String, AllocError>
    ensures { IfOk result (λ text. string_bytes text ≡ name_text place (codes " absent")) }
{
    format!(in alloc; "name {place} absent")
}

fn long_text(alloc: Global, place: usize) -> Result<String, AllocError>
    ensures { IfOk result (λ text. string_bytes text ≡ name_text place (codes " long")) }
{
    format!(in alloc; "name {place} long")
}

/// The command or the option isn't built.
pub fn unbuilt(alloc: Global) -> Stop
    ensures { Refuses unbuilt result }
{
    refuse_as(alloc, 114, "unbuilt")
}

/// The words are wrong.
pub fn wrong_words(alloc: Global, refusal: Refusal) -> Stop
    ensures { Refuses (wrong_words refusal) result }
{
    refuse(alloc, 120, words_text(alloc, refusal))
}

/// No file has the name that word `place` is, from 1.
pub fn absent(alloc: Global, place: usize) -> Stop
    ensures { Refuses (absent place) result }
{
    refuse(alloc, 113, absent_text(alloc, place))
}

/// The file that word `place` names has more bytes than may be taken.
pub fn too_long(alloc: Global, place: usize) -> Stop
    ensures { Refuses (too_long place) result }
{
    refuse(alloc, 113, long_text(alloc, place))
}

/// The file is no program.
pub fn no_program(alloc: Global, refusal: ElfRefusal) -> Stop
    ensures { Refuses (no_program refusal) result }
{
    refuse_as(alloc, 121, elf_text(refusal))
}

/// The file is no patch text, file `k` among the command's patch files from 1.
pub fn no_patches_in(alloc: Global, k: u64, refusal: PatchRefusal) -> Stop
    ensures { Refuses (no_patches_in k refusal) result }
{
    refuse(alloc, 122, patches_text(alloc, k, refusal))
}

/// The file is no image, file `k` among the command's images from 1.
pub fn no_image_in(alloc: Global, k: u64, refusal: ImageRefusal) -> Stop
    ensures { Refuses (no_image_in k refusal) result }
{
    refuse(alloc, 119, image_text(alloc, k, refusal))
}

/// The images are too few, or of different runs.
pub fn not_isolated(alloc: Global, refusal: IsoRefusal) -> Stop
    ensures { Refuses (not_isolated refusal) result }
{
    refuse_as(alloc, 117, isolate_text(refusal))
}

/// The images of runs can't be compared.
pub fn mixed_images(alloc: Global) -> Stop
    ensures { Refuses mixed_images result }
{
    not_isolated(alloc, IsoRefusal::Mixed)
}

/// The input is too long.
pub fn long_input(alloc: Global) -> Stop
    ensures { Refuses long_input result }
{
    refuse_as(alloc, 116, "input")
}
