// The command `isolate`.
ghost use Rattle.std.specs.Prelude.{◌≡◌, ◌+◌, ◌<◌, ◌^◌, ℕ, List, [], Option, Ok, IfOk, IfSome, MatchResult, map, string_bytes};
ghost use Rattle.heap_image.specs.Agreement.{IsRefused};
ghost use Rattle.iterate.specs.Isolated.{IsIsolated};
ghost use Rattle.exterm_cli.specs.Isolate.{IsIsolation, isolation, patches_of};
ghost use Rattle.layout_run.specs.Outside.{held};
ghost use Rattle.exterm_cli.specs.Outside.{RaisesAs, faults};
ghost use Rattle.exterm_cli.specs.Parts.{IsPlanned, IsSettled, PerformsOn, RaisesFolder, StopsFolder, name_as, plan_as};
ghost use Rattle.exterm_cli.specs.Plan.{Isolates};
ghost use Rattle.exterm_cli.specs.Taking.{ReadsFiles, ReadsImage};

use crate::cut::{Cut, Stop};
use crate::plan::{Plan, given_to, refused, settle};
use crate::refusals::not_isolated;
use crate::report::{FoundCounts, Verdict, images_line};
use crate::taking::image_of_word;
use crate::words::FileWords;
use ex_io::{Folder, Sink};
use heap_image::{Image, IsoRefusal};
use iterate::{Isolated, images_isolate_one_table};
use std::alloc::{AllocError, Global};

/// Takes and reads the command's images, one after the other.
pub fn images_of<F: Folder>(
    alloc: Global,
    words: &[String],
    names: FileWords,
    files: &mut F,
) -> Result<Vec<Image>, Stop>
    requires { names.first + names.count < 2 ^ 63 }
    ensures reads { IfSome (F.files files.old) (λ told. IsPlanned (λ images. images.items) (ReadsFiles ReadsImage (map string_bytes words.now) told names.count names.first 1) result) }
    ensures files { F.files files.new ≡ F.files files.old }
    ensures cause { StopsFolder result (F.faults files.old) (F.faults files.new) }
{
    let mut images = Vec::new(alloc);
    for i in 0..names.count {
        match image_of_word(alloc, words, names.first + i, i as u64 + 1, files) {
            Ok(image) => match images.push(image) {
                Ok(()) => {}
                Err(_) => return Err(Stop::CutShort(Cut::Memory)),
            },
            Err(stop) => return Err(stop),
        }
    }
    Ok(images)
}

// What the images call for beside the patches that their runs had.
fn isolated(alloc: Global, images: &[Image]) -> Result<Isolated, IsoRefusal>
    ensures { MatchResult result (IsIsolated images.now (patches_of images.now)) (IsRefused images.now) }
{
    match images.first() {
        None => Err(IsoRefusal::Few),
        Some(image) => iterate::isolate(alloc, images, &image.patches),
    }
}

// The plan of what was isolated from so many images.
fn plan_of(
    alloc: Global,
    images: usize,
    isolated: Isolated,
    to: Option<String>,
) -> Result<Plan, AllocError>
    ensures { IfOk result (λ plan. plan_as plan ≡ isolation (name_as to) images (Ok isolated)) }
{
    let text = isolated.patches.write(alloc)?;
    let found = FoundCounts {
        images: images as u64,
        pads: isolated.pads,
        defers: isolated.defers,
    };
    let report = images_line(alloc, found)?;
    Ok(given_to(alloc, to, text, report))
}

// What images lead to, or how they are refused.
fn isolated_plan(alloc: Global, images: &[Image], to: Option<String>) -> Result<Plan, Stop>
    ensures isolates { IsSettled (IsIsolation images.now (name_as to)) result }
    ensures memory { StopsFolder result 0 0 }
{
    match isolated(alloc, images) {
        Ok(isolated) => match plan_of(alloc, images.len(), isolated, to) {
            Ok(plan) => Ok(plan),
            Err(_) => Err(Stop::CutShort(Cut::Memory)),
        },
        Err(IsoRefusal::Memory) => Err(Stop::CutShort(Cut::Memory)),
        Err(refusal) => Err(not_isolated(alloc, refusal)),
    }
}

// The same, with what is told of a refusal.
fn isolation(alloc: Global, images: &[Image], to: Option<String>) -> Result<Plan, Cut>
    ensures isolates { IfOk result (λ plan. IsIsolation images.now (name_as to) (plan_as plan)) }
    ensures memory { RaisesFolder result 0 0 }
{
    match isolated_plan(alloc, images, to) {
        Ok(plan) => Ok(plan),
        Err(Stop::Refused(verdict)) => Ok(refused(alloc, verdict)),
        Err(Stop::CutShort(cut)) => Err(cut),
    }
}

/// Prints the text of the patches that images call for, or writes it to the file of a name, and says what is to be told.
pub fn isolate<O: Sink, F: Folder>(
    alloc: Global,
    images: &[Image],
    to: Option<String>,
    out: &mut O,
    files: &mut F,
) -> Result<Verdict, Cut>
    ensures performs { IfSome (F.files files.old) (λ told. (err : Option (List ℕ)) → PerformsOn (Isolates images.now (name_as to)) [] result (held (O.held out.old) err) (held (O.held out.new) err) told (F.files files.new)) }
    ensures cause { (input err : ℕ) → RaisesAs result (faults input (O.faults out.old) err (F.faults files.old)) (faults input (O.faults out.new) err (F.faults files.new)) }
{
    images_isolate_one_table();
    match isolation(alloc, images, to) {
        Ok(plan) => settle(plan, out, files),
        Err(cut) => Err(cut),
    }
}
