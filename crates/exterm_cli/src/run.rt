// The command `run`.
ghost use Rattle.std.specs.Prelude.{◌≡◌, ◌≤◌, ℕ, None, Some, false, drop, IfOk, IfSome, map, string_bytes};
ghost use Rattle.ex_io.specs.Tape.{input as unread};
ghost use Rattle.iterate.specs.Reruns.{first_image, printed_run};
ghost use Rattle.layout_run.specs.Outside.{held};
ghost use Rattle.exterm_cli.specs.Outside.{RaisesAs, faults};
ghost use Rattle.exterm_cli.specs.Parts.{KeepsPart, MayRun, Performs, RaisesFolder, guest_as, kept_as, name_as};
ghost use Rattle.exterm_cli.specs.Report.{report_of, ending_status};
ghost use Rattle.exterm_cli.specs.Run.{counts_of, image_bytes, image_file, imaged_plan, run_plan};
ghost use Rattle.exterm_cli.specs.Stages.{MayWrite};

use crate::cut::Cut;
use crate::guest::Accepted;
use crate::plan::{Kept, keep};
use crate::report::{HeapCounts, Verdict, verdict_of};
use ex_io::{Folder, Sink, Source, Tape};
use heap_image::Image;
use layout_run::{Ran, RunRefusal, run_one};
use patch_table::one_text_a_table;
use std::alloc::{AllocError, Global};

/// What the heap of a run has seen.
pub fn counts_of(ran: &Ran) -> HeapCounts
    ensures { result ≡ counts_of ran.now }
{
    HeapCounts {
        allocations: ran.clock,
        frees: ran.frees,
        signals: ran.signals,
    }
}

// What is told of a run.
fn verdict_on(alloc: Global, ran: &Ran) -> Result<Verdict, AllocError>
    ensures status { IfOk result (λ verdict. verdict.status ≡ ending_status ran.now.ending) }
    ensures report { IfOk result (λ verdict. string_bytes verdict.report ≡ report_of (counts_of ran.now) ran.now.ending ran.now.steps) }
{
    verdict_of(alloc, counts_of(ran), ran.ending, ran.steps)
}

// The bytes of an image. The text of its patches must be one that four bytes can count, as that of a file is which was taken.
fn bytes_of(alloc: Global, image: &Image) -> Result<Vec<u8>, AllocError>
    ensures { IfOk result (λ bytes. bytes.items ≡ image_bytes image.now) }
{
    one_text_a_table();
    let text = image.patches.write(alloc)?;
    if text.len() > 0xffff_ffff {
        return Err(AllocError);
    }
    image.write(alloc)
}

// The file that the image of a run is written to, where one is named.
fn file_of(
    alloc: Global,
    name: Option<String>,
    image: &Option<Image>,
) -> Result<Option<Kept>, AllocError>
    ensures { IfOk result (λ file. kept_as file ≡ image_file (name_as name) image.now) }
{
    let Some(name) = name else {
        return Ok(None);
    };
    let Some(image) = image else {
        return Ok(None);
    };
    let bytes = bytes_of(alloc, image)?;
    Ok(Some(Kept { name, bytes }))
}

// Writes the image of a run, where a file is named for it, and says what is told.
fn finish<F: Folder>(
    alloc: Global,
    ran: &Ran,
    image: Option<String>,
    files: &mut F,
) -> Result<Verdict, Cut>
    ensures status { IfOk result (λ verdict. verdict.status ≡ ending_status ran.now.ending) }
    ensures report { IfOk result (λ verdict. string_bytes verdict.report ≡ report_of (counts_of ran.now) ran.now.ending ran.now.steps) }
    ensures keeps { IfSome (F.files files.old) (λ told. KeepsPart (image_file (name_as image) ran.now.image) result told (F.files files.new)) }
    ensures cause { RaisesFolder result (F.faults files.old) (F.faults files.new) }
{
    let Ok(verdict) = verdict_on(alloc, ran) else {
        return Err(Cut::Memory);
    };
    let Ok(file) = file_of(alloc, image, &ran.image) else {
        return Err(Cut::Memory);
    };
    match keep(&file, files) {
        Ok(()) => Ok(verdict),
        Err(cut) => Err(cut),
    }
}

// Runs a guest on the input of a tape.
fn run_on<S: Source, O: Sink, E: Sink, F: Folder>(
    alloc: Global,
    accepted: Accepted,
    image: Option<String>,
    tape: &mut Tape,
    input: &mut S,
    out: &mut O,
    err: &mut E,
    files: &mut F,
) -> Result<Verdict, Cut>
    requires may { MayRun (guest_as accepted) }
    requires keep { tape.old.keep ≡ false }
    requires going { tape.old.refused ≡ false }
    requires begun { tape.old.high ≡ 0 }
    ensures performs { IfSome (unread tape.old (S.left input.old)) (λ bytes. IfSome (F.files files.old) (λ told.
        Performs (imaged_plan (printed_run (guest_as accepted) bytes) (name_as image) (first_image (guest_as accepted) bytes)) result
        (held (O.held out.old) (E.held err.old)) (held (O.held out.new) (E.held err.new)) told (F.files files.new))) }
    ensures left { IfSome (unread tape.old (S.left input.old)) (λ bytes. IfOk result (λ verdict. S.left input.new ≡ Some (drop (printed_run (guest_as accepted) bytes).place bytes))) }
    ensures writes { IfSome (F.files files.old) (λ told. MayWrite (name_as image) told (F.files files.new)) }
    ensures cause { RaisesAs result (faults (S.faults input.old) (O.faults out.old) (E.faults err.old) (F.faults files.old)) (faults (S.faults input.new) (O.faults out.new) (E.faults err.new) (F.faults files.new)) }
{
    let Accepted {
        program,
        args,
        settings,
        budget,
        ..
    } = accepted;
    let imaged = image.is_some();
    match run_one(
        alloc,
        program,
        args.as_slice(),
        settings,
        budget,
        tape,
        input,
        out,
        err,
        None,
        imaged,
    ) {
        Ok(ran) => {
            tape.has_answered();
            finish(alloc, &ran, image, files)
        }
        Err(RunRefusal::Memory) => Err(Cut::Memory),
        Err(RunRefusal::Source) => Err(Cut::Input),
        Err(RunRefusal::Out) => Err(Cut::Output),
        Err(RunRefusal::Err) => Err(Cut::Error),
        Err(RunRefusal::Input) => unreachable!(),
    }
}

/// Runs a guest, which takes of the input what it reads, and writes its image where a file is named for it.
pub fn run<S: Source, O: Sink, E: Sink, F: Folder>(
    alloc: Global,
    accepted: Accepted,
    image: Option<String>,
    input: &mut S,
    out: &mut O,
    err: &mut E,
    files: &mut F,
) -> Result<Verdict, Cut>
    requires may { MayRun (guest_as accepted) }
    ensures performs { IfSome (S.left input.old) (λ bytes. IfSome (F.files files.old) (λ told. Performs (run_plan (guest_as accepted) (name_as image) bytes) result
        (held (O.held out.old) (E.held err.old)) (held (O.held out.new) (E.held err.new)) told (F.files files.new))) }
    ensures left { IfSome (S.left input.old) (λ bytes. IfOk result (λ verdict. S.left input.new ≡ Some (drop (printed_run (guest_as accepted) bytes).place bytes))) }
    ensures writes { IfSome (F.files files.old) (λ told. MayWrite (name_as image) told (F.files files.new)) }
    ensures cause { RaisesAs result (faults (S.faults input.old) (O.faults out.old) (E.faults err.old) (F.faults files.old)) (faults (S.faults input.new) (O.faults out.new) (E.faults err.new) (F.faults files.new)) }
{
    let Ok(mut tape) = Tape::new(alloc, input, false) else {
        return Err(Cut::Memory);
    };
    run_on(alloc, accepted, image, &mut tape, input, out, err, files)
}
