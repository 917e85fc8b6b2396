// The command `repair`.
ghost use Rattle.std.specs.Prelude.{◌≡◌, Some, IfOk, IfSome, string_bytes};
ghost use Rattle.layout_run.specs.Outside.{held};
ghost use Rattle.patch_table.specs.Spelling.{spelling};
ghost use Rattle.patch_table.specs.declared.line.Version.TheVariants.{Two};
ghost use Rattle.exterm_cli.specs.Outside.{RaisesAs, faults};
ghost use Rattle.exterm_cli.specs.Parts.{KeepsPart, MayRepair, PerformsOn, RaisesFolder, guest_as, kept_as};
ghost use Rattle.exterm_cli.specs.Plan.{Repairs};
ghost use Rattle.exterm_cli.specs.Repair.{repair_report};
ghost use Rattle.exterm_cli.specs.Report.{ending_status};
ghost use Rattle.exterm_cli.specs.Stages.{LeavesInput, MayWrite};

use crate::cut::Cut;
use crate::guest::Accepted;
use crate::plan::{Kept, keep};
use crate::refusals::{long_input, mixed_images};
use crate::report::{FoundCounts, Verdict, repair_verdict_of};
use crate::run::counts_of;
use ex_io::{Folder, Sink, Source};
use iterate::{RepairRefusal, Repaired, images_isolate_one_table};
use layout_run::{RunRefusal, places_in_the_input_rise};
use std::alloc::{AllocError, Global};

// What is told of a repair.
fn verdict_on(alloc: Global, repaired: &Repaired) -> Result<Verdict, AllocError>
    ensures status { IfOk result (λ verdict. verdict.status ≡ ending_status repaired.now.ran.ending) }
    ensures report { IfOk result (λ verdict. string_bytes verdict.report ≡ repair_report repaired.now) }
{
    let found = FoundCounts {
        images: repaired.images as u64,
        pads: repaired.pads,
        defers: repaired.defers,
    };
    let ran = &repaired.ran;
    repair_verdict_of(alloc, counts_of(ran), found, ran.ending, ran.steps)
}

// The file that the patches are written to.
fn file_of(alloc: Global, repaired: &Repaired, to: String) -> Result<Option<Kept>, AllocError>
    ensures { IfOk result (λ file. kept_as file ≡ Some (record { name = string_bytes to; bytes = spelling Two repaired.now.patches })) }
{
    let bytes = repaired.patches.write(alloc)?;
    Ok(Some(Kept { name: to, bytes }))
}

// Writes the patches, and says what is told.
fn finish<F: Folder>(
    alloc: Global,
    repaired: &Repaired,
    to: String,
    files: &mut F,
) -> Result<Verdict, Cut>
    ensures status { IfOk result (λ verdict. verdict.status ≡ ending_status repaired.now.ran.ending) }
    ensures report { IfOk result (λ verdict. string_bytes verdict.report ≡ repair_report repaired.now) }
    ensures keeps { IfSome (F.files files.old) (λ told. KeepsPart (Some (record { name = string_bytes to; bytes = spelling Two repaired.now.patches })) result told (F.files files.new)) }
    ensures cause { RaisesFolder result (F.faults files.old) (F.faults files.new) }
{
    let Ok(verdict) = verdict_on(alloc, repaired) else {
        return Err(Cut::Memory);
    };
    let Ok(file) = file_of(alloc, repaired, to) else {
        return Err(Cut::Memory);
    };
    match keep(&file, files) {
        Ok(()) => Ok(verdict),
        Err(cut) => Err(cut),
    }
}

/// Runs a guest, and where its heap has a signal, isolates what images of this and of further runs show. The patches are
/// written to the file of the name `to`. The input is taken as the runs read it, and where they read more than is kept, that is told.
pub fn repair<S: Source, O: Sink, E: Sink, F: Folder>(
    alloc: Global,
    accepted: Accepted,
    images: u8,
    to: String,
    input: &mut S,
    out: &mut O,
    err: &mut E,
    files: &mut F,
) -> Result<Verdict, Cut>
    requires may { MayRepair accepted images }
    ensures performs { IfSome (S.left input.old) (λ bytes. IfSome (F.files files.old) (λ told. PerformsOn (Repairs (guest_as accepted) images (string_bytes to)) bytes result
        (held (O.held out.old) (E.held err.old)) (held (O.held out.new) (E.held err.new)) told (F.files files.new))) }
    ensures left { IfSome (S.left input.old) (λ bytes. IfOk result (λ verdict. LeavesInput (Repairs (guest_as accepted) images (string_bytes to)) bytes (S.left input.new))) }
    ensures writes { IfSome (F.files files.old) (λ told. MayWrite (Some (string_bytes to)) told (F.files files.new)) }
    ensures cause { RaisesAs result (faults (S.faults input.old) (O.faults out.old) (E.faults err.old) (F.faults files.old)) (faults (S.faults input.new) (O.faults out.new) (E.faults err.new) (F.faults files.new)) }
{
    images_isolate_one_table();
    places_in_the_input_rise();
    let Accepted {
        file,
        args,
        settings,
        budget,
        ..
    } = accepted;
    match iterate::repair(
        alloc,
        file.as_slice(),
        args.as_slice(),
        settings,
        budget,
        images,
        input,
        out,
        err,
    ) {
        Ok(repaired) => finish(alloc, &repaired, to, files),
        Err(RepairRefusal::Mixed) => mixed_images(alloc).told(),
        Err(RepairRefusal::Run(RunRefusal::Input)) => long_input(alloc).told(),
        Err(RepairRefusal::Run(RunRefusal::Memory)) => Err(Cut::Memory),
        Err(RepairRefusal::Run(RunRefusal::Source)) => Err(Cut::Input),
        Err(RepairRefusal::Run(RunRefusal::Out)) => Err(Cut::Output),
        Err(RepairRefusal::Run(RunRefusal::Err)) => Err(Cut::Error),
    }
}
