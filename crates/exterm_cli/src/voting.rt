// The command `replicate`.
ghost use Rattle.std.specs.Prelude.{◌≡◌, ◌++◌, IfOk, IfSome, OnOk, string_bytes};
ghost use Rattle.layout_run.specs.Outside.{held};
ghost use Rattle.layout_run.specs.Runs.{CutsRun};
ghost use Rattle.layout_run.specs.Outside as run;
ghost use Rattle.replicate.specs.Groups as model;
ghost use Rattle.replicate.specs.GroupStands.{IsGroup};
ghost use Rattle.exterm_cli.specs.Outside.{RaisesAs, faults};
ghost use Rattle.exterm_cli.specs.Parts.{KeepsPart, MayReplicate, PerformsOn, RaisesFolder, guest_as, kept_as, name_as};
ghost use Rattle.exterm_cli.specs.Plan.{Replicates};
ghost use Rattle.exterm_cli.specs.Replicate.{events_from, group_report, over_status, over_text, patched_line, retired_line, retired_lines, table_file};
ghost use Rattle.exterm_cli.specs.Stages.{LeavesInput, MayWrite};
ghost use Rattle.exterm_cli.specs.Voting.{TellsOf, VotesAs};

use crate::cut::Cut;
use crate::guest::Accepted;
use crate::plan::{Kept, keep};
use crate::refusals::long_input;
use crate::report::{Verdict, ending_status, group_ending_text, line};
use ex_io::{Folder, Sink, Source, Tape};
use layout_run::RunRefusal;
use patch_table::Patches;
use replicate::{GateAnswer, Group, Patched, Retired, run_group, runs_are_one};
use std::alloc::{AllocError, Global};

// ---- the report

fn retired_line(alloc: Global, retired: &Retired) -> Result<String, AllocError>
    ensures { IfOk result (λ text. string_bytes text ≡ retired_line retired.now) }
{
    let replica = retired.replica;
    let gate = retired.gate;
    let text = format!(in alloc; "retired {replica} gate {gate}")?;
    line(alloc, text.as_str())
}

fn patched_line(alloc: Global, patched: &Patched) -> Result<String, AllocError>
    ensures { IfOk result (λ text. string_bytes text ≡ patched_line patched.now) }
{
    let gate = patched.gate;
    let pads = patched.pads;
    let defers = patched.defers;
    let text = format!(in alloc; "patched gate {gate} pads {pads} defers {defers}")?;
    line(alloc, text.as_str())
}

// Adds the lines of those that were retired behind one gate, and by another.
fn push_retired(
    report: &mut String,
    alloc: Global,
    after: u64,
    until: u64,
    retired: &[Retired],
) -> Result<(), AllocError>
    ensures { OnOk result (string_bytes report.new ≡ string_bytes report.old ++ retired_lines after until retired.now) }
{
    for one in retired {
        if after < one.gate && one.gate <= until {
            let text = retired_line(alloc, one)?;
            report.push_str(text.as_str())?;
        }
    }
    Ok(())
}

// Adds the lines of what happened up to the last gate.
fn push_events(
    report: &mut String,
    alloc: Global,
    last: u64,
    retired: &[Retired],
    patched: &[Patched],
) -> Result<(), AllocError>
    ensures { OnOk result (string_bytes report.new ≡ string_bytes report.old ++ events_from 0 last retired.now patched.now) }
{
    let mut after = 0;
    for one in patched {
        push_retired(report, alloc, after, one.gate, retired)?;
        let text = patched_line(alloc, one)?;
        report.push_str(text.as_str())?;
        after = one.gate;
    }
    push_retired(report, alloc, after, last, retired)
}

// How a group ended.
fn over_text(alloc: Global, over: GateAnswer, gate: u64) -> Result<String, AllocError>
    ensures { IfOk result (λ text. string_bytes text ≡ over_text over gate) }
{
    match over {
        GateAnswer::Ended(ending) => group_ending_text(alloc, ending, gate),
        GateAnswer::Lost { largest, live } => {
            format!(in alloc; "vote largest {largest} live {live}")
        }
        _ => Ok(String::new(alloc)),
    }
}

fn over_status(over: GateAnswer) -> u8
    ensures { result ≡ over_status over }
{
    match over {
        GateAnswer::Ended(ending) => ending_status(ending),
        _ => 118,
    }
}

// ---- the votes

/// A group that is over.
#[derive(Drop)]
pub struct Voted {
    pub group: Group,
    pub over: GateAnswer,
}

// All that is told of a group.
fn report_on(alloc: Global, voted: &Voted) -> Result<String, AllocError>
    ensures { (g : model.Group) → IsGroup g voted.now.group → IfOk result (λ report. string_bytes report ≡ group_report g voted.now.over) }
{
    let group = &voted.group;
    // no group comes to so many gates
    let Some(last) = group.gates().checked_add(1) else {
        return Err(AllocError);
    };
    let mut report = String::new(alloc);
    push_events(&mut report, alloc, last, group.retired(), group.patched())?;
    let text = over_text(alloc, voted.over, last)?;
    let end = line(alloc, text.as_str())?;
    report.push_str(end.as_str())?;
    Ok(report)
}

// What is told of a group.
fn verdict_on(alloc: Global, voted: &Voted) -> Result<Verdict, AllocError>
    ensures { (g : model.Group) → IsGroup g voted.now.group → IfOk result (TellsOf g voted.now) }
{
    let report = report_on(alloc, voted)?;
    Ok(Verdict {
        status: over_status(voted.over),
        report,
    })
}

// The file that the last table is written to, where one is named.
fn file_of(alloc: Global, table: &Patches, to: Option<String>) -> Result<Option<Kept>, AllocError>
    ensures { IfOk result (λ file. kept_as file ≡ table_file (name_as to) table.now) }
{
    let Some(name) = to else {
        return Ok(None);
    };
    let bytes = table.write(alloc)?;
    Ok(Some(Kept { name, bytes }))
}

// Writes the table, and says what is told.
fn finish<F: Folder>(
    alloc: Global,
    voted: &Voted,
    to: Option<String>,
    files: &mut F,
) -> Result<Verdict, Cut>
    ensures tells { (g : model.Group) → IsGroup g voted.now.group → IfOk result (TellsOf g voted.now) }
    ensures keeps { (g : model.Group) → IsGroup g voted.now.group → IfSome (F.files files.old) (λ told. KeepsPart (table_file (name_as to) g.table) result told (F.files files.new)) }
    ensures writes { IfSome (F.files files.old) (λ told. MayWrite (name_as to) told (F.files files.new)) }
    ensures cause { RaisesFolder result (F.faults files.old) (F.faults files.new) }
{
    let Ok(verdict) = verdict_on(alloc, voted) else {
        return Err(Cut::Memory);
    };
    let Ok(file) = file_of(alloc, voted.group.patches(), to) else {
        return Err(Cut::Memory);
    };
    match keep(&file, files) {
        Ok(()) => Ok(verdict),
        Err(cut) => Err(cut),
    }
}

// Lets replicas of a guest vote to the end, on a tape of their own.
fn vote<S: Source, O: Sink, E: Sink>(
    alloc: Global,
    accepted: Accepted,
    replicas: u8,
    quantum: u64,
    input: &mut S,
    out: &mut O,
    err: &mut E,
) -> Result<Voted, RunRefusal>
    requires may { MayReplicate accepted replicas quantum }
    ensures votes { IfSome (S.left input.old) (λ bytes. VotesAs (guest_as accepted) replicas bytes result (S.left input.new) (held (O.held out.old) (E.held err.old)) (held (O.held out.new) (E.held err.new))) }
    ensures cause { CutsRun result (run.faults (S.faults input.old) (O.faults out.old) (E.faults err.old)) (run.faults (S.faults input.new) (O.faults out.new) (E.faults err.new)) }
{
    let Ok(mut tape) = Tape::new(alloc, input, true) else {
        return Err(RunRefusal::Memory);
    };
    let Accepted {
        file,
        args,
        settings,
        budget,
        ..
    } = accepted;
    let Ok(mut group) = Group::new(
        alloc,
        file.as_slice(),
        args.as_slice(),
        settings,
        budget,
        replicas,
    ) else {
        return Err(RunRefusal::Memory);
    };
    match run_group(alloc, &mut group, &mut tape, input, out, err, quantum) {
        Ok(over) => {
            tape.has_answered();
            Ok(Voted { group, over })
        }
        Err(refused) => Err(refused),
    }
}

/// Lets replicas of a guest vote on what is printed. Their last table is written to the file of the name `to`, where one is
/// given. The input is taken as they read it, and where they read more than is kept, that is told.
pub fn replicate<S: Source, O: Sink, E: Sink, F: Folder>(
    alloc: Global,
    accepted: Accepted,
    replicas: u8,
    quantum: u64,
    to: Option<String>,
    input: &mut S,
    out: &mut O,
    err: &mut E,
    files: &mut F,
) -> Result<Verdict, Cut>
    requires may { MayReplicate accepted replicas quantum }
    ensures performs { IfSome (S.left input.old) (λ bytes. IfSome (F.files files.old) (λ told. PerformsOn (Replicates (guest_as accepted) replicas (name_as to)) bytes result
        (held (O.held out.old) (E.held err.old)) (held (O.held out.new) (E.held err.new)) told (F.files files.new))) }
    ensures left { IfSome (S.left input.old) (λ bytes. IfOk result (λ verdict. LeavesInput (Replicates (guest_as accepted) replicas (name_as to)) bytes (S.left input.new))) }
    ensures writes { IfSome (F.files files.old) (λ told. MayWrite (name_as to) told (F.files files.new)) }
    ensures cause { RaisesAs result (faults (S.faults input.old) (O.faults out.old) (E.faults err.old) (F.faults files.old)) (faults (S.faults input.new) (O.faults out.new) (E.faults err.new) (F.faults files.new)) }
{
    runs_are_one();
    match vote(alloc, accepted, replicas, quantum, input, out, err) {
        Ok(voted) => finish(alloc, &voted, to, files),
        Err(RunRefusal::Input) => long_input(alloc).told(),
        Err(RunRefusal::Memory) => Err(Cut::Memory),
        Err(RunRefusal::Source) => Err(Cut::Input),
        Err(RunRefusal::Out) => Err(Cut::Output),
        Err(RunRefusal::Err) => Err(Cut::Error),
    }
}
