// What is done where words and files settle it.
ghost use Rattle.std.specs.Prelude.{◌≡◌, ℕ, List, Option, IfOk, IfSome, map, string_bytes};
ghost use Rattle.layout_run.specs.Outside.{held};
ghost use Rattle.exterm_cli.specs.Counted.{word};
ghost use Rattle.exterm_cli.specs.Outside.{RaisesAs, faults};
ghost use Rattle.exterm_cli.specs.Parts.{KeepsPart, Performs, PutsPart, RaisesFolder, RaisesOut, kept_as, name_as, plan_as, told};
ghost use Rattle.exterm_cli.specs.Plan.{gives, gives_to};

use crate::cut::Cut;
use crate::report::Verdict;
use ex_io::{Folder, OutsideFault, Sink};
use std::alloc::{AllocError, Global};

/// A file that is made or replaced.
#[derive(Drop)]
pub struct Kept {
    pub name: String,
    pub bytes: Vec<u8>,
}

/// What is printed on out, written to a file and told, in this order.
#[derive(Drop)]
pub struct Plan {
    pub out: Vec<u8>,
    pub file: Option<Kept>,
    pub verdict: Verdict,
}

/// What is told of a refusal, and nothing else.
pub fn refused(alloc: Global, verdict: Verdict) -> Plan
    ensures { plan_as result ≡ told verdict }
{
    Plan {
        out: Vec::new(alloc),
        file: None,
        verdict,
    }
}

/// The word at an index, empty where there is none.
pub fn word_at(words: &[String], at: usize) -> &str
    ensures { result.now ≡ word (map string_bytes words.now) at }
{
    if at < words.len() {
        words[at].as_str()
    } else {
        ""
    }
}

/// What a command gives, on out or for the file of a name, and what it reports: all lines, or none.
pub fn given_to(alloc: Global, to: Option<String>, bytes: Vec<u8>, report: String) -> Plan
    ensures { plan_as result ≡ record (gives_to (name_as to) bytes.items) { report = string_bytes report } }
{
    let verdict = Verdict { status: 0, report };
    match to {
        None => Plan {
            out: bytes,
            file: None,
            verdict,
        },
        Some(name) => Plan {
            out: Vec::new(alloc),
            file: Some(Kept { name, bytes }),
            verdict,
        },
    }
}

/// What a command gives with nothing to report: on out, or to the file of the word at an index.
pub fn given(
    alloc: Global,
    words: &[String],
    to: Option<usize>,
    bytes: Vec<u8>,
) -> Result<Plan, AllocError>
    ensures { IfOk result (λ plan. plan_as plan ≡ gives (map string_bytes words.now) to bytes.items) }
{
    match to {
        None => Ok(given_to(alloc, None, bytes, String::new(alloc))),
        Some(at) => {
            let name = String::from_str(alloc, word_at(words, at))?;
            Ok(given_to(alloc, Some(name), bytes, String::new(alloc)))
        }
    }
}

// Puts bytes on out, where there are any.
fn print<O: Sink>(bytes: &[u8], out: &mut O) -> Result<(), Cut>
    ensures puts { PutsPart bytes.now result (O.held out.old) (O.held out.new) }
    ensures cause { RaisesOut result (O.faults out.old) (O.faults out.new) }
{
    if bytes.is_empty() {
        return Ok(());
    }
    match out.put(bytes) {
        Ok(()) => Ok(()),
        Err(OutsideFault::Failed) => Err(Cut::Output),
        Err(OutsideFault::Memory) => Err(Cut::Memory),
    }
}

/// Writes a file, where there is one.
pub fn keep<F: Folder>(file: &Option<Kept>, files: &mut F) -> Result<(), Cut>
    ensures keeps { IfSome (F.files files.old) (λ told. KeepsPart (kept_as file.now) result told (F.files files.new)) }
    ensures cause { RaisesFolder result (F.faults files.old) (F.faults files.new) }
{
    let Some(file) = file else {
        return Ok(());
    };
    match files.keep_file(file.name.as_str(), file.bytes.as_slice()) {
        Ok(()) => Ok(()),
        Err(OutsideFault::Failed) => Err(Cut::File),
        Err(OutsideFault::Memory) => Err(Cut::Memory),
    }
}

/// Prints and writes what is settled, and says what is to be told.
pub fn settle<O: Sink, F: Folder>(plan: Plan, out: &mut O, files: &mut F) -> Result<Verdict, Cut>
    ensures performs { IfSome (F.files files.old) (λ told. (err : Option (List ℕ)) → Performs (plan_as plan) result (held (O.held out.old) err) (held (O.held out.new) err) told (F.files files.new)) }
    ensures cause { (input err : ℕ) → RaisesAs result (faults input (O.faults out.old) err (F.faults files.old)) (faults input (O.faults out.new) err (F.faults files.new)) }
{
    match print(plan.out.as_slice(), out) {
        Ok(()) => {}
        Err(cut) => return Err(cut),
    }
    match keep(&plan.file, files) {
        Ok(()) => Ok(plan.verdict),
        Err(cut) => Err(cut),
    }
}
