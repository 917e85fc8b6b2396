// The command `merge`.
ghost use Rattle.std.specs.Prelude.{◌≡◌, ◌+◌, ◌<◌, ◌^◌, IfSome, map, string_bytes};
ghost use Rattle.exterm_cli.specs.Parts.{IsMerged, IsPlanned, IsSettled, JoinsFiles, StopsFolder};

use crate::cut::{Cut, Stop};
use crate::plan::{Plan, given};
use crate::taking::table_of_word;
use crate::words::FileWords;
use ex_io::Folder;
use patch_table::Patches;
use std::alloc::Global;

// Joins the tables of the command's files, one after the other.
fn join<F: Folder>(
    alloc: Global,
    words: &[String],
    names: FileWords,
    files: &mut F,
) -> Result<Patches, Stop>
    requires { names.first + names.count < 2 ^ 63 }
    ensures joins { IfSome (F.files files.old) (λ told. IsPlanned (λ table. table) (JoinsFiles (map string_bytes words.now) told names) result) }
    ensures files { F.files files.new ≡ F.files files.old }
    ensures cause { StopsFolder result (F.faults files.old) (F.faults files.new) }
{
    let mut table = Patches::new(alloc);
    for i in 0..names.count {
        match table_of_word(alloc, words, names.first + i, i as u64 + 1, files) {
            Ok(next) => match table.join(&next) {
                Ok(()) => {}
                Err(_) => return Err(Stop::CutShort(Cut::Memory)),
            },
            Err(stop) => return Err(stop),
        }
    }
    Ok(table)
}

/// Joins the tables of patch files, and gives the text of the join.
pub fn merge<F: Folder>(
    alloc: Global,
    words: &[String],
    names: FileWords,
    files: &mut F,
) -> Result<Plan, Stop>
    requires { names.first + names.count < 2 ^ 63 }
    ensures merges { IfSome (F.files files.old) (λ told. IsSettled (IsMerged (map string_bytes words.now) told names) result) }
    ensures files { F.files files.new ≡ F.files files.old }
    ensures cause { StopsFolder result (F.faults files.old) (F.faults files.new) }
{
    let table = match join(alloc, words, names, files) {
        Ok(table) => table,
        Err(stop) => return Err(stop),
    };
    let Ok(text) = table.write(alloc) else {
        return Err(Stop::CutShort(Cut::Memory));
    };
    match given(alloc, words, names.out, text) {
        Ok(plan) => Ok(plan),
        Err(_) => Err(Stop::CutShort(Cut::Memory)),
    }
}
