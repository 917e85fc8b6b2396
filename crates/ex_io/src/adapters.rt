// The real outside: streams and files of the system. Each error that it answers is counted.
ghost use Rattle.std.specs.Prelude.{◌≡◌, ◌≢◌, ◌≤◌, ℕ, None, Err, IfOk, length, MatchBool};
ghost use Rattle.std.specs.Io.KnownBytes.{Appends};
ghost use Rattle.ex_io.specs.Adapters.{ReadsWhole};
ghost use Rattle.ex_io.specs.Bytes.{told_bytes};
ghost use Rattle.ex_io.specs.Causes.{AppendsFront, CountsTake};
ghost use Rattle.ex_io.specs.Files.{most_taken};

use crate::outside::{Failed, OutsideFault, TakeFault};
use crate::traits::{Folder, Sink, Source};
use std::alloc::Global;
use std::fs;
use std::io::{Read, Write};
use std::marker::Model;
use std::rt::Files;

/// A reader as a source. Each `fill` is one read into the caller's buffer, so it takes no more of
/// the reader than is asked for. Standard input as the runtime gives it, `rt.stdin()`, keeps no
/// buffer of its own either: what isn't asked for stays in the stream.
///
/// It tells the bytes left where the reader does, and the streams of the system don't.
#[derive(Drop)]
pub struct StdSource<R: Read + Drop> {
    reader: R,
    faults: u64,
}

impl<R: Read + Drop> Model for StdSource<R> {
    ghost use Rattle.std.specs.Prelude.{ℕ};

    ghost Value = { R × ℕ };

    ghost view = { λ s. (s.reader, s.faults) };
}

impl<R: Read + Drop> StdSource<R> {
    pub fn new(reader: R) -> Self
        ensures { result ≡ (reader, 0) }
    {
        StdSource { reader, faults: 0 }
    }
}

impl<R: Read + Drop> Source for StdSource<R> {
    ghost left = { λ s. told_bytes (R.remaining s.0) };

    ghost faults = { λ s. s.1 };

    fn fill(&mut self, buf: &mut [u8]) -> Result<usize, Failed> {
        match self.reader.read(buf) {
            Ok(count) => Ok(count),
            Err(_) => {
                self.faults = self.faults.saturating_add(1);
                Err(Failed)
            }
        }
    }

    fn tells_bytes(&self) {}
}

/// A writer as a sink. A `put` writes until all of its bytes are taken, and then flushes. It fails
/// at the first error, and where the writer takes nothing of a piece that isn't empty.
///
/// It tells the bytes held where the writer does, and the streams of the system don't.
#[derive(Drop)]
pub struct StdSink<W: Write + Drop> {
    writer: W,
    faults: u64,
}

impl<W: Write + Drop> Model for StdSink<W> {
    ghost use Rattle.std.specs.Prelude.{ℕ};

    ghost Value = { W × ℕ };

    ghost view = { λ s. (s.writer, s.faults) };
}

impl<W: Write + Drop> StdSink<W> {
    pub fn new(writer: W) -> Self
        ensures { result ≡ (writer, 0) }
    {
        StdSink { writer, faults: 0 }
    }
}

// Writes all of the bytes, or a front of them.
fn write_whole<W: Write>(writer: &mut W, bytes: &[u8]) -> bool
    ensures { MatchBool result
        (Appends (W.contents writer.old) (W.contents writer.new) bytes.now)
        (AppendsFront (W.contents writer.old) (W.contents writer.new) bytes.now) }
{
    let mut rest = bytes;
    while !rest.is_empty() {
        match writer.write(rest) {
            Ok(0) => return false,
            Ok(count) => rest = rest.split_at(count).1,
            Err(_) => return false,
        }
    }
    writer.flush().is_ok()
}

impl<W: Write + Drop> Sink for StdSink<W> {
    ghost held = { λ s. W.contents s.0 };

    ghost faults = { λ s. s.1 };

    fn put(&mut self, bytes: &[u8]) -> Result<(), OutsideFault> {
        if write_whole(&mut self.writer, bytes) {
            return Ok(());
        }
        self.faults = self.faults.saturating_add(1);
        Err(OutsideFault::Failed)
    }
}

/// The files of the system as a folder. It doesn't tell them. A name that can't be opened is
/// `Failed`, never `Absent`, and a file is `Long` where more bytes than the limit were read of it.
/// A file that failed to be kept may hold anything.
#[derive(Drop)]
pub struct DiskFolder<'a, R: Files> {
    files: &'a R,
    alloc: Global,
    faults: u64,
}

impl<'a, R: Files> Model for DiskFolder<'a, R> {
    ghost use Rattle.std.specs.Prelude.{ℕ};

    // The count of faults.
    ghost Value = { ℕ };

    ghost view = { λ f. f.faults };
}

impl<'a, R: Files> DiskFolder<'a, R> {
    pub fn new(files: &'a R, alloc: Global) -> Self
        ensures { result ≡ 0 }
    {
        DiskFolder {
            files,
            alloc,
            faults: 0,
        }
    }
}

const MOST_TAKEN: usize = 268_435_456;

const PIECE: usize = 65536;

// Reads to the end, or to the first piece that passes the limit.
fn read_whole<F: Read>(alloc: Global, file: &mut F) -> Result<Vec<u8>, TakeFault>
    ensures whole { ReadsWhole (F.remaining file.old) result }
    ensures limit { IfOk result (λ bytes. length bytes.items ≤ most_taken) }
    ensures absent { result ≢ Err TakeFault.Absent }
{
    let mut bytes = Vec::new(alloc);
    let mut piece = [0u8; PIECE];
    for turn in 0..MOST_TAKEN + 1 {
        let Ok(count) = file.read(&mut piece) else {
            return Err(TakeFault::Failed);
        };
        if count == 0 {
            return Ok(bytes);
        }
        if count > MOST_TAKEN - bytes.len() {
            return Err(TakeFault::Long);
        }
        if bytes.extend_from_slice(&piece[..count]).is_err() {
            return Err(TakeFault::Memory);
        }
    }
    unreachable!()
}

fn take_from<R: Files>(files: &R, alloc: Global, name: &str) -> Result<Vec<u8>, TakeFault>
    ensures limit { IfOk result (λ bytes. length bytes.items ≤ most_taken) }
    ensures absent { result ≢ Err TakeFault.Absent }
{
    match fs::open(files, name) {
        Ok(mut file) => read_whole(alloc, &mut file),
        Err(_) => Err(TakeFault::Failed),
    }
}

impl<'a, R: Files> Folder for DiskFolder<'a, R> {
    ghost files = { λ _. None };

    ghost faults = { λ f. f };

    fn take_file(&mut self, name: &str) -> Result<Vec<u8>, TakeFault>
        ensures limit { IfOk result (λ bytes. length bytes.items ≤ most_taken) }
        ensures absent { result ≢ Err TakeFault.Absent }
        ensures cause { CountsTake self.old self.new result }
    {
        let taken = take_from(self.files, self.alloc, name);
        if matches!(&taken, Err(TakeFault::Failed)) {
            self.faults = self.faults.saturating_add(1);
        }
        taken
    }

    fn keep_file(&mut self, name: &str, bytes: &[u8]) -> Result<(), OutsideFault> {
        if let Ok(mut file) = fs::create(self.files, name) {
            if write_whole(&mut file, bytes) {
                return Ok(());
            }
        }
        self.faults = self.faults.saturating_add(1);
        Err(OutsideFault::Failed)
    }

    fn tells_bytes(&self) {}
}
