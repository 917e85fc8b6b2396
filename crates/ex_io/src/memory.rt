// The forms in memory. They number their calls from 1, and fail at the numbers that they are told.
ghost use Rattle.std.specs.Prelude.{◌≡◌, ◌≢◌, ◌+◌, ◌++◌, take, ◌<◌, ◌≤◌, ◌↔◌, [], Some, true, min, length, drop, IfOk, OnOk, OnErr, MatchOption, IfSome, IsTrue, All};
ghost use Rattle.std.specs.Io.{ReadsAtMost};
ghost use Rattle.std.specs.Io.KnownBytes.{ReadConsumes};
ghost use Rattle.std.specs.Option.{option_copied};
ghost use Rattle.ex_io.specs.Bytes.{FilesTellBytes};
ghost use Rattle.ex_io.specs.Causes.{CountsFault, CountsFill, CountsTake, Puts, RoseOnly};
ghost use Rattle.ex_io.specs.Files.{IsPlace, KeepsFile, Takes, entries_of, find_file, most_taken, with_file};
ghost use Rattle.ex_io.specs.Memory.{PutsHalf, after_call, after_fill, fails, filled, no_calls};

use crate::outside::{Failed, OutsideFault, TakeFault};
use crate::traits::{Folder, Sink, Source};
use std::alloc::{AllocError, Global};
use std::marker::Model;

// The calls so far, and which of them fail.
#[derive(Drop)]
struct Failing {
    calls: u64,
    faults: u64,
    numbers: Vec<u64>,
}

impl Model for Failing {
    ghost use Rattle.ex_io.specs.Memory.{Attempts};

    ghost Value = { Attempts };

    ghost view = { λ f. record { made = f.calls; faults = f.faults; failing = f.numbers.items } };
}

impl Failing {
    fn new(numbers: Vec<u64>) -> Self
        ensures { result ≡ no_calls numbers.items }
    {
        Failing {
            calls: 0,
            faults: 0,
            numbers,
        }
    }

    // Counts a call, and says whether it is one that fails.
    fn fails(&mut self) -> bool
        ensures answer { result ≡ fails self.old }
        ensures after { self.new ≡ after_call self.old }
        ensures risen { result ≡ true → RoseOnly self.old.faults self.new.faults }
    {
        self.calls = self.calls.saturating_add(1);
        let fails = self.numbers.contains(&self.calls);
        if fails {
            self.faults = self.faults.saturating_add(1);
        }
        fails
    }
}

// Appends all of the bytes, or none for want of memory.
fn append(held: &mut Vec<u8>, bytes: &[u8]) -> Result<(), OutsideFault>
    ensures bytes { Puts (Some held.old.items) (Some held.new.items) bytes.now result }
    ensures sure { result ≢ Err OutsideFault.Failed }
{
    match held.extend_from_slice(bytes) {
        Ok(()) => Ok(()),
        Err(_) => Err(OutsideFault::Memory),
    }
}

/// Holds what was put. The calls of `put` are numbered from 1, and fail at the numbers in
/// `failing`.
#[derive(Drop)]
pub struct MemorySink {
    bytes: Vec<u8>,
    failing: Failing,
}

impl Model for MemorySink {
    ghost use Rattle.ex_io.specs.Memory.{Store};

    ghost Value = { Store };

    ghost view = { λ s. record { bytes = s.bytes.items; attempts = s.failing } };
}

impl MemorySink {
    /// Holds nothing yet.
    pub fn new(alloc: Global, failing: Vec<u64>) -> Self
        ensures { result ≡ record { bytes = []; attempts = no_calls failing.items } }
    {
        MemorySink {
            bytes: Vec::new(alloc),
            failing: Failing::new(failing),
        }
    }

    /// The bytes held.
    pub fn held(&self) -> &[u8]
        ensures { result.now ≡ self.now.bytes }
    {
        &self.bytes
    }
}

impl Sink for MemorySink {
    ghost held = { λ s. Some s.bytes };

    ghost faults = { λ s. s.attempts.faults };

    /// A call that fails still holds the first half of its bytes, rounded down, if there is memory
    /// for it, and else none of them.
    fn put(&mut self, bytes: &[u8]) -> Result<(), OutsideFault>
        ensures bytes { Puts (Some self.old.bytes) (Some self.new.bytes) bytes.now result }
        ensures cause { CountsFault self.old.attempts.faults self.new.attempts.faults result }
        ensures failed { (result ≡ Err OutsideFault.Failed) ↔ IsTrue (fails self.old.attempts) }
        ensures half { result ≡ Err OutsideFault.Failed → PutsHalf self.old.bytes self.new.bytes bytes.now }
        ensures counted { self.new.attempts ≡ after_call self.old.attempts }
    {
        if self.failing.fails() {
            let _ = self.bytes.extend_from_slice(&bytes[..bytes.len() / 2]);
            return Err(OutsideFault::Failed);
        }
        append(&mut self.bytes, bytes)
    }
}

/// Holds what was put, and never fails.
#[derive(Drop)]
pub struct SureSink {
    bytes: Vec<u8>,
}

impl Model for SureSink {
    ghost use Rattle.std.specs.Prelude.{ℕ, List};

    ghost Value = { List ℕ };

    ghost view = { λ s. s.bytes.items };
}

impl SureSink {
    /// Holds nothing yet.
    pub fn new(alloc: Global) -> Self
        ensures { result ≡ [] }
    {
        SureSink {
            bytes: Vec::new(alloc),
        }
    }

    /// The bytes held.
    pub fn held(&self) -> &[u8]
        ensures { result.now ≡ self.now }
    {
        &self.bytes
    }
}

impl Sink for SureSink {
    ghost held = { λ s. Some s };

    ghost faults = { λ _. 0 };

    fn put(&mut self, bytes: &[u8]) -> Result<(), OutsideFault>
        ensures bytes { Puts (Some self.old) (Some self.new) bytes.now result }
        ensures sure { result ≢ Err OutsideFault.Failed }
    {
        append(&mut self.bytes, bytes)
    }
}

// Moves the bytes from a place on to the front of `buf`, at most so many, and says how many.
fn move_front(bytes: &[u8], at: usize, most: usize, buf: &mut [u8]) -> usize
    requires { at ≤ length bytes.now }
    ensures count { result ≡ min (min (length (drop at bytes.now)) (length buf.old)) most }
    ensures within { at + result ≤ length bytes.now }
    ensures bytes { drop at bytes.now ≡ take result buf.new ++ drop (at + result) bytes.now }
{
    let count = (bytes.len() - at).min(buf.len()).min(most);
    buf[..count].copy_from_slice(&bytes[at..at + count]);
    count
}

// Bytes are below 256: each is read once, which is all that shows it.
fn are_bytes(bytes: &[u8])
    ensures { All (λ b. b < 256) bytes.now }
{
    for byte in bytes {
        let _byte = *byte;
    }
}

/// Gives its bytes, at most `piece` of them a call. The calls of `fill` are numbered from 1, and
/// fail at the numbers in `failing`.
#[derive(Drop)]
pub struct MemorySource {
    bytes: Vec<u8>,
    at: usize,
    piece: usize,
    failing: Failing,
}

impl Model for MemorySource {
    ghost use Rattle.std.specs.Prelude.{◌<◌, ◌≤◌, drop, vec_len};
    ghost use Rattle.ex_io.specs.Memory.{Feed};

    ghost Value = { Feed };

    ghost view = { λ s. record { left = drop s.at s.bytes.items; piece = s.piece; attempts = s.failing } };

    ghost invariant = { λ s. (s.at ≤ vec_len s.bytes) × (0 < s.piece) };
}

impl MemorySource {
    /// All of `bytes` are left, and `piece` is the most that a call gives.
    pub fn new(bytes: Vec<u8>, piece: usize, failing: Vec<u64>) -> Self
        requires { 0 < piece }
        ensures { result ≡ record { left = bytes.items; piece = piece; attempts = no_calls failing.items } }
    {
        MemorySource {
            bytes,
            at: 0,
            piece,
            failing: Failing::new(failing),
        }
    }
}

impl Source for MemorySource {
    ghost left = { λ s. Some s.left };

    ghost faults = { λ s. s.attempts.faults };

    fn fill(&mut self, buf: &mut [u8]) -> Result<usize, Failed>
        ensures bound { ReadsAtMost result buf.new }
        ensures bytes { ReadConsumes (Some self.old.left) (Some self.new.left) result buf.new }
        ensures cause { CountsFill self.old.attempts.faults self.new.attempts.faults result }
        ensures answer { result ≡ filled self.old (length buf.old) }
        ensures after { self.new ≡ after_fill self.old (length buf.old) }
    {
        if self.failing.fails() {
            return Err(Failed);
        }
        let count = move_front(&self.bytes, self.at, self.piece, buf);
        self.at += count;
        Ok(count)
    }

    fn tells_bytes(&self) {
        are_bytes(&self.bytes);
    }
}

/// Gives its bytes, as many as fit a call, and never fails.
#[derive(Drop)]
pub struct SureSource {
    bytes: Vec<u8>,
    at: usize,
}

impl Model for SureSource {
    ghost use Rattle.std.specs.Prelude.{◌≤◌, ℕ, List, drop, vec_len};

    ghost Value = { List ℕ };

    ghost view = { λ s. drop s.at s.bytes.items };

    ghost invariant = { λ s. s.at ≤ vec_len s.bytes };
}

impl SureSource {
    /// All of `bytes` are left.
    pub fn new(bytes: Vec<u8>) -> Self
        ensures { result ≡ bytes.items }
    {
        SureSource { bytes, at: 0 }
    }
}

impl Source for SureSource {
    ghost left = { λ s. Some s };

    ghost faults = { λ _. 0 };

    fn fill(&mut self, buf: &mut [u8]) -> Result<usize, Failed>
        ensures bound { ReadsAtMost result buf.new }
        ensures bytes { ReadConsumes (Some self.old) (Some self.new) result buf.new }
        ensures answer { result ≡ Ok (min (length self.old) (length buf.old)) }
    {
        let count = move_front(&self.bytes, self.at, buf.len(), buf);
        self.at += count;
        Ok(count)
    }

    fn tells_bytes(&self) {
        are_bytes(&self.bytes);
    }
}

/// Files by their names. The calls of both methods are numbered together from 1, and fail at the
/// numbers in `failing`.
#[derive(Drop)]
pub struct MemoryFolder {
    alloc: Global,
    files: Vec<(String, Vec<u8>)>,
    failing: Failing,
}

impl Model for MemoryFolder {
    ghost use Rattle.ex_io.specs.Memory.{Cabinet};
    ghost use Rattle.ex_io.specs.Files.{entries_of};

    ghost Value = { Cabinet };

    ghost view = { λ f. record { entries = entries_of f.files.items; attempts = f.failing } };
}

impl MemoryFolder {
    /// A folder of these files. Where two have one name, the earlier one is the file of that name.
    pub fn new(alloc: Global, files: Vec<(String, Vec<u8>)>, failing: Vec<u64>) -> Self
        ensures { result ≡ record { entries = entries_of files.items; attempts = no_calls failing.items } }
    {
        MemoryFolder {
            alloc,
            files,
            failing: Failing::new(failing),
        }
    }

    /// The bytes of the file of this name. It is no call that is numbered.
    pub fn file(&self, name: &str) -> Option<&[u8]>
        ensures { option_copied result ≡ find_file self.now.entries name.now }
    {
        found(&self.files, name)
    }
}

// The place of the first file of the name.
fn place_of(files: &[(String, Vec<u8>)], name: &str) -> Option<usize>
    ensures first { MatchOption result (find_file (entries_of files.now) name.now ≡ None) (IsPlace (entries_of files.now) name.now) }
    ensures within { IfSome result (λ place. place < length files.now) }
{
    for (index, (file_name, _)) in files.iter().enumerate() {
        if file_name.as_str() == name {
            return Some(index);
        }
    }
    None
}

// The bytes of the first file of the name.
fn found<'a>(files: &'a [(String, Vec<u8>)], name: &str) -> Option<&'a [u8]>
    ensures { option_copied result ≡ find_file (entries_of files.now) name.now }
{
    match place_of(files, name) {
        Some(place) => Some(files[place].1.as_slice()),
        None => None,
    }
}

// Makes the file of the name, or replaces the first that has it.
fn put_file(
    alloc: Global,
    files: &mut Vec<(String, Vec<u8>)>,
    name: &str,
    bytes: &[u8],
) -> Result<(), AllocError>
    ensures ok { OnOk result (find_file (entries_of files.new.items) ≡ with_file (find_file (entries_of files.old.items)) name.now bytes.now) }
    ensures err { OnErr result (entries_of files.new.items ≡ entries_of files.old.items) }
{
    let kept = bytes.to_vec(alloc)?;
    match place_of(files, name) {
        Some(place) => files[place].1 = kept,
        None => files.push((String::from_str(alloc, name)?, kept))?,
    }
    Ok(())
}

// The bytes of files are below 256.
fn have_bytes(files: &[(String, Vec<u8>)])
    ensures { FilesTellBytes (Some (find_file (entries_of files.now))) }
{
    for (_, bytes) in files {
        are_bytes(bytes);
    }
}

const MOST_TAKEN: usize = 268_435_456;

impl Folder for MemoryFolder {
    ghost files = { λ f. Some (find_file f.entries) };

    ghost faults = { λ f. f.attempts.faults };

    fn take_file(&mut self, name: &str) -> Result<Vec<u8>, TakeFault>
        ensures taken { Takes (Some (find_file self.old.entries)) name.now result }
        ensures limit { IfOk result (λ bytes. length bytes.items ≤ most_taken) }
        ensures same { self.new.entries ≡ self.old.entries }
        ensures cause { CountsTake self.old.attempts.faults self.new.attempts.faults result }
        ensures failed { (result ≡ Err TakeFault.Failed) ↔ IsTrue (fails self.old.attempts) }
        ensures counted { self.new.attempts ≡ after_call self.old.attempts }
    {
        if self.failing.fails() {
            return Err(TakeFault::Failed);
        }
        match found(&self.files, name) {
            None => Err(TakeFault::Absent),
            Some(bytes) if bytes.len() > MOST_TAKEN => Err(TakeFault::Long),
            Some(bytes) => match bytes.to_vec(self.alloc) {
                Ok(taken) => Ok(taken),
                Err(_) => Err(TakeFault::Memory),
            },
        }
    }

    /// A call that isn't answered Ok leaves every file as it was.
    fn keep_file(&mut self, name: &str, bytes: &[u8]) -> Result<(), OutsideFault>
        ensures kept { KeepsFile (Some (find_file self.old.entries)) (Some (find_file self.new.entries)) name.now bytes.now result }
        ensures cause { CountsFault self.old.attempts.faults self.new.attempts.faults result }
        ensures failed { (result ≡ Err OutsideFault.Failed) ↔ IsTrue (fails self.old.attempts) }
        ensures untouched { OnErr result (self.new.entries ≡ self.old.entries) }
        ensures counted { self.new.attempts ≡ after_call self.old.attempts }
    {
        if self.failing.fails() {
            return Err(OutsideFault::Failed);
        }
        match put_file(self.alloc, &mut self.files, name, bytes) {
            Ok(()) => Ok(()),
            Err(_) => Err(OutsideFault::Memory),
        }
    }

    fn tells_bytes(&self) {
        have_bytes(&self.files);
    }
}
