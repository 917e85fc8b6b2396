// What the program asks of the outside.
ghost use Rattle.std.specs.Prelude.{◌≡◌, ◌≤◌, ℕ, List, Option, length, IfOk};
ghost use Rattle.std.specs.Io.{ReadsAtMost};
ghost use Rattle.std.specs.Io.KnownBytes.{ReadConsumes};
ghost use Rattle.ex_io.specs.Bytes.{FilesTellBytes, TellsBytes};
ghost use Rattle.ex_io.specs.Causes.{CountsFill, CountsFault, CountsTake, Puts};
ghost use Rattle.ex_io.specs.Files.{FileMap, KeepsFile, Takes, most_taken};

use crate::outside::{Failed, OutsideFault, TakeFault};

/// Where bytes come from, in order and one time each.
pub trait Source {
    /// The bytes left, where they are told.
    ghost left: { Self → Option (List ℕ) };

    /// How often it failed. The count never falls, rises at `Failed` alone, and stays at
    /// 2^64 - 1 once it is there.
    ghost faults: { Self → ℕ };

    /// Moves the first bytes left to the front of `buf`, and says how many. None at a `buf` with
    /// room is the end of the input. After `Failed` the bytes left are as they were.
    fn fill(&mut self, buf: &mut [u8]) -> Result<usize, Failed>
        ensures bound { ReadsAtMost result buf.new }
        ensures bytes { ReadConsumes (left self.old) (left self.new) result buf.new }
        ensures cause { CountsFill (faults self.old) (faults self.new) result };

    /// What is told are bytes: numbers below 256. The call does nothing, and its caller has the
    /// clause.
    fn tells_bytes(&self)
        ensures { TellsBytes (left self.now) };
}

/// Where bytes go, in order.
pub trait Sink {
    /// The bytes held, where they are told.
    ghost held: { Self → Option (List ℕ) };

    /// How often it failed, as of a source.
    ghost faults: { Self → ℕ };

    /// Appends all of `bytes`. After `Failed` it holds what it held and then a prefix of `bytes`,
    /// which may be none or all of them. After `Memory` it holds what it held.
    fn put(&mut self, bytes: &[u8]) -> Result<(), OutsideFault>
        ensures bytes { Puts (held self.old) (held self.new) bytes.now result }
        ensures cause { CountsFault (faults self.old) (faults self.new) result };
}

/// Files by their names.
pub trait Folder {
    /// The map from names to bytes, where it is told.
    ghost files: { Self → Option FileMap };

    /// How often it failed, as of a source.
    ghost faults: { Self → ℕ };

    /// The bytes of the file of this name, at most 268,435,456. The files stay as they are. Where
    /// they are told, `Absent` is the answer exactly where no file has the name, and `Long` exactly
    /// where it has more bytes, but for a fault and for want of memory.
    fn take_file(&mut self, name: &str) -> Result<Vec<u8>, TakeFault>
        ensures taken { Takes (files self.old) name.now result }
        ensures limit { IfOk result (λ bytes. length bytes.items ≤ most_taken) }
        ensures same { files self.new ≡ files self.old }
        ensures cause { CountsTake (faults self.old) (faults self.new) result };

    /// Makes the file of this name, or replaces the one that has it. After `Failed` nothing is
    /// known of this file, and the others are as they were. After `Memory` all are.
    fn keep_file(&mut self, name: &str, bytes: &[u8]) -> Result<(), OutsideFault>
        ensures kept { KeepsFile (files self.old) (files self.new) name.now bytes.now result }
        ensures cause { CountsFault (faults self.old) (faults self.new) result };

    /// The files that are told have bytes: numbers below 256. The call does nothing, and its caller
    /// has the clause.
    fn tells_bytes(&self)
        ensures { FilesTellBytes (files self.now) };
}
