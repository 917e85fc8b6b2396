// Laws of programs and segments.
ghost use Rattle.std.specs.Prelude.{◌≡◌, ℕ, true, false, List, Ok};
ghost use Rattle.infinite_heap.specs.declared.program.Segment.{Segment};
ghost use Rattle.infinite_heap.specs.Overlap.{overlaps, Overlap};
ghost use Rattle.elf_load.specs.Laws.{ProgramsAreLawful, ProgramsHoldBytes};

/// What overlap means, said of two places and an address.
pub fn overlap_is_of_two()
    ensures met { (segments : List Segment) → overlaps segments ≡ true → Overlap segments }
    ensures none { (segments : List Segment) → overlaps segments ≡ false → Overlap segments → ⊥ }
{}

/// A file's program keeps the rules that every program keeps.
pub fn programs_are_lawful()
    ensures { ProgramsAreLawful }
{}

/// The program of a file of bytes holds bytes: so it is for every file, but the definition speaks of lists of numbers.
pub fn programs_hold_bytes()
    ensures { ProgramsHoldBytes }
{}
