// What a guest finds in memory.
ghost use Rattle.std.specs.Prelude.{◌≡◌, ◌≤◌, ◌+◌, ◌-◌, ◌^◌, [], ◌∷◌, ◌++◌, length, replicate, IsTrue, OnOk};
ghost use Rattle.std.specs.List.{All, AllPairs};
ghost use Rattle.infinite_heap.specs.Lawful.{IsPlaced};
ghost use Rattle.infinite_heap.specs.Start.{stack_from, stack_end, stack_with};
ghost use Rattle.rv_memory.specs.Memory.{is_unmapped, no_memory};
ghost use Rattle.rv_memory.specs.Spaces.{memory_of};
ghost use Rattle.rv_machine.specs.Core.{memory_in};
ghost use Rattle.rv_machine.specs.Laid.{with_segment, with_stack};

use crate::stack::stack_place;
use infinite_heap::{Program, Segment};
use rv_memory::{Rest, Space};
use std::alloc::AllocError;

// Maps a segment where nothing is mapped.
fn map_segment(space: &mut Space, segment: &Segment) -> Result<(), AllocError>
    requires ends { segment.now.from + segment.now.len ≤ 2 ^ 32 }
    requires held { length segment.now.bytes ≤ segment.now.len }
    requires unmapped { IsTrue (is_unmapped (memory_of space.old) segment.now.from segment.now.len) }
    ensures { OnOk result (memory_of space.new ≡ with_segment (memory_of space.old) segment.now) }
{
    space.map(
        segment.from,
        segment.len,
        segment.bytes.as_slice(),
        Rest::Zero,
        segment.writable,
        segment.runs,
    )
}

// Maps a program's segments, of which each begins behind the one before.
fn map_segments(space: &mut Space, segments: &[Segment]) -> Result<(), AllocError>
    requires empty { memory_of space.old ≡ no_memory }
    requires placed { All IsPlaced segments.now }
    requires apart { AllPairs (λ s t. s.from + s.len ≤ t.from) segments.now }
    ensures { OnOk result (memory_of space.new ≡ memory_in segments.now) }
{
    for segment in segments {
        map_segment(space, segment)?;
    }
    Ok(())
}

// Maps a stack, which is zero below the pointer. Mapped in two parts, its millions of zeros are never
// copied.
fn map_stack(
    space: &mut Space,
    from: u32,
    len: u32,
    pointer: u32,
    top: &[u8],
) -> Result<(), AllocError>
    requires ends { from + len ≤ 2 ^ 32 }
    requires low { from ≤ pointer }
    requires high { pointer + length top.now ≤ from + len }
    requires unmapped { IsTrue (is_unmapped (memory_of space.old) from len) }
    ensures { OnOk result (memory_of space.new ≡ with_stack (memory_of space.old) from len pointer top.now) }
{
    let low = pointer - from;
    let high = len - low;
    space.map(from, low, &[], Rest::Zero, true, false)?;
    space.map(pointer, high, top, Rest::Zero, true, false)
}

/// Maps what a guest finds: its program's segments, and the stack, with these bytes from the pointer on.
pub(crate) fn lay_out(
    space: &mut Space,
    program: &Program,
    pointer: u32,
    top: &[u8],
) -> Result<(), AllocError>
    requires empty { memory_of space.old ≡ no_memory }
    requires low { stack_from ≤ pointer }
    requires high { pointer + length top.now ≤ stack_end }
    ensures { OnOk result (memory_of space.new ≡ memory_in (program.now.segments ++ stack_with (replicate (pointer - stack_from) 0 ++ top.now) ∷ [])) }
{
    program.rules();
    map_segments(space, program.segments())?;
    let (from, len) = stack_place();
    map_stack(space, from, len, pointer, top)
}
