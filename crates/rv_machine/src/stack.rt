// The stack that a guest finds.
ghost use Rattle.std.specs.Prelude.{◌≡◌, ◌≤◌, ◌<◌, ◌+◌, ◌-◌, ◌^◌, ◌++◌, length, map, replicate, string_bytes, IfOk};
ghost use Rattle.infinite_heap.specs.Start.{string_block, addresses_from, stack_from, stack_pointer, stack_of, IsWithin};

use std::alloc::{AllocError, Global};

const STACK_FROM: u32 = 0xBF80_0000;

const STACK_END: u32 = 0xC000_0000;

// The strings, each with a zero byte after it.
fn strings_of(alloc: Global, args: &[String]) -> Result<Vec<u8>, AllocError>
    ensures { IfOk result (λ block. block.items ≡ string_block (map string_bytes args.now)) }
{
    let mut block = Vec::new(alloc);
    for arg in args {
        block.extend_from_slice(arg.as_bytes())?;
        block.push(0)?;
    }
    Ok(block)
}

// Appends zeros.
fn pad(bytes: &mut Vec<u8>, count: u32) -> Result<(), AllocError>
    ensures { IfOk result (λ _. bytes.new.items ≡ bytes.old.items ++ replicate count 0) }
{
    for i in 0..count {
        bytes.push(0)?;
    }
    Ok(())
}

// Appends the addresses of the strings, the first of which stands at `at`.
fn push_addresses(bytes: &mut Vec<u8>, at: u32, args: &[String]) -> Result<(), AllocError>
    requires { at + length (string_block (map string_bytes args.now)) < 2 ^ 32 }
    ensures { IfOk result (λ _. bytes.new.items ≡ bytes.old.items ++ addresses_from at (map string_bytes args.now)) }
{
    let mut next = at;
    for arg in args {
        bytes.extend_from_slice(&next.to_le_bytes())?;
        next += arg.len() as u32 + 1;
    }
    Ok(())
}

/// The stack pointer and the bytes from there to the stack's end, for the arguments given. Below them the
/// stack is zero.
#[tactic(auto, unfolding(infinite_heap::specs::Start::stack_of))]
pub fn stack_of(alloc: Global, args: &[String]) -> Result<(u32, Vec<u8>), AllocError>
    requires { IsWithin (map string_bytes args.now) }
    ensures pointer { IfOk result (λ stack. stack.0 ≡ stack_pointer (map string_bytes args.now)) }
    ensures low { IfOk result (λ stack. stack_from ≤ stack.0) }
    ensures bytes { IfOk result (λ stack. replicate (stack.0 - stack_from) 0 ++ stack.1.items ≡ stack_of (map string_bytes args.now)) }
{
    let block = strings_of(alloc, args)?;
    let strings_at = STACK_END - block.len() as u32;
    let words = args.len() as u32 + 1;
    let pointer = (strings_at - 4 * (words + 4)) / 16 * 16;
    let mut bytes = Vec::new(alloc);
    bytes.extend_from_slice(&(args.len() as u32).to_le_bytes())?;
    push_addresses(&mut bytes, strings_at, args)?;
    pad(&mut bytes, strings_at - pointer - 4 * words)?;
    bytes.extend_from_slice(block.as_slice())?;
    Ok((pointer, bytes))
}

/// The lowest address of the stack, and its bytes.
pub fn stack_place() -> (u32, u32)
    ensures from { result.0 ≡ stack_from }
    ensures len { result.1 ≡ 0x800000 }
{
    (STACK_FROM, STACK_END - STACK_FROM)
}
