// Program headers in the order of their addresses.
ghost use Rattle.std.specs.Prelude.{◌≡◌, ℕ, ◌+◌, ◌<◌, List, length, map, OnOk, IfOk};
ghost use Rattle.std.specs.List.{All};
ghost use Rattle.std.specs.Bool.{MatchBool};
ghost use Rattle.std.specs.List.Sorted.{IsPermutation, IsNonDecreasingBy};
ghost use Rattle.elf_load.specs.Headers.{segment_of};
ghost use Rattle.elf_load.specs.Order.{Chained, Meets, InOrder};

use crate::header::ProgramHeader;
use std::alloc::AllocError;

fn sort(headers: &mut Vec<ProgramHeader>) -> Result<(), AllocError>
    ensures permutation { IsPermutation headers.old.items headers.new.items }
    ensures sorted { OnOk result (IsNonDecreasingBy (λ h. h.from) headers.new.items) }
{
    headers.sort_by_key(|h| h.from)
}

fn end_of(header: &ProgramHeader) -> u64
    ensures { result ≡ header.now.from + header.now.len }
{
    u64::from(header.from) + u64::from(header.len)
}

// Whether each segment ends where the next begins, at the latest.
fn is_chained(headers: &[ProgramHeader]) -> bool
    ensures { MatchBool result (Chained headers.now (length headers.now)) (Meets headers.now) }
{
    for i in 1..headers.len() {
        if u64::from(headers[i].from) < end_of(&headers[i - 1]) {
            return false;
        }
    }
    true
}

/// Puts headers in the order of their addresses, and says whether no two segments share one.
pub fn put_in_order(headers: &mut Vec<ProgramHeader>) -> Result<bool, AllocError>
    requires { All (λ h. 0 < h.len) headers.old.items }
    ensures permutation { IsPermutation headers.old.items headers.new.items }
    ensures order { (file : List ℕ) → IfOk result (InOrder (map (segment_of file) headers.old.items) (map (segment_of file) headers.new.items)) }
{
    sort(headers)?;
    Ok(is_chained(headers))
}
