// Fields from the front of bytes.
ghost use Rattle.std.specs.Prelude.{◌≡◌, IfOk, IsTrue};
ghost use Rattle.heap_image.specs.Fields.{Byte, Word, Long};
ghost use Rattle.heap_image.specs.Steps.{Gives, number_at, part_at, rule, mark_at};

use crate::refusal::ImageRefusal;
use crate::version::{MARK_ONE, MARK_TWO, Version};

#[tactic(auto, unfolding(crate::specs::Steps::number_at, crate::specs::Fields::number_in))]
pub fn byte_at(bytes: &[u8]) -> Result<(u8, &[u8]), ImageRefusal>
    ensures { Gives (λ x. (x.0, x.1.now)) result (number_at Byte bytes.now) }
{
    match bytes {
        [] => Err(ImageRefusal::Short),
        [byte, rest @ ..] => Ok((*byte, rest)),
    }
}

#[tactic(auto, unfolding(crate::specs::Steps::number_at, crate::specs::Fields::number_in))]
pub fn word_at(bytes: &[u8]) -> Result<(u32, &[u8]), ImageRefusal>
    ensures { Gives (λ x. (x.0, x.1.now)) result (number_at Word bytes.now) }
{
    if bytes.len() < 4 {
        return Err(ImageRefusal::Short);
    }
    let (front, rest) = bytes.split_at(4);
    let number = u32::from_le_bytes([front[0], front[1], front[2], front[3]]);
    Ok((number, rest))
}

#[tactic(auto, unfolding(crate::specs::Steps::number_at, crate::specs::Fields::number_in))]
pub fn long_at(bytes: &[u8]) -> Result<(u64, &[u8]), ImageRefusal>
    ensures { Gives (λ x. (x.0, x.1.now)) result (number_at Long bytes.now) }
{
    if bytes.len() < 8 {
        return Err(ImageRefusal::Short);
    }
    let (front, rest) = bytes.split_at(8);
    let number = u64::from_le_bytes([
        front[0], front[1], front[2], front[3], front[4], front[5], front[6], front[7],
    ]);
    Ok((number, rest))
}

#[tactic(auto, unfolding(crate::specs::Steps::part_at))]
pub fn part_at(len: u128, bytes: &[u8]) -> Result<(&[u8], &[u8]), ImageRefusal>
    ensures { Gives (λ x. (x.0.now, x.1.now)) result (part_at len bytes.now) }
{
    if (bytes.len() as u128) < len {
        return Err(ImageRefusal::Short);
    }
    Ok(bytes.split_at(len as usize))
}

/// Whether a field, which begins where these bytes do, keeps its rule; all bytes are `whole`.
#[tactic(auto, unfolding(crate::specs::Steps::rule))]
pub fn keeps(whole: usize, bytes: &[u8], kept: bool) -> Result<(), ImageRefusal>
    ensures gives { Gives (λ x. x) result (rule whole bytes.now kept) }
    ensures kept { IfOk result (λ done. IsTrue kept) }
{
    if kept {
        Ok(())
    } else {
        Err(ImageRefusal::Bad {
            at: whole.saturating_sub(bytes.len()) as u64,
        })
    }
}

#[tactic(auto, unfolding(crate::specs::Steps::mark_at))]
pub fn mark_at(bytes: &[u8]) -> Result<(Version, &[u8]), ImageRefusal>
    ensures { Gives (λ x. (x.0, x.1.now)) result (mark_at bytes.now) }
{
    if bytes.starts_with(&MARK_TWO) {
        return Ok((Version::Two, &bytes[8..]));
    }
    if bytes.starts_with(&MARK_ONE) {
        return Ok((Version::One, &bytes[8..]));
    }
    Err(ImageRefusal::Head)
}
