// The fields of a word.
ghost use Rattle.std.specs.Prelude.{◌≡◌, ◌<◌, ◌^◌};
ghost use Rattle.infinite_heap.specs.Row as row;

#[inline(always)]
pub fn rd(word: u32) -> u8
    ensures value { result ≡ row.rd word }
    ensures register { result < 32 }
{
    (word >> 7 & 31) as u8
}

#[inline(always)]
pub fn rs1(word: u32) -> u8
    ensures value { result ≡ row.rs1 word }
    ensures register { result < 32 }
{
    (word >> 15 & 31) as u8
}

#[inline(always)]
pub fn rs2(word: u32) -> u8
    ensures value { result ≡ row.rs2 word }
    ensures register { result < 32 }
{
    (word >> 20 & 31) as u8
}

#[inline(always)]
pub fn funct7(word: u32) -> u32
    ensures { result ≡ row.funct7 word }
{
    word >> 25
}

#[inline(always)]
pub fn top(word: u32) -> u32
    ensures { result ≡ row.top word }
{
    word >> 12
}

#[inline(always)]
pub fn imm_i(word: u32) -> i32
    ensures { result ≡ row.imm_i word }
{
    word.cast_signed() >> 20
}

#[inline(always)]
pub fn imm_s(word: u32) -> i32
    ensures { result ≡ row.imm_s word }
{
    (word.cast_signed() >> 25) * 32 + (word >> 7 & 31) as i32
}

#[inline(always)]
pub fn imm_b(word: u32) -> i32
    ensures { result ≡ row.imm_b word }
{
    let low = (word >> 7 & 1) * 2048 + (word >> 25 & 63) * 32 + (word >> 8 & 15) * 2;
    (word.cast_signed() >> 31) * 4096 + low as i32
}

#[inline(always)]
pub fn imm_j(word: u32) -> i32
    ensures { result ≡ row.imm_j word }
{
    let low = (word >> 12 & 255) * 4096 + (word >> 20 & 1) * 2048 + (word >> 21 & 1023) * 2;
    (word.cast_signed() >> 31) * 1_048_576 + low as i32
}
