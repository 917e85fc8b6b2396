ghost use Rattle.std.specs.Prelude.{◌≡◌, ◌≢◌, ◌⊎◌, ◌++◌, ℕ, List, MatchOption, IfOk, IsTrue, ◌↔◌, Ok, Err};
ghost use Rattle.std.specs.Ordering.{nat_cmp};
ghost use Rattle.patch_table.specs.Table.{Table, pair_cmp};
ghost use Rattle.patch_table.specs.Line.{InLimit};
ghost use Rattle.patch_table.specs.Grammar.{Answers, AllBelow, IsPatchText, IsRefused, WantsMemory};
ghost use Rattle.patch_table.specs.Spelling.{head_of, spelling};
ghost use Rattle.patch_table.specs.declared.line.Version.{Version};
ghost use Rattle.patch_table.specs.declared.reading.PatchRefusal.{PatchRefusal};

use crate::line::{Key, Line, Version, after, line_at};
use crate::table::Patches;
use std::alloc::Global;
use std::collections::BTreeMap;
use thiserror::Error;

/// The first line of a patch text of version 1.
pub const HEAD_ONE: [u8; 17] = *b"exterm-patches 1\n";

/// The first line of a patch text of version 2.
pub const HEAD_TWO: [u8; 17] = *b"exterm-patches 2\n";

/// Why a text is no patch text: the first line that breaks a rule, with its number from 1, and the
/// first rule that it breaks in the order of these variants (docs/patches.md, "Refusals").
#[derive(Debug, Drop, PartialEq, Eq, Error)]
pub enum PatchRefusal {
    /// The text begins neither with `exterm-patches 1` nor with `exterm-patches 2` and a line feed.
    #[error("the first line is neither `exterm-patches 1` nor `exterm-patches 2`")]
    Head,
    /// Line `n` is no line of the text's version, or has no line feed.
    #[error("line {n} is no line of a patch text")]
    Line { n: u64 },
    /// The number of line `n` is out of its range, or is a front's and no multiple of 16.
    #[error("the number of line {n} is out of range")]
    Limit { n: u64 },
    /// Line `n` does not rise over the line before it of its kind, or its kind comes before that one's.
    #[error("line {n} is out of order")]
    Order { n: u64 },
    /// Want of memory, and nothing else.
    #[error("out of memory")]
    Memory,
}

pub fn in_limit(line: &Line) -> bool
    ensures { IsTrue result ↔ InLimit line.now.key line.now.number }
{
    match line.key {
        Key::Pad { .. } => 1 <= line.number && line.number <= 1_048_576,
        Key::Front { .. } => { 16 <= line.number && line.number <= 65_536 && line.number % 16 == 0 }
        Key::Defer { .. } => 1 <= line.number && line.number <= 4_294_967_295,
    }
}

// The site is above all that the map has.
pub fn site_rises(sites: &BTreeMap<u32, u32>, site: u32) -> bool
    ensures { IsTrue result ↔ AllBelow nat_cmp sites.now.entries site }
{
    match sites.last_key_value() {
        None => true,
        Some((last, _)) => *last < site,
    }
}

pub fn pair_rises(pairs: &BTreeMap<(u32, u32), u32>, pair: (u32, u32)) -> bool
    ensures { IsTrue result ↔ AllBelow pair_cmp pairs.now.entries pair }
{
    match pairs.last_key_value() {
        None => true,
        Some((last, _)) => last.cmp(&pair).is_lt(),
    }
}

// The version of the text, which its first line tells, and the lines behind it.
fn version_of(text: &[u8]) -> Option<(Version, &[u8])>
    ensures { MatchOption result ((version : Version) (rest : List ℕ) → text.now ≢ head_of version ++ rest) (λ x. text.now ≡ head_of x.0 ++ x.1.now) }
{
    match after(text, &HEAD_ONE) {
        Some(rest) => Some((Version::One, rest)),
        None => match after(text, &HEAD_TWO) {
            Some(rest) => Some((Version::Two, rest)),
            None => None,
        },
    }
}

// The table of the text, or the first rule that it breaks.
fn answer_of(alloc: Global, text: &[u8]) -> Result<Patches, PatchRefusal>
    ensures { Answers text.now result }
{
    let (version, mut rest) = match version_of(text) {
        Some(head) => head,
        None => return Err(PatchRefusal::Head),
    };
    let mut patches = Patches::new(alloc);
    let mut n = 2u64;
    while !rest.is_empty() {
        match line_at(version, rest) {
            None => return Err(PatchRefusal::Line { n }),
            Some((line, next)) => {
                match patches.take(&line, n) {
                    Ok(()) => {}
                    Err(refusal) => return Err(refusal),
                }
                rest = next;
                n += 1;
            }
        }
    }
    Ok(patches)
}

impl Patches {
    /// Reads the text of a table, of version 1 or 2. It takes about n log n steps for n lines.
    ///
    /// A refusal names the first line that breaks a rule and that rule.
    pub fn read(alloc: Global, text: &[u8]) -> Result<Patches, PatchRefusal>
        ensures answer { Answers text.now result }
        ensures one_text { IfOk result (λ table. (version : Version) × (text.now ≡ spelling version table)) }

        // Only want of memory stands between a text and its table, or a text and its refusal.
        ensures accepts { (table : Table) → IsPatchText text.now table → (result ≡ Ok table) ⊎ WantsMemory result }
        ensures refuses { (refusal : PatchRefusal) → IsRefused text.now refusal → (result ≡ Err refusal) ⊎ WantsMemory result }
    {
        answer_of(alloc, text)
    }
}
