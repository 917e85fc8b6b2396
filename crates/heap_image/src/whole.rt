// A whole image from its bytes.
ghost use Rattle.std.specs.Prelude.{◌≡◌, ◌≤◌, ◌^◌, ◌⊎◌, length, IfOk, Ok, Err};
ghost use Rattle.heap_image.specs.declared.version.Version.{Version};
ghost use Rattle.heap_image.specs.declared.refusal.ImageRefusal.{ImageRefusal};
ghost use Rattle.heap_image.specs.Grammar.{IsImage, IsRead};
ghost use Rattle.heap_image.specs.Snapshot.{Snapshot};
ghost use Rattle.heap_image.specs.Lawful.{IsLawful};
ghost use Rattle.heap_image.specs.Reading.{Answers, front_at, contents_at, parts_at, parts_in, image_of};
ghost use Rattle.heap_image.specs.Rules.{content_bytes, contents_len};
ghost use Rattle.heap_image.specs.Steps.{Gives};

use crate::fields::{mark_at, part_at, word_at};
use crate::image::{Broken, Head, Image};
use crate::patches::patches_of;
use crate::reading::{breaks_of, head_of, minis_of, rows_of};
use crate::refusal::ImageRefusal;
use crate::rows::Rows;
use crate::slots::slot_bytes;
use crate::version::Version;
use exact_heap::SlotRow;
use miniheap::Places;
use patch_table::{Patches, one_answer};
use std::alloc::{AllocError, Global};

// What stands before the miniheaps; the patch text is the first part of what begins at `begins`.
#[derive(Clone, Copy)]
struct Opening<'a> {
    version: Version,
    head: Head,
    begins: &'a [u8],
    text: &'a [u8],
    rest: &'a [u8],
}

/// What stands behind the patch text.
#[derive(Drop)]
pub struct Body {
    miniheaps: Vec<u8>,
    rows: Vec<SlotRow>,
    contents: Vec<u8>,
    broken: Vec<Broken>,
}

impl Image {
    /// The image that the bytes are, in either version. It takes about n log n steps for n bytes, and
    /// memory for what the bytes hold, whatever numbers of items they claim.
    ///
    /// A refusal names the first field that is cut off or breaks its rule.
    pub fn read(alloc: Global, bytes: &[u8]) -> Result<Image, ImageRefusal>
        ensures answer { Answers bytes.now result }
        ensures image { IfOk result (IsRead bytes.now) }

        // Only want of memory stands between bytes and their image.
        ensures accepts { (version : Version) (s : Snapshot) → IsImage version bytes.now s → (result ≡ Ok s) ⊎ (result ≡ Err ImageRefusal.Memory) }
    {
        one_answer();
        answer_of(alloc, bytes)
    }
}

fn answer_of(alloc: Global, bytes: &[u8]) -> Result<Image, ImageRefusal>
    ensures { Answers bytes.now result }
{
    let opening = match opening_of(bytes) {
        Ok(opening) => opening,
        Err(refusal) => return Err(refusal),
    };
    match patches_of(alloc, opening.version, opening.text) {
        Err(_) => Err(ImageRefusal::Memory),
        Ok(None) => Err(ImageRefusal::Bad {
            at: bytes.len().saturating_sub(opening.begins.len()) as u64,
        }),
        Ok(Some(patches)) => {
            match body_of(
                alloc,
                opening.version,
                bytes.len(),
                &opening.head,
                opening.rest,
            ) {
                Ok(body) => Ok(assembled(opening.head, patches, body)),
                Err(refusal) => Err(refusal),
            }
        }
    }
}

#[tactic(auto, unfolding(crate::specs::Reading::front_at))]
fn opening_of(bytes: &[u8]) -> Result<Opening<'_>, ImageRefusal>
    ensures { Gives (λ f. record { version = f.version; head = f.head; begins = f.begins.now; text = f.text.now; rest = f.rest.now }) result (front_at bytes.now) }
{
    let (version, rest) = mark_at(bytes)?;
    let (head, rest) = head_of(bytes.len(), rest)?;
    let (len, begins) = word_at(rest)?;
    let (text, rest) = part_at(u128::from(len), begins)?;
    Ok(Opening {
        version,
        head,
        begins,
        text,
        rest,
    })
}

#[tactic(auto, unfolding(crate::specs::Reading::parts_at))]
fn body_of(
    alloc: Global,
    version: Version,
    whole: usize,
    head: &Head,
    bytes: &[u8],
) -> Result<Body, ImageRefusal>
    ensures { Gives parts_in result (parts_at version whole head.now bytes.now) }
{
    let (places, rest) = minis_of(alloc, version, whole, bytes)?;
    let (rows, rest) = rows_of(alloc, version, whole, &places, head.clock, rest)?;
    contents_of(alloc, whole, head.seed, &places, rows, rest)
}

#[tactic(auto, unfolding(crate::specs::Reading::contents_at))]
fn contents_of(
    alloc: Global,
    whole: usize,
    seed: u64,
    places: &Places,
    rows: Rows,
    bytes: &[u8],
) -> Result<Body, ImageRefusal>
    ensures { Gives parts_in result (contents_at whole seed places.now rows bytes.now) }
{
    let len = contents_len(places, rows.as_slice());
    let (contents, rest) = part_at(len, bytes)?;
    let (breaks, rest) = breaks_of(alloc, whole, seed, places, &rows, rest)?;
    if !rest.is_empty() {
        return Err(ImageRefusal::Tail);
    }
    let miniheaps = Vec::from_slice(alloc, places.classes())?;
    let contents = Vec::from_slice(alloc, contents)?;
    Ok(Body {
        miniheaps,
        rows: rows.into_vec(),
        contents,
        broken: breaks.into_vec(),
    })
}

fn content_bytes(places: &Places, row: &SlotRow) -> u32
    ensures { result ≡ content_bytes places.now row.now }
{
    if row.state <= 1 {
        slot_bytes(places, row.addr)
    } else {
        0
    }
}

// The bytes of all slots that an object has.
fn contents_len(places: &Places, rows: &[SlotRow]) -> u128
    ensures { result ≡ contents_len places.now rows.now }
{
    let mut sum = 0u128;
    for row in rows {
        sum += u128::from(content_bytes(places, row));
    }
    sum
}

fn assembled(head: Head, patches: Patches, body: Body) -> Image
    requires { IsLawful (image_of head patches (parts_in body)) }
    ensures { result ≡ image_of head patches (parts_in body) }
{
    Image {
        tag: head.tag,
        seed: head.seed,
        place: head.place,
        clock: head.clock,
        patches,
        miniheaps: body.miniheaps,
        rows: body.rows,
        contents: body.contents,
        broken: body.broken,
    }
}
