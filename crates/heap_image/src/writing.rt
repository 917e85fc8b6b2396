// The bytes of an image, of version 2.
ghost use Rattle.std.specs.Prelude.{◌≡◌, ◌<◌, ◌++◌, ◌^◌, length, OnOk, IfOk};
ghost use Rattle.heap_image.specs.declared.version.Version.TheVariants.{Two};
ghost use Rattle.heap_image.specs.Snapshot.{Snapshot};
ghost use Rattle.heap_image.specs.Grammar.{IsImage};
ghost use Rattle.heap_image.specs.Spelling.{place_number, head_of, head_bytes, object_bytes, row_bytes, broken_bytes, class_bytes, counted, tail_bytes, spelling};
ghost use Rattle.heap_image.specs.Fields.{Byte, Word, Long, number_bytes};
ghost use Rattle.heap_image.specs.Versions.{mark_of, text_of};

use crate::image::{Broken, Head, Image};
use crate::version::MARK_TWO;
use exact_heap::{Place, SlotRow};
use std::alloc::{AllocError, Global};

fn number_of(place: Place) -> u64
    ensures { result ≡ place_number place }
{
    match place {
        Place::Call(n) => n,
        Place::End => u64::MAX,
    }
}

#[tactic(auto, unfolding(crate::specs::Fields::number_bytes))]
fn put_byte(out: &mut Vec<u8>, byte: u8) -> Result<(), AllocError>
    ensures { OnOk result (out.new.items ≡ out.old.items ++ number_bytes Byte byte) }
{
    out.push(byte)?;
    Ok(())
}

#[tactic(auto, unfolding(crate::specs::Fields::number_bytes))]
fn put_word(out: &mut Vec<u8>, word: u32) -> Result<(), AllocError>
    ensures { OnOk result (out.new.items ≡ out.old.items ++ number_bytes Word word) }
{
    out.extend_from_slice(&word.to_le_bytes())
}

#[tactic(auto, unfolding(crate::specs::Fields::number_bytes))]
fn put_long(out: &mut Vec<u8>, long: u64) -> Result<(), AllocError>
    ensures { OnOk result (out.new.items ≡ out.old.items ++ number_bytes Long long) }
{
    out.extend_from_slice(&long.to_le_bytes())
}

fn put_object(out: &mut Vec<u8>, row: &SlotRow) -> Result<(), AllocError>
    ensures { OnOk result (out.new.items ≡ out.old.items ++ object_bytes Two row.now) }
{
    put_word(out, row.addr)?;
    put_byte(out, row.state)?;
    put_long(out, row.object)?;
    put_word(out, row.size)?;
    put_word(out, row.front)?;
    Ok(())
}

fn put_row(out: &mut Vec<u8>, row: &SlotRow) -> Result<(), AllocError>
    ensures { OnOk result (out.new.items ≡ out.old.items ++ row_bytes Two row.now) }
{
    put_object(out, row)?;
    put_word(out, row.site)?;
    put_word(out, row.free_site)?;
    put_long(out, row.freed)?;
    Ok(())
}

fn put_broken(out: &mut Vec<u8>, broken: &Broken) -> Result<(), AllocError>
    ensures { OnOk result (out.new.items ≡ out.old.items ++ broken_bytes broken.now) }
{
    put_word(out, broken.addr)?;
    put_byte(out, broken.byte)?;
    Ok(())
}

fn put_head(out: &mut Vec<u8>, head: &Head) -> Result<(), AllocError>
    ensures { OnOk result (out.new.items ≡ out.old.items ++ head_bytes head.now) }
{
    put_long(out, head.tag)?;
    put_long(out, head.seed)?;
    put_long(out, number_of(head.place))?;
    put_long(out, head.clock)?;
    Ok(())
}

fn put_classes(out: &mut Vec<u8>, classes: &[u8]) -> Result<(), AllocError>
    requires { length classes.now < 2 ^ 32 }
    ensures { OnOk result (out.new.items ≡ out.old.items ++ counted class_bytes classes.now) }
{
    put_word(out, classes.len() as u32)?;
    for class in classes {
        put_word(out, u32::from(*class))?;
    }
    Ok(())
}

fn put_rows(out: &mut Vec<u8>, rows: &[SlotRow]) -> Result<(), AllocError>
    requires { length rows.now < 2 ^ 32 }
    ensures { OnOk result (out.new.items ≡ out.old.items ++ counted (row_bytes Two) rows.now) }
{
    put_word(out, rows.len() as u32)?;
    for row in rows {
        put_row(out, row)?;
    }
    Ok(())
}

fn put_breaks(out: &mut Vec<u8>, broken: &[Broken]) -> Result<(), AllocError>
    requires { length broken.now < 2 ^ 32 }
    ensures { OnOk result (out.new.items ≡ out.old.items ++ counted broken_bytes broken.now) }
{
    put_word(out, broken.len() as u32)?;
    for b in broken {
        put_broken(out, b)?;
    }
    Ok(())
}

impl Image {
    fn head(&self) -> Head
        ensures { result ≡ head_of self.now }
    {
        Head {
            tag: self.tag,
            seed: self.seed,
            place: self.place,
            clock: self.clock,
        }
    }

    // What follows the patch text.
    fn put_tail(&self, out: &mut Vec<u8>) -> Result<(), AllocError>
        ensures { OnOk result (out.new.items ≡ out.old.items ++ tail_bytes Two self.now) }
    {
        put_classes(out, &self.miniheaps)?;
        put_rows(out, &self.rows)?;
        out.extend_from_slice(&self.contents)?;
        put_breaks(out, &self.broken)?;
        Ok(())
    }

    // The bytes, with the text of the patches.
    #[tactic(auto, unfolding(crate::specs::Versions::mark_of))]
    fn spelled(&self, alloc: Global, text: &[u8]) -> Result<Vec<u8>, AllocError>
        requires { length text.now < 2 ^ 32 }
        ensures { IfOk result (λ bytes. bytes.items ≡ spelling Two text.now self.now) }
    {
        let mut out = Vec::new(alloc);
        out.extend_from_slice(&MARK_TWO)?;
        put_head(&mut out, &self.head())?;
        put_word(&mut out, text.len() as u32)?;
        out.extend_from_slice(text)?;
        self.put_tail(&mut out)?;
        Ok(out)
    }

    /// The bytes of version 2.
    pub fn write(&self, alloc: Global) -> Result<Vec<u8>, AllocError>
        requires { length (text_of Two self.now.patches) < 2 ^ 32 }
        ensures { IfOk result (λ bytes. IsImage Two bytes.items self.now) }
    {
        let text = self.patches.write(alloc)?;
        self.spelled(alloc, &text)
    }
}
