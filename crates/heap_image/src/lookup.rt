// What of an image is looked up: broken bytes by their addresses, and rows by their objects.
ghost use Rattle.std.specs.Prelude.{◌≡◌, ◌≤◌, ◌<◌, ◌==◌, ℕ, length, filter, slice_index_or, find, IfOk, OnOk, if◌then◌else◌, Option, Some};
ghost use Rattle.std.specs.BTreeMap.{get};
ghost use Rattle.std.specs.List.{list_any};
ghost use Rattle.std.specs.Ordering.{nat_cmp};
ghost use Rattle.heap_image.specs.Agreement.{is_row_of, row_of};
ghost use Rattle.heap_image.specs.Lookup.{AddrsRise, is_broken, is_within};
ghost use Rattle.heap_image.specs.declared.image.Broken.{Broken};

use crate::image::{Broken, Image};
use exact_heap::SlotRow;
use std::alloc::{AllocError, Global};
use std::collections::BTreeMap;
use std::marker::Model;

impl Image {
    /// The broken bytes from an address on to below another.
    pub fn breaks_within(&self, from: u64, to: u64) -> &[Broken]
        requires { from ≤ to }
        ensures within { result.now ≡ filter (is_within from to) self.now.broken }
        ensures rising { AddrsRise result.now }
    {
        let start = count_below(&self.broken, from);
        let end = count_below(&self.broken, to);
        &self.broken[start..end]
    }

    /// Whether the byte at an address is broken.
    pub fn is_broken(&self, addr: u64) -> bool
        ensures { result ≡ is_broken self.now addr }
    {
        is_listed(&self.broken, addr)
    }
}

// How many broken bytes lie below an address.
fn count_below(broken: &[Broken], addr: u64) -> usize
    requires rising { AddrsRise broken.now }
    ensures bound { result ≤ length broken.now }
    ensures below { (d : Broken) (i : ℕ) → i < result → (slice_index_or broken.now i d).addr < addr }
    ensures from { (d : Broken) (i : ℕ) → result ≤ i → i < length broken.now → addr ≤ (slice_index_or broken.now i d).addr }
{
    broken.partition_point(|b| (b.addr as u64) < addr)
}

fn is_listed(broken: &[Broken], addr: u64) -> bool
    requires rising { AddrsRise broken.now }
    ensures { result ≡ list_any (λ b. b.addr == addr) broken.now }
{
    let at = count_below(broken, addr);
    at < broken.len() && u64::from(broken[at].addr) == addr
}

/// An image with its rows by their objects. A clause sees the image.
#[derive(Drop)]
pub struct Indexed<'a> {
    image: &'a Image,
    by_object: BTreeMap<u64, SlotRow>,
}

impl<'a> Model for Indexed<'a> {
    ghost use Rattle.std.specs.Coded.{codes};
    ghost use Rattle.patch_table.specs.Table.{table_code};
    ghost use Rattle.heap_image.specs.Snapshot.{Snapshot};

    ghost Value = { Snapshot };

    ghost coded = { Prim.hlevel (codes, table_code) };

    ghost use Rattle.heap_image.specs.Known.{KnowsObjects};

    ghost view = { λ a. a.image.now };

    ghost invariant = { KnowsObjects };
}

impl<'a> Indexed<'a> {
    pub fn new(alloc: Global, image: &'a Image) -> Result<Indexed<'a>, AllocError>
        ensures { IfOk result (λ indexed. indexed ≡ image.now) }
    {
        let by_object = rows_by_object(alloc, &image.rows)?;
        Ok(Indexed { image, by_object })
    }

    pub fn image(&self) -> &'a Image
        ensures { result.now ≡ self.now }
    {
        self.image
    }

    /// The row of an object.
    pub fn row_of(&self, object: u64) -> Option<SlotRow>
        ensures { result ≡ row_of object self.now }
    {
        self.by_object.get(&object).copied()
    }
}

/// Images with their rows by their objects.
pub fn indexed_images<'a>(
    alloc: Global,
    images: &'a [Image],
) -> Result<Vec<Indexed<'a>>, AllocError>
    ensures { IfOk result (λ all. all.items ≡ images.now) }
{
    let mut all = Vec::new(alloc);
    for image in images {
        all.push(Indexed::new(alloc, image)?)?;
    }
    Ok(all)
}

// Rows by their objects; of two of one object the first counts.
fn rows_by_object(alloc: Global, rows: &[SlotRow]) -> Result<BTreeMap<u64, SlotRow>, AllocError>
    ensures { IfOk result (λ m. (object : ℕ) → get nat_cmp m object ≡ find (is_row_of object) rows.now) }
{
    let mut by_object = BTreeMap::new(alloc);
    for k in 0..rows.len() {
        put_row(&mut by_object, &rows[rows.len() - 1 - k])?;
    }
    Ok(by_object)
}

fn put_row(by_object: &mut BTreeMap<u64, SlotRow>, row: &SlotRow) -> Result<(), AllocError>
    ensures { OnOk result ((object : ℕ) → get nat_cmp by_object.new object ≡ (if is_row_of object row.now then Some row.now else get nat_cmp by_object.old object)) }
{
    if row.state != 4 {
        by_object.insert(row.object, *row)?;
    }
    Ok(())
}
