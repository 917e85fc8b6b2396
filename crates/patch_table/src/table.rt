ghost use Rattle.std.specs.Prelude.{◌≡◌, ◌≤◌, ◌^◌, ◌%◌, OnOk, OnErr, IfOk, IsTrue, ◌↔◌};
ghost use Rattle.std.specs.FinMap as map;
ghost use Rattle.patch_table.specs.Table.{no_patches, value_at, raised, join};
ghost use Rattle.patch_table.specs.Limits.{InLimits};
ghost use Rattle.patch_table.specs.Line.{InLimit};
ghost use Rattle.patch_table.specs.Grammar.{IsText, Rises, Takes, with_line};
ghost use Rattle.patch_table.specs.Spelling.{spelling};
ghost use Rattle.patch_table.specs.declared.line.Version.TheVariants.{Two};

use crate::joining::{add_keys, drop_keys, raise};
use crate::line::{Key, Line};
use crate::reading::{HEAD_TWO, PatchRefusal, in_limit, pair_rises, site_rises};
use crate::writing::{put_defers, put_fronts, put_pads};
use std::alloc::{AllocError, Global};
use std::collections::BTreeMap;
use std::marker::Model;

/// A patch table: the pad of each allocation site, 1 to 1,048,576 bytes, the front of each allocation
/// site, a multiple of 16 from 16 to 65,536 bytes, and the deferral of each pair of an allocation site
/// and a free site, 1 to 4,294,967,295 allocations. What is absent is 0.
///
/// Contracts see the three finite maps, `pads`, `fronts` and `defers`.
#[derive(Drop)]
pub struct Patches {
    pads: BTreeMap<u32, u32>,
    fronts: BTreeMap<u32, u32>,
    defers: BTreeMap<(u32, u32), u32>,
}

impl Model for Patches {
    ghost use Rattle.patch_table.specs.Table.{Table, table_code};

    ghost Value = { Table };

    ghost coded = { table_code };

    ghost use Rattle.patch_table.specs.View.{view_of, IsKept};

    ghost view = { view_of };

    ghost invariant = { IsKept };
}

impl Patches {
    /// The table with no entry. It takes no memory yet.
    pub fn new(alloc: Global) -> Patches
        ensures { result ≡ no_patches }
    {
        Patches {
            pads: BTreeMap::new(alloc),
            fronts: BTreeMap::new(alloc),
            defers: BTreeMap::new(alloc),
        }
    }

    /// The pad of an allocation site in bytes, found in logarithmic time.
    pub fn pad_of(&self, site: u32) -> u32
        ensures value { result ≡ value_at self.now.pads site }
        ensures limit { result ≤ 2 ^ 20 }
    {
        self.pads.get(&site).copied().unwrap_or(0)
    }

    /// The front of an allocation site in bytes, found in logarithmic time.
    pub fn front_of(&self, site: u32) -> u32
        ensures value { result ≡ value_at self.now.fronts site }
        ensures limit { result ≤ 2 ^ 16 }
        ensures multiple { result % 16 ≡ 0 }
    {
        self.fronts.get(&site).copied().unwrap_or(0)
    }

    /// The deferral of an allocation site and a free site in allocations, found in logarithmic time.
    pub fn defer_of(&self, alloc_site: u32, free_site: u32) -> u32
        ensures { result ≡ value_at self.now.defers (alloc_site, free_site) }
    {
        self.defers
            .get(&(alloc_site, free_site))
            .copied()
            .unwrap_or(0)
    }

    /// Keeps the greater of the site's pad and this one.
    pub fn raise_pad(&mut self, site: u32, pad: u32) -> Result<(), AllocError>
        requires least { 1 ≤ pad }
        requires most { pad ≤ 2 ^ 20 }
        ensures ok { OnOk result (self.new ≡ record self.old { pads = raised self.old.pads site pad }) }
        ensures err { OnErr result (self.new ≡ self.old) }
    {
        let most = self.pad_of(site).max(pad);
        self.pads.insert(site, most)?;
        Ok(())
    }

    /// Keeps the greater of the site's front and this one.
    pub fn raise_front(&mut self, site: u32, front: u32) -> Result<(), AllocError>
        requires least { 16 ≤ front }
        requires most { front ≤ 2 ^ 16 }
        requires multiple { front % 16 ≡ 0 }
        ensures ok { OnOk result (self.new ≡ record self.old { fronts = raised self.old.fronts site front }) }
        ensures err { OnErr result (self.new ≡ self.old) }
    {
        let most = self.front_of(site).max(front);
        self.fronts.insert(site, most)?;
        Ok(())
    }

    /// Keeps the greater of the pair's deferral and this one.
    pub fn raise_defer(
        &mut self,
        alloc_site: u32,
        free_site: u32,
        defer: u32,
    ) -> Result<(), AllocError>
        requires { 1 ≤ defer }
        ensures ok { OnOk result (self.new ≡ record self.old { defers = raised self.old.defers (alloc_site, free_site) defer }) }
        ensures err { OnErr result (self.new ≡ self.old) }
    {
        let most = self.defer_of(alloc_site, free_site).max(defer);
        self.defers.insert((alloc_site, free_site), most)?;
        Ok(())
    }

    /// Takes the greater entry of both tables at each key. Memory is taken for keys that only the
    /// other table has.
    pub fn join(&mut self, other: &Patches) -> Result<(), AllocError>
        ensures ok { OnOk result (self.new ≡ join self.old other.now) }
        ensures err { OnErr result (self.new ≡ self.old) }
    {
        add_keys(&mut self.pads, &other.pads)?;
        if let Err(refused) = add_keys(&mut self.fronts, &other.fronts) {
            drop_keys(&mut self.pads);
            return Err(refused);
        }
        if let Err(refused) = add_keys(&mut self.defers, &other.defers) {
            drop_keys(&mut self.pads);
            drop_keys(&mut self.fronts);
            return Err(refused);
        }
        raise(&mut self.pads, &other.pads);
        raise(&mut self.fronts, &other.fronts);
        raise(&mut self.defers, &other.defers);
        Ok(())
    }

    /// The same table once more.
    pub fn copy(&self) -> Result<Patches, AllocError>
        ensures { IfOk result (λ copy. copy ≡ self.now) }
    {
        Ok(Patches {
            pads: copy_of_sites(&self.pads)?,
            fronts: copy_of_sites(&self.fronts)?,
            defers: copy_of_pairs(&self.defers)?,
        })
    }

    /// Whether both have the same entries. It takes no memory.
    pub fn is_same(&self, other: &Patches) -> bool
        ensures { IsTrue result ↔ (self.now ≡ other.now) }
    {
        self.pads == other.pads && (self.fronts == other.fronts && self.defers == other.defers)
    }

    /// The numbers of pads, of fronts and of deferrals.
    pub fn counts(&self) -> (u64, u64, u64)
        ensures { result ≡ (map.len self.now.pads, map.len self.now.fronts, map.len self.now.defers) }
    {
        (
            self.pads.len() as u64,
            self.fronts.len() as u64,
            self.defers.len() as u64,
        )
    }

    /// The one text of the table in version 2.
    pub fn write(&self, alloc: Global) -> Result<Vec<u8>, AllocError>
        ensures spelled { IfOk result (λ text. text.items ≡ spelling Two self.now) }
        ensures read { IfOk result (λ text. IsText Two text.items self.now) }
    {
        let mut out = Vec::new(alloc);
        out.extend_from_slice(&HEAD_TWO)?;
        put_pads(alloc, &mut out, &self.pads)?;
        put_fronts(alloc, &mut out, &self.fronts)?;
        put_defers(alloc, &mut out, &self.defers)?;
        Ok(out)
    }

    /// A table holds no number out of its range: a law, with nothing to run.
    pub fn keep_limits(&self)
        ensures { InLimits self.now }
    {
        let _pads = &self.pads;
    }
}

impl Patches {
    // Whether a line of this key may follow those of the table.
    fn rises(&self, key: &Key) -> bool
        ensures { IsTrue result ↔ Rises self.now key.now }
    {
        match *key {
            Key::Pad { site } => {
                self.fronts.is_empty() && (self.defers.is_empty() && site_rises(&self.pads, site))
            }
            Key::Front { site } => self.defers.is_empty() && site_rises(&self.fronts, site),
            Key::Defer {
                alloc_site,
                free_site,
            } => pair_rises(&self.defers, (alloc_site, free_site)),
        }
    }

    fn raise(&mut self, line: &Line) -> Result<(), AllocError>
        requires { InLimit line.now.key line.now.number }
        ensures { OnOk result (self.new ≡ with_line self.old line.now.key line.now.number) }
    {
        match line.key {
            Key::Pad { site } => self.raise_pad(site, line.number as u32),
            Key::Front { site } => self.raise_front(site, line.number as u32),
            Key::Defer {
                alloc_site,
                free_site,
            } => self.raise_defer(alloc_site, free_site, line.number as u32),
        }
    }

    // Takes a line, the n-th of its text, after those of the table.
    pub(crate) fn take(&mut self, line: &Line, n: u64) -> Result<(), PatchRefusal>
        ensures { Takes self.old line.now n result self.new }
    {
        if !in_limit(line) {
            return Err(PatchRefusal::Limit { n });
        }
        if !self.rises(&line.key) {
            return Err(PatchRefusal::Order { n });
        }
        match self.raise(line) {
            Ok(()) => Ok(()),
            Err(_) => Err(PatchRefusal::Memory),
        }
    }
}

fn copy_of_sites(sites: &BTreeMap<u32, u32>) -> Result<BTreeMap<u32, u32>, AllocError>
    ensures { IfOk result (λ copy. copy.entries ≡ sites.now.entries) }
{
    sites.clone()
}

fn copy_of_pairs(pairs: &BTreeMap<(u32, u32), u32>) -> Result<BTreeMap<(u32, u32), u32>, AllocError>
    ensures { IfOk result (λ copy. copy.entries ≡ pairs.now.entries) }
{
    pairs.clone()
}
