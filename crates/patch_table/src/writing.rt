ghost use Rattle.std.specs.Prelude.{◌≡◌, ◌<◌, ◌++◌, ◌∷◌, [], OnOk};
ghost use Rattle.std.specs.List.{flat_map};
ghost use Rattle.std.specs.Fmt.{decimal};
ghost use Rattle.patch_table.specs.Line.{field};
ghost use Rattle.patch_table.specs.Spelling.{word_line, pad_line, front_line, defer_line};

use std::alloc::{AllocError, Global};
use std::collections::BTreeMap;

// A site and a space.
fn put_field(out: &mut Vec<u8>, site: u32) -> Result<(), AllocError>
    ensures { OnOk result (out.new.items ≡ out.old.items ++ field site []) }
{
    out.extend_from_slice(&hex_text::digits_of(site))?;
    out.push(b' ')?;
    Ok(())
}

fn put_number(alloc: Global, out: &mut Vec<u8>, number: u32) -> Result<(), AllocError>
    ensures { OnOk result (out.new.items ≡ out.old.items ++ decimal number) }
{
    let text = number.to_string(alloc)?;
    out.extend_from_slice(text.as_bytes())
}

// A line of a site and its number.
fn put_site(
    alloc: Global,
    out: &mut Vec<u8>,
    word: &[u8],
    site: u32,
    number: u32,
) -> Result<(), AllocError>
    ensures { OnOk result (out.new.items ≡ out.old.items ++ word_line word.now (site, number)) }
{
    out.extend_from_slice(word)?;
    put_field(out, site)?;
    put_number(alloc, out, number)?;
    out.push(b'\n')?;
    Ok(())
}

fn put_defer(
    alloc: Global,
    out: &mut Vec<u8>,
    sites: (u32, u32),
    defer: u32,
) -> Result<(), AllocError>
    ensures { OnOk result (out.new.items ≡ out.old.items ++ defer_line (sites, defer)) }
{
    out.extend_from_slice(b"defer ")?;
    put_field(out, sites.0)?;
    put_field(out, sites.1)?;
    put_number(alloc, out, defer)?;
    out.push(b'\n')?;
    Ok(())
}

// The lines of sites, each behind the word.
fn put_sites(
    alloc: Global,
    out: &mut Vec<u8>,
    word: &[u8],
    sites: &BTreeMap<u32, u32>,
) -> Result<(), AllocError>
    ensures { OnOk result (out.new.items ≡ out.old.items ++ flat_map (word_line word.now) sites.now.entries) }
{
    for (site, number) in sites {
        put_site(alloc, out, word, *site, *number)?;
    }
    Ok(())
}

/// Appends the lines of the pads, by rising sites.
pub fn put_pads(
    alloc: Global,
    out: &mut Vec<u8>,
    pads: &BTreeMap<u32, u32>,
) -> Result<(), AllocError>
    ensures { OnOk result (out.new.items ≡ out.old.items ++ flat_map pad_line pads.now.entries) }
{
    put_sites(alloc, out, b"pad ", pads)
}

/// Appends the lines of the fronts, by rising sites.
pub fn put_fronts(
    alloc: Global,
    out: &mut Vec<u8>,
    fronts: &BTreeMap<u32, u32>,
) -> Result<(), AllocError>
    ensures { OnOk result (out.new.items ≡ out.old.items ++ flat_map front_line fronts.now.entries) }
{
    put_sites(alloc, out, b"front ", fronts)
}

/// Appends the lines of the deferrals, by rising pairs of sites.
pub fn put_defers(
    alloc: Global,
    out: &mut Vec<u8>,
    defers: &BTreeMap<(u32, u32), u32>,
) -> Result<(), AllocError>
    ensures { OnOk result (out.new.items ≡ out.old.items ++ flat_map defer_line defers.now.entries) }
{
    for (sites, defer) in defers {
        put_defer(alloc, out, *sites, *defer)?;
    }
    Ok(())
}
