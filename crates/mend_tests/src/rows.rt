//! Databases with a row of which a part is there: the relation r in slot 0.

ghost use Rattle.std.specs.Prelude.{◌≡◌, None};

use crate::database::{no_relation, put_catalog, put_growing};
use crate::mended::{byte_at, is_mended, size_named};
use afl_base::{Failed, FileError, Files};

/// The bytes of a catalog of version 2 with the relation r, whose attributes a, b, c .. have these domains, each a code
/// and a length: 1 is INT, 2 LONG, 3 STRING, 4 TIME. On the first of them are INLINE indexes.
pub fn typed(domains: &[(u8, u8)], indexes: usize) -> [u8; 1480] {
    let mut bytes = no_relation();
    bytes[0] = b'r';
    for (place, domain) in domains.iter().enumerate() {
        if place < 8 {
            bytes[16 + 18 * place] = b'a' + place as u8;
            bytes[32 + 18 * place] = domain.0;
            bytes[33 + 18 * place] = domain.1;
            bytes[160] = place as u8 + 1;
        }
    }
    for slot in 0..8 {
        if slot < indexes {
            bytes[1408 + 8 * slot] = 1;
            bytes[1410 + 8 * slot] = slot as u8;
        }
    }
    bytes
}

/// Whether a row that is there in part is filled: the file of rows then ends with these bytes, and has so many.
pub fn is_filled<V: Files>(
    files: &mut V,
    catalog: &[u8; 1480],
    rows: &[u8],
    size: u32,
    end: &[u8],
) -> Result<bool, FileError>
    requires idle { (V.state files.old).draft ≡ None }
{
    put_catalog(files, catalog, 1480)?;
    put_growing(files, b"T0", rows)?;
    let mended = is_mended(files, b"row of r taken back\n")?;
    Ok(mended && size_named(files, b"T0") == Some(size) && has_end(files, size, end)?)
}

// Whether the file of rows, of so many bytes, ends with these.
fn has_end<V: Files>(files: &mut V, size: u32, end: &[u8]) -> Result<bool, Failed> {
    let mut at = size;
    for byte in end.iter().rev() {
        at = at.saturating_sub(1);
        if byte_at(files, b"T0", at)? != Some(*byte) {
            return Ok(false);
        }
    }
    Ok(true)
}
