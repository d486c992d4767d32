// Test 3 of document 01, "a malformed field", which fills the table of fields: five numbers a row.
ghost use Rattle.std.specs.Prelude.{◌≡◌, Bool, ◌&&◌, ◌+◌, ◌*◌, ◌≤◌, ◌<◌, length};
ghost use Rattle.std.proofs.lemmas.List.Edits.{sets};
ghost use Rattle.std.proofs.Math.Seq.{paste};
ghost use Rattle.formula.specs.Sheet.{lines_of, row_count, fields_of};
ghost use Rattle.formula.specs.SheetLaws.{line_fields};
ghost use Rattle.formula.specs.Tests.{fields_well, lowest, line_at, well_formed};
ghost use Rattle.sheet_fields.specs.Decoding.{seen};

use crate::field::{NOT_SHORT, field_in, short};
use crate::layout::ROW_BYTES;
use crate::shape::FIELDS;

// Where a row's fields a to d begin.
pub const A_AT: usize = 6;

pub const B_AT: usize = 12;

pub const C_AT: usize = 18;

pub const D_AT: usize = 24;

// Writes the five numbers of row i + 1, and says whether each is well formed.
fn long_row(s: &[u8], i: usize, fields: &mut [u32]) -> bool
    requires { (i < row_count s.now) × (5 * i + 5 ≤ length fields.old) }
    ensures { (result ≡ fields_well (lines_of s.now) (i + 1)) × (fields.new ≡ sets fields.old (5 * i) (line_fields (line_at (lines_of s.now) (i + 1)))) }
{
    let kind = field_in(s, ROW_BYTES * i);
    let a = field_in(s, ROW_BYTES * i + A_AT);
    let b = field_in(s, ROW_BYTES * i + B_AT);
    let c = field_in(s, ROW_BYTES * i + C_AT);
    let d = field_in(s, ROW_BYTES * i + D_AT);
    fields[FIELDS * i] = kind.unwrap_or(0);
    fields[FIELDS * i + 1] = a.unwrap_or(0);
    fields[FIELDS * i + 2] = b.unwrap_or(0);
    fields[FIELDS * i + 3] = c.unwrap_or(0);
    fields[FIELDS * i + 4] = d.unwrap_or(0);
    all_formed(kind, a, b, c, d)
}

fn all_formed(
    kind: Option<u32>,
    a: Option<u32>,
    b: Option<u32>,
    c: Option<u32>,
    d: Option<u32>,
) -> bool
    ensures { result ≡ (well_formed kind && well_formed a && well_formed b && well_formed c && well_formed d) }
{
    kind.is_some() && a.is_some() && b.is_some() && c.is_some() && d.is_some()
}

// The same, quickly where the numbers are short.
fn decode_row(s: &[u8], i: usize, fields: &mut [u32]) -> bool
    requires { (i < row_count s.now) × (5 * i + 5 ≤ length fields.old) }
    ensures { (result ≡ fields_well (lines_of s.now) (i + 1)) × (fields.new ≡ sets fields.old (5 * i) (line_fields (line_at (lines_of s.now) (i + 1)))) }
{
    let kind = short(s, ROW_BYTES * i);
    if NOT_SHORT <= kind {
        return long_row(s, i, fields);
    }
    let a = short(s, ROW_BYTES * i + A_AT);
    if NOT_SHORT <= a {
        return long_row(s, i, fields);
    }
    let b = short(s, ROW_BYTES * i + B_AT);
    if NOT_SHORT <= b {
        return long_row(s, i, fields);
    }
    let c = short(s, ROW_BYTES * i + C_AT);
    if NOT_SHORT <= c {
        return long_row(s, i, fields);
    }
    let d = short(s, ROW_BYTES * i + D_AT);
    if NOT_SHORT <= d {
        return long_row(s, i, fields);
    }
    fields[FIELDS * i] = kind;
    fields[FIELDS * i + 1] = a;
    fields[FIELDS * i + 2] = b;
    fields[FIELDS * i + 3] = c;
    fields[FIELDS * i + 4] = d;
    true
}

// Test 3 of the n rows of s. The rows up to the first fault are in the table.
pub fn decode(s: &[u8], n: usize, fields: &mut [u32]) -> Result<(), usize>
    requires { (n ≡ row_count s.now) × (5 * n ≤ length fields.old) }
    ensures { (result ≡ lowest n (fields_well (lines_of s.now))) × (fields.new ≡ paste fields.old 0 (fields_of s.now) (5 * seen n result)) }
{
    for i in 0..n {
        if !decode_row(s, i, fields) {
            return Err(i + 1);
        }
    }
    Ok(())
}
