// Whether a row can stand in a small sheet, whether rows are a small sheet, and whether a given sheet is one (document 02, Job 14). Rows stand as
// sheet_listed's specs/Search says; the tests of whole rows are the reader's.
ghost use Rattle.std.specs.Prelude.{◌≡◌, true, false, ◌||◌, ◌&&◌, ◌+◌, ◌*◌, ◌-◌, ◌≤◌, ◌<◌, eqb, leb, length, get_or, take, Ok};
ghost use Rattle.formula.specs.Sheet.{row_count, fields_of, shape_at, named_in};
ghost use Rattle.formula.specs.Tests.{lowest, is-passed, ranges_well, names_well, all_named};
ghost use Rattle.formula.specs.TreeLaws.{AllBetween};
ghost use Rattle.sheet_tables.specs.Ready.{Ready};
ghost use Rattle.sheet_listed.specs.Small.{modest as modestShape, modest_row, is_small};
ghost use Rattle.sheet_listed.specs.Search.{once_each, stands_at};
ghost use Rattle.sheet_listed.specs.Texts.{field_row};
ghost use Rattle.sheet_stands.specs.Fronts.{Content, Front};
ghost use Rattle.sheet_stands.specs.Tests.{all_once, formula_passes, tables_pass};

use formula::Shape;
use sheet_fields::layout::ROW_BYTES;
use sheet_fields::shape::{FIELDS, field_at, shape_at};
use sheet_read::read::row_tests;
use sheet_rows::places::{find_places, test_places};
use sheet_rows::rows::{names_well, tally_all, test_named};
use sheet_tables::masks::{bound_well, plain_mask, test_bound};
use sheet_tables::widths::{test_widths, widths_of, widths_well};

// The rows of the longest small sheet, their fields and their bytes.
pub const SMALL_ROWS: usize = 5;

pub const SMALL_FIELDS: usize = SMALL_ROWS * FIELDS;

pub const SMALL_BYTES: usize = SMALL_ROWS * ROW_BYTES;

const FIRST_KIND: u32 = 1;

const LAST_KIND: u32 = 9;

// The last identifier and the last constant.
const LAST_MODEST: u32 = 1;

const MODEST_IDENTIFIERS: u32 = LAST_MODEST + 1;

// A tally's mark of a row that is named once.
const ONCE: u8 = 1;

fn once(times: &[u8], r: usize) -> bool
    requires { (1 ≤ r) × (r ≤ length times.now) }
    ensures { result ≡ eqb (get_or times.now (r - 1) 0) 1 }
{
    times[r - 1] == ONCE
}

// Whether a tally has each row that a row of shape s names as named once.
#[tactic(auto, unfolding(formula::specs::Sheet::named_in, crate::specs::Tests::all_once))]
fn each_once(times: &[u8], s: Shape) -> bool
    requires { AllBetween (length times.now + 1) (named_in s) }
    ensures { result ≡ all_once times.now (named_in s) }
{
    match s {
        Shape::Identifier(_) | Shape::Constant(_, _) => true,
        Shape::Operator(_, a) | Shape::Iter(a) => once(times, a),
        Shape::Pair(a, b) | Shape::Let(_, _, a, b) | Shape::For(_, _, a, b) => {
            once(times, a) && once(times, b)
        }
        Shape::If(a, b, c) => once(times, a) && once(times, b) && once(times, c),
    }
}

// Whether row r, the last of a table, names only rows that no other field names.
fn names_once(t: &[u32], r: usize) -> bool
    requires { (length t.now ≡ 5 * r) × (1 ≤ r) × (r ≤ 5) × (lowest r (names_well t.now) ≡ Ok tt) }
    ensures { result ≡ once_each (named_in (shape_at t.now r)) (all_named t.now r) }
{
    let mut times = [0; SMALL_ROWS];
    tally_all(t, r, &mut times[..r]);
    each_once(&times[..r], shape_at(t, r))
}

// Whether row r, the last of a table, stands behind the rows before it, whose widths and masks are in tables; so are then its own.
pub fn stands(t: &[u32], r: usize, widths: &mut [u8], masks: &mut [u64]) -> bool
    requires { (length t.now ≡ 5 * r) × (1 ≤ r) × (r ≤ 5) × Content (field_row t.now r) × Front t.now widths.old masks.old (r - 1) }
    ensures { (result ≡ stands_at t.now r)
        × (result ≡ true → Front t.now widths.new masks.new r)
        × Front t.now widths.new masks.new (r - 1) }
{
    let s = shape_at(t, r);
    if !names_well(s, r) {
        return false;
    }
    if !names_once(t, r) {
        return false;
    }
    let none = [0; SMALL_ROWS];
    let w = widths_of(s, r, false, widths, &none);
    if !widths_well(w) {
        return false;
    }
    if !bound_well(s, r, masks) {
        return false;
    }
    widths[r - 1] = w.returned as u8;
    masks[r - 1] = plain_mask(s, r, masks);
    true
}

// Tests 8 and 9 of n rows in these places.
fn tables_pass(t: &[u32], n: usize, places: &[bool]) -> bool
    requires { (Ready t.now n places.now) × (n ≤ 5) }
    ensures { result ≡ tables_pass t.now n places.now }
{
    let mut returned = [0; SMALL_ROWS];
    let mut iterated = [0; SMALL_ROWS];
    let mut masks = [0; SMALL_ROWS];
    if !test_widths(t, n, places, &mut returned[..n], &mut iterated[..n]).is_ok() {
        return false;
    }
    test_bound(t, n, places, &mut masks[..n]).is_ok()
}

// Tests 6 to 9 of n rows.
pub fn passes(t: &[u32], n: usize) -> bool
    requires { (length t.now ≡ 5 * n) × (1 ≤ n) × (n ≤ 5) × (lowest n (ranges_well t.now) ≡ Ok tt) × (lowest n (names_well t.now) ≡ Ok tt) }
    ensures { result ≡ formula_passes t.now n }
{
    if !test_named(t, n).is_ok() {
        return false;
    }
    let mut places = [false; SMALL_ROWS];
    find_places(t, n, &mut places[..n]);
    if !test_places(t, n, &places[..n]).is_ok() {
        return false;
    }
    tables_pass(t, n, &places[..n])
}

// Whether a let or for binds no identifiers but 0 and 1.
fn binds_modestly(a: u32, b: u32) -> bool
    ensures { result ≡ leb (a + b) 2 }
{
    b <= MODEST_IDENTIFIERS && a <= MODEST_IDENTIFIERS - b
}

// "identifiers and constants 0 and 1"
#[tactic(auto, unfolding(sheet_listed::specs::Small::modest))]
fn modest(s: Shape) -> bool
    ensures { result ≡ modestShape s }
{
    match s {
        Shape::Identifier(a) | Shape::Constant(_, a) => a <= LAST_MODEST,
        Shape::Let(a, b, _, _) | Shape::For(a, b, _, _) => binds_modestly(a, b),
        Shape::Pair(_, _) | Shape::Operator(_, _) | Shape::If(_, _, _) | Shape::Iter(_) => true,
    }
}

// "row kinds 1 to 9", and the row is modest.
fn modest_row(t: &[u32], r: usize) -> bool
    requires { (1 ≤ r) × (5 * r ≤ length t.now) }
    ensures { result ≡ modest_row t.now r }
{
    let kind = field_at(t, r, 0);
    if kind < FIRST_KIND {
        return false;
    }
    if LAST_KIND < kind {
        return false;
    }
    modest(shape_at(t, r))
}

fn modest_rows(t: &[u32], n: usize) -> bool
    requires { 5 * n ≤ length t.now }
    ensures { result ≡ is-passed (lowest n (modest_row t.now)) }
{
    for i in 0..n {
        if !modest_row(t, i + 1) {
            return false;
        }
    }
    true
}

// Whether a sheet is empty or a small one, the fields of which are then in the table.
pub fn listed(sheet: &[u8], fields: &mut [u32]) -> bool
    requires { length fields.old ≡ 25 }
    ensures { (result ≡ (eqb (length sheet.now) 0 || is_small sheet.now))
        × (is_small sheet.now ≡ true → take (5 * row_count sheet.now) fields.new ≡ fields_of sheet.now) }
{
    if sheet.len() == 0 {
        return true;
    }
    if SMALL_BYTES < sheet.len() {
        return false;
    }
    match row_tests(sheet, fields) {
        Err(_) => false,
        Ok(()) => {
            let n = sheet.len() / ROW_BYTES;
            let end = FIELDS * n;
            if !modest_rows(&fields[..end], n) {
                return false;
            }
            passes(&fields[..end], n)
        }
    }
}
