// The rows that a small sheet can have, by their number (sheet_listed's specs/Search): kinds 1 to 7, rising.
ghost use Rattle.std.specs.Prelude.{◌≡◌, ◌+◌, ◌*◌, ◌-◌, ◌/◌, ◌%◌, ◌≤◌, ◌<◌, length};
ghost use Rattle.std.proofs.lemmas.List.Edits.{sets};
ghost use Rattle.sheet_listed.specs.Search.{content_at, same_row, place_of};
ghost use Rattle.sheet_tidy.specs.Rows.{listed};
ghost use Rattle.sheet_listed.specs.Texts.{field_row};

use sheet_fields::shape::{FIELDS, field_at};
use sheet_tidy::rows::{RowFields, row};

// How many there are.
pub const CONTENTS: usize = 178;

// The number of the first of each kind, and of the lets that bind identifier 0, both identifiers, identifier 1.
const WHOLES: usize = 2;

const TRUTHS: usize = 4;

const PAIRS: usize = 6;

const OPERATORS: usize = 22;

const LETS_OF_0: usize = 66;

const LETS_OF_BOTH: usize = 82;

const LETS_OF_1: usize = 98;

const IFS: usize = 114;

// A field that names a row names one of the first four.
const NAMED: usize = 4;

const NAMED_TWICE: usize = NAMED * NAMED;

const IDENTIFIER: u32 = 1;

const WHOLE: u32 = 2;

const TRUTH: u32 = 3;

const PAIR: u32 = 4;

const OPERATOR: u32 = 5;

const LET: u32 = 6;

const IF: u32 = 7;

// A row's or a code's number, of which i are smaller.
fn number(i: usize) -> u32
    requires { i < 16 }
    ensures { result ≡ 1 + i }
{
    (1 + i) as u32
}

// Row number i, counted from 0, of the pairs or of the operators: a counts from 1 on, b is one of the rows 1 to 4.
fn two_fields(kind: u32, i: usize) -> RowFields
    requires { i < 44 }
    ensures { result ≡ record { kind = kind; a = 1 + i / 4; b = 1 + i % 4; c = 0; d = 0 } }
{
    row(kind, number(i / NAMED), number(i % NAMED), 0, 0)
}

// A let of the b identifiers from a on.
fn let_row(a: u32, b: u32, i: usize) -> RowFields
    requires { i < 16 }
    ensures { result ≡ record { kind = 6; a = a; b = b; c = 1 + i / 4; d = 1 + i % 4 } }
{
    row(LET, a, b, number(i / NAMED), number(i % NAMED))
}

// Row number k, counted from 0.
pub fn content(k: usize) -> RowFields
    requires { k < 178 }
    ensures { listed result ≡ content_at k }
{
    if k < WHOLES {
        return row(IDENTIFIER, k as u32, 0, 0, 0);
    }
    if k < TRUTHS {
        return row(WHOLE, (k - WHOLES) as u32, 0, 0, 0);
    }
    if k < PAIRS {
        return row(TRUTH, (k - TRUTHS) as u32, 0, 0, 0);
    }
    if k < OPERATORS {
        return two_fields(PAIR, k - PAIRS);
    }
    if k < LETS_OF_0 {
        return two_fields(OPERATOR, k - OPERATORS);
    }
    if k < LETS_OF_BOTH {
        return let_row(0, 1, k - LETS_OF_0);
    }
    if k < LETS_OF_1 {
        return let_row(0, 2, k - LETS_OF_BOTH);
    }
    if k < IFS {
        return let_row(1, 1, k - LETS_OF_1);
    }
    let i = k - IFS;
    row(
        IF,
        number(i / NAMED_TWICE),
        number(i / NAMED % NAMED),
        number(i % NAMED),
        0,
    )
}

// Writes row number k as row r of a table of five fields a row.
pub fn put_content(t: &mut [u32], r: usize, k: usize)
    requires { (1 ≤ r) × (5 * r ≤ length t.old) × (k < 178) }
    ensures { t.new ≡ sets t.old (5 * (r - 1)) (content_at k) }
{
    let c = content(k);
    let at = FIELDS * (r - 1);
    t[at] = c.kind;
    t[at + 1] = c.a;
    t[at + 2] = c.b;
    t[at + 3] = c.c;
    t[at + 4] = c.d;
}

// Row r of a table.
pub fn row_at(t: &[u32], r: usize) -> RowFields
    requires { (1 ≤ r) × (5 * r ≤ length t.now) }
    ensures { listed result ≡ field_row t.now r }
{
    row(
        field_at(t, r, 0),
        field_at(t, r, 1),
        field_at(t, r, 2),
        field_at(t, r, 3),
        field_at(t, r, 4),
    )
}

// Field by field: the derived equality compares whole rows in memory, with which the walk through all small sheets takes 1.3 times as long.
#[tactic(auto, unfolding(sheet_listed::specs::Search::same_row))]
fn same_row(x: RowFields, y: RowFields) -> bool
    ensures { result ≡ same_row (listed x) (listed y) }
{
    x.kind == y.kind && x.a == y.a && x.b == y.b && x.c == y.c && x.d == y.d
}

// The number of row r of a table, which has one.
pub fn number_of(t: &[u32], r: usize) -> usize
    requires { (1 ≤ r) × (5 * r ≤ length t.now) × (place_of (field_row t.now r) < 178) }
    ensures { result ≡ place_of (field_row t.now r) }
{
    let given = row_at(t, r);
    for k in 0..CONTENTS {
        if same_row(content(k), given) {
            return k;
        }
    }
    CONTENTS
}
