// The rows of a tidied sheet as they are written (document 02, Job 8). The definitions are sheet_tidied's specs/Text and specs/Tidy.
ghost use Rattle.std.specs.Prelude.{◌≡◌, ◌+◌, ◌*◌, ◌-◌, ◌≤◌, length, get_or};
ghost use Rattle.std.proofs.lemmas.List.Edits.{sets};
ghost use Rattle.formula.specs.Sheet.{shape_at, named_in};
ghost use Rattle.formula.specs.TreeLaws.{AllBetween, Named};
ghost use Rattle.sheet_tables.specs.Nodes.{Holds};
ghost use Rattle.sheet_tidied.specs.Text.{row_text, sheet_text};
ghost use Rattle.sheet_tidied.specs.Tidy.{new_number, renamed, kept_rows};
ghost use Rattle.sheet_tidy.specs.Rows.{listed};

use formula::Shape;
use sheet_fields::decode::{A_AT, B_AT, C_AT, D_AT};
use sheet_fields::layout::{LINE_FEED, LINE_FEED_AT, ROW_BYTES};
use sheet_fields::shape::{entry, shape_at};
use text_print::put_number;

// The five fields of a row.
#[derive(Clone, Copy, PartialEq)]
pub struct RowFields {
    pub kind: u32,
    pub a: u32,
    pub b: u32,
    pub c: u32,
    pub d: u32,
}

pub fn row(kind: u32, a: u32, b: u32, c: u32, d: u32) -> RowFields
    ensures { result ≡ record { kind = kind; a = a; b = b; c = c; d = d } }
{
    RowFields { kind, a, b, c, d }
}

// The row of a shape, with the new number of each row that it names.
#[tactic(auto, unfolding(formula::specs::Sheet::named_in, sheet_tidied::specs::Tidy::renamed))]
fn rename(s: Shape, numbers: &[u32]) -> RowFields
    requires { AllBetween (length numbers.now + 1) (named_in s) }
    ensures { listed result ≡ renamed (λ x. get_or numbers.now (x - 1) 0) s }
{
    match s {
        Shape::Identifier(a) => row(1, a, 0, 0, 0),
        Shape::Constant(kind, a) => row(kind, a, 0, 0, 0),
        Shape::Pair(a, b) => row(4, entry(numbers, a), entry(numbers, b), 0, 0),
        Shape::Operator(a, b) => row(5, a, entry(numbers, b), 0, 0),
        Shape::Let(a, b, c, d) => row(6, a, b, entry(numbers, c), entry(numbers, d)),
        Shape::If(a, b, c) => row(
            7,
            entry(numbers, a),
            entry(numbers, b),
            entry(numbers, c),
            0,
        ),
        Shape::For(a, b, c, d) => row(8, a, b, entry(numbers, c), entry(numbers, d)),
        Shape::Iter(a) => row(9, entry(numbers, a), 0, 0, 0),
    }
}

// Row r with its new numbers.
fn new_row(fields: &[u32], r: usize, numbers: &[u32]) -> RowFields
    requires { (1 ≤ r) × (5 * r ≤ length fields.now) × AllBetween (length numbers.now + 1) (named_in (shape_at fields.now r)) }
    ensures { listed result ≡ renamed (λ x. get_or numbers.now (x - 1) 0) (shape_at fields.now r) }
{
    rename(shape_at(fields, r), numbers)
}

// Writes a row and its line feed.
pub fn put_row(out: &mut [u8], at: usize, r: RowFields)
    requires { at + 31 ≤ length out.old }
    ensures { out.new ≡ sets out.old at (row_text (listed r)) }
{
    put_number(out, at, r.kind);
    put_number(out, at + A_AT, r.a);
    put_number(out, at + B_AT, r.b);
    put_number(out, at + C_AT, r.c);
    put_number(out, at + D_AT, r.d);
    out[at + LINE_FEED_AT] = LINE_FEED;
}

// Writes the kept rows of n, with their new numbers, from the start of `out` on.
pub fn write_rows(fields: &[u32], n: usize, kept: &[bool], numbers: &[u32], out: &mut [u8])
    requires { (length fields.now ≡ 5 * n) × Named fields.now n × (length kept.now ≡ n) × (length numbers.now ≡ n)
        × Holds 0 numbers.now n (new_number kept.now) × (31 * n ≤ length out.old) }
    ensures { out.new ≡ sets out.old 0 (sheet_text (kept_rows fields.now kept.now n)) }
{
    let mut at = 0;
    for i in 0..n {
        if kept[i] {
            put_row(out, at, new_row(fields, i + 1, numbers));
            at += ROW_BYTES;
        }
    }
}
