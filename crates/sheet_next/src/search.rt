// The first small sheet that begins with given rows, and the one behind a given sheet (sheet_listed's specs/Search). A table has five fields a row;
// `widths` and `masks` are those of the rows before r.
ghost use Rattle.std.specs.Prelude.{◌≡◌, ◌+◌, ◌*◌, ◌-◌, ◌≤◌, ◌<◌, suc, length};
ghost use Rattle.sheet_listed.specs.Search.{first_small, searched, or_else, down_from, up_from};
ghost use Rattle.sheet_listed.specs.SearchLaws.{behind_row};
ghost use Rattle.sheet_listed.specs.Standing.{Agree};
ghost use Rattle.sheet_listed.specs.Texts.{field_row};
ghost use Rattle.sheet_stands.specs.Fronts.{rows_to, Content, Front};
ghost use Rattle.sheet_next.specs.Found.{Given, found, found_as};

use sheet_fields::shape::FIELDS;
use sheet_stands::contents::{CONTENTS, number_of, put_content};
use sheet_stands::tests::{SMALL_ROWS, passes, stands};

// Rows r to n, the first of them number `start` or a later one, so that the n rows are a small sheet: the least such, where there is one.
#[cycle(completes_first_from)]
fn first_from(
    t: &mut [u32],
    widths: &mut [u8],
    masks: &mut [u64],
    n: usize,
    r: usize,
    start: usize,
) -> bool
    requires { (1 ≤ r) × (r ≤ n) × (n ≤ 5) × (start ≤ 178) × (length t.old ≡ 25) × Front t.old widths.old masks.old (r - 1) }
    ensures { (found result (rows_to n t.new) ≡ searched (rows_to (r - 1) t.old) start (n - r))
        × Agree (r - 1) t.new t.old
        × Front t.new widths.new masks.new (r - 1) }
{
    for k in start..CONTENTS {
        put_content(t, r, k);
        if completes(t, widths, masks, n, r) {
            return true;
        }
    }
    false
}

// The same with row r as it is.
#[cycle(completes_first_from)]
fn completes(t: &mut [u32], widths: &mut [u8], masks: &mut [u64], n: usize, r: usize) -> bool
    requires { (1 ≤ r) × (r ≤ n) × (n ≤ 5) × (length t.old ≡ 25) × Content (field_row t.old r) × Front t.old widths.old masks.old (r - 1) }
    ensures { (found result (rows_to n t.new) ≡ first_small (behind_row (rows_to (r - 1) t.old) (field_row t.old r) (n - r)))
        × Agree (r - 1) t.new t.old
        × Front t.new widths.new masks.new (r - 1) }
{
    let end = FIELDS * r;
    if !stands(&t[..end], r, widths, masks) {
        return false;
    }
    if r == n {
        return passes(&t[..end], n);
    }
    first_from(t, widths, masks, n, r + 1, 0)
}

// Fills the tables of the n rows of a small sheet, each of which stands.
fn fill(t: &[u32], n: usize, widths: &mut [u8], masks: &mut [u64])
    requires { Given t.now n × (length widths.old ≡ 5) × (length masks.old ≡ 5) }
    ensures { Front t.now widths.new masks.new n }
{
    for i in 0..n {
        let r = i + 1;
        let end = FIELDS * r;
        stands(&t[..end], r, widths, masks);
    }
}

// The small sheet behind the one of n rows in `t`, with as many rows: from the last row's number up, then the row's before it, and so on.
fn as_long(t: &mut [u32], n: usize) -> bool
    requires { Given t.old n }
    ensures { found result (rows_to n t.new) ≡ down_from n (rows_to n t.old) }
{
    let mut widths = [0; SMALL_ROWS];
    let mut masks = [0; SMALL_ROWS];
    fill(t, n, &mut widths, &mut masks);
    for r in (1..=n).rev() {
        let start = number_of(t, r) + 1;
        if first_from(t, &mut widths, &mut masks, n, r, start) {
            return true;
        }
    }
    false
}

// The first small sheet with more than n rows; the answer is its rows, 0 where there is none.
fn longer(t: &mut [u32], n: usize) -> usize
    requires { (length t.old ≡ 25) × (n ≤ 5) }
    ensures { (found_as result (rows_to result t.new) ≡ up_from (suc n) (5 - n)) × (result ≤ 5) }
{
    let mut widths = [0; SMALL_ROWS];
    let mut masks = [0; SMALL_ROWS];
    for i in n..SMALL_ROWS {
        let m = i + 1;
        if first_from(t, &mut widths, &mut masks, m, 1, 0) {
            return m;
        }
    }
    0
}

// The small sheet behind the one of n rows in `t`, or the first where n is 0; the answer is its rows, 0 where there is none.
pub fn behind(t: &mut [u32], n: usize) -> usize
    requires { Given t.old n }
    ensures { (found_as result (rows_to result t.new) ≡ or_else (down_from n (rows_to n t.old)) (up_from (suc n) (5 - n))) × (result ≤ 5) }
{
    if as_long(t, n) {
        return n;
    }
    longer(t, n)
}
