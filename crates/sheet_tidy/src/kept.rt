// The rows that can be reached from the last (document 02, Job 8), and their new numbers. The definitions are sheet_tidied's specs/Tidy.
ghost use Rattle.std.specs.Prelude.{◌≡◌, false, ◌+◌, ◌*◌, ◌≤◌, length, replicate};
ghost use Rattle.formula.specs.Sheet.{shape_at, named_in};
ghost use Rattle.formula.specs.Places.{mark};
ghost use Rattle.formula.specs.TreeLaws.{AllBetween, Named};
ghost use Rattle.sheet_tables.specs.Nodes.{Holds};
ghost use Rattle.sheet_tidied.specs.Tidy.{kept_of, new_number};
ghost use Rattle.sheet_tidied.specs.KeptLaws.{keep_row};

use formula::Shape;
use sheet_fields::shape::shape_at;
use sheet_rows::places::mark_one;

// The rows that a row of shape s names are kept.
#[tactic(auto, unfolding(formula::specs::Sheet::named_in, formula::specs::Places::mark))]
fn keep_named(kept: &mut [bool], s: Shape)
    requires { AllBetween (length kept.old + 1) (named_in s) }
    ensures { kept.new ≡ mark (named_in s) kept.old }
{
    match s {
        Shape::Identifier(_) | Shape::Constant(_, _) => {}
        Shape::Operator(_, a) | Shape::Iter(a) => {
            mark_one(kept, a);
        }
        Shape::Pair(a, b) | Shape::Let(_, _, a, b) | Shape::For(_, _, a, b) => {
            mark_one(kept, a);
            mark_one(kept, b);
        }
        Shape::If(a, b, c) => {
            mark_one(kept, a);
            mark_one(kept, b);
            mark_one(kept, c);
        }
    }
}

// The rows that row r names are kept, if it is.
fn keep_row(fields: &[u32], r: usize, kept: &mut [bool])
    requires { (1 ≤ r) × (5 * r ≤ length fields.now) × (r ≤ length kept.old) × AllBetween r (named_in (shape_at fields.now r)) }
    ensures { kept.new ≡ keep_row fields.now r kept.old }
{
    if kept[r - 1] {
        keep_named(kept, shape_at(fields, r));
    }
}

// Which of n rows are kept, in a table that has none.
pub fn find_kept(fields: &[u32], n: usize, kept: &mut [bool])
    requires { (length fields.now ≡ 5 * n) × (1 ≤ n) × (kept.old ≡ replicate n false) × Named fields.now n }
    ensures { kept.new ≡ kept_of fields.now n }
{
    mark_one(kept, n);
    for r in (1..=n).rev() {
        keep_row(fields, r, kept);
    }
}

// The new number of each row, and of the last: how many are kept.
pub fn number_rows(kept: &[bool], numbers: &mut [u32]) -> u32
    requires { (length kept.now ≤ 200) × (length numbers.old ≡ length kept.now) }
    ensures { (result ≡ new_number kept.now (length kept.now))
        × Holds 0 numbers.new (length kept.now) (new_number kept.now) }
{
    let mut count = 0u32;
    for (i, &stays) in kept.iter().enumerate() {
        if stays {
            count += 1;
        }
        numbers[i] = count;
    }
    count
}
