#![tactic(auto)]
// The data of the formula sheet (document 01, "The formula sheet" and the two lists of refusals): a row by its kind,
// and the refusals with their numbers. The definitions over them are in specs/.
ghost use Rattle.std.specs.Prelude.{◌≡◌, ◌≤◌, Ok};
ghost use Rattle.formula.specs.Refusals.{number_of};
ghost use Rattle.formula.specs.Tests.{after_check};
ghost use Rattle.formula.specs.Constants.{constant_value, constant_most};

use value::Value;

// A row by its kind, with the fields that it lists: 1 to 9 in the order of document 01's table; 2, 3 and 10 are one case.
#[derive(Clone, Copy)]
pub enum Shape {
    // a: the identifier's number
    Identifier(u32),
    // a constant: its row kind, and a
    Constant(u32, u32),
    // a, b: rows
    Pair(usize, usize),
    // a: the code; b: the row of its operands
    Operator(u32, usize),
    // identifiers a to a+b-1, bound to row c, in row d
    Let(u32, u32, usize, usize),
    // a: the test's row; b: the row if true; c: the row if false
    If(usize, usize, usize),
    // identifiers a to a+b-1, started from row c, body row d
    For(u32, u32, usize, usize),
    // a: a row
    Iter(usize),
}

// A row of a body by what its place asks of it: a let, an if and an iter are read by their place, every other row ends the body.
#[derive(Clone, Copy)]
pub enum Way {
    // identifiers a to a+b-1, bound to row c, in row d
    Let(u32, u32, usize, usize),
    // the test's row and the arms'
    If(usize, usize, usize),
    // the row of the values
    Iter(usize),
    End,
}

// The refusals, by their numbers.
#[derive(Clone, Copy)]
pub enum Refusal {
    // empty, not in 31-byte rows, or a row without its line feed
    Layout = 1,
    // over 200 rows
    Rows = 2,
    // a malformed field
    Malformed = 3,
    // kind, code, identifier, constant or unlisted field outside its range
    Range = 4,
    // a row that names one wrongly
    Naming = 5,
    // a row before the last not named once
    Named = 6,
    // iter in an expression place
    StrayIter = 7,
    // a width rule broken
    Width = 8,
    // a bound identifier not free in row d
    Unused = 9,
    // over 1,024 operators
    Operators = 10,
    // lent memory shorter than the call's need
    Memory = 11,
    // a set with another number of values than inputs, a bad value field, a value of another kind, a file line unended
    Set = 12,
    // a set file over 65,536 bytes
    SetFile = 13,
    // capacity outside 1..16
    Capacity = 14,
    // a log's line malformed, naming a set not in the list, or line 4,097
    LogLine = 15,
    // a log's line that the machine would refuse
    LogRefused = 16,
    // the kinds line has another length or letter
    KindsLine = 17,
    // a row breaks the kinds
    KindsBroken = 18,
    // the sheet has a for, where the machine with tags is asked for
    Loop = 19,
    // a row of another sort than drift is told for, or with a value not of kind W
    Sort = 20,
    // tolerances not as many as the inputs or out of range, or a row's movement past the range
    Movement = 21,
    // the given sheet is neither empty nor in the list of small sheets
    Unlisted = 22,
    // the given sheet is the last of that list
    LastListed = 23,
    // a stored figure or token outside its range, or a link named twice
    Altered = 31,
    // sixteen sets untaken
    Untaken = 32,
    // an input link, or the trigger's link where it exists, full
    Full = 33,
    // the operator is absent or not able
    NotAble = 34,
    // a result port empty or no set untaken
    NoResult = 35,
    // run: something can still fire after the lent firings; evaluation: more rounds needed than lent
    Unfinished = 36,
    // no tag is free
    NoTag = 37,
    // the tag has no whole result
    NoTagResult = 38,
}

// A refusal, with the row that it is about: the lowest at fault, or 0 where the test is not about a row.
#[derive(Clone, Copy)]
pub struct Refused {
    pub refusal: Refusal,
    pub row: usize,
}

// The figures of an accepted sheet.
#[derive(Clone, Copy)]
pub struct Figures {
    pub rows: usize,
    pub operators: usize,
    pub inputs: usize,
    pub results: usize,
}

// The row kinds of a truth and of a float.
const TRUTH: u32 = 3;

const FLOAT: u32 = 10;

// The value of a constant's row, from its kind and its field a.
pub fn constant(kind: u32, a: u32) -> Value
    requires { a ≤ constant_most kind }
    ensures { result ≡ constant_value kind a }
{
    if kind == TRUTH {
        return Value::Truth(a == 1);
    }
    if kind == FLOAT {
        return value::thousandths(a);
    }
    Value::Whole(a as i32)
}

// The number of a refusal.
impl From<Refusal> for u32 {
    ghost from_gives = { λ r n. n ≡ number_of r };

    fn from(r: Refusal) -> u32 {
        r as u32
    }
}

// A test's row at fault, as that test's refusal.
pub fn at_row(refusal: Refusal, check: Result<(), usize>) -> Result<(), Refused>
    ensures { result ≡ after_check refusal check (Ok tt) }
{
    check.map_err(|row| Refused { refusal, row })
}
