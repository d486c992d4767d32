// Tests 1 and 2 of document 01: "empty, not in 31-byte rows, or a row without its line feed", "over 200 rows".
ghost use Rattle.std.specs.Prelude.{◌≡◌, Bool, ◌+◌, ◌*◌, ◌/◌, ◌≤◌, length};
ghost use Rattle.formula.specs.Sheet.{lines_of, row_count};
ghost use Rattle.formula.specs.Tests.{laid_out, lowest, ended_at, is-passed, few_rows};

// A row's bytes, its line feed the last, and the most rows.
pub const ROW_BYTES: usize = 31;

pub const LINE_FEED_AT: usize = 30;

pub const LINE_FEED: u8 = b'\n';

pub const MOST_ROWS: usize = 200;

// Whether each of n rows ends in a line feed.
fn rows_ended(s: &[u8], n: usize) -> bool
    requires { n ≡ row_count s.now }
    ensures { result ≡ is-passed (lowest n (ended_at (lines_of s.now))) }
{
    for i in 0..n {
        if s[ROW_BYTES * i + LINE_FEED_AT] != LINE_FEED {
            return false;
        }
    }
    true
}

// Test 1.
#[tactic(auto, unfolding(formula::specs::Tests::laid_out))]
pub fn laid_out(s: &[u8]) -> bool
    ensures { result ≡ laid_out s.now (lines_of s.now) }
{
    !s.is_empty() && s.len() % ROW_BYTES == 0 && rows_ended(s, s.len() / ROW_BYTES)
}

// Test 2.
pub fn few_rows(s: &[u8]) -> bool
    ensures { result ≡ few_rows s.now }
{
    s.len() / ROW_BYTES <= MOST_ROWS
}
