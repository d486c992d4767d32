// Test 1 of a sheet over a file that is read part by part (text/specs/Scan; document 01, refusal 1).
ghost use Rattle.std.specs.Prelude.{◌≡◌};
ghost use Rattle.text.specs.Scan.{unseen, after as after_of, scanned, seen_laid_out};

use text::{COUNTED, LAST_COLUMN, Seen};

// Nothing seen yet.
pub fn none_seen() -> Seen
    ensures { result ≡ unseen }
{
    Seen {
        length: 0,
        column: 0,
        ended: true,
    }
}

// One byte more.
fn after(x: Seen, b: u8) -> Seen
    ensures { result ≡ after_of x b }
{
    let length = x.length + usize::from(x.length < COUNTED);
    if x.column < LAST_COLUMN {
        Seen {
            length,
            column: x.column + 1,
            ended: x.ended,
        }
    } else {
        Seen {
            length,
            column: 0,
            ended: x.ended && b == b'\n',
        }
    }
}

// A part more.
pub fn scan(x: Seen, part: &[u8]) -> Seen
    ensures { result ≡ scanned x part.now }
{
    let mut y = x;
    for &b in part {
        y = after(y, b);
    }
    y
}

// Test 1 of all that was seen.
pub fn seen_laid_out(x: Seen) -> bool
    ensures { result ≡ seen_laid_out x }
{
    x.length != 0 && x.column == 0 && x.ended
}
