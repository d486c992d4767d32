#![tactic(auto)]
// Files of the working directory, as the programs of this repository use them: a file is opened by the bytes of its path and read
// as far as a buffer goes. A file that is missing or cannot be opened is none; one that cannot be read on ends there.
ghost use Rattle.std.specs.Prelude.{◌≡◌, ◌≤◌, min, length, take};
ghost use Rattle.std.specs.Io.KnownBytes.{Consumes};
ghost use Rattle.files.specs.Counts.{IsPrefixLen, clamp_len};

use std::io::Read;
use std::rt::Files;
use std::{fs, str};

// The bytes of a buffer for a short file, and of one for a long file.
pub const SHORT: usize = 4096;

pub const LONG: usize = 65536;

// A number of buf's bytes: 0 where got is negative, and never more than buf's length. It takes buf and not its length so that
// the contract can speak of buf, and `&buf[..n]` then needs no proof file.
pub fn count(got: isize, buf: &[u8]) -> usize
    ensures in_bounds { IsPrefixLen result buf.now }
    ensures value { result ≡ clamp_len got (length buf.now) }
{
    usize::try_from(got).unwrap_or(0).min(buf.len())
}

// Opens a file to read it; none where it cannot be opened.
pub fn open_read<R: Files>(files: &R, path: &[u8]) -> Option<R::File> {
    let path = str::from_utf8(path).ok()?;
    fs::open(files, path).ok()
}

// Reads until buf is full, the file ends or a read fails, and returns how many bytes it put at the start of buf: those that the
// file gave. On an empty buf it makes no call. A loop over `read`, since a contract says nothing of what std's `read_exact` and
// `read_to_end` put into a buffer before a read that fails.
pub fn read_full<R: Read>(file: &mut R, buf: &mut [u8]) -> usize
    ensures in_bounds { IsPrefixLen result buf.new }
    ensures bytes { Consumes (R.remaining file.old) (R.remaining file.new) (take result buf.new) }
{
    let mut done = 0;
    while done < buf.len() {
        let n = read_some(file, &mut buf[done..]);
        if n == 0 {
            break;
        }
        done += n;
    }
    done
}

// One read; 0 where it fails.
fn read_some<R: Read>(file: &mut R, buf: &mut [u8]) -> usize
    ensures in_bounds { IsPrefixLen result buf.new }
    ensures bytes { Consumes (R.remaining file.old) (R.remaining file.new) (take result buf.new) }
{
    file.read(buf).unwrap_or(0)
}
