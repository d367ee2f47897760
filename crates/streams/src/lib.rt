// Reading into and writing out of a lent buffer, over std's readers and writers. What comes or goes in pieces is continued, and no call ends the
// program: a read or a write that fails ends the work of the call, and what was moved until then is told.
#![tactic(auto)]

ghost use Rattle.std.specs.Prelude.{◌≡◌, ◌<◌, ◌≤◌, false, true, length, take};
ghost use Rattle.std.specs.Io.KnownBytes.{Appends, Consumes, IsAtEnd};

use std::io::{Read, Write};

// How many bytes were moved, and whether it was a failure that ended the call. No Result: the count says how much was moved also where it failed.
#[derive(Clone, Copy)]
pub struct Moved {
    pub count: usize,
    pub failed: bool,
}

fn all_moved(count: usize) -> Moved
    ensures { result ≡ record { count = count; failed = false } }
{
    Moved {
        count,
        failed: false,
    }
}

fn cut_short(count: usize) -> Moved
    ensures { result ≡ record { count = count; failed = true } }
{
    Moved {
        count,
        failed: true,
    }
}

// Reads to the front of the buffer until it is full, the input ends or a read fails. A read that a signal interrupts counts as failed.
pub fn read_full<R: Read>(reader: &mut R, buf: &mut [u8]) -> Moved
    ensures in_bounds { result.count ≤ length buf.new }
    ensures bytes { Consumes (R.remaining reader.old) (R.remaining reader.new) (take result.count buf.new) }
    ensures whole { result.failed ≡ false → result.count < length buf.new → IsAtEnd (R.remaining reader.new) }
{
    // A `while`: what each read gives decides how often it is read, and `done` is what is answered.
    let mut done = 0;
    while done < buf.len() {
        match reader.read(&mut buf[done..]) {
            Ok(0) => return all_moved(done),
            Ok(got) => done += got,
            Err(_) => return cut_short(done),
        }
    }
    all_moved(done)
}

// Writes all bytes, or stops at the first write that takes none or fails.
pub fn write_all<W: Write>(writer: &mut W, bytes: &[u8]) -> Moved
    ensures in_bounds { result.count ≤ length bytes.now }
    ensures bytes { Appends (W.contents writer.old) (W.contents writer.new) (take result.count bytes.now) }
    ensures whole { result.failed ≡ false → result.count ≡ length bytes.now }
{
    // A `while`, as in `read_full`.
    let mut done = 0;
    while done < bytes.len() {
        match writer.write(&bytes[done..]) {
            Ok(0) => return cut_short(done),
            Ok(taken) => done += taken,
            Err(_) => return cut_short(done),
        }
    }
    all_moved(done)
}
