// A file that is read whole.
ghost use Rattle.std.specs.Prelude.{take};
ghost use Rattle.std.specs.Io.KnownBytes.{Consumes};
ghost use Rattle.io.specs.Counts.{IsPrefixLen};

use std::fs::File;
use std::io::Read;
use std::rt::Files;

// Reads until the buffer is full, the input ends or a read fails, and answers how many bytes stand at the buffer's front.
pub fn read_full<R: Read>(input: &mut R, buffer: &mut [u8]) -> usize
    ensures within { IsPrefixLen result buffer.new }
    ensures bytes { Consumes (R.remaining input.old) (R.remaining input.new) (take result buffer.new) }
{
    let mut done = 0;
    // A place, moved by what a read gave: no range counts it.
    while done < buffer.len() {
        match input.read(&mut buffer[done..]) {
            Ok(0) | Err(_) => return done,
            Ok(n) => done += n,
        }
    }
    done
}

// The bytes of a file, or as many as the buffer takes. A file that cannot be opened or read counts as missing: 0; one whose name
// is no UTF-8 cannot be opened.
pub fn read_file(files: &impl Files, name: &[u8], buffer: &mut [u8]) -> usize
    ensures { IsPrefixLen result buffer.new }
{
    let Ok(path) = str::from_utf8(name) else {
        return 0;
    };
    match File::open(files, path) {
        Ok(mut file) => read_full(&mut file, buffer),
        Err(_) => 0,
    }
}
