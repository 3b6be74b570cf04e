// Reads of a whole text, at most as much as there is room for.
ghost use Rattle.std.specs.Prelude.{take};
ghost use Rattle.std.specs.Io.KnownBytes.{Consumes};
ghost use Rattle.report.specs.Counts.{IsPrefixLen};

use std::io::Read;

// Reads until the buffer is full, the input ends or a read fails, and answers how many bytes stand at the start of the
// buffer. A call that a signal interrupts counts as one that failed.
pub fn read_full<R: Read>(reader: &mut R, buf: &mut [u8]) -> usize
    ensures prefix_len { IsPrefixLen result buf.new }
    ensures bytes { Consumes (R.remaining reader.old) (R.remaining reader.new) (take result buf.new) }
{
    let mut done = 0usize;
    while done < buf.len() {
        match reader.read(&mut buf[done..]) {
            Ok(count) => {
                if count == 0 {
                    return done;
                }
                done += count;
            }
            Err(_) => return done,
        }
    }
    done
}
