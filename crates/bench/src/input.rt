// An input read whole: std's `read_exact` does not say how much it read, and its `read_to_end` allocates.
ghost use Rattle.std.specs.Prelude.{ℕ, ◌<◌, ◌≤◌, length, take, IfOk, IfErr};
ghost use Rattle.std.specs.Io.KnownBytes.{Consumes, IsAtEnd};

use std::io;
use std::io::Read;

// A read that failed, and how many bytes were read before it.
#[derive(Drop)]
pub struct Failed {
    pub count: usize,
    pub error: io::Error,
}

// Reads until the buffer is full, the input ends or a read fails, and gives how many bytes were read.
pub fn read<R: Read>(reader: &mut R, buffer: &mut [u8]) -> Result<usize, Failed>
    ensures within { IfOk result (λ n. n ≤ length buffer.new) }
    ensures bytes { IfOk result (λ n. Consumes (R.remaining reader.old) (R.remaining reader.new) (take n buffer.new)) }
    ensures whole { IfOk result (λ n. n < length buffer.new → IsAtEnd (R.remaining reader.new)) }
    ensures failed { IfErr result (λ f. (f.count ≤ length buffer.new) × Consumes (R.remaining reader.old) (R.remaining reader.new) (take f.count buffer.new)) }
{
    let mut count = 0;
    while count < buffer.len() {
        let more = match reader.read(&mut buffer[count..]) {
            Ok(more) => more,
            Err(error) => return Err(Failed { count, error }),
        };
        if more == 0 {
            break;
        }
        count += more;
    }
    Ok(count)
}
