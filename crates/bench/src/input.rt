//! Lines and blocks of standard input, read through a buffer.
ghost use Rattle.std.specs.Prelude.{◌≡◌, IfErr};
ghost use Rattle.std.specs.IoError.{error_kind};

use std::alloc::Global;
use std::io;
use std::io::{BufRead, BufReader, ErrorKind, Stdin};

/// The lines still to come. Each is read into the same memory, and lent until the next one is asked for.
#[derive(Drop)]
pub(crate) struct Lines {
    reader: BufReader<Stdin>,
    line: Vec<u8>,
}

/// Fails only where there is no memory for the buffer.
pub(crate) fn lines_of(stdin: Stdin, heap: Global) -> io::Result<Lines>
    ensures { IfErr result (λ e. error_kind e ≡ ErrorKind.OutOfMemory) }
{
    let reader = BufReader::new(heap, stdin)?;
    let line = Vec::new(heap);
    Ok(Lines { reader, line })
}

impl Lines {
    /// The next line, without its newline; `None` once the input has ended.
    pub(crate) fn next(&mut self) -> io::Result<Option<&[u8]>> {
        self.line.clear();
        if self.reader.read_until(b'\n', &mut self.line)? == 0 {
            return Ok(None);
        }
        let line = self.line.as_slice();
        Ok(Some(line.strip_suffix(b"\n").unwrap_or(line)))
    }

    /// Reads a block, each line with its newline, up to a line that is a lone dot.
    pub(crate) fn read_block(&mut self, heap: Global) -> io::Result<Vec<u8>> {
        let mut block = Vec::new(heap);
        // A count: that a reader's lines end is in no contract.
        for _ in 0..u64::MAX {
            let Some(line) = self.next()? else {
                break;
            };
            if line == b".".as_slice() {
                break;
            }
            block.extend_from_slice(line)?;
            block.push(b'\n')?;
        }
        Ok(block)
    }
}
