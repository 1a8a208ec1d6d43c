//! Taking lines, within the limits on their length and count.

ghost use Rattle.std.specs.Prelude.{◌≡◌, ℕ, ◌≤◌, Err};
ghost use Rattle.iot_bytes.specs.Causes.{Rose};
ghost use Rattle.line_loop.specs.Lines.{NextLine, NoFurther};

use crate::halt::NoLine;
use iot_bytes::{LineEnd, Row, Source, read_line};
use std::alloc::Global;

/// The most lines of a run.
pub const MOST_LINES: u32 = 100_000;

/// The most octets of a line, without its end.
pub const MOST_OCTETS: usize = 10_000;

/// Reads the next line, or says why there is none.
pub fn next_line<S: Source>(alloc: Global, source: &mut S) -> Result<Row<u8>, NoLine>
    ensures next { (count : ℕ) → NextLine count (S.rest source.old) (S.rest source.new) result }
    ensures fault { result ≡ Err NoLine.Fault → Rose (S.faults source.old) (S.faults source.new) }
    ensures monotone { S.faults source.old ≤ S.faults source.new }
{
    match read_line(alloc, source, MOST_OCTETS) {
        LineEnd::Line(line) => Ok(line),
        LineEnd::End => Err(NoLine::End),
        LineEnd::TooLong => Err(NoLine::Limit),
        LineEnd::ReadFault => Err(NoLine::Fault),
        LineEnd::NoMemory => Err(NoLine::NoMemory),
    }
}

/// The end of the input is due behind the most lines: one more passes the limit.
pub fn no_further<S: Source>(alloc: Global, source: &mut S) -> NoLine
    ensures none { NoFurther (S.rest source.old) (S.rest source.new) result }
    ensures fault { result ≡ NoLine.Fault → Rose (S.faults source.old) (S.faults source.new) }
    ensures monotone { S.faults source.old ≤ S.faults source.new }
{
    match next_line(alloc, source) {
        Ok(_) => NoLine::Limit,
        Err(stop) => stop,
    }
}
