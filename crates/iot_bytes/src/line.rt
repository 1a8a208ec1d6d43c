//! Lines: octets up to 0A, or to the end of the source.

ghost use Rattle.std.specs.Prelude.{◌≡◌, ℕ, ◌≤◌, List, Option, Some, None};
ghost use Rattle.iot_bytes.specs.Causes.{Rose};
ghost use Rattle.iot_bytes.specs.Lines.{LineGives, NextGives, IsLineDecided};

use crate::row::Row;
use crate::source::Source;
use std::alloc::Global;

/// The greatest limit of a line, in octets.
pub const LINE_LIMIT: usize = 1_048_576;

/// How reading a line ended.
#[derive(Debug, Drop)]
pub enum LineEnd {
    /// A line, without its end. The last line of a source needs none.
    Line(Row<u8>),
    /// The source ended with no octet read.
    End,
    /// One octet more than the limit came without an end. So many octets were taken.
    TooLong,
    /// The source failed. Octets of this line may have been taken, and none from behind it.
    ReadFault,
    /// Memory ran out. Octets of this line may have been taken, and none from behind it.
    NoMemory,
}

#[derive(Clone, Copy)]
enum Next {
    Octet(u8),
    Over,
    Fault,
}

fn next_octet<S: Source>(source: &mut S) -> Next
    ensures octets { (bytes : List ℕ) → S.rest source.old ≡ Some bytes
        → NextGives bytes result (S.rest source.new) }
    ensures untold { S.rest source.old ≡ None → S.rest source.new ≡ None }
    ensures monotone { S.faults source.old ≤ S.faults source.new }
    ensures fault { result ≡ Next.Fault → Rose (S.faults source.old) (S.faults source.new) }
{
    let mut octet = [0; 1];
    match source.read(&mut octet) {
        Ok(0) => Next::Over,
        Ok(_) => Next::Octet(octet[0]),
        Err(_) => Next::Fault,
    }
}

/// Reads the next line, of at most `limit` octets without its end.
///
/// It takes one octet at a time, so that none is taken from behind the line: give it a source that
/// is buffered.
pub fn read_line<S: Source>(alloc: Global, source: &mut S, limit: usize) -> LineEnd
    requires { limit ≤ LINE_LIMIT }
    ensures octets { (bytes : List ℕ) → S.rest source.old ≡ Some bytes
        → LineGives bytes limit result (S.rest source.new) }
    ensures untold { S.rest source.old ≡ None → S.rest source.new ≡ None }
    ensures monotone { S.faults source.old ≤ S.faults source.new }
    ensures fault { result ≡ LineEnd.ReadFault → Rose (S.faults source.old) (S.faults source.new) }
{
    let mut line = Row::new(alloc);
    loop {
        match next_octet(source) {
            Next::Octet(b'\n') => return LineEnd::Line(line),
            Next::Octet(octet) => {
                if line.len() >= limit {
                    return LineEnd::TooLong;
                }
                if line.push(octet).is_err() {
                    return LineEnd::NoMemory;
                }
            }
            Next::Over if line.is_empty() => return LineEnd::End,
            Next::Over => return LineEnd::Line(line),
            Next::Fault => return LineEnd::ReadFault,
        }
    }
}

/// The law that the octets decide how a line ends.
///
/// Two ends that both stand over the same octets, neither a fault of the source nor want of memory,
/// are the same end and leave the same rest. So each of them comes exactly where its rule holds.
pub fn line_end_is_one()
    ensures { (bytes : List ℕ) (limit : ℕ) (a b : LineEnd) (left other : Option (List ℕ))
        → IsLineDecided a → IsLineDecided b → LineGives bytes limit a left
        → LineGives bytes limit b other → (a ≡ b) × (left ≡ other) }
{}
