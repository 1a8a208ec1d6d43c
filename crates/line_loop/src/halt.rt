//! Why a run over lines ends, and the exit status that says so.

ghost use Rattle.std.specs.Prelude.{◌≡◌};
ghost use Rattle.line_loop.specs.Status.{exit_status, halt_status, has_stop_line};
ghost use Rattle.line_loop.specs.Status.{end_status, is_end, line_status, read_status};

use iot_bytes::{Failed, ReadError};
use run_loop::SendStop;

/// Why there is no further line.
#[derive(Clone, Copy, Debug)]
pub enum NoLine {
    /// The input was read to its end.
    End,
    /// The source failed.
    Fault,
    /// A line passes the limit on its length or on the count.
    Limit,
    /// Memory is wanting.
    NoMemory,
}

/// Why a part doesn't handle a line.
#[derive(Clone, Copy, Debug)]
pub enum LineStop {
    /// The chip failed.
    ChipFault,
    /// The part's grammar doesn't have the line.
    Malformed,
    /// The line would pass the limit on messages.
    Limit,
    /// The chip's octets stand for no card.
    Unrecognised,
    /// Memory is wanting.
    NoMemory,
}

/// Why the input may not end behind the lines that a part handled.
#[derive(Clone, Copy, Debug)]
pub enum EndStop {
    /// A line is missing.
    Missing,
    /// Memory is wanting.
    NoMemory,
}

/// Why no more lines are handled.
#[derive(Clone, Copy, Debug)]
pub enum Halt {
    /// There is no further line.
    Reading(NoLine),
    /// The part doesn't handle the line in hand.
    Handling(LineStop),
    /// The input may not end here.
    Ending(EndStop),
    /// The sink failed inside the text of the line in hand.
    Sending,
}

/// How a run ended.
#[derive(Clone, Copy, Debug)]
pub struct RunEnd {
    /// Why no more lines were handled.
    pub halt: Halt,
    /// Whether the last text was sent: the closing text, or the stop line where one is due.
    pub closing: Result<(), SendStop>,
}

impl NoLine {
    fn status(self) -> u8
        ensures { result ≡ read_status self }
    {
        match self {
            NoLine::End => 0,
            NoLine::Fault => 2,
            NoLine::NoMemory => 6,
            NoLine::Limit => 7,
        }
    }
}

impl LineStop {
    fn status(self) -> u8
        ensures { result ≡ line_status self }
    {
        match self {
            LineStop::ChipFault => 4,
            LineStop::Malformed => 5,
            LineStop::NoMemory => 6,
            LineStop::Limit => 7,
            LineStop::Unrecognised => 8,
        }
    }
}

impl EndStop {
    fn status(self) -> u8
        ensures { result ≡ end_status self }
    {
        match self {
            EndStop::Missing => 5,
            EndStop::NoMemory => 6,
        }
    }
}

impl Halt {
    /// The exit status, where nothing goes wrong with the last text.
    pub fn status(self) -> u8
        ensures { result ≡ halt_status self }
    {
        match self {
            Halt::Reading(stop) => stop.status(),
            Halt::Handling(stop) => stop.status(),
            Halt::Ending(stop) => stop.status(),
            Halt::Sending => SendStop::Fault.status(),
        }
    }

    /// Whether the input was read to its end.
    pub fn is_end(self) -> bool
        ensures { result ≡ is_end self }
    {
        matches!(self, Halt::Reading(NoLine::End))
    }

    /// Whether a stop line is the last that is written.
    pub fn has_stop_line(self) -> bool
        ensures { result ≡ has_stop_line self }
    {
        match self {
            Halt::Reading(NoLine::Fault | NoLine::Limit) => true,
            Halt::Reading(NoLine::End | NoLine::NoMemory) => false,
            Halt::Handling(LineStop::ChipFault | LineStop::Malformed) => true,
            Halt::Handling(LineStop::Limit | LineStop::Unrecognised) => true,
            Halt::Handling(LineStop::NoMemory) => false,
            Halt::Ending(EndStop::Missing) => true,
            Halt::Ending(EndStop::NoMemory) => false,
            Halt::Sending => false,
        }
    }
}

impl RunEnd {
    /// The exit status of the run.
    pub fn status(self) -> u8
        ensures { result ≡ exit_status self.halt self.closing }
    {
        match self.closing {
            Ok(()) => self.halt.status(),
            Err(stop) => stop.status(),
        }
    }
}

impl From<NoLine> for Halt {
    ghost use Rattle.line_loop.specs.declared.halt.Halt.TheVariants.{Reading};

    ghost from_gives = { λ stop halt. halt ≡ Reading stop };

    fn from(stop: NoLine) -> Halt {
        Halt::Reading(stop)
    }
}

/// Why a line isn't handled that can't be read.
impl From<ReadError> for LineStop {
    ghost use Rattle.line_loop.specs.Status.{of_read};

    ghost from_gives = { λ error stop. stop ≡ of_read error };

    fn from(error: ReadError) -> LineStop {
        match error {
            ReadError::Malformed => LineStop::Malformed,
            ReadError::NoMemory => LineStop::NoMemory,
        }
    }
}

impl From<LineStop> for Halt {
    ghost use Rattle.line_loop.specs.declared.halt.Halt.TheVariants.{Handling};

    ghost from_gives = { λ stop halt. halt ≡ Handling stop };

    fn from(stop: LineStop) -> Halt {
        Halt::Handling(stop)
    }
}

impl From<Failed> for Halt {
    ghost use Rattle.line_loop.specs.declared.halt.Halt.TheVariants.{Sending};

    ghost from_gives = { λ _ halt. halt ≡ Sending };

    fn from(_fault: Failed) -> Halt {
        Halt::Sending
    }
}
