//! Why a run ends, and the exit status that says so.

ghost use Rattle.std.specs.Prelude.{◌≡◌};
ghost use Rattle.run_loop.specs.Status.{exit_status, halt_status, has_record};
ghost use Rattle.run_loop.specs.Status.{part_status, read_status, send_status};

use iot_bytes::Failed;

/// Why there is no further frame.
#[derive(Clone, Copy, Debug)]
pub enum ReadStop {
    /// The input was read to its end.
    End,
    /// The source failed.
    Fault,
    /// The input ends inside a frame.
    Torn,
    /// A frame passes the limit on its length or on the count.
    Limit,
    /// Memory is wanting.
    NoMemory,
}

/// Why a part has no answer to a frame.
#[derive(Clone, Copy, Debug)]
pub enum PartStop {
    /// The chip failed.
    ChipFault,
    /// The part's grammar doesn't have the frame.
    Malformed,
    /// There is no card, and the frame makes none.
    Unrecognised,
    /// Memory is wanting.
    NoMemory,
}

/// Why a frame wasn't sent whole.
#[derive(Clone, Copy, Debug)]
pub enum SendStop {
    /// The sink failed.
    Fault,
    /// Memory is wanting.
    NoMemory,
}

/// Why no more frames are answered.
#[derive(Clone, Copy, Debug)]
pub enum Halt {
    /// There is no further frame.
    Reading(ReadStop),
    /// The part has no answer to the frame in hand.
    Answering(PartStop),
    /// The sink failed inside the answer to the frame in hand.
    Sending,
}

/// How a run ended.
#[derive(Clone, Copy, Debug)]
pub struct RunEnd {
    /// Why no more frames were answered.
    pub halt: Halt,
    /// Whether the stop record was sent, where one is due.
    pub closing: Result<(), SendStop>,
}

impl ReadStop {
    fn status(self) -> u8
        ensures { result ≡ read_status self }
    {
        match self {
            ReadStop::End => 0,
            ReadStop::Fault => 2,
            ReadStop::Torn => 5,
            ReadStop::NoMemory => 6,
            ReadStop::Limit => 7,
        }
    }
}

impl PartStop {
    fn status(self) -> u8
        ensures { result ≡ part_status self }
    {
        match self {
            PartStop::ChipFault => 4,
            PartStop::Malformed => 5,
            PartStop::NoMemory => 6,
            PartStop::Unrecognised => 8,
        }
    }
}

impl SendStop {
    /// The exit status where the last frame or text isn't sent whole.
    pub fn status(self) -> u8
        ensures { result ≡ send_status self }
    {
        match self {
            SendStop::Fault => 3,
            SendStop::NoMemory => 6,
        }
    }
}

impl Halt {
    /// The exit status, where nothing goes wrong with the stop record.
    pub fn status(self) -> u8
        ensures { result ≡ halt_status self }
    {
        match self {
            Halt::Reading(stop) => stop.status(),
            Halt::Answering(stop) => stop.status(),
            Halt::Sending => SendStop::Fault.status(),
        }
    }

    /// Whether a stop record is the last that is written.
    pub fn has_record(self) -> bool
        ensures { result ≡ has_record self }
    {
        match self {
            Halt::Reading(ReadStop::Fault | ReadStop::Torn | ReadStop::Limit) => true,
            Halt::Reading(ReadStop::End | ReadStop::NoMemory) => false,
            Halt::Answering(PartStop::ChipFault) => true,
            Halt::Answering(PartStop::Malformed | PartStop::Unrecognised) => true,
            Halt::Answering(PartStop::NoMemory) => false,
            Halt::Sending => false,
        }
    }
}

impl RunEnd {
    /// The exit status of the run.
    pub fn status(self) -> u8
        ensures { result ≡ exit_status self.halt self.closing }
    {
        match self.closing {
            Ok(()) => self.halt.status(),
            Err(stop) => stop.status(),
        }
    }
}

impl From<ReadStop> for Halt {
    ghost use Rattle.run_loop.specs.declared.halt.Halt.TheVariants.{Reading};

    ghost from_gives = { λ stop halt. halt ≡ Reading stop };

    fn from(stop: ReadStop) -> Halt {
        Halt::Reading(stop)
    }
}

impl From<PartStop> for Halt {
    ghost use Rattle.run_loop.specs.declared.halt.Halt.TheVariants.{Answering};

    ghost from_gives = { λ stop halt. halt ≡ Answering stop };

    fn from(stop: PartStop) -> Halt {
        Halt::Answering(stop)
    }
}

impl From<Failed> for Halt {
    ghost use Rattle.run_loop.specs.declared.halt.Halt.TheVariants.{Sending};

    ghost from_gives = { λ _ halt. halt ≡ Sending };

    fn from(_fault: Failed) -> Halt {
        Halt::Sending
    }
}
