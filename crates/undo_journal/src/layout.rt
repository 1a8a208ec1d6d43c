//! What stands where on the chip.

ghost use Rattle.std.specs.Prelude.{◌≡◌, ◌+◌, ◌*◌, ◌<◌};

/// The octets at the front of each chip that holds a home.
pub const MAGIC: [u8; 8] = *b"IOTCARD:";

/// The place of the gate octet. Behind an open gate the old blocks count.
pub const GATE: u64 = 256;

/// The gate octet of an open gate. With every other value the gate is closed.
pub(crate) const OPEN: u8 = 0xA5;

/// The gate octet that closes the gate.
pub(crate) const CLOSED: u8 = 0;

/// The place of the directory: a count and as many block numbers, of two octets each, big-endian.
pub(crate) const DIRECTORY: u64 = 512;

/// How many octets are kept for the directory.
pub(crate) const DIRECTORY_SIZE: usize = 1_536;

/// The place of the old blocks, in the order of the directory.
pub(crate) const OLD: u64 = 2_048;

/// The place of the home blocks, in the order of their numbers.
pub const HOME: u64 = 174_336;

/// How many octets a block has.
pub const BLOCK: usize = 256;

/// How many home blocks there are.
pub const BLOCKS: usize = 673;

/// How many octets the home has.
pub const HOME_SIZE: usize = 172_288;

/// The place of a home block.
pub fn home_at(block: u16) -> u64
    ensures { result ≡ HOME + BLOCK * block }
{
    HOME + BLOCK as u64 * block as u64
}

/// The place of an old block, by its place in the directory.
pub(crate) fn old_at(entry: usize) -> u64
    requires { entry < BLOCKS }
    ensures { result ≡ OLD + BLOCK * entry }
{
    OLD + (BLOCK * entry) as u64
}
