//! The directory: how many old blocks there are, and which home blocks they were.

ghost use Rattle.std.specs.Prelude.{◌≡◌, ◌+◌, ◌*◌, ◌≤◌, true, ◌&&◌, leb, get_or, length, take};
ghost use Rattle.undo_journal.specs.Home.{count_of, is_well_formed};
ghost use Rattle.undo_journal.specs.Steps.{directory_of};

use crate::layout::BLOCKS;

/// The most octets that a directory takes: the count, and the numbers of all home blocks.
pub(crate) const SPELLED: usize = 1_348;

/// How many blocks a directory lists.
pub(crate) fn count(directory: &[u8]) -> usize
    requires { 2 ≤ length directory.now }
    ensures { result ≡ count_of directory.now }
{
    256 * directory[0] as usize + directory[1] as usize
}

/// The block at a place of the list.
pub(crate) fn entry(directory: &[u8], at: usize) -> u16
    requires { 4 + 2 * at ≤ length directory.now }
    ensures { result ≡ 256 * get_or directory.now (2 + 2 * at) 0 + get_or directory.now
        (3 + 2 * at) 0 }
{
    256 * directory[2 + 2 * at] as u16 + directory[3 + 2 * at] as u16
}

/// Whether this is the number of blocks that a directory may list.
fn is_count(count: usize) -> bool
    ensures test { result ≡ (leb 1 count && leb count 673) }
    ensures range { result ≡ true → (1 ≤ count) × (count ≤ 673) }
{
    count >= 1 && count <= BLOCKS
}

/// Whether a directory lists 1 to 673 blocks, each above the one before it and below 673.
pub(crate) fn is_fit(directory: &[u8]) -> bool
    requires { length directory.now ≡ 1536 }
    ensures { result ≡ is_well_formed directory.now }
{
    let count = count(directory);
    if !is_count(count) {
        return false;
    }
    for at in 0..count - 1 {
        if entry(directory, at) >= entry(directory, at + 1) {
            return false;
        }
    }
    entry(directory, count - 1) < BLOCKS as u16
}

/// The directory of these blocks, and octets that don't count.
pub(crate) fn spell(blocks: &[u16]) -> [u8; SPELLED]
    requires few { length blocks.now ≤ 673 }
    ensures { take (2 + 2 * length blocks.now) result ≡ directory_of blocks.now }
{
    let mut out = [0; SPELLED];
    let [high, low] = (blocks.len() as u16).to_be_bytes();
    out[0] = high;
    out[1] = low;
    for (entry, block) in blocks.iter().enumerate() {
        let [high, low] = block.to_be_bytes();
        out[2 + 2 * entry] = high;
        out[3 + 2 * entry] = low;
    }
    out
}
