//! The octets of a chip in memory, and all that was done to them.

ghost use Rattle.std.specs.Prelude.{◌≡◌, ◌+◌, ◌-◌, ◌≤◌, ◌<◌, ◌∷◌, [], List, ℕ, length, take, drop};
ghost use Rattle.std.specs.Prelude.{reverse, IfOk, OnOk, ◌++◌, vec_len, vec_capacity, true};
ghost use Rattle.chip_port.specs.Rules.{put};
ghost use Rattle.chip_port.specs.Past.{Past, wrote, did_sync, did_answer, was_cut, woke_as, images};
ghost use Rattle.chip_port.specs.Past.{fits, zeros};
ghost use Rattle.chip_port.specs.Medium.{Agree};

use crate::chip::{CHIP_SIZE, Tear};
use std::alloc::{AllocError, Global};
use std::marker::Model;

/// How many octets the medium has.
const SIZE: usize = CHIP_SIZE as usize;

/// The octet that a power cycle may leave in a range that wasn't synced.
const JUNK: u8 = 0xA5;

/// Which octets a power cycle gives.
#[derive(Clone, Copy, Debug, PartialEq, Eq)]
pub enum Survives {
    /// All that was written.
    Content,
    /// What was synced last.
    Synced,
    /// What was synced last, with A5 in each range that was written since.
    Junk,
}

/// One thing that was done.
#[derive(Clone, Copy, Debug, PartialEq, Eq)]
pub enum Record {
    /// A write into a range of `len` octets, of which the first `kept` were written.
    Write { at: u64, len: u64, kept: usize },
    /// A sync.
    Sync,
    /// An answer, with the counts of that moment.
    Answer { cuts: u64, breaks: u64 },
    /// A planned cut.
    Cut(Tear),
    /// A power cycle.
    PowerCycle(Survives),
}

/// The content, the history beside it, and the two further images that a power cycle may give.
///
/// A read costs what is read, a write what is written, and a sync what was written since the last
/// one. `octets` has all octets that were written, end to end.
#[derive(Drop)]
pub struct Medium {
    records: Vec<Record>,
    octets: Vec<u8>,
    content: Vec<u8>,
    synced: Vec<u8>,
    junk: Vec<u8>,
}

impl Model for Medium {
    ghost use Rattle.std.specs.Prelude.{◌≡◌, ◌-◌, ◌≤◌, true, reverse, vec_len, vec_capacity};
    ghost use Rattle.chip_port.specs.Medium.{MediumSeen, past_of, IsKept};

    ghost Value = { MediumSeen };

    ghost view = { λ m. record {
      past = past_of (reverse m.records.items) m.octets.items;
      calls = vec_capacity m.records - vec_len m.records;
      octets = vec_capacity m.octets - vec_len m.octets;
    } };

    ghost invariant = { λ m. IsKept (past_of (reverse m.records.items) m.octets.items)
        m.content.items m.synced.items m.junk.items };
}

/// So many octets 0.
fn octets_zero(alloc: Global, n: usize) -> Result<Vec<u8>, AllocError>
    ensures { IfOk result (λ v. v.items ≡ zeros n) }
{
    Ok(vec![in alloc; 0; n]?)
}

impl Medium {
    /// A medium of octets 0, with room for one record.
    pub fn new(alloc: Global) -> Result<Medium, AllocError>
        ensures { IfOk result (λ m. (m.past ≡ []) × (1 ≤ m.calls)) }
    {
        let mut records: Vec<Record> = Vec::new(alloc);
        records.reserve(1)?;
        Ok(Medium {
            records,
            octets: Vec::new(alloc),
            content: octets_zero(alloc, SIZE)?,
            synced: octets_zero(alloc, SIZE)?,
            junk: octets_zero(alloc, SIZE)?,
        })
    }

    /// Takes memory for so many records and octets.
    pub fn room(&mut self, calls: usize, octets: usize) -> Result<(), AllocError>
        ensures past { self.new.past ≡ self.old.past }
        ensures ok { OnOk result ((calls ≤ self.new.calls) × (octets ≤ self.new.octets)) }
        ensures no_less { (self.old.calls ≤ self.new.calls) × (self.old.octets ≤ self.new.octets) }
    {
        self.records.reserve(calls)?;
        self.octets.reserve(octets)?;
        Ok(())
    }

    /// Fills `out` from the content.
    pub fn read(&self, at: usize, out: &mut [u8])
        requires { at + length out.old ≤ CHIP_SIZE }
        ensures { out.new ≡ take (length out.old)
            (drop at (images CHIP_SIZE self.now.past).content) }
    {
        out.copy_from_slice(&self.content[at..at + out.len()]);
    }

    /// Writes octets to the front of a range of `len`, all of which is then unsynced.
    pub fn write(&mut self, at: u64, len: u64, octets: &[u8])
        requires inside { at + len ≤ CHIP_SIZE }
        requires short { length octets.now ≤ len }
        requires calls { 1 ≤ self.old.calls }
        requires room { length octets.now ≤ self.old.octets }
        ensures past { self.new.past ≡ wrote at len octets.now ∷ self.old.past }
        ensures inside { fits CHIP_SIZE self.new.past ≡ true }
        ensures calls { self.old.calls ≤ self.new.calls + 1 }
        ensures octets { self.old.octets ≤ self.new.octets + length octets.now }
    {
        let from = at as usize;
        self.content[from..from + octets.len()].copy_from_slice(octets);
        self.junk[from..from + len as usize].fill(JUNK);
        extend(&mut self.octets, octets);
        push(
            &mut self.records,
            Record::Write {
                at,
                len,
                kept: octets.len(),
            },
        );
    }

    /// Brings both further images to the content.
    pub fn sync(&mut self)
        requires { 1 ≤ self.old.calls }
        ensures past { self.new.past ≡ did_sync ∷ self.old.past }
        ensures inside { fits CHIP_SIZE self.new.past ≡ true }
        ensures calls { self.old.calls ≤ self.new.calls + 1 }
        ensures octets { self.new.octets ≡ self.old.octets }
    {
        settle(&mut self.synced, &self.content, &self.records);
        settle(&mut self.junk, &self.content, &self.records);
        push(&mut self.records, Record::Sync);
    }

    /// Records an answer with the counts of this moment.
    pub fn answer(&mut self, cuts: u64, breaks: u64)
        requires { 1 ≤ self.old.calls }
        ensures past { self.new.past ≡ did_answer cuts breaks ∷ self.old.past }
        ensures inside { fits CHIP_SIZE self.new.past ≡ true }
        ensures calls { self.old.calls ≤ self.new.calls + 1 }
        ensures octets { self.new.octets ≡ self.old.octets }
    {
        push(&mut self.records, Record::Answer { cuts, breaks });
    }

    /// Records a planned cut.
    pub fn cut(&mut self, tear: Tear)
        requires { 1 ≤ self.old.calls }
        ensures past { self.new.past ≡ was_cut tear ∷ self.old.past }
        ensures inside { fits CHIP_SIZE self.new.past ≡ true }
        ensures calls { self.old.calls ≤ self.new.calls + 1 }
        ensures octets { self.new.octets ≡ self.old.octets }
    {
        push(&mut self.records, Record::Cut(tear));
    }

    /// A power cycle, which gives one of the three images.
    pub fn power_cycle(&mut self, survives: Survives)
        requires { 1 ≤ self.old.calls }
        ensures past { self.new.past ≡ woke_as survives ∷ self.old.past }
        ensures inside { fits CHIP_SIZE self.new.past ≡ true }
        ensures calls { self.old.calls ≤ self.new.calls + 1 }
        ensures octets { self.new.octets ≡ self.old.octets }
    {
        match survives {
            Survives::Content => {
                settle(&mut self.synced, &self.content, &self.records);
                settle(&mut self.junk, &self.content, &self.records);
            }
            Survives::Synced => {
                self.content.copy_from_slice(&self.synced);
                self.junk.copy_from_slice(&self.synced);
            }
            Survives::Junk => {
                self.content.copy_from_slice(&self.junk);
                self.synced.copy_from_slice(&self.junk);
            }
        }
        push(&mut self.records, Record::PowerCycle(survives));
    }
}

/// Copies a range of the content to an image.
fn copy_range(image: &mut [u8], content: &[u8], at: usize, len: usize)
    requires image { at + len ≤ length image.old }
    requires content { at + len ≤ length content.now }
    ensures { image.new ≡ put image.old at (take len (drop at content.now)) }
{
    image[at..at + len].copy_from_slice(&content[at..at + len]);
}

/// Copies to an image what was written since the last sync or power cycle.
fn settle(image: &mut [u8], content: &[u8], records: &[Record])
    requires { Agree CHIP_SIZE (reverse records.now) image.old content.now }
    ensures { image.new ≡ content.now }
{
    let mut left = records.len();
    while left > 0 {
        left -= 1;
        match records[left] {
            Record::Write { at, len, .. } => {
                copy_range(image, content, at as usize, len as usize);
            }
            Record::Sync | Record::PowerCycle(_) => return,
            Record::Answer { .. } | Record::Cut(_) => {}
        }
    }
}

/// Appends a record for which there is room.
fn push(records: &mut Vec<Record>, entry: Record)
    requires { vec_len records.old < vec_capacity records.old }
    ensures items { records.new.items ≡ records.old.items ++ entry ∷ [] }
    ensures len { vec_len records.new ≡ vec_len records.old + 1 }
    ensures capacity { vec_capacity records.old ≤ vec_capacity records.new }
{
    match records.push(entry) {
        Ok(()) => {}
        Err(_) => unreachable!(),
    }
}

/// Appends octets for which there is room.
fn extend(octets: &mut Vec<u8>, more: &[u8])
    requires { vec_len octets.old + length more.now ≤ vec_capacity octets.old }
    ensures items { octets.new.items ≡ octets.old.items ++ more.now }
    ensures len { vec_len octets.new ≡ vec_len octets.old + length more.now }
    ensures capacity { vec_capacity octets.old ≤ vec_capacity octets.new }
{
    match octets.extend_from_slice(more) {
        Ok(()) => {}
        Err(_) => unreachable!(),
    }
}
