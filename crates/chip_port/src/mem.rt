//! A chip in memory, for tests and schedules.

ghost use Rattle.std.specs.Prelude.{◌≡◌, ◌+◌, ◌*◌, ◌≤◌, [], ◌∷◌, length, take, true, if◌then◌else◌};
ghost use Rattle.std.specs.Prelude.{is_some, IfOk, IsOk, IsTrue, ◌↔◌, Contains};
ghost use Rattle.chip_port.specs.declared.chip.TheConstants.{CHIP_SIZE};
ghost use Rattle.chip_port.specs.Past.{fits, wrote, did_sync, did_answer};
ghost use Rattle.chip_port.specs.Counts.{kept_len};
ghost use Rattle.chip_port.specs.MemSeen.{seen_in, is_woken, sound_in, given, woken_past};
ghost use Rattle.chip_port.specs.MemSeen.{StartsBlank};

use crate::chip::{Bench, Chip, Tear};
use crate::counts::{Counts, Plan, Turn};
use crate::medium::{Medium, Survives};
use iot_bytes::{Failed, NoMemory, Row};
use std::alloc::Global;

/// The most calls that `prepare` makes room for at once.
const CALL_LIMIT: u64 = 1 << 40;

/// The most octets that `prepare` makes room for at once.
const OCTET_LIMIT: u64 = 1 << 60;

/// A chip in memory that tells its content, keeps its history, and can be cut and made to fail.
///
/// It takes memory in `new` and `prepare` and for a plan's records in `plan_cut`, and in no other
/// call.
#[derive(Drop)]
pub struct MemChip {
    medium: Medium,
    counts: Counts,
    calls: u64,
    octets: u64,
    failing: Row<u64>,
    woken: bool,
    ghost inside: { fits CHIP_SIZE medium.past ≡ true },
    ghost woken_is: { is_woken medium.past ≡ woken },
    ghost few: { calls ≤ 1099511627776 },
    ghost room: { 2 * calls + (if woken then 0 else 1) + (if is_some counts.plan then 2 else 0)
        ≤ medium.calls },
    ghost octet_room: { octets ≤ medium.octets },
}

impl MemChip {
    ghost use Rattle.std.specs.Prelude.{None};
    ghost use Rattle.chip_port.specs.MemChipSeen.{sees_of, past_in, tear_in};

    /// A chip of octets 0, all synced, with no plan and all counts 0.
    ///
    /// The calls of `read`, `write_at`, `sync` and `answer` whose numbers, from 0, stand in
    /// `failing` fail without a cut and with nothing written, unless the chip is cut at or before
    /// them.
    pub fn new(alloc: Global, failing: Row<u64>) -> Result<MemChip, NoMemory>
        ensures blank { IfOk result (λ chip. StartsBlank (sees_of chip)) }
        ensures past { IfOk result (λ chip. past_in chip ≡ []) }
        ensures tear { IfOk result (λ chip. tear_in chip ≡ None) }
        ensures failing { IfOk result (λ chip. chip.failing ≡ failing) }
    {
        match Medium::new(alloc) {
            Ok(medium) => Ok(MemChip {
                medium,
                counts: Counts {
                    faults: 0,
                    uses: 0,
                    cuts: 0,
                    breaks: 0,
                    plans: 0,
                    plan: None,
                    cut: None,
                },
                calls: 0,
                octets: 0,
                failing,
                woken: false,
            }),
            Err(_) => Err(NoMemory),
        }
    }

    // Whether the next call is one of those that are to fail.
    fn fails_now(&self) -> bool
        ensures { IsTrue result ↔ Contains self.now.failing self.now.counts.uses }
    {
        self.failing.as_slice().contains(&self.counts.uses)
    }
}

// How many octets of a cut write are kept.
fn kept_octets(tear: Tear, len: usize) -> usize
    ensures kept { result ≡ kept_len tear len }
    ensures within { result ≤ len }
{
    match tear {
        Tear::New => len,
        Tear::Half => len / 2,
        Tear::Old | Tear::Junk => 0,
    }
}

impl Chip for MemChip {
    ghost use Rattle.chip_port.specs.MemChipSeen.{sees_of, past_in, Plays, KeepsPast};
    ghost use Rattle.chip_port.specs.Rules.{HasCause, Takes, IfTold, Prepared, Untouched, ReadOut};
    ghost use Rattle.chip_port.specs.Rules.{Written, Synced, Answered};

    ghost sees = { λ s. seen_in s.medium.past s.counts s.calls s.octets };

    ghost sound = { λ s told. sound_in s.medium.past s.counts s.calls s.octets s.inside };

    /// Beside the room that is asked for it makes room for the record of a cut and of the next
    /// power cycle.
    fn prepare(&mut self, calls: u64, bytes: u64) -> Result<(), NoMemory>
        ensures room { Prepared calls bytes (sees_of self.old) (sees_of self.new) result }
        ensures told { IfTold (sees_of self.old)
            (Untouched (λ t. t) (sees_of self.old) (sees_of self.new)) }
        ensures keeps { KeepsPast self.old self.new }
    {
        if calls > CALL_LIMIT || bytes > OCTET_LIMIT {
            return Err(NoMemory);
        }
        match self.medium.room(2 * calls as usize + 3, bytes as usize) {
            Ok(()) => {
                self.calls = self.calls.max(calls);
                self.octets = self.octets.max(bytes);
                Ok(())
            }
            Err(_) => Err(NoMemory),
        }
    }

    fn read(&mut self, at: u64, out: &mut [u8]) -> Result<(), Failed>
        requires { at + length out.old ≤ CHIP_SIZE }
        ensures cause { HasCause (sees_of self.old) (sees_of self.new) result }
        ensures spare { Takes 0 0 (sees_of self.old) (sees_of self.new) }
        ensures told { IfTold (sees_of self.old)
            (ReadOut at out.old out.new (sees_of self.old) (sees_of self.new) result) }
        ensures plays { Plays (past_in self.old)
            (λ tear. past_in self.old) self.old self.new result }
    {
        let breaks = self.fails_now();
        match self.counts.turn(breaks) {
            Turn::Pass => {
                self.medium.read(at as usize, out);
                Ok(())
            }
            Turn::Fail => Err(Failed),
            Turn::Cut(tear) => {
                self.medium.cut(tear);
                self.woken = false;
                Err(Failed)
            }
        }
    }

    fn write_at(&mut self, at: u64, bytes: &[u8]) -> Result<(), Failed>
        requires range { at + length bytes.now ≤ CHIP_SIZE }
        requires calls { 1 ≤ (sees_of self.old).spare.calls }
        requires octets { length bytes.now ≤ (sees_of self.old).spare.octets }
        ensures cause { HasCause (sees_of self.old) (sees_of self.new) result }
        ensures spare { Takes 1 (length bytes.now) (sees_of self.old) (sees_of self.new) }
        ensures told { IfTold (sees_of self.old)
            (Written at bytes.now (sees_of self.old) (sees_of self.new) result) }
        ensures plays { Plays (wrote at (length bytes.now) bytes.now ∷ past_in self.old)
            (λ tear. let n = length bytes.now in
            wrote at n (take (kept_len tear n) bytes.now) ∷ past_in self.old)
            self.old self.new result }
    {
        let breaks = self.fails_now();
        let len = bytes.len() as u64;
        self.calls -= 1;
        self.octets -= len;
        match self.counts.turn(breaks) {
            Turn::Pass => {
                self.medium.write(at, len, bytes);
                self.woken = false;
                Ok(())
            }
            Turn::Fail => Err(Failed), // Nothing is written.
            Turn::Cut(tear) => {
                let kept = kept_octets(tear, bytes.len());
                self.medium.write(at, len, &bytes[..kept]);
                self.medium.cut(tear);
                self.woken = false;
                Err(Failed)
            }
        }
    }

    fn sync(&mut self) -> Result<(), Failed>
        requires { 1 ≤ (sees_of self.old).spare.calls }
        ensures cause { HasCause (sees_of self.old) (sees_of self.new) result }
        ensures spare { Takes 1 0 (sees_of self.old) (sees_of self.new) }
        ensures told { IfTold (sees_of self.old)
            (Synced (sees_of self.old) (sees_of self.new) result) }
        ensures plays { Plays (did_sync ∷ past_in self.old)
            (λ tear. past_in self.old) self.old self.new result }
    {
        let breaks = self.fails_now();
        self.calls -= 1;
        match self.counts.turn(breaks) {
            Turn::Pass => {
                self.medium.sync();
                self.woken = false;
                Ok(())
            }
            Turn::Fail => Err(Failed),
            Turn::Cut(tear) => {
                self.medium.cut(tear);
                self.woken = false;
                Err(Failed)
            }
        }
    }

    fn answer(&mut self) -> Result<(), Failed>
        requires { 1 ≤ (sees_of self.old).spare.calls }
        ensures cause { HasCause (sees_of self.old) (sees_of self.new) result }
        ensures spare { Takes 1 0 (sees_of self.old) (sees_of self.new) }
        ensures told { IfTold (sees_of self.old)
            (Answered (sees_of self.old) (sees_of self.new) result) }
        ensures plays { Plays
            (did_answer self.old.counts.cuts self.old.counts.breaks ∷ past_in self.old)
            (λ tear. past_in self.old) self.old self.new result }
    {
        let breaks = self.fails_now();
        self.calls -= 1;
        match self.counts.turn(breaks) {
            Turn::Pass => {
                self.medium.answer(self.counts.cuts, self.counts.breaks);
                self.woken = false;
                Ok(())
            }
            Turn::Fail => Err(Failed),
            Turn::Cut(tear) => {
                self.medium.cut(tear);
                self.woken = false;
                Err(Failed)
            }
        }
    }
}

impl Bench for MemChip {
    ghost use Rattle.chip_port.specs.Seen.{plan_of, no_plan};
    ghost use Rattle.chip_port.specs.MemChipSeen.{sees_of, past_in, tear_in, KeepsPast};
    ghost use Rattle.chip_port.specs.Rules.{HasCause, Takes, IfTold, Untouched, Quiet, Woken};
    ghost use Rattle.std.specs.Prelude.{OnOk, OnErr, None};

    /// It makes room for the record of the cut and of the next power cycle.
    fn plan_cut(&mut self, calls: u32, tear: Tear) -> Result<(), NoMemory>
        ensures quiet { Quiet (sees_of self.old) (sees_of self.new) }
        ensures done { OnOk result (IfTold (sees_of self.old)
            (Untouched (plan_of calls tear) (sees_of self.old) (sees_of self.new))) }
        ensures refused { OnErr result
            (IfTold (sees_of self.old) (Untouched (λ t. t) (sees_of self.old) (sees_of self.new))) }
        ensures keeps { KeepsPast self.old self.new }
    {
        if self.medium.room(2 * self.calls as usize + 3, 0).is_err() {
            return Err(NoMemory);
        }
        self.counts.plan = Some(Plan { calls, tear });
        self.counts.plans = self.counts.plans.saturating_add(1);
        Ok(())
    }

    fn drop_plan(&mut self)
        ensures quiet { Quiet (sees_of self.old) (sees_of self.new) }
        ensures told { IfTold (sees_of self.old)
            (Untouched no_plan (sees_of self.old) (sees_of self.new)) }
        ensures keeps { KeepsPast self.old self.new }
    {
        self.counts.plan = None;
    }

    /// It takes no memory and always succeeds. After a cut it gives what the tear says, and else
    /// all that was written.
    fn power_on(&mut self) -> Result<(), Failed>
        ensures cause { HasCause (sees_of self.old) (sees_of self.new) result }
        ensures spare { Takes 0 0 (sees_of self.old) (sees_of self.new) }
        ensures told { IfTold (sees_of self.old)
            (Woken (sees_of self.old) (sees_of self.new) result) }
        ensures gives { (sees_of self.new).reads ≡ given (past_in self.old) (tear_in self.old) }
        ensures past { past_in self.new ≡ woken_past (past_in self.old) (tear_in self.old) }
        ensures tear { tear_in self.new ≡ None }
        ensures failing { self.new.failing ≡ self.old.failing }
        ensures works { IsOk result }
    {
        if !self.woken {
            let survives = match self.counts.cut {
                Some(Tear::Old) => Survives::Synced,
                Some(Tear::Junk) => Survives::Junk,
                Some(Tear::New) | Some(Tear::Half) | None => Survives::Content,
            };
            self.medium.power_cycle(survives);
            self.woken = true;
        }
        self.counts.cut = None;
        Ok(())
    }
}
