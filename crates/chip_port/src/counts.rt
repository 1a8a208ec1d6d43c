//! What a chip in memory counts, and how its next call goes.

ghost use Rattle.std.specs.Prelude.{◌≡◌, ◌+◌, ◌≤◌, true, false, if◌then◌else◌, is_some};
ghost use Rattle.iot_bytes.specs.Causes.{Rose};
ghost use Rattle.chip_port.specs.Seen.{called, Passes};
ghost use Rattle.chip_port.specs.Counts.{tally_of, passed, cut_now, cut_by, torn_by};

use crate::chip::Tear;

/// A planned cut.
#[derive(Clone, Copy, Debug)]
pub struct Plan {
    /// The calls that still pass.
    pub calls: u32,
    /// What the cut leaves.
    pub tear: Tear,
}

/// The counts of a chip, its plan, and the tear of a cut since the last power cycle.
#[derive(Drop)]
pub struct Counts {
    /// Calls that failed.
    pub faults: u64,
    /// Calls of `read`, `write_at`, `sync` and `answer`.
    pub uses: u64,
    /// Planned cuts that came.
    pub cuts: u64,
    /// Failures that are neither the cut nor on a cut chip.
    pub breaks: u64,
    /// Plans that were made.
    pub plans: u64,
    /// The plan, if there is one.
    pub plan: Option<Plan>,
    /// The tear of the last cut, until a power cycle.
    pub cut: Option<Tear>,
}

/// How a call goes.
#[derive(Clone, Copy, Debug)]
pub enum Turn {
    /// It does its work.
    Pass,
    /// It fails and does nothing.
    Fail,
    /// It is the planned cut.
    Cut(Tear),
}

impl Counts {
    /// Counts a call and says how it goes. `breaks` tells that it is to fail unless a cut comes
    /// first.
    pub fn turn(&mut self, breaks: bool) -> Turn
        ensures tally { tally_of self.new ≡ called (passed result) (tally_of self.old) }
        ensures passes { passed result ≡ true → Passes (tally_of self.old) }
        ensures fails { Passes (tally_of self.old) → passed result
            ≡ (if breaks then false else true) }
        ensures monotone { self.old.faults ≤ self.new.faults }
        ensures rose { passed result ≡ false → Rose self.old.faults self.new.faults }
        ensures calm { passed result ≡ true → self.new.faults ≡ self.old.faults }
        ensures cuts { cut_now (tally_of self.old) ≡ cut_by result }
        ensures torn { self.new.cut ≡ torn_by (cut_now (tally_of self.old)) self.old.cut }
        ensures room { (if is_some self.new.plan then 2 else 0) +
            (if is_some (cut_by result) then 2 else 0) ≤ (if is_some self.old.plan then 2 else 0) }
    {
        self.uses = self.uses.saturating_add(1);
        if self.cut.is_some() {
            self.faults = self.faults.saturating_add(1);
            return Turn::Fail;
        }
        if let Some(plan) = self.plan {
            if plan.calls == 0 {
                self.plan = None;
                self.cut = Some(plan.tear);
                self.cuts = self.cuts.saturating_add(1);
                self.faults = self.faults.saturating_add(1);
                return Turn::Cut(plan.tear);
            }
            self.plan = Some(Plan {
                calls: plan.calls - 1,
                tear: plan.tear,
            });
        }
        if breaks {
            self.breaks = self.breaks.saturating_add(1);
            self.faults = self.faults.saturating_add(1);
            return Turn::Fail;
        }
        Turn::Pass
    }
}
