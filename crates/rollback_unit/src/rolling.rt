ghost use Rattle.std.specs.Prelude.{◌≡◌, true, None, Some};
ghost use Rattle.std.specs.Option.{option_copied};
ghost use Rattle.small_card.specs.Cards.{FullCard};
ghost use Rattle.small_card.specs.Histories.{History, full_of, former_of};
ghost use Rattle.small_card.specs.Laws.{IsAlone};
ghost use Rattle.small_card.specs.Profiles.{has_profile, enabled_alone};
ghost use Rattle.small_card.specs.Steps.{step_full};
ghost use Rattle.small_card.specs.Units.{rollback, marked};
ghost use Rattle.rollback_unit.specs.Rolls.{MayRoll, IsMarkedLast};

use profile_table::Table;
use result_store::Store;
use sgp_values::Iccid;
use small_card::Armed;

/// What a rollback leaves: the profiles, the results, and the new number of the marked result.
#[derive(Debug, Drop)]
pub struct Rolled {
    pub table: Table,
    pub store: Store,
    pub seq: u32,
}

/// The rollback that the card permits: what is armed on it, if anything is.
#[tactic(auto, unfolding(small_card::specs::Histories::full_of))]
pub fn permitted(armed: &Option<Armed>) -> Option<&Armed>
    ensures armed { option_copied result ≡ armed.now }
    ensures look_back { (h : History) → (full_of h).armed ≡ armed.now
        → option_copied result ≡ former_of h }
{
    armed.as_ref()
}

// Enables this profile alone. Where it is enabled it is alone already, and the table stays.
fn enable_alone(table: &mut Table, former: &Iccid)
    requires { has_profile former.now table.old ≡ true }
    ensures profiles { table.new ≡ enabled_alone former.now table.old }
    ensures alone { IsAlone former.now table.new }
{
    table.in_range();
    let _ = table.enable(former);
}

/// Rolls back: the former profile alone is enabled, whatever is enabled now, and the result of the
/// package that armed the rollback goes last, marked and under the next number. What was armed is
/// used up. It takes no memory.
#[tactic(auto, using(crate::proofs::Marking::mark_goes_last), unfolding(small_card::specs::Steps::step_full, small_card::specs::Steps::armed_after, small_card::specs::Units::after_unit, small_card::specs::Units::rolled_back))]
pub fn roll(mut table: Table, mut store: Store, armed: Armed) -> Rolled
    requires { MayRoll table store armed }

    ensures profiles { result.table ≡ enabled_alone armed.former table }
    ensures results { result.store ≡ marked armed.seq store }
    ensures number { result.seq ≡ store.next }
    ensures alone { IsAlone armed.former result.table }
    ensures last { IsMarkedLast armed.seq result.seq store.pending result.store.pending }
    ensures unit { (f : FullCard) → f.card.profiles ≡ table → f.card.results ≡ store
        → f.armed ≡ Some armed
        → step_full f rollback
        ≡ record {
          card = record
              (f.card) { profiles = result.table; results = result.store };
          armed = None;
        } }
{
    store.in_range();
    enable_alone(&mut table, &armed.former);
    let seq = store.mark_rolled(armed.seq);
    Rolled { table, store, seq }
}
