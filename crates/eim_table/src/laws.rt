ghost use Rattle.std.specs.Prelude.{List};
ghost use Rattle.small_card.specs.Cards.{EimList};
ghost use Rattle.small_card.specs.Valid.{AreEims};
ghost use Rattle.small_card.specs.declared.types.Eco.{Eco};
ghost use Rattle.small_card.specs.Lists.{Every};
ghost use Rattle.eim_table.specs.Entries.{IsEims, IsInRange};
ghost use Rattle.eim_table.specs.Numbers.{AreNew, after_ops, given_out};

/// Over any list of operations each association that is given out is new: the next one at the start
/// or above it, and above all that were given out before it. The next association never falls.
pub fn associations_are_new()
    ensures new { (ms : EimList) (ops : List Eco)
        → AreNew ms.next (after_ops ms ops).next (given_out ms ops) }
{}

/// The eIMs of a valid card are those that stand in a table and whose fields are in their ranges.
pub fn eims_stand()
    ensures stand { (ms : EimList) → AreEims ms → IsEims ms }
    ensures ranges { (ms : EimList) → AreEims ms → Every IsInRange ms.entries }
    ensures valid { (ms : EimList) → IsEims ms → Every IsInRange ms.entries → AreEims ms }
{}
