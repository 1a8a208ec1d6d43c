//! Worked examples of eIMs and assistants, as functions that do nothing.
ghost use Rattle.std.specs.Prelude.{◌≡◌, ◌∷◌, [], true, false, Some, None, map};
ghost use Rattle.small_card.specs.Examples.{e1};
ghost use Rattle.small_card.specs.declared.types.Answer.TheVariants as answer;
ghost use Rattle.esipa_codec.specs.Assistant.{act_of, asked, strikes, message as heard_message};
ghost use Rattle.esipa_codec.specs.Assistant.{probe, answered, restart};
ghost use Rattle.esipa_codec.specs.Eims.{bind_end, message_end, order_end, skip_end};
ghost use Rattle.esipa_codec.specs.Events.{bind, order, skip};
ghost use Rattle.esipa_codec.specs.Examples.{copy, eim_after, got, listing};
ghost use Rattle.esipa_codec.specs.Records.{records_of};
ghost use Rattle.esipa_codec.specs.declared.ends.Act.TheVariants as act;
ghost use Rattle.esipa_codec.specs.declared.ends.BindEnd.TheVariants as bound;
ghost use Rattle.esipa_codec.specs.declared.ends.MessageEnd.TheVariants as message;
ghost use Rattle.esipa_codec.specs.declared.ends.OrderEnd.TheVariants as ordered;
ghost use Rattle.esipa_codec.specs.declared.messages.ToEim.TheVariants as to_eim;
ghost use Rattle.esipa_codec.specs.declared.messages.ToIpa.TheVariants as to_ipa;

/// A rolled back result that comes before its earlier copy: both are acknowledged by their own
/// numbers, and the record is the one with the greater number.
pub fn records_worked()
    ensures rolled { message_end (to_eim.Result (copy 2 1 true))
        (eim_after (order listing ∷ bind 1 0 ∷ []))
        ≡ message.Reply (to_ipa.Ack 2) }
    ensures late { message_end (to_eim.Result (copy 1 1 false))
        (eim_after (got (copy 2 1 true) ∷ order listing ∷ bind 1 0 ∷ []))
        ≡ message.Reply (to_ipa.Ack 1) }
    ensures record { records_of
        (eim_after (got (copy 1 1 false) ∷ got (copy 2 1 true) ∷ order listing ∷ bind 1 0
        ∷ [])).received
        ≡ copy 2 1 true ∷ [] }
    ensures equal { records_of
        (eim_after (got (copy 2 1 false) ∷ got (copy 2 1 true) ∷ [])).received
        ≡ copy 2 1 true ∷ [] }
    ensures in_order { records_of
        (eim_after (got (copy 3 1 true) ∷ got (copy 2 2 false) ∷ got (copy 1 1 false)
        ∷ [])).received
        ≡ copy 3 1 true ∷ copy 2 2 false ∷ [] }
{}

/// Counters go on behind the last one of the association that the eIM is bound to.
pub fn counters_worked()
    ensures unbound { order_end (eim_after []) ≡ ordered.Unbound }
    ensures first { order_end (eim_after (bind 1 0 ∷ [])) ≡ ordered.Ordered 1 }
    ensures second { order_end (eim_after (order listing ∷ bind 1 0 ∷ [])) ≡ ordered.Ordered 2 }
    ensures last { order_end (eim_after (bind 1 9223372036854775806 ∷ []))
        ≡ ordered.Ordered 9223372036854775807 }
    ensures spent { order_end (eim_after (order listing ∷ bind 1 9223372036854775806 ∷ []))
        ≡ ordered.CounterSpent }
    ensures skips { skip_end (eim_after (order listing ∷ order listing ∷ bind 1 0 ∷ [])) ≡ Some 1 }
    ensures skips_on { skip_end (eim_after (skip ∷ order listing ∷ order listing ∷ bind 1 0 ∷ []))
        ≡ Some 2 }
    ensures none_waits { skip_end (eim_after (skip ∷ order listing ∷ bind 1 0 ∷ [])) ≡ None }
    ensures low { bind_end 1 1 (eim_after (skip ∷ order listing ∷ order listing ∷ bind 1 0 ∷ []))
        ≡ bound.Low 2 }
    ensures other { bind_end 2 0 (eim_after (order listing ∷ bind 1 0 ∷ [])) ≡ bound.Bound }
{}

/// Two failed probes are two strikes, and the third asks for a rollback; a package that was taken
/// begins anew.
pub fn strikes_worked()
    ensures two { strikes (probe false ∷ probe false ∷ []) ≡ 2 }
    ensures third { act_of (probe false ∷ probe false ∷ []) (probe false) ≡ act.Rollback }
    ensures anew { strikes (probe false ∷ probe false ∷ probe false ∷ []) ≡ 0 }
    ensures passed { strikes (probe false ∷ probe true ∷ probe false ∷ []) ≡ 1 }
    ensures loaded { strikes (probe false ∷ answered (answer.Loaded (copy 1 1 false)) ∷ probe false
        ∷ []) ≡ 1 }
    ensures restarted { strikes (restart ∷ probe false ∷ []) ≡ 0 }
    ensures asks { asked (probe false ∷ heard_message e1 (to_ipa.Package []) true ∷ []) ≡ Some e1 }
    ensures answers { asked (answered (answer.Loaded (copy 1 1 false))
        ∷ heard_message e1 (to_ipa.Package []) true ∷ []) ≡ None }
{}
