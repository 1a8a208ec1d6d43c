//! A manager or an assistant alone, over the frames of a source.

ghost use Rattle.std.specs.Prelude.{◌≡◌, ◌≢◌, ◌⊎◌, ◌++◌, ℕ, List, [], Some};
ghost use Rattle.iot_bytes.specs.Causes.{Rose};
ghost use Rattle.esipa_codec.specs.Eims.{new_eim};
ghost use Rattle.run_loop.specs.Edges.{edge, HasCauses};
ghost use Rattle.run_loop.specs.Frames.{framed};
ghost use Rattle.lone_parts.specs.Eims.{eim_rule};
ghost use Rattle.lone_parts.specs.Ipas.{ipa_rule};
ghost use Rattle.lone_parts.specs.Runs.{AreHandled, Ran, StopsWith};

use crate::eim_part::EimPart;
use crate::ipa_part::IpaPart;
use iot_bytes::{Sink, Source};
use run_loop::serve;
use sgp_values::{Eid, EimId};
use std::alloc::Global;

/// Has a new manager for the card with this EID answer the frames of a source, and gives the exit
/// status.
pub fn run_eim<S: Source, K: Sink>(
    alloc: Global,
    id: EimId,
    eid: Eid,
    source: &mut S,
    sink: &mut K,
) -> u8
    // What was read and sent, by the status.
    ensures ran { Ran eim_rule (new_eim id eid) result
        (edge (S.rest source.old) (S.faults source.old) (K.sent sink.old) (K.faults sink.old))
        (edge (S.rest source.new) (S.faults source.new) (K.sent sink.new) (K.faults sink.new)) }
    // Status 1 is that of other words.
    ensures own { result ≢ 1 }
    // Statuses 2 and 3 come only where a call on the source or on the sink failed.
    ensures causes { HasCauses
        (edge (S.rest source.old) (S.faults source.old) (K.sent sink.old) (K.faults sink.old))
        (edge (S.rest source.new) (S.faults source.new) (K.sent sink.new) (K.faults sink.new))
        (result ≡ 2) (result ≡ 3) }
    // Frames within the limits and in the grammar are answered to their end where no call on the
    // source or the sink fails and memory suffices.
    ensures complete { (input : List ℕ) (fs : List (List ℕ))
        → S.rest source.old ≡ Some input → input ≡ framed fs
        → AreHandled eim_rule (new_eim id eid) fs
        → ¬ Rose (S.faults source.old) (S.faults source.new)
        → ¬ Rose (K.faults sink.old) (K.faults sink.new)
        → (result ≡ 0) ⊎ (result ≡ 6) }
    // An input that stops behind such frames ends the run with the status of its reason: torn, past
    // a limit, or a frame outside the grammar.
    ensures stops { (input : List ℕ) (fs : List (List ℕ)) (tail : List ℕ)
        → S.rest source.old ≡ Some input → input ≡ framed fs ++ tail
        → AreHandled eim_rule (new_eim id eid) fs
        → ¬ Rose (S.faults source.old) (S.faults source.new)
        → ¬ Rose (K.faults sink.old) (K.faults sink.new)
        → StopsWith eim_rule (new_eim id eid) fs tail result }
{
    let mut part = EimPart::new(alloc, id, eid);
    serve(alloc, &mut part, &mut (), source, sink).status()
}

/// Has a new assistant, which polls for the card with this EID, answer the frames of a source, and
/// gives the exit status.
pub fn run_ipa<S: Source, K: Sink>(alloc: Global, eid: Eid, source: &mut S, sink: &mut K) -> u8
    // What was read and sent, by the status.
    ensures ran { Ran (ipa_rule eid) [] result
        (edge (S.rest source.old) (S.faults source.old) (K.sent sink.old) (K.faults sink.old))
        (edge (S.rest source.new) (S.faults source.new) (K.sent sink.new) (K.faults sink.new)) }
    // Status 1 is that of other words.
    ensures own { result ≢ 1 }
    // Statuses 2 and 3 come only where a call on the source or on the sink failed.
    ensures causes { HasCauses
        (edge (S.rest source.old) (S.faults source.old) (K.sent sink.old) (K.faults sink.old))
        (edge (S.rest source.new) (S.faults source.new) (K.sent sink.new) (K.faults sink.new))
        (result ≡ 2) (result ≡ 3) }
    // Frames within the limits and in the grammar are answered to their end where no call on the
    // source or the sink fails and memory suffices.
    ensures complete { (input : List ℕ) (fs : List (List ℕ))
        → S.rest source.old ≡ Some input → input ≡ framed fs → AreHandled (ipa_rule eid) [] fs
        → ¬ Rose (S.faults source.old) (S.faults source.new)
        → ¬ Rose (K.faults sink.old) (K.faults sink.new)
        → (result ≡ 0) ⊎ (result ≡ 6) }
    // An input that stops behind such frames ends the run with the status of its reason: torn, past
    // a limit, or a frame outside the grammar.
    ensures stops { (input : List ℕ) (fs : List (List ℕ)) (tail : List ℕ)
        → S.rest source.old ≡ Some input → input ≡ framed fs ++ tail
        → AreHandled (ipa_rule eid) [] fs
        → ¬ Rose (S.faults source.old) (S.faults source.new)
        → ¬ Rose (K.faults sink.old) (K.faults sink.new)
        → StopsWith (ipa_rule eid) [] fs tail result }
{
    let mut part = IpaPart::new(eid);
    serve(alloc, &mut part, &mut (), source, sink).status()
}
