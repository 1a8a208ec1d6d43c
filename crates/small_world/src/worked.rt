//! Worked examples: runs and their texts, as functions that do nothing. Each begins behind the
//! set-up of one device and one eIM.
ghost use Rattle.std.specs.Prelude.{◌≡◌, ◌∷◌, ◌++◌, [], true, false, codes};
ghost use Rattle.chip_port.specs.declared.chip.Tear.TheVariants as tear;
ghost use Rattle.iot_schedule.specs.declared.types.Line.TheVariants as line;
ghost use Rattle.iot_schedule.specs.declared.types.Pick.TheVariants.{Last};
ghost use Rattle.small_card.specs.Examples.{e1, e2, e9, switch, show};
ghost use Rattle.small_world.specs.Examples.{dark_device, home_device, two_modems};
ghost use Rattle.small_world.specs.Runs.{kept_on};
ghost use Rattle.small_world.specs.Examples.{lost_on, taking_boot};
ghost use Rattle.small_world.specs.Examples.{set_up, ordered_down, enable_home, goes_up, goes_down};
ghost use Rattle.small_world.specs.Examples.{played};
ghost use Rattle.small_world.specs.Examples.{texts_of, MayBe, torn_load, torn_texts};
ghost use Rattle.small_world.specs.Examples.{listing_octets};
ghost use Rattle.small_world.specs.Worlds.{start_world};

/// A device is set up with its first eIM.
pub fn set_up_worked()
    ensures texts { played (start_world dark_device []) set_up
        ≡ codes "eim ok" ∷ codes "associated 1" ∷ codes "bound" ∷ [] }
{}

/// A boot under a plan of three calls is lost, since an opening makes more; the next one isn't,
/// since the plan is dropped with it. A dark card has nothing to show, and is not asked where a
/// message brings nothing to do.
pub fn lost_boot_worked()
    ensures texts { texts_of dark_device []
        (kept_on (line.Cut 3 tear.Old) ∷ lost_on line.Boot ∷ kept_on line.Show ∷ kept_on line.Boot
        ∷ kept_on line.Show ∷ [])
        ≡ codes "planned" ∷ codes "lost" ∷ codes "off" ∷ codes "booted"
        ∷ codes "profiles -98440000000000000001 -98440000000000000002 -98440000000000000003 eims e1/1/0 pending" ∷ [] }
    ensures rest { texts_of dark_device []
        (kept_on (line.Poll e1) ∷ goes_up 0 ∷ lost_on line.Boot ∷ goes_down 0 ∷ goes_down 7 ∷ [])
        ≡ codes "sent 0" ∷ codes "reply 0 nothing" ∷ codes "lost" ∷ codes "rest" ∷ codes "no such"
        ∷ [] }
{}

/// A load that is torn before its first call: nothing is loaded, and the same message loads the
/// package after a boot. Where the boot took the package, the message is a replay, and the refusal
/// is sent. The plan goes with the line that was lost, and not with those of a dark card. The
/// refusal of a package that came without a message is sent to nobody.
pub fn torn_load_worked()
    ensures may { MayBe dark_device [] (torn_load ++ kept_on line.Boot ∷ goes_down 0 ∷ []) }
    ensures texts { texts_of dark_device [] (torn_load ++ kept_on line.Boot ∷ goes_down 0 ∷ [])
        ≡ torn_texts ++ codes "booted" ∷ codes "loaded 1 enable=0" ∷ [] }
    ensures may_take { MayBe dark_device [] (torn_load ++ taking_boot ∷ goes_down 0 ∷ []) }
    ensures taken { texts_of dark_device [] (torn_load ++ taking_boot ∷ goes_down 0 ∷ [])
        ≡ torn_texts ++ codes "booted" ∷ codes "refused 6 kept 1 received 1 sent 1" ∷ [] }
    ensures unsent { texts_of dark_device [] (torn_load ++ kept_on line.Boot
        ∷ kept_on (line.Load true []) ∷ kept_on (line.Poll e1) ∷ [])
        ≡ torn_texts ++ codes "booted" ∷ codes "refused 1" ∷ codes "sent 1" ∷ [] }
{}

/// A plan that is far away is dropped with the next line that steps the card.
pub fn far_plan_worked()
    ensures may { MayBe dark_device [] (ordered_down enable_home
        ++ kept_on (line.Cut 10000 tear.New) ∷ goes_down 0 ∷ goes_down 0 ∷ []) }
    ensures texts { texts_of dark_device []
        (ordered_down enable_home ++ kept_on (line.Cut 10000 tear.New) ∷ goes_down 0 ∷ goes_down 0
        ∷ [])
        ≡ codes "ordered 1" ∷ codes "sent 0" ∷ codes "reply 0 package" ∷ codes "planned"
        ∷ codes "loaded 1 enable=0"
        ∷ codes "refused 6 kept 1 received 1 sent 1" ∷ [] }
{}

/// A result is sent, rolled back, and acknowledged late by the number of its older form: nothing
/// goes. Its newest form is sent, recorded and removed, and a late copy of the older one changes no
/// record.
pub fn late_acknowledgement_worked()
    ensures texts { texts_of home_device []
        (ordered_down switch ++ goes_down 0 ∷ kept_on line.Push ∷ kept_on line.Rollback
        ∷ kept_on line.Rollback ∷ goes_up 1
        ∷ goes_down 1 ∷ kept_on line.Push ∷ goes_up 2 ∷ goes_up 1 ∷ kept_on (line.Kept e1) ∷ goes_down 2 ∷ kept_on line.Show ∷ [])
        ≡ codes "ordered 1" ∷ codes "sent 0" ∷ codes "reply 0 package" ∷ codes "loaded 1 enable=0"
        ∷ codes "sent 1" ∷ codes "rolled 2"
        ∷ codes "not permitted" ∷ codes "reply 1 ack 1" ∷ codes "absent 1" ∷ codes "sent 2" ∷ codes "reply 2 ack 2"
        ∷ codes "reply 3 ack 1" ∷ codes "kept 1/1/2r" ∷ codes "removed 2"
        ∷ codes "profiles +98440000000000000001 -98440000000000000002 -98440000000000000003 eims e1/1/1 pending" ∷ [] }
{}

/// Modems are told once a change, and not by a line that leaves the card dark.
pub fn modems_worked()
    ensures texts { texts_of home_device two_modems
        (ordered_down switch ++ goes_down 0 ∷ kept_on (line.Cut 0 tear.Old) ∷ lost_on line.Rollback
        ∷ kept_on line.Modems
        ∷ kept_on line.Boot ∷ kept_on line.Rollback ∷ kept_on line.Modems ∷ [])
        ≡ codes "ordered 1" ∷ codes "sent 0" ∷ codes "reply 0 package" ∷ codes "loaded 1 enable=0"
        ∷ codes "planned" ∷ codes "lost"
        ∷ codes "modems 98440000000000000002:2 98440000000000000002:2" ∷ codes "booted" ∷ codes "rolled 2"
        ∷ codes "modems 98440000000000000001:3 98440000000000000001:3" ∷ [] }
{}

/// A result goes to the eIM that its message names, and to no other; it is sent as often as it is
/// pending, and stays until it was acknowledged.
pub fn two_eims_worked()
    ensures texts { texts_of dark_device []
        (kept_on (line.Eim e2) ∷ ordered_down show ++ goes_down 0 ∷ kept_on line.Push ∷ goes_up 1
        ∷ kept_on (line.Kept e2)
        ∷ kept_on (line.Kept e1) ∷ kept_on line.Push ∷ goes_down 1 ∷ kept_on line.Push ∷ [])
        ≡ codes "eim ok" ∷ codes "ordered 1" ∷ codes "sent 0" ∷ codes "reply 0 package"
        ∷ codes "loaded 1 profiles=3" ∷ codes "sent 1"
        ∷ codes "reply 1 ack 1" ∷ codes "kept" ∷ codes "kept 1/1/1" ∷ codes "sent 2" ∷ codes "removed 1" ∷ codes "nothing pending" ∷ [] }
{}

/// The third failed probe in a row asks for a rollback, and probes count anew behind a package that
/// was taken, also by a line of its own. On a dark card the third one counts anew too.
pub fn probes_worked()
    ensures texts { texts_of dark_device []
        (kept_on (line.Probe false) ∷ kept_on (line.Load true (listing_octets 1))
        ∷ kept_on (line.Probe false) ∷ kept_on (line.Probe false)
        ∷ kept_on (line.Probe false) ∷ kept_on (line.Probe false) ∷ kept_on (line.Probe true) ∷ [])
        ≡ codes "strikes 1" ∷ codes "loaded 1 profiles=3" ∷ codes "strikes 1" ∷ codes "strikes 2"
        ∷ codes "not permitted"
        ∷ codes "strikes 1" ∷ codes "strikes 0" ∷ [] }
    ensures dark { texts_of dark_device []
        (kept_on (line.Probe false) ∷ kept_on (line.Probe false) ∷ lost_on line.Boot
        ∷ kept_on (line.Probe false) ∷ kept_on (line.Probe false) ∷ [])
        ≡ codes "strikes 1" ∷ codes "strikes 2" ∷ codes "lost" ∷ codes "off" ∷ codes "strikes 1"
        ∷ [] }
{}

/// Orders are counted, and one that is given up is never sent; a counter that was passed is a
/// replay.
pub fn skipped_order_worked()
    ensures texts { texts_of dark_device []
        (kept_on (line.Order e1 show) ∷ kept_on (line.Order e1 enable_home) ∷ kept_on (line.Skip e1)
        ∷ kept_on (line.Poll e1) ∷ goes_up 0
        ∷ goes_down 0 ∷ kept_on (line.Load true (listing_octets 1)) ∷ kept_on (line.Bind e1 1 1) ∷ [])
        ≡ codes "ordered 1" ∷ codes "ordered 2" ∷ codes "skipped 1" ∷ codes "sent 0"
        ∷ codes "reply 0 package" ∷ codes "loaded 1 enable=0"
        ∷ codes "refused 6 kept 2 received 1" ∷ codes "bind low 2" ∷ [] }
{}

/// Lines that name what isn't there.
pub fn nobody_there_worked()
    ensures texts { played (start_world dark_device [])
        (kept_on (line.Up Last) ∷ kept_on (line.Down Last true) ∷ kept_on (line.Poll e9)
        ∷ kept_on (line.Detach 7) ∷ kept_on line.Push
        ∷ kept_on (line.Eim e1) ∷ kept_on (line.Eim e1) ∷ kept_on (line.Order e1 show) ∷ [])
        ≡ codes "no such" ∷ codes "no such" ∷ codes "no such" ∷ codes "no such"
        ∷ codes "nothing pending" ∷ codes "eim ok"
        ∷ codes "eim exists" ∷ codes "unbound" ∷ [] }
{}
