ghost use Rattle.std.specs.Prelude.{◌≡◌, List, [], ◌∷◌, map, replicate, true, false, None, Some};
ghost use Rattle.small_card.specs.Checks.{refused, value_refusal, has_room};
ghost use Rattle.small_card.specs.Examples.{home, road, spare, absent, profile, home_on, road_on};
ghost use Rattle.small_card.specs.Examples.{all_off, table};
ghost use Rattle.small_card.specs.Examples.{card, card_eid, start_card, eims, results, nobody};
ghost use Rattle.small_card.specs.Examples.{first, after};
ghost use Rattle.small_card.specs.Examples.{e1, e2, e9, entry, entries, joined, adds};
ghost use Rattle.small_card.specs.Examples.{order, switch, swap, discard, switch_delete, show};
ghost use Rattle.small_card.specs.Examples.{leave, listing, loads, left, kept_result};
ghost use Rattle.small_card.specs.Histories.{card_of, former_of, kept};
ghost use Rattle.small_card.specs.Legal.{IsLegal};
ghost use Rattle.small_card.specs.EimOperations.{do_eco};
ghost use Rattle.small_card.specs.Packages.{execute, is_done};
ghost use Rattle.small_card.specs.Profiles.{do_psmo};
ghost use Rattle.small_card.specs.Units.{initial, load, rollback, remove, is_pending};
ghost use Rattle.small_card.specs.declared.types.Body.TheVariants.{Psmos, Ecos};
ghost use Rattle.small_card.specs.declared.types.Eco.TheVariants as eco;
ghost use Rattle.small_card.specs.declared.types.Item.TheVariants as item;
ghost use Rattle.small_card.specs.declared.types.Psmo.TheVariants as psmo;

/// Each row of the table of operations on profiles.
pub fn profile_operations_worked()
    ensures enable_absent { do_psmo None [] home_on (psmo.Enable absent true)
        ≡ (home_on, item.Enable 1) }
    ensures enable_enabled { do_psmo None [] home_on (psmo.Enable home true)
        ≡ (home_on, item.Enable 2) }
    ensures enable_done { do_psmo None [] home_on (psmo.Enable road false)
        ≡ (road_on, item.Enable 0) }
    ensures disable_absent { do_psmo None [] home_on (psmo.Disable absent)
        ≡ (home_on, item.Disable 1) }
    ensures disable_disabled { do_psmo None [] home_on (psmo.Disable road)
        ≡ (home_on, item.Disable 2) }
    ensures disable_done { do_psmo None [] home_on (psmo.Disable home) ≡ (all_off, item.Disable 0) }
    ensures delete_absent { do_psmo None [] home_on (psmo.Delete absent)
        ≡ (home_on, item.Delete 1) }
    ensures delete_enabled { do_psmo None [] home_on (psmo.Delete home) ≡ (home_on, item.Delete 2) }
    ensures delete_armed { do_psmo (Some home) ((psmo.Enable road true, item.Enable 0) ∷ []) road_on
        (psmo.Delete home)
        ≡ (road_on, item.Delete 3) }
    ensures delete_unarmed { do_psmo (Some home)
        ((psmo.Enable road false, item.Enable 0) ∷ []) road_on (psmo.Delete home)
        ≡ (profile road true ∷ profile spare false ∷ [], item.Delete 0) }
    ensures delete_other { do_psmo (Some home) ((psmo.Enable road true, item.Enable 0) ∷ []) road_on
        (psmo.Delete spare)
        ≡ (profile home false ∷ profile road true ∷ [], item.Delete 0) }
    ensures list { do_psmo None [] home_on psmo.List ≡ (home_on, item.Profiles home_on) }
{}

/// Each row of the table of operations on eIMs.
pub fn eim_operations_worked()
    ensures add_there { do_eco (first 5) (eco.Add e1 [] []) ≡ (first 5, item.Add 1 0) }
    ensures add_full { do_eco (eims (entries 97 1 8) 9) (eco.Add e1 [] [])
        ≡ (eims (entries 97 1 8) 9, item.Add 2 0) }
    ensures add_spent { do_eco (eims [] 4294967295) (eco.Add e1 [] [])
        ≡ (eims [] 4294967295, item.Add 3 0) }
    ensures add_last { do_eco (eims [] 4294967294) (eco.Add e1 [] [])
        ≡ (eims (entry e1 4294967294 0 ∷ []) 4294967295, item.Add 0 4294967294) }
    ensures add_done { do_eco (first 5) (eco.Add e2 (64 ∷ []) (4 ∷ []))
        ≡ (
          eims (entry e1 1 5 ∷ record (entry e2 2 0) { address = 64 ∷ []; key = 4 ∷ [] }
              ∷ []) 3,
          item.Add 0 2,
        ) }
    ensures update_absent { do_eco (first 5) (eco.Update e2 (Some (64 ∷ [])) None)
        ≡ (first 5, item.Update 1) }
    ensures update_address { do_eco (eims (entry e1 1 5 ∷ entry e2 2 6 ∷ []) 3)
        (eco.Update e2 (Some (64 ∷ [])) None)
        ≡ (
          eims (entry e1 1 5 ∷ record (entry e2 2 6) { address = 64 ∷ [] }
              ∷ []) 3,
          item.Update 0,
        ) }
    ensures update_key { do_eco (first 5) (eco.Update e1 None (Some (4 ∷ [])))
        ≡ (eims (record (entry e1 1 5) { key = 4 ∷ [] } ∷ []) 2, item.Update 0) }
    ensures delete_absent { do_eco (first 5) (eco.Delete e2) ≡ (first 5, item.Dropped 1) }
    ensures delete_done { do_eco (eims (entry e1 1 5 ∷ entry e2 2 6 ∷ []) 3) (eco.Delete e1)
        ≡ (eims (entry e2 2 6 ∷ []) 3, item.Dropped 0) }
    ensures delete_last { do_eco (first 5) (eco.Delete e1) ≡ (eims [] 2, item.Dropped 2) }
    ensures list { do_eco (first 5) eco.List
        ≡ (
          first 5,
          item.Eims (record { id = e1; address = []; association = 1; counter = 5 }
              ∷ []),
        ) }
{}

/// A package executes its operations in order, stops after the first that isn't done, and arms the
/// profile that was enabled as it began.
pub fn packages_worked()
    ensures done { map is_done (item.Enable 0 ∷ item.Disable 0 ∷ item.Delete 0 ∷ item.Profiles []
        ∷ item.Add 0 2 ∷ item.Update 0 ∷ item.Dropped 0 ∷ item.Dropped 2 ∷ item.Eims [] ∷ [])
        ≡ replicate 9 true }
    ensures undone { map is_done (item.Enable 1 ∷ item.Enable 2 ∷ item.Disable 1 ∷ item.Disable 2
        ∷ item.Delete 1 ∷ item.Delete 2 ∷ item.Delete 3 ∷ item.Add 1 0 ∷ item.Add 2 0 ∷ item.Add 3 0
        ∷ item.Update 1 ∷ item.Dropped 1 ∷ [])
        ≡ replicate 12 false }
    ensures stopped_eims { execute all_off (first 5) (Ecos (eco.Delete e2 ∷ eco.List ∷ []))
        ≡ record (left all_off (item.Dropped 1 ∷ [])) { eims = first 5 } }
    ensures stopped { execute all_off nobody (Psmos
        (psmo.Enable home false ∷ psmo.Disable absent ∷ psmo.List ∷ []))
        ≡ left home_on (item.Enable 0 ∷ item.Disable 1 ∷ []) }
    ensures swapped { execute home_on nobody swap
        ≡ record (left road_on (item.Disable 0 ∷ item.Enable 0 ∷ [])) { armed = Some home } }
    ensures protected { execute home_on nobody switch_delete
        ≡ record (left road_on (item.Enable 0 ∷ item.Delete 3 ∷ [])) { armed = Some home } }
    ensures discarded { execute home_on nobody discard
        ≡ left (profile road true ∷ profile spare false ∷ [])
        (item.Disable 0 ∷ item.Delete 0 ∷ item.Enable 0 ∷ []) }
    ensures unflagged { execute home_on nobody (Psmos (psmo.Enable road false ∷ []))
        ≡ left road_on (item.Enable 0 ∷ []) }
    ensures returned { execute home_on nobody
        (Psmos (psmo.Disable home ∷ psmo.Enable home true ∷ []))
        ≡ left home_on (item.Disable 0 ∷ item.Enable 0 ∷ []) }
    ensures stays_armed { execute home_on nobody
        (Psmos (psmo.Enable road true ∷ psmo.Enable spare false ∷ []))
        ≡ record (left (table false false true)
        (item.Enable 0 ∷ item.Enable 0 ∷ [])) { armed = Some home } }
    ensures none_before { execute all_off nobody switch ≡ left road_on (item.Enable 0 ∷ []) }
    ensures goes_on { execute all_off (first 5) leave
        ≡ record (left all_off (item.Dropped 2 ∷ item.Eims [] ∷ [])) { eims = eims [] 2 } }
    ensures shown { card_of (after all_off (joined
        ∷ order 1 (Psmos (psmo.Enable home false ∷ psmo.Disable absent ∷ psmo.List ∷ [])) ∷ []))
        ≡ card home_on (first 1)
        (results (kept_result 1 1 (item.Enable 0 ∷ item.Disable 1 ∷ []) false ∷ []) 2) }
{}

/// A rollback gives back the former profile and marks the result of the package that armed it. It
/// is permitted once, and neither after a later package nor after the removal of that result.
pub fn rollback_worked()
    ensures armed { former_of (after home_on (joined ∷ order 1 swap ∷ []))
        ≡ Some (record { former = home; seq = 1 }) }
    ensures rolled { card_of (after home_on (joined ∷ order 1 swap ∷ rollback ∷ []))
        ≡ card home_on (first 1)
        (results (kept_result 2 1 (item.Disable 0 ∷ item.Enable 0 ∷ []) true ∷ []) 3) }
    ensures discarded { former_of (after home_on (joined ∷ order 1 discard ∷ [])) ≡ None }
    ensures protected { card_of (after home_on (joined ∷ order 1 switch_delete ∷ rollback ∷ []))
        ≡ card home_on (first 1)
        (results (kept_result 2 1 (item.Enable 0 ∷ item.Delete 3 ∷ []) true ∷ []) 3) }
    ensures once { former_of (after home_on (joined ∷ order 1 switch ∷ rollback ∷ [])) ≡ None }
    ensures later { former_of (after home_on (joined ∷ order 1 switch ∷ order 2 show ∷ [])) ≡ None }
    ensures later_eims { former_of (after home_on
        (joined ∷ order 1 switch ∷ order 2 (Ecos (eco.List ∷ [])) ∷ [])) ≡ None }
    ensures removed { former_of (after home_on (joined ∷ order 1 switch ∷ remove 1 ∷ [])) ≡ None }
    ensures other_removed { former_of (after home_on
        (joined ∷ order 1 show ∷ order 2 switch ∷ remove 1 ∷ []))
        ≡ Some (record { former = home; seq = 2 }) }
    ensures renumbered { is_pending 1 (card_of
        (after home_on (joined ∷ order 1 switch ∷ rollback ∷ []))).results.pending ≡ false }
    ensures emptied { card_of (after home_on (joined ∷ order 1 switch ∷ rollback ∷ remove 2 ∷ []))
        ≡ card home_on (first 1) (results [] 3) }
    ensures last { (card_of (after home_on (joined ∷ order 1 switch ∷ order 2 show ∷ []))).results
        ≡ results (kept_result 1 1 (item.Enable 0 ∷ []) false
        ∷ kept_result 2 2 (item.Profiles road_on ∷ []) false ∷ []) 3 }
    ensures marked_last { (card_of (after home_on
        (joined ∷ order 1 show ∷ order 2 switch ∷ rollback ∷ []))).results
        ≡ results (kept_result 1 1 (item.Profiles home_on ∷ []) false
        ∷ kept_result 3 2 (item.Enable 0 ∷ []) true ∷ []) 4 }
    ensures start_renumbered { (card_of (record {
      start = record {
        card = card road_on nobody (results (kept_result 1 1 [] false ∷ kept_result 2 2 [] false ∷ []) 3);
        armed = Some (record { former = home; seq = 1 });
      };
      units = rollback ∷ [];
    })).results
        ≡ results (kept_result 2 2 [] false ∷ kept_result 3 1 [] true ∷ []) 4 }
    ensures start_superseded { former_of (record {
      start = record (start_card road_on) { armed = Some (record { former = home; seq = 7 }) };
      units = order 1 show ∷ joined ∷ [];
    })
        ≡ None }
    ensures start_armed { former_of (record {
      start = record (start_card road_on) { armed = Some (record { former = home; seq = 7 }) };
      units = remove 6 ∷ joined ∷ [];
    })
        ≡ Some (record { former = home; seq = 7 }) }
{}

/// eIMs come and go, and an association is never given out again.
pub fn eims_worked()
    ensures none_left { card_of (after all_off (joined ∷ order 1 leave ∷ []))
        ≡ card all_off (eims [] 2)
        (results (kept_result 1 1 (item.Dropped 2 ∷ item.Eims [] ∷ []) false ∷ []) 2) }
    ensures joined_again { card_of (after all_off (joined ∷ order 1 leave ∷ initial e9 [] [] ∷ []))
        ≡ card all_off (eims (entry e9 2 0 ∷ []) 3)
        (results (kept_result 1 1 (item.Dropped 2 ∷ item.Eims [] ∷ []) false ∷ []) 2) }
    ensures numbered { (card_of (after all_off
        (joined ∷ order 1 (Ecos (adds 97 8)) ∷ []))).results.pending
        ≡ kept_result 1 1 (item.Add 0 2 ∷ item.Add 0 3 ∷ item.Add 0 4 ∷ item.Add 0 5 ∷ item.Add 0 6
        ∷ item.Add 0 7 ∷ item.Add 0 8 ∷ item.Add 2 0 ∷ []) false ∷ [] }
    ensures full { (card_of (after all_off (joined ∷ order 1 (Ecos (adds 97 8)) ∷ []))).eims
        ≡ eims (entry e1 1 1 ∷ entries 97 2 7) 9 }
    ensures counter_first { (card_of (after all_off
        (joined ∷ order 1 (Ecos (eco.List ∷ [])) ∷ []))).results.pending
        ≡ kept_result 1 1
        (item.Eims (record { id = e1; address = []; association = 1; counter = 1 } ∷ []) ∷ []) false
        ∷ [] }
    ensures rejoined { (card_of (after all_off
        (joined ∷ order 1 (Ecos (eco.Delete e1 ∷ eco.Add e1 [] [] ∷ [])) ∷ []))).eims
        ≡ eims (entry e1 2 0 ∷ []) 3 }
    ensures new_number { (card_of (after all_off
        (joined ∷ order 1 (Ecos (adds 50 1)) ∷ order 2 (Ecos (eco.Delete e2 ∷ adds 50 1))
        ∷ []))).eims
        ≡ eims (entry e1 1 2 ∷ entry e2 3 0 ∷ []) 4 }
{}

/// The first check that applies is the refusal.
pub fn checks_worked()
    ensures unknown { value_refusal (after all_off []) (listing 2 0 []) ≡ Some (refused 2) }
    ensures eid { value_refusal (after all_off (joined ∷ [])) (listing 7 0 []) ≡ Some (refused 4) }
    ensures association { value_refusal (after all_off (joined ∷ [])) (listing 2 0 card_eid)
        ≡ Some (refused 5) }
    ensures replay { value_refusal (after all_off (joined ∷ loads 1 8)) (listing 1 8 card_eid)
        ≡ Some (record { code = 6; kept = 8; received = 8 }) }
    ensures above { value_refusal (after all_off (joined ∷ loads 5 1)) (listing 1 6 card_eid)
        ≡ None }
    ensures room { value_refusal (after all_off (joined ∷ loads 1 8)) (listing 1 9 card_eid)
        ≡ Some (refused 7) }
    ensures free { value_refusal (after all_off (joined ∷ loads 1 7)) (listing 1 8 card_eid)
        ≡ None }
    ensures last_number { has_room (results [] 4294967293) ≡ true }
    ensures no_number { has_room (results [] 4294967294) ≡ false }
{}

/// The counter that is kept for an eIM and an association is the greatest, the start's included.
pub fn counters_worked()
    ensures start { kept (record {
      start = record
          (start_card all_off) { card = card all_off (first 5) (results [] 1) };
      units = [];
    }) e1 1
        ≡ 5 }
    ensures loads { kept (after all_off (joined ∷ loads 1 3)) e1 1 ≡ 3 }
    ensures other { kept (after all_off (joined ∷ loads 1 3)) e1 2 ≡ 0 }
{}

/// The laws speak of histories that there are: one with a unit of each kind is legal.
pub fn history_worked()
    ensures legal { IsLegal (after home_on (joined ∷ order 1 switch ∷ rollback ∷ remove 2 ∷ [])) }
{}
