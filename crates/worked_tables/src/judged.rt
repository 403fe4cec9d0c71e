//! Worked tables get the verdicts that they should. Each clause is computed from the definitions; there is nothing to run.

ghost use Rattle.std.specs.Prelude.{◌≡◌, [], ◌∷◌};
ghost use Rattle.bank_shape.specs.declared.pace.Policy.TheVariants.{Pause, Plain, Cancel};
ghost use Rattle.worked_tables.specs.AlteredTables as altered;
ghost use Rattle.worked_tables.specs.TableExamples.{narrow, small, whole};
ghost use Rattle.worked_tables.specs.TableExamples.{cancelled, cancelled_begin, cancelled_often, lost_read, no_spare, one_entry, paused};
ghost use Rattle.check_verdict.specs.Verdicts.{verdict_of, no};
ghost use Rattle.check_verdict.specs.declared.Rule.TheVariants.{Serves, Queue, Worn, Tick};
ghost use Rattle.check_verdict.specs.declared.Verdict.TheVariants.{Yes};
ghost use Rattle.worked_tables.specs.Judged as worked;
ghost use Rattle.worked_tables.specs.Judged.{one_bank};

/// Tables that keep every rule get Yes.
pub fn worked_tables_get_yes()
    ensures one_entry { verdict_of narrow one_bank one_entry ≡ Yes }
    ensures no_spare { verdict_of (small Pause) one_bank no_spare ≡ Yes }
    ensures paused { verdict_of (small Pause) one_bank paused ≡ Yes }
    ensures lost_read { verdict_of (small Pause) one_bank lost_read ≡ Yes }
    ensures cancelled { verdict_of (small Cancel) one_bank cancelled ≡ Yes }
    ensures cancelled_begin { verdict_of (small Cancel) one_bank cancelled_begin ≡ Yes }
    ensures cancelled_often { verdict_of (small Cancel) one_bank cancelled_often ≡ Yes }
    ensures pair_that_left { verdict_of (small Pause) one_bank worked.pair_that_left ≡ Yes }
{}

/// A read by its bytes and its tick, at the last tick that each policy allows and behind it.
pub fn reads_are_judged()
    ensures kept { verdict_of (small Pause) one_bank (worked.read_back 105 (whole 0xff)) ≡ Yes }
    ensures early { verdict_of (small Pause) one_bank (worked.read_back 104 (whole 0xff))
        ≡ no 2 Tick }
    ensures other_bytes { verdict_of (small Pause) one_bank (worked.read_back 105 (0xff ∷ 0xfe
        ∷ [])) ≡ no 2 Serves }
    ensures latest { verdict_of (small Pause) one_bank (worked.read_back 115 (whole 0xff)) ≡ Yes }
    ensures late { verdict_of (small Pause) one_bank (worked.read_back 116 (whole 0xff))
        ≡ no 2 Tick }
    ensures latest_plain { verdict_of (small Plain) one_bank (worked.read_back 1710 (whole 0xff))
        ≡ Yes }
    ensures late_plain { verdict_of (small Plain) one_bank (worked.read_back 1711 (whole 0xff))
        ≡ no 2 Tick }
    ensures late_cancel { verdict_of (small Cancel) one_bank (worked.read_back 106 (whole 0xff))
        ≡ no 2 Tick }
{}

/// A store by its tick, at the last one that is allowed and behind it.
pub fn writes_are_judged()
    ensures latest { verdict_of (small Pause) one_bank (worked.stored_at 6420) ≡ Yes }
    ensures late { verdict_of (small Pause) one_bank (worked.stored_at 6421) ≡ no 1 Tick }
    ensures latest_twice { verdict_of (worked.with_registers Pause) one_bank
        (worked.stored_at 12840) ≡ Yes }
    ensures late_twice { verdict_of (worked.with_registers Pause) one_bank (worked.stored_at 12841)
        ≡ no 1 Tick }
    ensures latest_cancel { verdict_of (small Cancel) one_bank (worked.stored_at 32100) ≡ Yes }
    ensures late_cancel { verdict_of (small Cancel) one_bank (worked.stored_at 32101) ≡ no 1 Tick }
    ensures at_its_arrival { verdict_of (small Pause) one_bank (worked.stored_at 0) ≡ no 1 Tick }
    ensures too_near { verdict_of (small Pause) one_bank worked.too_near ≡ no 2 Tick }
{}

/// Writes where the queue has no room, and behind a row that tells of a worn-out bank.
pub fn queues_are_judged()
    ensures before_room { verdict_of narrow one_bank (worked.one_too_many 0) ≡ no 3 Queue }
    ensures behind_it { verdict_of narrow one_bank (worked.one_too_many 30) ≡ Yes }
    ensures another_bank { verdict_of narrow (0 ∷ 0 ∷ 1 ∷ []) altered.two_writes_and_another
        ≡ no 3 Queue }
    ensures accepted { verdict_of (small Pause) one_bank altered.accepted_after_worn ≡ no 3 Worn }
    ensures stored { verdict_of (small Pause) one_bank worked.stored_behind_worn ≡ no 1 Worn }
{}
