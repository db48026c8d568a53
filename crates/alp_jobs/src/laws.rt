//! What holds of the deeds of every job.
ghost use Rattle.std.specs.Prelude.{ℕ, ◌<◌, ◌^◌, List, length, None, Some};
ghost use Rattle.alp_lines.specs.declared.line.Line.{Line as ALine};
ghost use Rattle.alp_session.specs.Crowd.{Crowd};
ghost use Rattle.alp_jobs.specs.Deeds.{Deed};
ghost use Rattle.alp_jobs.specs.Does.{DoesJob};
ghost use Rattle.alp_jobs.specs.Patience.{ArePatient, ArePlain};
ghost use Rattle.alp_jobs.specs.Ticks.{AreTicked};

/// Each collect that is answered that its call waits is followed by one Tick at its server, and no other deed is.
pub fn ticks_follow_collects()
    ensures { (k : ℕ) (ts : List (List ALine)) (c d : Crowd) (ds : List Deed) → DoesJob k ts c ds d → AreTicked None ds }
{}

/// Where no line of a job sends a frame again, sends bytes, or collects, each call is collected at most `patience` times while it waits, and
/// once more behind a Timeout. A Timeout stands just behind so many collects that were answered that the call waits.
pub fn jobs_are_patient()
    ensures { (k : ℕ) (ts : List (List ALine)) (c d : Crowd) (ds : List Deed) → DoesJob k ts c ds d → ArePlain ts
        → k < length c.places → c.settings.patience < 2 ^ 32 → ArePatient c.settings.patience (Some 0) ds }
{}
