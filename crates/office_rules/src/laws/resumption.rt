//! A run that is stopped and resumed ends as the run that never stopped.
ghost use Rattle.std.specs.Prelude.{◌≡◌, ℕ, suc, length, Some, None};
ghost use Rattle.office_rules.specs.Acts.{AreStepsMade};
ghost use Rattle.office_rules.specs.Runs.{open_run, candidates, after_steps, step_of, whole, IsMidway};
ghost use Rattle.office_rules.specs.State.{Office, State};

/// From a state with an open run, steps until it closes, one for each candidate and one that closes
/// it, make of it what disposing of all candidates at once makes of it. Each state on the way is
/// midway, and from each state midway the steps that are left end in the same. Steps that the
/// machine decides and makes until no run is open leave it in that.
pub fn law_of_resumption()
    ensures ends { (s : State) (run : ℕ) → open_run s.office ≡ Some run
        → after_steps s (suc (length (candidates s.office run))) ≡ whole s run }
    ensures on_the_way { (s : State) (run steps : ℕ) → open_run s.office ≡ Some run
        → IsMidway s run (after_steps s steps) }
    ensures goes_on { (s t : State) (run : ℕ) → open_run s.office ≡ Some run → IsMidway s run t
        → IsMidway s run (step_of t (open_run t.office)) }
    ensures same { (s t : State) (run : ℕ) → open_run s.office ≡ Some run
        → open_run t.office ≡ Some run → IsMidway s run t → whole t run ≡ whole s run }
    ensures resumed { (s t : State) (run : ℕ) → open_run s.office ≡ Some run
        → open_run t.office ≡ Some run → IsMidway s run t
        → after_steps t (suc (length (candidates t.office run))) ≡ whole s run }
    ensures closed { (s t : State) (run : ℕ) → open_run s.office ≡ Some run → IsMidway s run t
        → open_run t.office ≡ None → t ≡ whole s run }
    ensures made { (s : State) (t : Office) (run steps : ℕ) → open_run s.office ≡ Some run
        → AreStepsMade steps s.office t → open_run t ≡ None → t ≡ (whole s run).office }
{}
