//! What a disposal run looks at, what it leaves alone, and what its certificate reports.
ghost use Rattle.std.specs.Prelude.{◌≡◌, ◌≢◌, ◌↔◌, ◌≤◌, ℕ, List, [], ◌∷◌, map, length, slice_get, Some, None, IsTrue, false};
ghost use Rattle.std.specs.FinMap.{get};
ghost use Rattle.std.specs.List.{Contains};
ghost use Rattle.std.specs.List.Sorted.{IsStrictlySortedBy};
ghost use Rattle.std.specs.Ordering.{nat_cmp};
ghost use Rattle.office_records.specs.Disposal.{counts, is_below, is_spent};
ghost use Rattle.office_records.specs.Lists.{numbered};
ghost use Rattle.office_records.specs.Tree.{TreeState, action_of, has_aggregation, has_record, class_of, plan_of, start_of, due_of, status_of};
ghost use Rattle.office_records.specs.declared.action.Action.TheVariants as action;
ghost use Rattle.office_records.specs.declared.status.Status.TheVariants as status;
ghost use Rattle.office_rules.specs.Disposing.{entry_of, outcome_of};
ghost use Rattle.office_rules.specs.declared.outcome.Outcome.{Outcome};
ghost use Rattle.office_rules.specs.declared.outcome.Outcome.TheVariants as outcome;
ghost use Rattle.office_rules.specs.Holds.{is_held, least_covering};
ghost use Rattle.office_rules.specs.Certificates.{certificate_text};
ghost use Rattle.office_rules.specs.Outcomes.{is_ending};
ghost use Rattle.office_rules.specs.declared.entry.Entry.{Entry};
ghost use Rattle.office_rules.specs.Meanings.{IsCandidate};
ghost use Rattle.office_rules.specs.Runs.{candidates, next_ready, with_outcomes, entries_of, spent_list, closed, whole};
ghost use Rattle.office_rules.specs.Sound.{IsSound};
ghost use Rattle.office_rules.specs.State.{State, Office};
ghost use Rattle.office_rules.specs.declared.run.Run.{Run};

/// What comes of records in a run changes no record's class, plan, start, due day, hold or
/// confirmation, whichever records are taken, and of those that are not taken no status and no
/// content.
pub fn law_of_other_records()
    ensures class { (s : State) (run r : ℕ) (taken : List ℕ)
        → class_of (with_outcomes s run taken).office.tree r ≡ class_of s.office.tree r }
    ensures plan { (s : State) (run r : ℕ) (taken : List ℕ)
        → plan_of (with_outcomes s run taken).office.tree r ≡ plan_of s.office.tree r }
    ensures start { (s : State) (run r : ℕ) (taken : List ℕ)
        → start_of (with_outcomes s run taken).office.tree r ≡ start_of s.office.tree r }
    ensures due { (s : State) (run r : ℕ) (taken : List ℕ)
        → due_of (with_outcomes s run taken).office.tree r ≡ due_of s.office.tree r }
    ensures held { (s : State) (run r : ℕ) (taken : List ℕ)
        → is_held (with_outcomes s run taken).office.holds (with_outcomes s run taken).office.tree r
        ≡ is_held s.office.holds s.office.tree r }
    ensures covering { (s : State) (run r : ℕ) (taken : List ℕ)
        → least_covering (with_outcomes s run taken).office.holds
        (with_outcomes s run taken).office.tree r
        ≡ least_covering s.office.holds s.office.tree r }
    ensures confirmation { (s : State) (run r : ℕ) (taken : List ℕ)
        → counts (with_outcomes s run taken).office.tree r ≡ counts s.office.tree r }
    ensures status { (s : State) (run r : ℕ) (taken : List ℕ) → (Contains taken r → ⊥)
        → status_of (with_outcomes s run taken).office.tree r ≡ status_of s.office.tree r }
    ensures content { (s : State) (run r : ℕ) (taken : List ℕ) → (Contains taken r → ⊥)
        → get (with_outcomes s run taken).contents r ≡ get s.contents r }
{}

/// The candidates of a run are the records above its cursor that are ready, by number, and a step
/// takes the least of them.
pub fn law_of_candidates()
    ensures these { (s : Office) (run r : ℕ)
        → (Contains (candidates s run) r ↔ IsCandidate s run r) }
    ensures by_number { (s : Office) (run : ℕ) → IsStrictlySortedBy nat_cmp (candidates s run) }
    ensures next { (s : Office) (run r : ℕ) → next_ready s run ≡ Some r → IsCandidate s run r }
    ensures least { (s : Office) (run r other : ℕ) → next_ready s run ≡ Some r
        → IsCandidate s run other → r ≤ other }
    ensures none { (s : Office) (run r : ℕ) → next_ready s run ≡ None → IsCandidate s run r → ⊥ }
{}

/// In a sound state the entries that a certificate lists are those of the run, each once, by record
/// number.
pub fn law_of_listed_entries()
    ensures these { (s : State) (run : ℕ) (entry : Entry) → IsSound s
        → (Contains (entries_of s.office run) entry
        ↔ ((r : ℕ) × (get s.office.entries (run, r) ≡ Some entry))) }
    ensures by_number { (s : State) (run : ℕ) → IsSound s
        → IsStrictlySortedBy nat_cmp (map (λ e. e.record_no) (entries_of s.office run)) }
{}

/// The aggregations that a certificate lists, by number, are those that are spent and have a record
/// below, at any depth, that one of the entries ended.
pub fn law_of_listed_aggregations()
    ensures these { (tree : TreeState) (entries : List Entry) (a : ℕ)
        → (Contains (spent_list tree entries) a
        ↔ (IsTrue (has_aggregation tree a) × IsTrue (is_spent tree a)
        × ((r : ℕ) × IsTrue (has_record tree r) × IsTrue (is_below tree a r)
        × ((entry : Entry) × Contains entries entry × (entry.record_no ≡ r)
        × IsTrue (is_ending entry.outcome))))) }
    ensures by_number { (tree : TreeState) (entries : List Entry)
        → IsStrictlySortedBy nat_cmp (spent_list tree entries) }
{}

/// When a run closes, its certificate is the text of its number, its day, who opened it, its
/// entries by record number and the aggregations that are spent by it. No other certificate is
/// changed.
pub fn law_of_the_certificate()
    ensures closed { (s : State) (run : ℕ) (it : Run) → numbered s.office.runs run ≡ Some it
        → get (closed s run).office.certificates run
        ≡ Some (certificate_text s.office.tree run it.day it.by (entries_of s.office run)
        (spent_list s.office.tree (entries_of s.office run))) }
    ensures others { (s : State) (run other : ℕ) → other ≢ run
        → get (closed s run).office.certificates other ≡ get s.office.certificates other }
{}

/// A run without other acts between its steps leaves no record out, whether it is stopped and
/// resumed or not. Each record above its cursor that was ready (`IsCandidate`) has the entry that
/// the office before determines (`entered`), and no content if that entry ends it (`gone`). So a
/// record that was here, due, confirmed for destruction and not held is destroyed.
pub fn law_of_complete_runs()
    ensures entered { (s : State) (run r : ℕ) (o : Outcome) → IsCandidate s.office run r
        → outcome_of s.office r ≡ Some o
        → get (whole s run).office.entries (run, r) ≡ Some (entry_of s.office run r o) }
    ensures gone { (s : State) (run r : ℕ) (o : Outcome) → IsCandidate s.office run r
        → outcome_of s.office r ≡ Some o → IsTrue (is_ending o)
        → get (whole s run).contents r ≡ None }

    // Since the record is ready and here, it is due by the run's day, and its confirmation counts.
    ensures destroyed { (s : State) (run r : ℕ) → IsCandidate s.office run r
        → status_of s.office.tree r ≡ Some status.Here
        → action_of s.office.tree r ≡ Some action.Destroy
        → is_held s.office.holds s.office.tree r ≡ false
        → (get (whole s run).office.entries (run, r)
        ≡ Some (entry_of s.office run r outcome.Destroyed))
        × (get (whole s run).contents r ≡ None) }
{}
