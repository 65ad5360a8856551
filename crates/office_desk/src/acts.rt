//! Acts one after another, each saved before it is answered.
ghost use Rattle.std.specs.Prelude.{◌≡◌, Err, IsTrue, MatchResult, [], ◌∷◌, ◌++◌, false};
ghost use Rattle.sqlite.specs.Held.{state};
ghost use Rattle.office_rules.specs.Acts.{CanBeMade};
ghost use Rattle.office_rules.specs.Forms.{AreWellFormed};
ghost use Rattle.office_rules.specs.State.{State};
ghost use Rattle.office_desk.specs.Calling.{ChangeLeaves, IsMade, IsNotMade, IsPoisoned};
ghost use Rattle.office_desk.specs.Guarded.{AreGuarded, guarded_outcome, permitted_acts};
ghost use Rattle.office_desk.specs.Outcomes.{ActsCameTo, ActsLeave, AreAnswered, FromEach, IsActAnswered, SparesTheRest, act_outcome, acts_outcome};

use crate::Desk;
use crate::fates::law_of_fates;
use crate::guard::{Guard, NoGuard};
use office_rules::laws::resumption::law_of_resumption;
use office_rules::{Act, Answer, Change, Decision};
use office_store::Fault;
use sqlite::Alter;

/// Gives proofs the fact that each act is of its form, also those that a fault leaves undecided; a
/// call does nothing.
fn well_formed_all(acts: &[Act])
    ensures { AreWellFormed acts.now }
{
    for act in acts {
        act.formed();
    }
}

impl<S: Alter> Desk<S> {
    /// One act, by a desk that is open. Its answer comes once its commit is done.
    pub(crate) fn perform_one(&mut self, act: &Act) -> Result<Answer, Fault>
        requires open { self.old.is_poisoned ≡ false }
        ensures answered { (s : State) → s.office ≡ self.old.office
            → IsActAnswered s act.now result self.old self.new }
        ensures leaves { FromEach S.Store self.old self.new (λ s. ActsLeave s (act.now ∷ [])
            (act_outcome result) (state S.Store self.new.connection)) }
        ensures rest { SparesTheRest S.Store self.old self.new }
    {
        match self.machine.decide(act) {
            Ok(Decision::Stay(answer)) => Ok(answer),
            Ok(Decision::Go(change)) => self.make(change),
            Err(_) => Err(Fault::Memory),
        }
    }

    /// Saves a change, and then does it in memory and answers.
    fn make(&mut self, change: Change) -> Result<Answer, Fault>
        requires open { self.old.is_poisoned ≡ false }
        requires feasible { CanBeMade self.old.office change }
        ensures ends { MatchResult result (λ answer. IsMade change answer self.old self.new)
            (λ fault. IsNotMade fault self.old self.new) }
        ensures leaves { FromEach S.Store self.old self.new
            (λ s. ChangeLeaves s change result (state S.Store self.new.connection)) }
        ensures rest { SparesTheRest S.Store self.old self.new }
    {
        match self.store.save(self.alloc, &change) {
            Ok(()) => self.finish(change),
            Err(Fault::Memory) => Err(Fault::Memory),
            Err(_) => {
                self.is_poisoned = true;
                Err(Fault::Store)
            }
        }
    }

    /// Does a saved change in memory and answers; the desk is poisoned where a growth is refused.
    fn finish(&mut self, change: Change) -> Result<Answer, Fault>
        requires feasible { CanBeMade self.old.office change }
        ensures connection { self.new.connection ≡ self.old.connection }
        ensures ends { MatchResult result (λ answer. IsMade change answer self.old self.new)
            (λ fault. IsPoisoned fault self.new) }
    {
        let answer = change.answer;
        if self.machine.apply(change).is_err() {
            self.is_poisoned = true;
            return Err(Fault::Reopen);
        }
        Ok(answer)
    }

    /// Puts the answer to an act that is done behind the others; the desk is poisoned where a
    /// growth is refused.
    fn report(&mut self, answer: Answer, answers: &mut Vec<Answer>) -> Result<(), Fault>
        ensures connection { self.new.connection ≡ self.old.connection }
        ensures ends { MatchResult result
            (λ _. (answers.new.items ≡ answers.old.items ++ answer ∷ []) × (self.new ≡ self.old))
            (λ fault. (answers.new.items ≡ answers.old.items) × IsPoisoned fault self.new) }
    {
        if answers.push(answer).is_err() {
            self.is_poisoned = true;
            return Err(Fault::Reopen);
        }
        Ok(())
    }

    /// Performs one act after another, at a desk that is open, up to the first that the guard does
    /// not permit.
    fn perform_open<G: Guard>(
        &mut self,
        guard: &G,
        acts: &[Act],
        answers: &mut Vec<Answer>,
    ) -> Result<bool, Fault>
        requires open { self.old.is_poisoned ≡ false }
        requires formed { AreWellFormed acts.now }
        ensures answered { (s : State) → s.office ≡ self.old.office
            → AreGuarded (G.permits guard.now) s acts.now result answers.old.items
            answers.new.items self.new }
        ensures leaves { FromEach S.Store self.old self.new (λ s. ActsLeave s
            (permitted_acts (G.permits guard.now) s acts.now)
            (guarded_outcome result answers.old.items answers.new.items)
            (state S.Store self.new.connection)) }
        ensures rest { SparesTheRest S.Store self.old self.new }
    {
        for act in acts {
            if !guard.permits(self.machine(), act) {
                return Ok(false);
            }
            let answer = self.perform_one(act)?;
            self.report(answer, answers)?;
        }
        Ok(true)
    }

    /// One act: it is decided, saved in one transaction, done in memory and answered. A refusal is
    /// an answer.
    ///
    /// The faults are those of `perform_all`: at `Memory` nothing was done, and the desk goes on;
    /// at `Store` a crash leaves the tables before the act or after it; at `Reopen`, where a growth
    /// was refused after the commit, the act is done. After the last two the desk is poisoned. The
    /// answer takes no memory.
    pub fn perform(&mut self, act: &Act) -> Result<Answer, Fault>
        // A poisoned desk stays as it is.
        ensures gone { IsTrue self.old.is_poisoned → (result ≡ Err Fault.Reopen)
            × (self.new ≡ self.old) }

        // An open one does the act, and answers it.
        ensures answered { (s : State) → self.old.is_poisoned ≡ false → s.office ≡ self.old.office
            → IsActAnswered s act.now result self.old self.new }

        // A crash leaves the tables before the act or after it.
        ensures leaves { FromEach S.Store self.old self.new (λ s. ActsCameTo s (act.now ∷ [])
            (act_outcome result) (state S.Store self.new.connection)) }

        // The rest of the file stays as it was.
        ensures rest { SparesTheRest S.Store self.old self.new }
    {
        law_of_fates();
        law_of_resumption();
        if self.is_poisoned {
            return Err(Fault::Reopen);
        }
        self.perform_one(act)
    }

    /// One act after another: each is decided, saved in one transaction of its own, done in memory
    /// and answered, in this order. A refusal is an answer, and the next act follows. Room for all
    /// answers is reserved first; they follow what `answers` held.
    ///
    /// At a fault the acts after the unanswered one are not begun: at `Memory` that act is not done
    /// and the desk goes on; at `Store` a crash leaves the tables before it or after it; at
    /// `Reopen`, where a growth was refused after the commit, it is done. After the last two the
    /// desk is poisoned, and answers `Reopen` from then on. At every exit a crash leaves an
    /// office's tables, and, where all acts are steps of the open run, the run midway.
    pub fn perform_all(&mut self, acts: &[Act], answers: &mut Vec<Answer>) -> Result<(), Fault>
        // A poisoned desk stays as it is, and adds no answer.
        ensures gone { IsTrue self.old.is_poisoned → (result ≡ Err Fault.Reopen)
            × (self.new ≡ self.old) × (answers.new.items ≡ answers.old.items) }

        // An open one does the acts in order, and adds their answers.
        ensures answered { (s : State) → self.old.is_poisoned ≡ false → s.office ≡ self.old.office
            → AreAnswered s acts.now (acts_outcome result answers.old.items answers.new.items)
            answers.old.items answers.new.items self.new }

        // A crash leaves the tables after the answered acts, or after one act more.
        ensures leaves { FromEach S.Store self.old self.new (λ s. ActsCameTo s acts.now
            (acts_outcome result answers.old.items answers.new.items) (state S.Store self.new.connection)) }

        // The rest of the file stays as it was.
        ensures rest { SparesTheRest S.Store self.old self.new }
    {
        match self.perform_guarded(&NoGuard, acts, answers) {
            Ok(_) => Ok(()),
            Err(fault) => Err(fault),
        }
    }

    /// Performs the acts before the first that the guard does not permit, as `perform_all` does,
    /// and returns whether they are all. The guard judges each act in the office in which the act is
    /// then done, after the acts before it. An act that is not permitted is not begun, nor any
    /// behind it. An act at which a fault stopped was permitted too.
    pub fn perform_guarded<G: Guard>(
        &mut self,
        guard: &G,
        acts: &[Act],
        answers: &mut Vec<Answer>,
    ) -> Result<bool, Fault>
        // A poisoned desk stays as it is, and adds no answer.
        ensures gone { IsTrue self.old.is_poisoned → (result ≡ Err Fault.Reopen)
            × (self.new ≡ self.old) × (answers.new.items ≡ answers.old.items) }

        // An open one does the permitted acts in order, and adds their answers.
        ensures answered { (s : State) → self.old.is_poisoned ≡ false → s.office ≡ self.old.office
            → AreGuarded (G.permits guard.now) s acts.now result answers.old.items
            answers.new.items self.new }

        // A crash leaves the tables after the answered acts, or after one more that is permitted.
        ensures leaves { FromEach S.Store self.old self.new (λ s. ActsCameTo s
            (permitted_acts (G.permits guard.now) s acts.now)
            (guarded_outcome result answers.old.items answers.new.items)
            (state S.Store self.new.connection)) }

        // The rest of the file stays as it was.
        ensures rest { SparesTheRest S.Store self.old self.new }
    {
        law_of_fates();
        law_of_resumption();
        if self.is_poisoned {
            return Err(Fault::Reopen);
        }
        well_formed_all(acts);
        if answers.try_reserve(acts.len()).is_err() {
            return Err(Fault::Memory);
        }
        self.perform_open(guard, acts, answers)
    }
}
