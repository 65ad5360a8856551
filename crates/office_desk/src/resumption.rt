//! The open run resumed, to its end.
ghost use Rattle.std.specs.Prelude.{◌≡◌, Err, IsTrue, false};
ghost use Rattle.office_rules.specs.Runs.{open_run};
ghost use Rattle.office_rules.specs.State.{State};
ghost use Rattle.office_desk.specs.Outcomes.{FromEach, SparesTheRest};
ghost use Rattle.office_desk.specs.Resumptions.{IsRunAnswered, RunCameTo, run_outcome};

use crate::Desk;
use crate::fates::law_of_fates;
use office_rules::laws::resumption::law_of_resumption;
use office_rules::{Act, Answer};
use office_store::Fault;
use sqlite::Alter;

impl<S: Alter> Desk<S> {
    /// Steps until no run is open, by a desk that is open.
    fn take_steps(&mut self) -> Result<Answer, Fault>
        requires open { self.old.is_poisoned ≡ false }
        ensures answered { (s : State) → s.office ≡ self.old.office
            → IsRunAnswered S.Store s result self.old self.new }
        ensures leaves { FromEach S.Store self.old self.new (λ s. RunCameTo S.Store s
            (run_outcome result (open_run self.old.office)) self.new) }
        ensures rest { SparesTheRest S.Store self.old self.new }
    {
        law_of_fates();
        law_of_resumption();
        'steps: loop {
            match self.perform_one(&Act::RunStep)? {
                Answer::Step(_, _) => {}
                answer => return Ok(answer),
            }
        }
    }

    /// Resumes the run that is open: steps of it, each saved in one transaction, until it closes.
    /// The answer is the number of its certificate, or the refusal where no run is open.
    ///
    /// A run that is stopped, at any moment, and resumed ends as the run that never stopped.
    /// The faults are those of `perform_all` over the steps: at each a crash leaves the run midway,
    /// so it can be resumed again.
    pub fn resume(&mut self) -> Result<Answer, Fault>
        // A poisoned desk stays as it is.
        ensures gone { IsTrue self.old.is_poisoned → (result ≡ Err Fault.Reopen)
            × (self.new ≡ self.old) }

        // An open one answers which run it closed, or that none was open.
        ensures answered { (s : State) → self.old.is_poisoned ≡ false → s.office ≡ self.old.office
            → IsRunAnswered S.Store s result self.old self.new }

        // The run ends as one that never stopped; a crash on the way leaves it midway.
        ensures leaves { FromEach S.Store self.old self.new (λ s. RunCameTo S.Store s
            (run_outcome result (open_run self.old.office)) self.new) }

        // The rest of the file stays as it was.
        ensures rest { SparesTheRest S.Store self.old self.new }
    {
        if self.is_poisoned {
            return Err(Fault::Reopen);
        }
        self.take_steps()
    }
}
