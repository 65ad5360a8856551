//! Decisions on the own class of an aggregation or a record.
ghost use Rattle.std.specs.Prelude.{◌≡◌, IfOk, None};
ghost use Rattle.std.specs.Option.{option_copied};
ghost use Rattle.office_records.specs.Conditions.{first_of};
ghost use Rattle.office_records.specs.declared.classified.Classified.TheVariants as classified;
ghost use Rattle.office_rules.specs.Acts.{IsDecidedTo};
ghost use Rattle.office_rules.specs.Conditions.{refusals_of_reclassify};
ghost use Rattle.office_rules.specs.Sound.{IsSoundOffice};
ghost use Rattle.office_rules.specs.State.{with_contents};
ghost use Rattle.office_rules.specs.Steps.{step_reclassify};

use crate::min_refusal::min_refusal;
use crate::parts::Parts;
use crate::{Answer, Decision, RowWrite};
use office_base::Memory;
use office_days::Day;
use office_records::{AggNo, Classified, Code, RecordNo};
use office_rules::copy_code;
use std::alloc::Global;

impl Parts {
    /// What is decided of an aggregation's own class where nothing refuses it.
    fn decide_class_of_aggregation(
        &self,
        alloc: Global,
        day: Day,
        number: AggNo,
        class: Option<&Code>,
    ) -> Result<Decision, Memory>
        requires sound { IsSoundOffice self.now }
        requires accepted { first_of (refusals_of_reclassify self.now day
            (classified.Aggregation number) (option_copied class)) ≡ None }
        ensures { IfOk result
            (λ d. IsDecidedTo self.now
            (λ contents. step_reclassify (with_contents self.now contents) day
            (classified.Aggregation number) (option_copied class.entry)) d) }
    {
        let class = copy_code(alloc, class)?;
        let mut aggregation = self.tree.aggregation(number).copy(alloc)?;
        aggregation.class = class;
        let write = RowWrite::Aggregation {
            number,
            aggregation,
        };
        self.go(alloc, Answer::Done, write, day)
    }

    /// What is decided of a record's own class where nothing refuses it.
    fn decide_class_of_record(
        &self,
        alloc: Global,
        day: Day,
        number: RecordNo,
        class: Option<&Code>,
    ) -> Result<Decision, Memory>
        requires sound { IsSoundOffice self.now }
        requires accepted { first_of (refusals_of_reclassify self.now day (classified.Record number)
            (option_copied class)) ≡ None }
        ensures { IfOk result
            (λ d. IsDecidedTo self.now
            (λ contents. step_reclassify (with_contents self.now contents) day
            (classified.Record number) (option_copied class.entry)) d) }
    {
        let status = self.tree.status(number);
        let class = copy_code(alloc, class)?;
        let mut head = self.tree.record(number).copy(alloc)?;
        head.class = class;
        let write = RowWrite::Record {
            number,
            head,
            status,
        };
        self.go(alloc, Answer::Done, write, day)
    }

    /// What is decided of an own class of an aggregation or a record, set or taken away.
    pub(crate) fn decide_reclassify(
        &self,
        alloc: Global,
        day: Day,
        target: Classified,
        class: Option<&Code>,
    ) -> Result<Decision, Memory>
        requires { IsSoundOffice self.now }
        ensures { IfOk result
            (λ d. IsDecidedTo self.now
            (λ contents. step_reclassify (with_contents self.now contents) day target
            (option_copied class.entry)) d) }
    {
        let by_tree = self.tree.check_reclassify(target, class);
        let by_holds = self.holds.check_reclassify(&self.tree, target, class);
        if let Some(refusal) = self.dated(day, min_refusal(by_tree, by_holds)) {
            return Ok(Decision::Stay(Answer::Refused(refusal)));
        }
        match target {
            Classified::Aggregation(number) => {
                self.decide_class_of_aggregation(alloc, day, number, class)
            }
            Classified::Record(number) => self.decide_class_of_record(alloc, day, number, class),
        }
    }
}
