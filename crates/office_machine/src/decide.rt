//! What is decided of each kind of act.
ghost use Rattle.std.specs.Prelude.{IfOk};
ghost use Rattle.office_rules.specs.Acts.{IsDecidedTo, step};
ghost use Rattle.office_rules.specs.Sound.{IsSoundOffice};
ghost use Rattle.office_rules.specs.State.{with_contents};

use crate::new_record::Filing;
use crate::parts::Parts;
use crate::{Act, Decision};
use office_base::Memory;
use office_records::Schedule;
use std::alloc::Global;

impl Parts {
    /// What is decided of an act.
    #[tactic(auto, unfolding(office_rules::specs::Acts::step))]
    pub(crate) fn decide(&self, alloc: Global, act: &Act) -> Result<Decision, Memory>
        requires { IsSoundOffice self.now }
        ensures { IfOk result
            (λ d. IsDecidedTo self.now (λ contents. step (with_contents self.now contents) act.now)
            d) }
    {
        match act {
            Act::AddSchedule {
                day,
                code,
                trigger,
                period,
                offset,
                action,
            } => {
                let schedule = Schedule {
                    trigger: *trigger,
                    period: *period,
                    offset: *offset,
                    action: *action,
                };
                self.decide_add_schedule(alloc, *day, code, schedule)
            }
            Act::AddClass {
                day,
                code,
                title,
                schedule,
            } => self.decide_add_class(alloc, *day, code, title, schedule),
            Act::SetClassSchedule {
                day,
                class,
                schedule,
            } => self.decide_set_class_schedule(alloc, *day, class, schedule),
            Act::AddAggregation {
                day,
                ref_text,
                title,
                parent,
                class,
            } => {
                self.decide_add_aggregation(alloc, *day, ref_text, title, *parent, class.as_ref())
            }
            Act::CloseAggregation { day, aggregation } => {
                self.decide_close_aggregation(alloc, *day, *aggregation)
            }
            Act::Reclassify { day, target, class } => {
                self.decide_reclassify(alloc, *day, *target, class.as_ref())
            }
            Act::AddRecord {
                day,
                ref_text,
                title,
                originated,
                aggregation,
                class,
                schedule,
                content,
            } => {
                let new = Filing {
                    ref_text,
                    title,
                    originated: *originated,
                    aggregation: *aggregation,
                    class,
                    schedule,
                    content,
                };
                self.decide_add_record(alloc, *day, &new)
            }
            Act::SetRecordSchedule {
                day,
                record_no,
                schedule,
            } => { self.decide_set_record_schedule(alloc, *day, *record_no, schedule.as_ref()) }
            Act::Confirm {
                day,
                record_no,
                action,
                by,
            } => self.decide_confirm(alloc, *day, *record_no, *action, by),
            Act::Review {
                day,
                record_no,
                schedule,
                by,
            } => self.decide_review(alloc, *day, *record_no, schedule.as_ref(), by),
            Act::Receipt {
                day,
                record_no,
                digest,
                by,
            } => self.decide_receipt(alloc, *day, *record_no, *digest, by),
            Act::Event {
                day,
                record_no,
                occurred,
                by,
            } => self.decide_event(alloc, *day, *record_no, *occurred, by),
            Act::PlaceHold {
                day,
                code,
                reason,
                by,
            } => self.decide_place_hold(alloc, *day, code, reason, by),
            Act::HoldOn { day, hold, target } => self.decide_hold_on(alloc, *day, hold, target),
            Act::HoldOff { day, hold, target } => self.decide_hold_off(alloc, *day, hold, target),
            Act::LiftHold { day, hold } => self.decide_lift_hold(alloc, *day, hold),
            Act::OpenRun { day, by } => self.decide_open_run(alloc, *day, by),
            Act::RunStep => self.decide_run_step(alloc),
        }
    }
}
