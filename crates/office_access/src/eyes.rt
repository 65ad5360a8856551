//! The rules of four eyes, as the office itself decides them.
ghost use Rattle.std.specs.Prelude.{◌≡◌, ◌&&◌, ◌||◌, None};
ghost use Rattle.std.specs.List.{find};
ghost use Rattle.std.specs.Option.{option_copied, option_map};
ghost use Rattle.std.specs.Str.{bytes_eq};
ghost use Rattle.office_records.specs.Lists.{is_some_and};
ghost use Rattle.office_access.specs.Eyes.{forbids, has_part, is_opener};
ghost use Rattle.office_access.specs.Permits.{rule_against};

use crate::act_kind::{is_decision, is_making, kind_of, opening_day, received_record};
use crate::sending::sender;
use crate::trace::Trace;
use crate::traces::has_trace_anywhere;
use crate::{Denial, Grants, Kind, OfficeView, Rule, Rules};
use office_records::Text;
use office_rules::Act;

/// Reports whether the office names whoever signs so.
fn is_by(by: Option<&Text>, signs: &Text) -> bool
    ensures { result ≡ is_some_and (option_copied by.entry) (bytes_eq signs.now) }
{
    match by {
        Some(by) => *signs == *by,
        None => false,
    }
}

/// Reports whether the name opened the run that is open.
pub(crate) fn is_opener<V: OfficeView>(office: &V, signs: &Text) -> bool
    ensures { result ≡ is_opener (V.office office.now) signs.now }
{
    is_by(office.opener(), signs)
}

/// Reports whether a run is open that the name opened or may carry out.
fn has_part<V: OfficeView>(office: &V, signs: &Text, grants: &Grants) -> bool
    ensures { result ≡ has_part (V.office office.now) signs.now grants.now }
{
    office.opener().is_some() && (is_opener(office, signs) || grants.may_carry_out())
}

impl Rules {
    /// Reports whether whoever opened the run would take a step of it.
    fn forbid_carrying_out<V: OfficeView>(
        &self,
        office: &V,
        signs: &Text,
        grants: &Grants,
        act: &Act,
    ) -> bool
        ensures { result
            ≡ forbids self.now (V.office office.now) signs.now grants.now act.now
            Rule.OpenerDoesNotCarryOut }
    {
        self.opener_does_not_carry_out && kind_of(act).is(Kind::RunStep) && is_opener(office, signs)
    }

    /// Reports whether whoever confirmed would open a run, or whoever has a part in one would
    /// decide.
    fn forbid_confirmer<V: OfficeView>(
        &self,
        office: &V,
        signs: &Text,
        grants: &Grants,
        act: &Act,
    ) -> bool
        ensures { result
            ≡ forbids self.now (V.office office.now) signs.now grants.now act.now
            Rule.ConfirmerDoesNotOpen }
    {
        self.confirmer_does_not_open
            && (opening_day(act).is_some()
                && has_trace_anywhere(office.tree(), signs, &Trace::Confirmation)
                || is_decision(act) && has_part(office, signs, grants))
    }

    /// Reports whether whoever changed a record would open a run, or whoever has a part in one
    /// would decide, or make something that a run may take.
    fn forbid_changer<V: OfficeView>(
        &self,
        office: &V,
        signs: &Text,
        grants: &Grants,
        act: &Act,
    ) -> bool
        ensures { result
            ≡ forbids self.now (V.office office.now) signs.now grants.now act.now
            Rule.ChangerDoesNotOpen }
    {
        let Some(days) = self.changer_does_not_open else {
            return false;
        };
        if let Some(day) = opening_day(act) {
            if has_trace_anywhere(office.tree(), signs, &Trace::Change { days, day }) {
                return true;
            }
        }
        (is_decision(act) || is_making(act)) && has_part(office, signs, grants)
    }

    /// Reports whether whoever opened the run that sent the record would file its receipt.
    fn forbid_sender<V: OfficeView>(
        &self,
        office: &V,
        signs: &Text,
        grants: &Grants,
        act: &Act,
    ) -> bool
        ensures { result
            ≡ forbids self.now (V.office office.now) signs.now grants.now act.now
            Rule.SenderDoesNotReceive }
    {
        let _ = grants;
        if !self.sender_does_not_receive {
            return false;
        }
        match received_record(act) {
            Some(record_no) => is_by(sender(office, record_no), signs),
            None => false,
        }
    }

    /// Reports whether whoever filed a receipt would open a run, or whoever has a part in one would
    /// file a receipt.
    fn forbid_receiver<V: OfficeView>(
        &self,
        office: &V,
        signs: &Text,
        grants: &Grants,
        act: &Act,
    ) -> bool
        ensures { result
            ≡ forbids self.now (V.office office.now) signs.now grants.now act.now
            Rule.ReceiverDoesNotOpen }
    {
        self.receiver_does_not_open
            && (opening_day(act).is_some()
                && has_trace_anywhere(office.tree(), signs, &Trace::Receipt)
                || received_record(act).is_some() && has_part(office, signs, grants))
    }

    /// Finds the first rule that forbids the act.
    fn rule_against<V: OfficeView>(
        &self,
        office: &V,
        signs: &Text,
        grants: &Grants,
        act: &Act,
    ) -> Option<Rule>
        ensures { result
            ≡ rule_against self.now (V.office office.now) signs.now grants.now act.now }
    {
        if self.forbid_carrying_out(office, signs, grants, act) {
            return Some(Rule::OpenerDoesNotCarryOut);
        }
        if self.forbid_confirmer(office, signs, grants, act) {
            return Some(Rule::ConfirmerDoesNotOpen);
        }
        if self.forbid_changer(office, signs, grants, act) {
            return Some(Rule::ChangerDoesNotOpen);
        }
        if self.forbid_sender(office, signs, grants, act) {
            return Some(Rule::SenderDoesNotReceive);
        }
        if self.forbid_receiver(office, signs, grants, act) {
            return Some(Rule::ReceiverDoesNotOpen);
        }
        None
    }

    /// Finds the denial by the first rule that forbids the act.
    pub(crate) fn deny_by_rule<V: OfficeView>(
        &self,
        office: &V,
        signs: &Text,
        grants: &Grants,
        act: &Act,
    ) -> Option<Denial>
        ensures { result
            ≡ option_map Denial.Eyes
            (rule_against self.now (V.office office.now) signs.now grants.now act.now) }
    {
        match self.rule_against(office, signs, grants, act) {
            Some(rule) => Some(Denial::Eyes(rule)),
            None => None,
        }
    }
}
