//! Whether one name alone can destroy a record.
ghost use Rattle.std.specs.Prelude.{◌≡◌};
ghost use Rattle.office_access.specs.Alone.{destroys_alone, destroys_by_confirming, destroys_by_receipt, runs_alone};

use crate::{Grants, Kind, Power, Rules};

impl Rules {
    /// Reports whether a name with these rights may open a run and carry that run out.
    fn let_run_alone(&self, grants: &Grants) -> bool
        ensures { result ≡ runs_alone self.now grants.now }
    {
        grants.may_in(Power::Act(Kind::OpenRun), None) && !self.opener_does_not_carry_out
    }

    /// Reports whether a name with these rights can alone confirm and have a run that takes the
    /// record; `is_run_open` says whether another name has opened a run.
    pub fn let_destroy_by_confirming(&self, grants: &Grants, is_run_open: bool) -> bool
        ensures { result ≡ destroys_by_confirming self.now grants.now is_run_open }
    {
        if !grants.may_at_all(Power::Act(Kind::Confirm)) || self.confirmer_does_not_open {
            return false;
        }
        if is_run_open {
            self.changer_does_not_open.is_none()
        } else {
            self.let_run_alone(grants)
        }
    }

    /// Reports whether a name with these rights can alone file a receipt and have a run that ends
    /// the record.
    pub fn let_destroy_by_receipt(&self, grants: &Grants, is_run_open: bool) -> bool
        ensures { result ≡ destroys_by_receipt self.now grants.now is_run_open }
    {
        grants.may_at_all(Power::Act(Kind::Receipt))
            && !self.receiver_does_not_open
            && (is_run_open || self.let_run_alone(grants))
    }

    /// Reports whether a name with these rights can destroy a record with no other name.
    pub fn let_destroy_alone(&self, grants: &Grants, is_run_open: bool) -> bool
        ensures { result ≡ destroys_alone self.now grants.now is_run_open }
    {
        grants.may_carry_out()
            && (self.let_destroy_by_confirming(grants, is_run_open)
                || self.let_destroy_by_receipt(grants, is_run_open))
    }
}
