//! Why the office refuses an act.
ghost use Rattle.std.specs.Prelude.{◌≡◌};

/// Why the office refuses what it is asked. A refusal changes nothing.
#[derive(Clone, Copy, PartialEq, Eq, Debug)]
pub enum Refusal {
    /// 1: the day is before the office's day.
    DayBack,
    /// 2: a text or a shape is not of its form.
    BadText,
    /// 3: a number or a length is out of its range.
    BadNumber,
    /// 4: the key is there already.
    Exists,
    /// 5: what is named is not there.
    NoSuch,
    /// 6: a limit is reached.
    Full,
    /// 7: the aggregation is closed.
    Closed,
    /// 8: a child aggregation is open.
    ChildOpen,
    /// 9: the parent has depth 8, the greatest.
    TooDeep,
    /// 10: a root has no class.
    NeedsClass,
    /// 11: a class that a hold targets would be left.
    HeldClass,
    /// 12: the hold is lifted.
    Lifted,
    /// 13: the record is ended.
    Ended,
    /// 14: the record is sent or received.
    InTransfer,
    /// 15: there is no due day, or it is after the act's day.
    NotDue,
    /// 16: what is confirmed is not the plan's action, or is to review; or what is reviewed has a
    /// plan of another action.
    WrongAction,
    /// 17: a disposal run is open.
    RunOpen,
    /// 18: no disposal run is open.
    NoRun,
    /// 19: the record is not sent.
    NotSent,
    /// 20: the digest is not the record's.
    WrongDigest,
    /// 21: the event's day is after the act's day.
    NotYet,
}

impl Refusal {
    ghost use Rattle.office_base.specs.Refusals.{refusal_number};

    /// The refusal's number, from 1 to 21. Of several refusals the least number is answered.
    pub fn number(self) -> u8
        ensures { result ≡ refusal_number self }
    {
        match self {
            Refusal::DayBack => 1,
            Refusal::BadText => 2,
            Refusal::BadNumber => 3,
            Refusal::Exists => 4,
            Refusal::NoSuch => 5,
            Refusal::Full => 6,
            Refusal::Closed => 7,
            Refusal::ChildOpen => 8,
            Refusal::TooDeep => 9,
            Refusal::NeedsClass => 10,
            Refusal::HeldClass => 11,
            Refusal::Lifted => 12,
            Refusal::Ended => 13,
            Refusal::InTransfer => 14,
            Refusal::NotDue => 15,
            Refusal::WrongAction => 16,
            Refusal::RunOpen => 17,
            Refusal::NoRun => 18,
            Refusal::NotSent => 19,
            Refusal::WrongDigest => 20,
            Refusal::NotYet => 21,
        }
    }
}
