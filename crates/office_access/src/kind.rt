//! The kinds of acts.
ghost use Rattle.std.specs.Prelude.{◌≡◌};
ghost use Rattle.office_access.specs.Kinds.{kind_number, same_kind};

/// The kind of an act.
#[derive(Clone, Copy, PartialEq, Eq, Debug)]
pub enum Kind {
    AddSchedule,
    AddClass,
    SetClassSchedule,
    AddAggregation,
    CloseAggregation,
    AddRecord,
    SetRecordSchedule,
    Reclassify,
    PlaceHold,
    HoldOn,
    HoldOff,
    LiftHold,
    Confirm,
    Review,
    Receipt,
    Event,
    OpenRun,
    RunStep,
}

impl Kind {
    /// Numbers the kinds: each has its own number.
    pub fn number(self) -> u8
        ensures { result ≡ kind_number self }
    {
        match self {
            Kind::AddSchedule => 0,
            Kind::AddClass => 1,
            Kind::SetClassSchedule => 2,
            Kind::AddAggregation => 3,
            Kind::CloseAggregation => 4,
            Kind::AddRecord => 5,
            Kind::SetRecordSchedule => 6,
            Kind::Reclassify => 7,
            Kind::PlaceHold => 8,
            Kind::HoldOn => 9,
            Kind::HoldOff => 10,
            Kind::LiftHold => 11,
            Kind::Confirm => 12,
            Kind::Review => 13,
            Kind::Receipt => 14,
            Kind::Event => 15,
            Kind::OpenRun => 16,
            Kind::RunStep => 17,
        }
    }

    /// Reports whether the two are one kind.
    pub fn is(self, other: Kind) -> bool
        ensures { result ≡ same_kind self other }
    {
        self.number() == other.number()
    }
}
