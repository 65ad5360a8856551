//! Retention periods: a count of days, weeks, months or years, within the unit's limit.
ghost use Rattle.std.specs.Prelude.{◌≡◌, ◌≤◌, ◌↔◌, IsSome, IfSome};
ghost use Rattle.office_days.specs.Limits.{longest};

use crate::Unit;
use std::marker::Model;

/// How long a record is kept from its start day on: a count of units, of about five hundred
/// years at most (182,500 days, 26,000 weeks, 6,000 months or 500 years).
#[derive(Clone, Copy, PartialEq, Eq, Debug)]
pub struct Period {
    unit: Unit,
    count: u32,
}

impl Model for Period {
    ghost use Rattle.std.specs.Prelude.{◌≤◌};
    ghost use Rattle.office_days.specs.Limits.{longest};
    ghost use Rattle.office_days.specs.Periods.{RetentionPeriod};

    ghost Value = { RetentionPeriod };

    ghost view = { λ p. record { unit = p.unit; count = p.count } };

    ghost inverse = { λ v. record { unit = v.unit; count = v.count } };

    ghost invariant = { λ p. p.count ≤ longest p.unit };
}

impl Period {
    /// The period of so many units; `None` where that is more than the unit's limit.
    pub fn new(unit: Unit, count: u32) -> Option<Period>
        ensures within { IsSome result ↔ (count ≤ longest unit) }
        ensures unit { IfSome result (λ p. p.unit ≡ unit) }
        ensures count { IfSome result (λ p. p.count ≡ count) }
    {
        let limit = match unit {
            Unit::Days => 182_500,
            Unit::Weeks => 26_000,
            Unit::Months => 6_000,
            Unit::Years => 500,
        };
        if count > limit {
            return None;
        }
        Some(Period { unit, count })
    }

    /// The same of a count that was read of a text, whatever its size.
    pub fn of_count(unit: Unit, count: u64) -> Option<Period>
        ensures within { IsSome result ↔ (count ≤ longest unit) }
        ensures unit { IfSome result (λ p. p.unit ≡ unit) }
        ensures count { IfSome result (λ p. p.count ≡ count) }
    {
        Period::new(unit, u32::try_from(count).ok()?)
    }

    /// In what the period is counted.
    pub fn unit(self) -> Unit
        ensures { result ≡ self.unit }
    {
        self.unit
    }

    /// How many units the period has.
    pub fn count(self) -> u32
        ensures value { result ≡ self.count }
        ensures within { result ≤ longest self.unit }
    {
        self.count
    }
}
