//! Why a value of JSON is read as no act, and which of two such reasons is answered.
use office_base::{Memory, Refusal};

/// Why no act was read.
#[derive(Clone, Copy, PartialEq, Eq, Debug)]
pub enum ReadFault {
    /// The value asks for no act: `BadText` where its shape or a text is not of its form, else
    /// `BadNumber` where a number or a length is out of its range.
    Refused(Refusal),
    /// Memory was asked for and refused.
    Memory,
}

impl ReadFault {
    ghost use Rattle.std.specs.Prelude.{◌≡◌};
    ghost use Rattle.office_rules.specs.Parts.{min_refusal};

    /// Of two faults the one to report: a refusal before lack of memory, and of two refusals that
    /// with the least number.
    pub(crate) fn min_refusal(self, other: ReadFault) -> ReadFault
        ensures { result ≡ min_refusal self other }
    {
        match (self, other) {
            (ReadFault::Memory, other) => other,
            (first, ReadFault::Memory) => first,
            (ReadFault::Refused(a), ReadFault::Refused(b)) => {
                ReadFault::Refused(if a.number() <= b.number() { a } else { b })
            }
        }
    }
}

impl From<Memory> for ReadFault {
    ghost use Rattle.std.specs.Prelude.{◌≡◌};
    ghost use Rattle.office_rules.specs.declared.read_fault.ReadFault.TheVariants.{Memory};

    ghost from_gives = { λ _ fault. fault ≡ Memory };

    fn from(_memory: Memory) -> ReadFault {
        ReadFault::Memory
    }
}

impl From<Refusal> for ReadFault {
    ghost use Rattle.std.specs.Prelude.{◌≡◌};
    ghost use Rattle.office_rules.specs.declared.read_fault.ReadFault.TheVariants.{Refused};

    ghost from_gives = { λ refusal fault. fault ≡ Refused refusal };

    fn from(refusal: Refusal) -> ReadFault {
        ReadFault::Refused(refusal)
    }
}
