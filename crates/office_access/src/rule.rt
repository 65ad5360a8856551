//! The rules of four eyes.
ghost use Rattle.std.specs.Prelude.{◌≡◌};
ghost use Rattle.office_access.specs.Words.{rule_word};

/// The rules of four eyes that the office itself can decide, each of them on or off.
#[derive(Clone, Copy)]
pub struct Rules {
    /// Whoever opened a run does not carry it out.
    pub opener_does_not_carry_out: bool,
    /// Whoever confirmed a record opens no run before that record has ended.
    pub confirmer_does_not_open: bool,
    /// Whoever changed when a record is due, fewer than that number of days before the run's day,
    /// does not open the run; `None` if the rule is off. The office knows who recorded an event and
    /// who reviewed a record. Who gave a schedule or a class, only the journal knows.
    pub changer_does_not_open: Option<u16>,
    /// Whoever opened the run that sent a record does not file its receipt.
    pub sender_does_not_receive: bool,
    /// Whoever filed a receipt opens no run before that record has ended.
    pub receiver_does_not_open: bool,
}

/// A rule of four eyes, by its name in the settings.
#[derive(Clone, Copy, PartialEq, Eq, Debug)]
pub enum Rule {
    OpenerDoesNotCarryOut,
    ConfirmerDoesNotOpen,
    ChangerDoesNotOpen,
    SenderDoesNotReceive,
    ReceiverDoesNotOpen,
}

impl Rule {
    /// The name of the rule in the settings.
    pub fn text(self) -> &'static str
        ensures { result.now ≡ rule_word self }
    {
        match self {
            Rule::OpenerDoesNotCarryOut => "opener-does-not-carry-out",
            Rule::ConfirmerDoesNotOpen => "confirmer-does-not-open",
            Rule::ChangerDoesNotOpen => "changer-does-not-open",
            Rule::SenderDoesNotReceive => "sender-does-not-receive",
            Rule::ReceiverDoesNotOpen => "receiver-does-not-open",
        }
    }
}
