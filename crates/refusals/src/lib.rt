// Why a call or a text line is refused: document 01's list, whose numbers callers see.
#![tactic(auto)]

ghost use Rattle.std.specs.Prelude.{◌≡◌};
ghost use Rattle.refusals.specs.Refusals.{refusal_number};

// In the order of their numbers, from 1 on; docs/REPLIES.md says when each comes.
#[derive(Clone, Copy, Debug, PartialEq, Eq)]
pub enum Refusal {
    BadLine,
    BadLength,
    NotSound,
    LastTooLate,
    RoundOver,
    BadWeight,
    BadSlot,
    NoTicketLeft,
    TableFull,
    NoSuchTicket,
    NotInPlan,
    NoRoom,
    Sealed,
    BadClass,
}

impl From<Refusal> for u32 {
    ghost from_gives = { λ r n. n ≡ refusal_number r };

    fn from(refusal: Refusal) -> u32 {
        match refusal {
            Refusal::BadLine => 1,
            Refusal::BadLength => 2,
            Refusal::NotSound => 3,
            Refusal::LastTooLate => 4,
            Refusal::RoundOver => 5,
            Refusal::BadWeight => 6,
            Refusal::BadSlot => 7,
            Refusal::NoTicketLeft => 8,
            Refusal::TableFull => 9,
            Refusal::NoSuchTicket => 10,
            Refusal::NotInPlan => 11,
            Refusal::NoRoom => 12,
            Refusal::Sealed => 13,
            Refusal::BadClass => 14,
        }
    }
}
