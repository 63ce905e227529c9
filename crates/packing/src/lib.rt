// A call's reply packed into one number, by the rule of docs/REPLIES.md.
#![tactic(auto)]

ghost use Rattle.std.specs.Prelude.{⊤, ◌≡◌, ◌+◌, ◌*◌, ◌≤◌};
ghost use Rattle.std.specs.Result.{ForOk};
ghost use Rattle.rules.specs.Calls.{Reply, refused, done, ticket, step, amount};
ghost use Rattle.replies.specs.Replies.{of_out, of_step, of_substitute};
ghost use Rattle.packing.specs.Packing.{pack_out, pack, reply_of};

use refusals::Refusal;
use replies::{Out, Step, Substitute};
use sorts::{Ticket, Weight};

// What a call answers that is accepted and has nothing more to say.
const ACCEPTED: u64 = 0;

// A ticket or an amount stands above the refusal's eight bits.
const VALUE_PLACE: u64 = 256;

// What went out, and a blank's due slot, stand above a ticket.
const OUT_PLACE: u64 = 4294967296;

const LEAP_PLACE: u64 = 17179869184;

pub fn pack_reply<T: Packed>(reply: Result<T, Refusal>) -> u64
    requires { ForOk reply T.fits }
    ensures { result ≡ pack (reply_of T.said reply) }
{
    match reply {
        Ok(value) => value.packed(),
        Err(refusal) => pack_refusal(u32::from(refusal)),
    }
}

pub fn pack_refusal(number: u32) -> u64
    ensures { result ≡ pack (refused number) }
{
    u64::from(number)
}

// What an accepted call answers: the reply that a value says, and whether its number is small enough.
pub trait Packed {
    ghost said: { Self → Reply };

    ghost fits: { Self → Type 0 } = { λ _. ⊤ };

    fn packed(self) -> u64
        requires { fits self }
        ensures { result ≡ pack (said self) };
}

impl Packed for () {
    ghost said = { λ _. done };

    fn packed(self) -> u64 {
        ACCEPTED
    }
}

impl Packed for Ticket {
    ghost said = { λ k. ticket k.0 };

    fn packed(self) -> u64 {
        VALUE_PLACE * u64::from(self.0)
    }
}

impl Packed for Weight {
    ghost said = { λ w. amount w.0 };

    fn packed(self) -> u64 {
        VALUE_PLACE * u64::from(self.0)
    }
}

// A total, at most that of a full table.
impl Packed for u64 {
    ghost said = { amount };

    ghost fits = { λ n. n ≤ 17179869184 };

    fn packed(self) -> u64 {
        VALUE_PLACE * self
    }
}

impl Packed for Step {
    ghost said = { λ s. step (of_step s) };

    fn packed(self) -> u64 {
        match self {
            Step::Ordinary(out) => pack_out(out),
            Step::Leap(out) => pack_out(out) + LEAP_PLACE,
        }
    }
}

fn pack_out(out: Out) -> u64
    ensures { (result ≡ pack_out (of_out out)) × (result ≤ 1108101562368) }
{
    match out {
        Out::Silence => 0,
        Out::Frame(ticket) => ticket.packed() + OUT_PLACE,
        Out::KeptBlank(ticket) => ticket.packed() + 2 * OUT_PLACE,
    }
}

impl Packed for Substitute {
    ghost said = { of_substitute };

    fn packed(self) -> u64 {
        match self {
            Substitute::Row(ticket) => ticket.packed(),
            Substitute::Blank(slot) => OUT_PLACE * u64::from(slot.0),
        }
    }
}
