// Sealing a round: refusals 2, 3 and 5.
#![tactic(auto)]

ghost use Rattle.rules.specs.Calls.{sealing, acting, Says};
ghost use Rattle.replies.specs.Replies.{of_sealed};

use checks::may_send;
use refusals::Refusal;
use round::sound::judge;
use sorts::Round;

// A round that is sealed stays so.
pub fn seal_round(table: &mut [u8]) -> Result<(), Refusal>
    ensures { Says (acting sealing) (of_sealed result) table.old table.new }
{
    let round = judge(table)?;
    may_send(round)?;
    table[Round::SEALED_AT] = 1;
    Ok(())
}
