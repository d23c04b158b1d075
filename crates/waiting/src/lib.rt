// The calls count and first waiting. Total: the contracts are equations with definitions of crate table.
#![tactic(auto)]

ghost use Rattle.std.specs.Prelude.{◌≡◌};
ghost use Rattle.network.specs.Handed.{network};
ghost use Rattle.table.specs.Handed.{table_seen};
ghost use Rattle.table.specs.Answers.{count_answer, first_answer};

mod search;

use network::Network;
use refusal::Refusal;
use search::search;
use table::ready::ready;
use table::{Message, Table};

/// How many messages wait in the whole table.
pub fn count(net: &Network, table: &Table) -> Result<u64, Refusal>
    ensures { result ≡ count_answer (network net.now) (table_seen table.now) }
{
    ready(net, table.cost.len(), table.way.len(), table.waiting.len())?;
    Ok(words::ones_in(table.waiting))
}

/// The first message that waits, by node, then row, then lowest bit.
pub fn first_waiting(net: &Network, table: &Table) -> Result<Option<Message>, Refusal>
    ensures { result ≡ first_answer (network net.now) (table_seen table.now) }
{
    let stacks = ready(net, table.cost.len(), table.way.len(), table.waiting.len())?;
    let Some(found) = search(net.n, net.n * stacks, table.waiting) else {
        return Ok(None);
    };
    let pair = found.word / stacks;
    Ok(Some(Message {
        sender: pair / net.n,
        receiver: found.bit,
        destination: pair % net.n,
        number: found.word % stacks + 1,
    }))
}
