// The fresh table of a network. Total: the contract is an equation with definitions of crate table.
#![tactic(auto)]

ghost use Rattle.std.specs.Prelude.{◌≡◌};
ghost use Rattle.network.specs.Handed.{network};
ghost use Rattle.table.specs.Handed.{SameSlices, table_held};
ghost use Rattle.table.specs.Answers.{fresh_answer, fresh_table};

mod homes;

use homes::all_homes;
use network::Network;
use refusal::Refusal;
use table::TableMut;
use table::ready::ready;

/// The table before any message is delivered; answers how many wait.
pub fn fresh(net: &Network, table: &mut TableMut) -> Result<u64, Refusal>
    ensures { (result ≡ fresh_answer (network net.now) (table_held table.old))
        × (table_held table.new ≡ fresh_table (network net.now) (table_held table.old))
        × SameSlices table.old table.new }
{
    let stacks = ready(net, table.cost.len(), table.way.len(), table.waiting.len())?;
    table.cost.fill(4294967295); // no row
    table.way.fill(65535); // no way
    table.waiting.fill(0);
    Ok(all_homes(net, stacks, table.cost, table.waiting))
}
