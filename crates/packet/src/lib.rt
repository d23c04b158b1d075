// What lookup and carry test first: the network, the table's lengths, the two nodes and the stack. Total: the contract is an equation of specs/Packet.antt.
#![tactic(auto)]

ghost use Rattle.std.specs.Prelude.{◌≡◌};
ghost use Rattle.network.specs.Handed.{network};
ghost use Rattle.table.specs.Handed.{table_seen};
ghost use Rattle.packet.specs.Packet.{packet_of};

use network::Network;
use refusal::Refusal;
use table::Table;
use table::ready::ready;

/// A packet that is not refused: how many stacks its network has, and the number of its own.
#[derive(Clone, Copy, Debug, PartialEq, Eq, Drop)]
pub struct Packet {
    pub stacks: usize,
    pub number: usize,
}

/// Refusals 1 to 4, but for the limit of carry.
pub fn begin(
    net: &Network,
    table: &Table,
    node: usize,
    destination: usize,
    stack: &[u8],
) -> Result<Packet, Refusal>
    ensures { result ≡ packet_of (network net.now) (table_seen table.now) node destination stack.now }
{
    let stacks = ready(net, table.cost.len(), table.way.len(), table.waiting.len())?;
    if net.n <= node {
        return Err(Refusal::Range);
    }
    if net.n <= destination {
        return Err(Refusal::Range);
    }
    let number = stacks::number_of(net.p, net.h, stack)?;
    Ok(Packet { stacks, number })
}
