// How far a packet is carried. The call takes any input; its contract is an equation of specs/Carry.antt.
#![tactic(auto)]

ghost use Rattle.std.specs.Prelude.{◌≡◌};
ghost use Rattle.network.specs.Handed.{network};
ghost use Rattle.table.specs.Handed.{table_seen};
ghost use Rattle.carry.specs.Carry.{Carries, carry_of, zeros};

mod journey;

use journey::travel;
use network::Network;
use refusal::Refusal;
use table::Table;

/// How far a packet came: hops, the cost spent on them, the node and stack number reached, and the refusal that stopped it, if it is not delivered.
#[derive(Clone, Copy, Debug, PartialEq, Eq, Drop)]
pub struct Carried {
    pub hops: u64,
    pub spent: u64,
    pub node: usize,
    pub number: usize,
    pub refused: Option<Refusal>,
}

// What is answered where the packet does not set out.
fn zeros(refusal: Refusal) -> Carried
    ensures { result ≡ zeros refusal }
{
    Carried {
        hops: 0,
        spent: 0,
        node: 0,
        number: 0,
        refused: Some(refusal),
    }
}

/// Lookups in turn until the packet is delivered, one is refused, or `limit` hops are done.
pub fn carry(
    net: &Network,
    table: &Table,
    node: usize,
    destination: usize,
    stack: &[u8],
    limit: usize,
) -> Carried
    ensures { Carries (carry_of (network net.now) (table_seen table.now) node destination stack.now limit) result }
{
    let packet = match packet::begin(net, table, node, destination, stack) {
        Ok(packet) => packet,
        Err(refusal) => return zeros(refusal),
    };
    if 16384 < limit {
        return zeros(Refusal::Range);
    }
    travel(
        net,
        packet.stacks,
        table,
        node,
        destination,
        packet.number,
        limit as u64,
    )
}
