// Where a packet goes next. Every public function takes any input; its contract is an equation of specs/Answers.antt.
#![tactic(auto)]

ghost use Rattle.std.specs.Prelude.{◌≡◌};
ghost use Rattle.network.specs.Handed.{network};
ghost use Rattle.table.specs.Handed.{table_seen};
ghost use Rattle.forward.specs.Answers.{lookup_of};

pub mod row;

use network::Network;
use refusal::Refusal;
use row::look;
use table::Table;

/// One hop: the next node, the function used on the way, the number of the stack that it makes, and what the row costs.
#[derive(Clone, Copy, Debug, PartialEq, Eq, Drop)]
pub struct Hop {
    pub next: usize,
    pub function: usize,
    pub number: usize,
    pub cost: u32,
}

/// What a node does with a packet: delivered here, or sent on.
#[derive(Clone, Copy, Debug, PartialEq, Eq, Drop)]
pub enum Look {
    Delivered,
    Forward(Hop),
}

/// What a node does with a packet: the stack's protocols stand bottom to top.
pub fn lookup(
    net: &Network,
    table: &Table,
    node: usize,
    destination: usize,
    stack: &[u8],
) -> Result<Look, Refusal>
    ensures { result ≡ lookup_of (network net.now) (table_seen table.now) node destination stack.now }
{
    let packet = packet::begin(net, table, node, destination, stack)?;
    look(net, packet.stacks, table, node, destination, packet.number)
}
