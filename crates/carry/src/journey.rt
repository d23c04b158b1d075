// The hops of a packet, in a network and a table that `packet::begin` found right.
ghost use Rattle.std.specs.Prelude.{◌≡◌, ◌≤◌, true};
ghost use Rattle.network.specs.Handed.{network};
ghost use Rattle.gateways.specs.Gateways.{can, weight};
ghost use Rattle.table.specs.Handed.{table_seen};
ghost use Rattle.packet.specs.Packet.{Placed};
ghost use Rattle.carry.specs.Carry.{journey, Carries};

use crate::Carried;
use forward::row::look;
use forward::{Hop, Look};
use network::Network;
use refusal::Refusal;
use table::Table;

// What one hop costs: the link and the price, which is written down with 1 added.
fn hop_cost(net: &Network, node: usize, hop: Hop) -> u64
    requires { can (network net.now) node hop.function ≡ true }
    ensures { (result ≡ weight (network net.now) node hop.function hop.next) × (result ≤ 131069) }
{
    let link = net.link(node, hop.next);
    let word = gateways::word(net, node, hop.function);
    link as u64 + (word - 1) as u64
}

// Hop by hop: being delivered is tested first, then refusals 6 and 7, then the limit.
pub(crate) fn travel(
    net: &Network,
    stacks: usize,
    table: &Table,
    from: usize,
    destination: usize,
    first: usize,
    limit: u64,
) -> Carried
    requires placed { Placed (network net.now) stacks from destination first }
    requires limit_bound { limit ≤ 16384 }
    ensures { Carries (journey (network net.now) (table_seen table.now) destination limit from first) result }
{
    let mut hops: u64 = 0;
    let mut spent: u64 = 0;
    let mut node = from;
    let mut number = first;
    loop {
        let found = look(net, stacks, table, node, destination, number);
        let Ok(Look::Forward(hop)) = found else {
            return Carried {
                hops,
                spent,
                node,
                number,
                refused: found.err(),
            };
        };
        if hops == limit {
            return Carried {
                hops,
                spent,
                node,
                number,
                refused: Some(Refusal::Limit),
            };
        }
        spent += hop_cost(net, node, hop);
        hops += 1;
        node = hop.next;
        number = hop.number;
    }
}
