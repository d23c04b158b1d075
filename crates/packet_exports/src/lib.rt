// The calls on packets as C gets their answers: packed into one number, or written as four. Crate bannogwy exports them.
#![tactic(auto)]

ghost use Rattle.std.specs.Prelude.{◌≡◌};
ghost use Rattle.network.specs.Handed.{network};
ghost use Rattle.table.specs.Handed.{table_seen};
ghost use Rattle.forward.specs.Answers.{lookup_of};
ghost use Rattle.carry.specs.Carry.{carry_of};
ghost use Rattle.packet_exports.specs.Packing.{pack_look};
ghost use Rattle.packet_exports.specs.Four.{FourExported, ReadExported, carry_four};

mod four;
mod packed;

use four::{Four, four_written};
use network::Network;
use packed::packed_look;
use packing::packed_refused;
use refusal::Refusal;
use table::Table;

/// The next hop of a packet, as the forwarding daemon asks for it.
pub fn lookup(net: &Network, table: &Table, node: usize, destination: usize, stack: &[u8]) -> u64
    ensures { result ≡ pack_look (lookup_of (network net.now) (table_seen table.now) node destination stack.now) }
{
    packed_look(forward::lookup(net, table, node, destination, stack))
}

/// How far a packet is carried: hops, cost spent, node and stack number reached go into answer.
pub fn carry(
    net: &Network,
    table: &Table,
    node: usize,
    destination: usize,
    stack: &[u8],
    limit: usize,
    answer: &mut [u64],
) -> u64
    ensures { FourExported (carry_four (carry_of (network net.now) (table_seen table.now) node destination stack.now limit)) answer.old result answer.new }
{
    if answer.len() < 4 {
        return packed_refused(u32::from(Refusal::NoRoom));
    }
    let carried = carry::carry(net, table, node, destination, stack, limit);
    four_written(Four::from(carried), answer)
}

/// The stack of headers of a packet, bottom to top, into the front of out; its numbers go into answer.
pub fn read_stack(h: usize, packet: &[u8], out: &mut [u8], answer: &mut [u64]) -> u64
    ensures { ReadExported h packet.now out.old answer.old result out.new answer.new }
{
    let room = answer.len();
    if room < 4 {
        return packed_refused(u32::from(Refusal::NoRoom));
    }
    let read = headers::read_stack(h, packet, out);
    four_written(Four::from(read), answer)
}
