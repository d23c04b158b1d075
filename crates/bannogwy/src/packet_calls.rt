// The calls on packets.
ghost use Rattle.std.specs.Prelude.{◌≡◌};
ghost use Rattle.network.specs.Network.{network_of};
ghost use Rattle.table.specs.Table.{table_of};
ghost use Rattle.forward.specs.Answers.{lookup_of};
ghost use Rattle.carry.specs.Carry.{carry_of};
ghost use Rattle.packet_exports.specs.Packing.{pack_look};
ghost use Rattle.packet_exports.specs.Four.{FourExported, ReadExported, carry_four};

use network::Network;
use table::Table;

// The next hop of a packet, as the forwarding daemon asks for it.
#[unsafe(no_mangle)]
pub extern "C" fn bannogwy_lookup(
    n: usize,
    p: usize,
    h: usize,
    links: &[u16],
    functions: &[u16],
    cost: &[u32],
    way: &[u16],
    waiting: &[u32],
    node: usize,
    destination: usize,
    stack: &[u8],
) -> u64
    ensures { result ≡ pack_look (lookup_of (network_of n p h links.now functions.now) (table_of cost.now way.now waiting.now) node destination stack.now) }
{
    let net = Network {
        n,
        p,
        h,
        links,
        functions,
    };
    let table = Table { cost, way, waiting };
    packet_exports::lookup(&net, &table, node, destination, stack)
}

// How far a packet is carried: hops, cost spent, node and stack number reached go into answer.
#[unsafe(no_mangle)]
pub extern "C" fn bannogwy_carry(
    n: usize,
    p: usize,
    h: usize,
    links: &[u16],
    functions: &[u16],
    cost: &[u32],
    way: &[u16],
    waiting: &[u32],
    node: usize,
    destination: usize,
    stack: &[u8],
    limit: usize,
    answer: &mut [u64],
) -> u64
    ensures { FourExported
        (carry_four (carry_of (network_of n p h links.now functions.now) (table_of cost.now way.now waiting.now) node destination stack.now limit))
        answer.old result answer.new }
{
    let net = Network {
        n,
        p,
        h,
        links,
        functions,
    };
    let table = Table { cost, way, waiting };
    packet_exports::carry(&net, &table, node, destination, stack, limit, answer)
}

// The stack of headers of a packet, bottom to top, into the front of out; its numbers go into answer.
#[unsafe(no_mangle)]
pub extern "C" fn bannogwy_read_stack(
    h: usize,
    packet: &[u8],
    out: &mut [u8],
    answer: &mut [u64],
) -> u64
    ensures { ReadExported h packet.now out.old answer.old result out.new answer.new }
{
    packet_exports::read_stack(h, packet, out, answer)
}
