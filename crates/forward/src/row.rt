// One lookup, of the stack of a number.
ghost use Rattle.std.specs.Prelude.{◌≡◌, false, ◌≤◌};
ghost use Rattle.network.specs.Handed.{network};
ghost use Rattle.table.specs.Table.{home};
ghost use Rattle.forward.specs.Answers.{ok_place, row_answer, look_of};

use crate::{Hop, Look};
use network::Network;
use refusal::Refusal;
use table::Table;

// Whether a row has these numbers: its place is then worked out without wrapping.
fn good_place(n: usize, stacks: usize, node: usize, destination: usize, number: usize) -> bool
    ensures { result ≡ ok_place n stacks node destination number }
{
    (n <= 32)
        & (stacks <= 16384)
        & (node < n)
        & (destination < n)
        & (1 <= number)
        & (number <= stacks)
}

// Whether a packet is delivered at the node: it is the destination and accepts the one protocol of the stack.
fn is_home(net: &Network, node: usize, destination: usize, number: usize) -> bool
    requires { 1 ≤ number }
    ensures { result ≡ home (network net.now) node destination number }
{
    node == destination && number <= net.p && gateways::accepts(net, destination, number - 1)
}

// What a row answers where the packet is not delivered: its cost is tested, then what its way names.
fn row_answer(
    net: &Network,
    stacks: usize,
    node: usize,
    number: usize,
    paid: u32,
    named: usize,
) -> Result<Look, Refusal>
    ensures { result ≡ row_answer (network net.now) stacks false node number paid named }
{
    if paid == 4294967295 { // no row
        return Err(Refusal::NoRoute);
    }
    if paid == 0 {
        return Err(Refusal::Broken);
    }
    if 2147303427 < paid { // the ceiling
        return Err(Refusal::Broken);
    }
    let next = named / 256;
    let function = named % 256;
    if net.link(node, next) == 0 {
        return Err(Refusal::Broken);
    }
    if gateways::word(net, node, function) == 0 {
        return Err(Refusal::Broken);
    }
    let Ok(Some(made)) = functions::moved(net.p, stacks, function, number) else {
        return Err(Refusal::Broken);
    };
    Ok(Look::Forward(Hop {
        next,
        function,
        number: made,
        cost: paid,
    }))
}

// As lookup, of the stack of a number, for a caller that has tested the network and the table and worked out how many stacks there are.
// Being delivered is tested before the row is read.
pub fn look(
    net: &Network,
    stacks: usize,
    table: &Table,
    node: usize,
    destination: usize,
    number: usize,
) -> Result<Look, Refusal>
    ensures { result ≡ look_of (network net.now) stacks table.now.cost.now table.now.way.now node destination number }
{
    if !good_place(net.n, stacks, node, destination, number) {
        return Err(Refusal::Range);
    }
    if is_home(net, node, destination, number) {
        return Ok(Look::Delivered);
    }
    let at = (node * net.n + destination) * stacks + (number - 1);
    if table.cost.len() <= at {
        return Err(Refusal::Broken);
    }
    let paid = table.cost[at];
    let named = network::entry(table.way, at) as usize;
    row_answer(net, stacks, node, number, paid, named)
}
