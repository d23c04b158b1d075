// One delivery to a gateway that is handed over as numbers and grids. Total: the contract is an equation with definitions of specs/Step.antt.
#![tactic(auto)]

ghost use Rattle.std.specs.Prelude.{◌≡◌, ◌<◌, length, get_or};
ghost use Rattle.network.specs.Handed.{network};
ghost use Rattle.hear.specs.Handed.{gateway_seen, message_seen};
ghost use Rattle.table.specs.Table.{table_of};
ghost use Rattle.table.specs.Handed.{SameSlices, table_held};
ghost use Rattle.table.specs.Answers.{ok_message_in};
ghost use Rattle.step.specs.Step.{ok_rows, Stepped};
ghost use Rattle.step.specs.Steps.{told_of, HasPart, Received};
ghost use Rattle.step.specs.InNetwork.{gateway_at};

use hear::Gateway;
use network::Network;
use refusal::Refusal;
use table::{Message, TableMut};

// What the message tells of: where the sender's row stands and what it costs.
#[derive(Clone, Copy)]
struct Told {
    place: usize,
    cost: u32,
}

// A node as the gateway that hears, with `most` stacks: its neighbours, and its grids of the three kinds.
pub fn gateway_at(net: &Network, most: usize, node: usize) -> Gateway
    ensures { result ≡ gateway_at (network net.now) most node }
{
    Gateway {
        p: net.p,
        most,
        neighbours: net.neighbours(node),
        convert: gateways::grid(net, node, 0),
        wrap: gateways::grid(net, node, 1),
        unwrap: gateways::grid(net, node, 2),
    }
}

// Whether n, p and `stacks` are in range and each slice has n x n x `stacks` rows.
fn good_sizes(n: usize, p: usize, stacks: usize, costs: usize, ways: usize, waits: usize) -> bool
    ensures { result ≡ ok_rows n p stacks costs ways waits }
{
    if !((1 <= p) & (p <= 8) & (n <= 32) & (stacks <= 16384)) {
        return false;
    }
    let rows_all = n * (n * stacks);
    (costs == rows_all) & (ways == rows_all) & (waits == rows_all)
}

// Whether the message's numbers are in range.
fn good_numbers(n: usize, stacks: usize, message: Message) -> bool
    ensures { result ≡ ok_message_in n stacks message.sender message.receiver message.destination message.number }
{
    (message.sender < n)
        & (message.receiver < n)
        & (message.destination < n)
        & (1 <= message.number)
        & (message.number <= stacks)
}

// A row's cost. It is lent the rows of one gateway, the sender, and no others.
fn read_cost(costs: &[u32], at: usize) -> u32
    requires { at < length costs.now }
    ensures { result ≡ get_or costs.now at 0 }
{
    costs[at]
}

// Where the sender's row stands and what it costs, or the first of refusals 3, 4, 5 and 7. It only reads.
fn read_row(
    n: usize,
    p: usize,
    stacks: usize,
    link: u16,
    table: &TableMut,
    message: Message,
) -> Result<Told, Refusal>
    ensures { result ≡ told_of n p stacks link (table_held table.now) message.sender message.receiver message.destination message.number }
{
    if !good_sizes(
        n,
        p,
        stacks,
        table.cost.len(),
        table.way.len(),
        table.waiting.len(),
    ) {
        return Err(Refusal::Table);
    }
    if !good_numbers(n, stacks, message) {
        return Err(Refusal::Range);
    }
    let rows_each = n * stacks;
    let start = message.sender * rows_each;
    let end = start + rows_each;
    let at = message.destination * stacks + (message.number - 1);
    let place = start + at;
    if !bits::has(table.waiting[place], message.receiver) {
        return Err(Refusal::NoMessage);
    }
    let cost = read_cost(&table.cost[start..end], at);
    if 2147303427 < cost { // the ceiling
        return Err(Refusal::Broken);
    }
    if link == 0 {
        return Err(Refusal::Broken);
    }
    Ok(Told { place, cost })
}

// The receiver hears the message: it is lent its own rows, `rows_each` of them, and no others.
fn receive(
    cost: &mut [u32],
    way: &mut [u16],
    waiting: &mut [u32],
    rows_each: usize,
    receiver: usize,
    gateway: Gateway,
    message: hear::Message,
) -> Result<usize, Refusal>
    requires { HasPart rows_each receiver (length cost.old) (length way.old) (length waiting.old) }
    ensures { Received rows_each receiver (gateway_seen gateway) (message_seen message) (table_of cost.old way.old waiting.old)
        result (table_of cost.new way.new waiting.new) }
{
    let from = receiver * rows_each;
    let to = from + rows_each;
    hear::hear(
        gateway,
        message,
        &mut cost[from..to],
        &mut way[from..to],
        &mut waiting[from..to],
    )
}

// One waiting message is delivered to this gateway, over a link that costs `link` back: the sender's bit is cleared, and the receiver's
// rows, lent only after the sender's cost is read, take the offers that are cheaper.
pub fn step(
    n: usize,
    gateway: Gateway,
    link: u16,
    table: &mut TableMut,
    message: Message,
) -> Result<usize, Refusal>
    ensures { Stepped n (gateway_seen gateway) link (table_held table.old) message.sender message.receiver message.destination message.number
        result (table_held table.new) × SameSlices table.old table.new }
{
    let told = read_row(n, gateway.p, gateway.most, link, table, message)?;
    let Message {
        sender,
        receiver,
        destination,
        number,
    } = message;
    table.waiting[told.place] = bits::without(table.waiting[told.place], receiver);
    let heard = hear::Message {
        sender,
        destination,
        number,
        cost: told.cost,
        link,
    };
    receive(
        table.cost,
        table.way,
        table.waiting,
        n * gateway.most,
        receiver,
        gateway,
        heard,
    )
}
