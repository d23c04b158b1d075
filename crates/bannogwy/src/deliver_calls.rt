// The calls that deliver.
ghost use Rattle.std.specs.Prelude.{◌≡◌};
ghost use Rattle.network.specs.Network.{network_of};
ghost use Rattle.table.specs.Answers.{deliver_answer, deliver_table};
ghost use Rattle.table.specs.Table.{table_of};
ghost use Rattle.deliver_exports.specs.Packing.{pack_delivered};
ghost use Rattle.deliver_exports.specs.Run.{RunExported};

use network::Network;
use table::{Message, TableMut};

// Delivers one message; answers how many rows took an offer.
#[unsafe(no_mangle)]
pub extern "C" fn bannogwy_deliver(
    n: usize,
    p: usize,
    h: usize,
    links: &[u16],
    functions: &[u16],
    cost: &mut [u32],
    way: &mut [u16],
    waiting: &mut [u32],
    sender: usize,
    receiver: usize,
    destination: usize,
    number: usize,
) -> u64
    ensures { (result ≡ pack_delivered (deliver_answer
        (network_of n p h links.now functions.now) (table_of cost.old way.old waiting.old) sender receiver destination number))
        × (table_of cost.new way.new waiting.new ≡ deliver_table
        (network_of n p h links.now functions.now) (table_of cost.old way.old waiting.old) sender receiver destination number) }
{
    let net = Network {
        n,
        p,
        h,
        links,
        functions,
    };
    let message = Message {
        sender,
        receiver,
        destination,
        number,
    };
    deliver_exports::deliver(&net, &mut TableMut { cost, way, waiting }, message)
}

// Delivers until quiet or until `limit` are done; the numbers of deliveries and of offers go into `answer`.
#[unsafe(no_mangle)]
pub extern "C" fn bannogwy_run(
    n: usize,
    p: usize,
    h: usize,
    links: &[u16],
    functions: &[u16],
    cost: &mut [u32],
    way: &mut [u16],
    waiting: &mut [u32],
    limit: u32,
    answer: &mut [u64],
) -> u64
    ensures { RunExported (network_of n p h links.now functions.now) limit (table_of cost.old way.old waiting.old) answer.old
        result (table_of cost.new way.new waiting.new) answer.new }
{
    let net = Network {
        n,
        p,
        h,
        links,
        functions,
    };
    deliver_exports::run(&net, &mut TableMut { cost, way, waiting }, limit, answer)
}
