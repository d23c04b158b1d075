// The calls that deliver, as crate bannogwy exports them to C: the answer of each is packed into one number.
#![tactic(auto)]

ghost use Rattle.std.specs.Prelude.{◌≡◌};
ghost use Rattle.network.specs.Handed.{network};
ghost use Rattle.table.specs.Handed.{SameSlices, table_held};
ghost use Rattle.table.specs.Answers.{deliver_answer, deliver_table};
ghost use Rattle.deliver_exports.specs.Packing.{pack_delivered};
ghost use Rattle.deliver_exports.specs.Run.{RunExported};

use network::Network;
use packing::{packed, packed_end, packed_refused};
use refusal::Refusal;
use table::{Message, TableMut};

// Delivers one message; answers how many rows took an offer.
pub fn deliver(net: &Network, table: &mut TableMut, message: Message) -> u64
    ensures { (result ≡ pack_delivered (deliver_answer
        (network net.now) (table_held table.old) message.sender message.receiver message.destination message.number))
        × (table_held table.new ≡ deliver_table
        (network net.now) (table_held table.old) message.sender message.receiver message.destination message.number)
        × SameSlices table.old table.new }
{
    packed(deliver::deliver(net, table, message))
}

// Delivers until quiet or until `limit` are done; the numbers of deliveries and of offers go into `answer`.
pub fn run(net: &Network, table: &mut TableMut, limit: u32, answer: &mut [u64]) -> u64
    ensures { RunExported (network net.now) limit (table_held table.old) answer.old result (table_held table.new) answer.new
        × SameSlices table.old table.new }
{
    if answer.len() < 2 {
        return packed_refused(u32::from(Refusal::NoRoom));
    }
    let ran = run::run(net, table, limit);
    answer[0] = u64::from(ran.done);
    answer[1] = ran.offers;
    packed_end(ran.refused.map_or(0, u32::from))
}
