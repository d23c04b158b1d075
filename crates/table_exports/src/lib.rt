// What the calls that write a fresh table and ask what waits answer a C caller: one number, into which the answer is packed.
#![tactic(auto)]

ghost use Rattle.std.specs.Prelude.{◌≡◌};
ghost use Rattle.network.specs.Handed.{network};
ghost use Rattle.table.specs.Answers.{count_answer, first_answer, fresh_answer, fresh_table};
ghost use Rattle.table.specs.Handed.{SameSlices, table_held, table_seen};
ghost use Rattle.table_exports.specs.Packing.{pack_counted, pack_first, pack_found};
ghost use Rattle.table_exports.specs.Ranges.{FoundFits};

use network::Network;
use packing::packed;
use table::{Message, Table, TableMut};

/// Writes the fresh table; answers how many messages wait.
pub fn fresh(net: &Network, table: &mut TableMut) -> u64
    ensures { (result ≡ pack_counted (fresh_answer (network net.now) (table_held table.old)))
        × (table_held table.new ≡ fresh_table (network net.now) (table_held table.old))
        × SameSlices table.old table.new }
{
    packed(fresh::fresh(net, table))
}

/// How many messages wait.
pub fn count(net: &Network, table: &Table) -> u64
    ensures { result ≡ pack_counted (count_answer (network net.now) (table_seen table.now)) }
{
    packed(waiting::count(net, table))
}

// A message as a number; 0 for none.
fn packed_found(found: Option<Message>) -> u64
    requires { FoundFits found }
    ensures { result ≡ pack_found found }
{
    let Some(message) = found else {
        return 0;
    };
    4611686018427387904
        + message.sender as u64 * 72057594037927936
        + message.receiver as u64 * 281474976710656
        + message.destination as u64 * 1099511627776
        + message.number as u64
}

/// The first message that waits.
pub fn first_waiting(net: &Network, table: &Table) -> u64
    ensures { result ≡ pack_first (first_answer (network net.now) (table_seen table.now)) }
{
    packed(waiting::first_waiting(net, table).map(packed_found))
}
