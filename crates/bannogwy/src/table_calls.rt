// The calls that write a fresh table and ask what waits.
ghost use Rattle.std.specs.Prelude.{◌≡◌};
ghost use Rattle.network.specs.Network.{network_of};
ghost use Rattle.table.specs.Answers.{count_answer, first_answer, fresh_answer, fresh_table};
ghost use Rattle.table.specs.Table.{table_of};
ghost use Rattle.table_exports.specs.Packing.{pack_counted, pack_first};

use network::Network;
use table::{Table, TableMut};

// Writes the fresh table; answers how many messages wait.
#[unsafe(no_mangle)]
pub extern "C" fn bannogwy_fresh(
    n: usize,
    p: usize,
    h: usize,
    links: &[u16],
    functions: &[u16],
    cost: &mut [u32],
    way: &mut [u16],
    waiting: &mut [u32],
) -> u64
    ensures { (result ≡ pack_counted (fresh_answer (network_of n p h links.now functions.now) (table_of cost.old way.old waiting.old)))
        × (table_of cost.new way.new waiting.new ≡ fresh_table (network_of n p h links.now functions.now) (table_of cost.old way.old waiting.old)) }
{
    let net = Network {
        n,
        p,
        h,
        links,
        functions,
    };
    table_exports::fresh(&net, &mut TableMut { cost, way, waiting })
}

// How many messages wait.
#[unsafe(no_mangle)]
pub extern "C" fn bannogwy_count(
    n: usize,
    p: usize,
    h: usize,
    links: &[u16],
    functions: &[u16],
    cost: &[u32],
    way: &[u16],
    waiting: &[u32],
) -> u64
    ensures { result ≡ pack_counted (count_answer (network_of n p h links.now functions.now) (table_of cost.now way.now waiting.now)) }
{
    let net = Network {
        n,
        p,
        h,
        links,
        functions,
    };
    table_exports::count(&net, &Table { cost, way, waiting })
}

// The first message that waits.
#[unsafe(no_mangle)]
pub extern "C" fn bannogwy_first_waiting(
    n: usize,
    p: usize,
    h: usize,
    links: &[u16],
    functions: &[u16],
    cost: &[u32],
    way: &[u16],
    waiting: &[u32],
) -> u64
    ensures { result ≡ pack_first (first_answer (network_of n p h links.now functions.now) (table_of cost.now way.now waiting.now)) }
{
    let net = Network {
        n,
        p,
        h,
        links,
        functions,
    };
    table_exports::first_waiting(&net, &Table { cost, way, waiting })
}
