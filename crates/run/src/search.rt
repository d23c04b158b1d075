// The first message that waits, the one that the nested loops of crate waiting find, by flags of the blocks of rows that may hold one.
ghost use Rattle.std.specs.Prelude.{◌≡◌, ◌+◌, ◌*◌, ◌≤◌, ◌<◌, length};
ghost use Rattle.words.specs.Words.{first_in, first_between};
ghost use Rattle.run.specs.Flags.{Flagged, LowBit};

use table::TableMut;
use words::Found;

// The first message of one node, by its flags: a flagged block that holds none loses its flag.
fn search_node(
    n: usize,
    stacks: usize,
    node: usize,
    flags: &mut [u32],
    waiting: &[u32],
) -> Option<Found>
    requires { (node < n) × (n * (n * stacks) ≤ 524288) × (length waiting.now ≡ n * (n * stacks)) × Flagged n stacks flags.old waiting.now }
    ensures value { result ≡ first_between (node * (n * stacks)) (node * (n * stacks) + n * stacks) waiting.now }
    ensures low { LowBit result }
    ensures flagged { Flagged n stacks flags.new waiting.now }
{
    let mut left = flags[node];
    while left != 0 {
        let destination = bits::lowest(left);
        let from = (node * n + destination) * stacks;
        if let Some(found) = words::first_in(waiting, from, from + stacks) {
            return Some(found);
        }
        left = bits::without(left, destination);
        flags[node] = left;
    }
    None
}

// The first message of all nodes, by their flags: bit d of flags[u] is set where the block of rows of node u and destination d may hold a message.
pub(crate) fn search_flagged(
    n: usize,
    stacks: usize,
    flags: &mut [u32],
    table: &TableMut,
) -> Option<Found>
    requires { (n * (n * stacks) ≤ 524288) × (length table.now.waiting.now ≡ n * (n * stacks)) × Flagged n stacks flags.old table.now.waiting.now }
    ensures value { result ≡ first_in table.now.waiting.now }
    ensures low { LowBit result }
    ensures flagged { Flagged n stacks flags.new table.now.waiting.now }
{
    for node in 0..n {
        if let Some(found) = search_node(n, stacks, node, flags, table.waiting) {
            return Some(found);
        }
    }
    None
}
