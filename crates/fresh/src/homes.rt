// What fresh writes after it wrote the same in every row: the row of each node for itself and each protocol that it accepts.
ghost use Rattle.std.specs.Prelude.{◌≡◌, ◌+◌, ◌*◌, ◌<◌};
ghost use Rattle.words.specs.Words.{ones_in};
ghost use Rattle.fresh.specs.Filling.{Shape, costs_below, waits_below};

use network::Network;

// The rows of one node for itself: for each protocol that it accepts cost 0 and a message to every neighbour. No other row of the node is a home.
// Takes and answers how many messages wait, so that nobody need count them again.
pub(crate) fn node_homes(
    net: &Network,
    stacks: usize,
    node: usize,
    cost: &mut [u32],
    waiting: &mut [u32],
    before: u64,
) -> u64
    requires { Shape net.now.n net.now.p stacks × (node < net.now.n)
        × (cost.old ≡ costs_below net.now.n net.now.p stacks net.now.functions.now ((node * net.now.n + node) * stacks))
        × (waiting.old ≡ waits_below net.now.n net.now.p stacks net.now.functions.now net.now.links.now ((node * net.now.n + node) * stacks))
        × (before ≡ ones_in waiting.old) }
    ensures { (cost.new ≡ costs_below net.now.n net.now.p stacks net.now.functions.now (((node + 1) * net.now.n + (node + 1)) * stacks))
        × (waiting.new ≡ waits_below net.now.n net.now.p stacks net.now.functions.now net.now.links.now (((node + 1) * net.now.n + (node + 1)) * stacks))
        × (result ≡ ones_in waiting.new) }
{
    let word = net.neighbours(node);
    let each = u64::from(bits::ones(word));
    let first = (node * net.n + node) * stacks;
    let mut messages = before;
    for x in 0..net.p {
        if gateways::accepts(net, node, x) {
            cost[first + x] = 0;
            waiting[first + x] = word;
            messages += each;
        }
    }
    messages
}

// The same for every node; answers how many messages wait.
pub(crate) fn all_homes(net: &Network, stacks: usize, cost: &mut [u32], waiting: &mut [u32]) -> u64
    requires { Shape net.now.n net.now.p stacks × (cost.old ≡ costs_below net.now.n net.now.p stacks net.now.functions.now 0)
        × (waiting.old ≡ waits_below net.now.n net.now.p stacks net.now.functions.now net.now.links.now 0) }
    ensures { (cost.new ≡ costs_below net.now.n net.now.p stacks net.now.functions.now ((net.now.n * net.now.n + net.now.n) * stacks))
        × (waiting.new ≡ waits_below net.now.n net.now.p stacks net.now.functions.now net.now.links.now ((net.now.n * net.now.n + net.now.n) * stacks))
        × (result ≡ ones_in waiting.new) }
{
    let mut messages: u64 = 0;
    for node in 0..net.n {
        messages = node_homes(net, stacks, node, cost, waiting, messages);
    }
    messages
}
