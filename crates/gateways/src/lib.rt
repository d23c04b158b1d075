// What each gateway can do to a packet. Every public function takes any input; its contract is an equation with a definition of specs/.
#![tactic(auto)]

ghost use Rattle.std.specs.Prelude.{◌≡◌};
ghost use Rattle.network.specs.Handed.{network};
ghost use Rattle.gateways.specs.Gateways.{word, word_at, accepts, grid_of};

use network::Network;
use std::array;

// The word of a node's function of a kind on protocols a and b: its price plus 1, and 0 where the node can't or a number is out of range.
pub fn word_at(net: &Network, node: usize, kind: usize, a: usize, b: usize) -> u16
    ensures { result ≡ word_at net.now.n net.now.p net.now.functions.now node kind a b }
{
    let n = net.n;
    let p = net.p;
    if !((n <= 32) & (node < n) & (p <= 8) & (kind < 3) & (a < p) & (b < p)) {
        return 0;
    }
    network::entry(net.functions, ((node * 3 + kind) * p + a) * p + b)
}

// The word of a node's function, by its number; 0 where it is none.
pub fn word(net: &Network, node: usize, function: usize) -> u16
    ensures { result ≡ word (network net.now) node function }
{
    word_at(net, node, function / 64, function / 8 % 8, function % 8)
}

// One node's words of one kind, row a and column b; 0 outside the p protocols.
pub fn grid(net: &Network, node: usize, kind: usize) -> [[u16; 8]; 8]
    ensures { result ≡ grid_of net.now.n net.now.p net.now.functions.now node kind }
{
    array::from_fn(|a| array::from_fn(|b| word_at(net, node, kind, a, b)))
}

// Whether a node accepts protocol x as a destination: it converts x, wraps x, or unwraps something from x.
pub fn accepts(net: &Network, node: usize, x: usize) -> bool
    ensures { result ≡ accepts (network net.now) node x }
{
    net.p <= 8
        && (0..net.p).any(|y| {
            0 < word_at(net, node, 0, x, y)
                || 0 < word_at(net, node, 1, x, y)
                || 0 < word_at(net, node, 2, y, x)
        })
}
