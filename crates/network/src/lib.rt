// The network that a call is handed. Every public function takes any input; its contract is an equation with a definition of specs/.
#![tactic(auto)]

ghost use Rattle.std.specs.Prelude.{◌≡◌, ◌*◌, ◌≤◌, ◌<◌, length, get_or};
ghost use Rattle.network.specs.Network.{link, link_at, neighbours};
ghost use Rattle.network.specs.Handed.{network};
ghost use Rattle.network.specs.Answers.{checked_of};
ghost use Rattle.network.specs.Steps.{good_row, half_links};

use refusal::Refusal;

/// What a call is handed: n nodes, p protocols, a height bound h, what each link costs, and each node's functions with their prices.
#[derive(Clone, Copy, Debug, PartialEq, Eq, Drop)]
pub struct Network<'a> {
    pub n: usize,
    pub p: usize,
    pub h: usize,
    pub links: &'a [u16],
    pub functions: &'a [u16],
}

// A list read with 0 past its end, as the definitions read it.
pub fn entry(list: &[u16], at: usize) -> u16
    ensures { result ≡ get_or list.now at 0 }
{
    if at < list.len() { list[at] } else { 0 }
}

impl<'a> Network<'a> {
    /// The cost of the link from u to w; 0 where there is none.
    #[tactic(auto, unfolding(crate::specs::Network::link_at, crate::specs::Network::is_node), using(crate::proofs::Sets::places))]
    pub fn link(&self, u: usize, w: usize) -> u16
        ensures { result ≡ link (network self.now) u w }
    {
        if !((self.n <= 32) & (u < self.n) & (w < self.n)) {
            return 0;
        }
        entry(self.links, u * self.n + w)
    }

    /// The neighbours of a node as a word, a bit for each.
    pub fn neighbours(&self, node: usize) -> u32
        ensures { result ≡ neighbours (network self.now) node }
    {
        if 32 < self.n {
            return 0;
        }
        let mut word: u32 = 0;
        for w in 0..self.n {
            if 0 < self.link(node, w) {
                word = bits::with_one(word, w);
            }
        }
        word
    }

    /// How many stacks the network has, or why it is refused. Each number is tested before it takes part in a product.
    #[tactic(auto, unfolding(crate::specs::Network::ok_sizes, crate::specs::Network::refusal_of), using(crate::proofs::Sets::sizes))]
    pub fn check(&self) -> Result<usize, Refusal>
        ensures { result ≡ checked_of (network self.now) }
    {
        let n = self.n;
        let p = self.p;
        if !((1 <= n) & (n <= 32)) {
            return Err(Refusal::Sizes);
        }
        let count = stacks::stack_count(p, self.h);
        let Ok(most) = count else {
            return Err(Refusal::Sizes);
        };
        if !((n * most <= 16384)
            & (self.links.len() == n * n)
            & (self.functions.len() == n * (3 * (p * p))))
        {
            return Err(Refusal::Sizes);
        }
        let links = Links {
            n,
            links: self.links,
        };
        if links.good_links() {
            return Ok(most);
        }
        Err(Refusal::Links)
    }
}

// The links of at most 32 nodes, one for each pair of them.
#[derive(Clone, Copy, Drop)]
struct Links<'a> {
    n: usize,
    links: &'a [u16],
    ghost whole: { (n ≤ 32) × (length links.now ≡ n * n) },
}

impl<'a> Links<'a> {
    // As Network::link, with no test.
    #[tactic(auto, unfolding(crate::specs::Network::link_at, crate::specs::Network::is_node), using(crate::proofs::Sets::places))]
    fn link_in(&self, u: usize, w: usize) -> u16
        requires { (u < self.now.n) × (w < self.now.n) }
        ensures { result ≡ link_at self.now.n self.now.links.now u w }
    {
        self.links[u * self.n + w]
    }

    // Whether u has no link to itself, and to each node before it a link both ways or none.
    #[tactic(auto, unfolding(crate::specs::Steps::good_row))]
    fn good_row(&self, u: usize) -> bool
        requires { u < self.now.n }
        ensures { result ≡ good_row self.now.n self.now.links.now u }
    {
        self.link_in(u, u) == 0
            && (0..u).all(|w| (0 < self.link_in(u, w)) == (0 < self.link_in(w, u)))
    }

    // Whether no node has a link to itself and every link goes both ways. Each pair is looked at once, from the later node.
    fn good_links(&self) -> bool
        ensures { result ≡ half_links self.now.n self.now.links.now }
    {
        (0..self.n).all(|u| self.good_row(u))
    }
}
