// A gateway hears a message: each row from which a function leads to the stack heard of gets an offer. Total; the contract is in specs/Answers.antt.
#![tactic(auto)]

ghost use Rattle.std.specs.Prelude.{◌≡◌, ◌<◌};
ghost use Rattle.refusal.specs.Numbers.{answered};
ghost use Rattle.hear.specs.Answers.{rows_of, words_of, refused_by, Hears};
ghost use Rattle.hear.specs.Handed.{gateway_seen, message_seen};
ghost use Rattle.hear.specs.Steps.{candidate_of, function_number, offer_of, Parted, Priced};

use functions::{Function, Kind};
use refusal::Refusal;

/// A gateway: p protocols, `most` stacks, the word of its neighbours, and one grid of words for each kind of function.
#[derive(Clone, Copy, Drop)]
pub struct Gateway {
    pub p: usize,
    pub most: usize,
    pub neighbours: u32,
    pub convert: [[u16; 8]; 8],
    pub wrap: [[u16; 8]; 8],
    pub unwrap: [[u16; 8]; 8],
}

impl Gateway {
    // The word of a function: its price plus 1, and 0 where the gateway can't.
    fn word(&self, function: Function) -> u16
        requires { (function.a < 8) × (function.b < 8) }
        ensures { result ≡ words_of self.now.convert self.now.wrap self.now.unwrap (function_number function) }
    {
        let Function { kind, a, b } = function;
        match kind {
            Kind::Convert => self.convert[a][b],
            Kind::Wrap => self.wrap[a][b],
            Kind::Unwrap => self.unwrap[a][b],
        }
    }
}

/// A message: who sent it, about which destination and which stack's number, the sender's cost, and what the link back to the sender costs.
#[derive(Clone, Copy, Debug, PartialEq, Eq, Drop)]
pub struct Message {
    pub sender: usize,
    pub destination: usize,
    pub number: usize,
    pub cost: u32,
    pub link: u16,
}

// A function that makes the heard stack, and the number of the stack that it makes it of, 0 where there is none.
#[derive(Clone, Copy)]
struct Candidate {
    function: Function,
    source: usize,
}

// What a function offers: the place of the row, the cost and the way.
#[derive(Clone, Copy)]
struct Offer {
    place: usize,
    cost: u32,
    way: u16,
}

// Candidate i of the 2p + 1, by their functions' numbers: a convert of each protocol, the wrap, an unwrap from each protocol.
fn candidate_of(p: usize, number: usize, top: usize, rest: usize, i: usize) -> Candidate
    requires { Parted p number top rest i }
    ensures { result ≡ candidate_of p number i }
{
    if i < p {
        return Candidate {
            function: Function {
                kind: Kind::Convert,
                a: i,
                b: top,
            },
            source: p * rest + i + 1,
        };
    }
    if p < i {
        let b = i - p - 1;
        return Candidate {
            function: Function {
                kind: Kind::Unwrap,
                a: top,
                b,
            },
            source: p * number + b + 1,
        };
    }
    Candidate {
        function: Function {
            kind: Kind::Wrap,
            a: if rest < 1 { 0 } else { (rest - 1) % p },
            b: top,
        },
        source: rest,
    }
}

// What a candidate with this word offers; nothing where the gateway can't or there is no such stack within the height bound.
fn offer_of(most: usize, message: Message, word: u16, candidate: Candidate) -> Option<Offer>
    requires { Priced most message.sender message.destination message.cost candidate }
    ensures { result ≡ offer_of most message.sender message.destination message.cost message.link word candidate }
{
    if !((0 < word) & (1 <= candidate.source) & (candidate.source <= most)) {
        return None;
    }
    let price = word as u32 - 1;
    let Function { kind, a, b } = candidate.function;
    Some(Offer {
        place: message.destination * most + (candidate.source - 1),
        cost: message.cost + message.link as u32 + price,
        way: (256 * message.sender + 64 * usize::from(kind) + 8 * a + b) as u16,
    })
}

// Whether the numbers are in range, the rows enough and the cost no more than the ceiling.
fn tested(
    gateway: &Gateway,
    message: Message,
    costs: usize,
    ways: usize,
    waiting: usize,
) -> Result<(), Refusal>
    ensures { result ≡ answered
        (refused_by gateway.now.p gateway.now.most message.sender message.destination message.number message.cost costs ways waiting) tt }
{
    let p = gateway.p;
    let most = gateway.most;
    let Message {
        sender,
        destination,
        number,
        cost,
        ..
    } = message;
    if !((1 <= p)
        & (p <= 8)
        & (most <= 16384)
        & (sender < 32)
        & (destination < 32)
        & (1 <= number)
        & (number <= most))
    {
        return Err(Refusal::Range);
    }
    if !(((destination + 1) * most <= costs) & (ways == costs) & (waiting == costs)) {
        return Err(Refusal::Range);
    }
    if 2147303427 < cost { // the ceiling
        return Err(Refusal::Broken);
    }
    Ok(())
}

/// What a gateway does on hearing a message: its own rows take the offers that are cheaper. Answers how many did.
pub fn hear(
    gateway: Gateway,
    message: Message,
    costs: &mut [u32],
    ways: &mut [u16],
    waiting: &mut [u32],
) -> Result<usize, Refusal>
    ensures { Hears (gateway_seen gateway) (message_seen message) (rows_of costs.old ways.old waiting.old)
        result (rows_of costs.new ways.new waiting.new) }
{
    tested(&gateway, message, costs.len(), ways.len(), waiting.len())?;
    let p = gateway.p;
    let top = (message.number - 1) % p;
    let rest = (message.number - 1) / p;
    let mut count: usize = 0;
    for i in 0..2 * p + 1 {
        let candidate = candidate_of(p, message.number, top, rest, i);
        let word = gateway.word(candidate.function);
        let Some(offer) = offer_of(gateway.most, message, word, candidate) else {
            continue;
        };
        let place = offer.place;
        if offer.cost < costs[place] {
            costs[place] = offer.cost;
            ways[place] = offer.way;
            waiting[place] = bits::with_all(waiting[place], gateway.neighbours);
            count += 1;
        }
    }
    Ok(count)
}
