// Reads the stack of headers from a packet's bytes. The public function takes any input; its contract is an equation in specs/Answers.antt.
#![tactic(auto)]

ghost use Rattle.std.specs.Prelude.{◌≡◌};
ghost use Rattle.headers.specs.Answers.{out_of, read_of};
ghost use Rattle.headers.specs.Steps.{unread};

mod chain;

use chain::followed;
use refusal::Refusal;

/// What was read: a stack of headers, and the innermost packet's part after its header.
#[derive(Clone, Copy, Debug, PartialEq, Eq, Drop)]
pub struct Read {
    /// The stack's height.
    pub height: usize,
    /// The stack's number.
    pub number: usize,
    /// Where the part begins.
    pub from: usize,
    /// Where it ends.
    pub to: usize,
}

/// Why a packet is not read, and where.
#[derive(Clone, Copy, Debug, PartialEq, Eq, Drop)]
pub struct Unread {
    pub refusal: Refusal,
    /// Which header met the refusal: 0 is the outermost.
    pub header: usize,
    /// Where that header starts.
    pub start: usize,
}

impl Unread {
    fn at(refusal: Refusal, header: usize, start: usize) -> Unread
        ensures { result ≡ unread refusal header start }
    {
        Unread {
            refusal,
            header,
            start,
        }
    }
}

// The stack of a packet, bottom to top, into the front of out: protocol 0 is IPv4, 1 is IPv6.
#[tactic(auto, unfolding(crate::specs::Chains::reading_of, stacks::specs::Stacks::ok_size))]
pub fn read_stack(h: usize, packet: &[u8], out: &mut [u8]) -> Result<Read, Unread>
    ensures { (result ≡ read_of h packet.now out.old) × (out.new ≡ out_of h packet.now out.old) }
{
    if (h < 1) | (12 < h) {
        return Err(Unread::at(Refusal::Sizes, 0, 0));
    }
    let chain = followed(h, packet)?;
    match stacks::stack_of(2, h, chain.number, out) {
        Ok(height) => Ok(Read {
            height,
            number: chain.number,
            from: chain.from,
            to: chain.to,
        }),
        Err(_) => Err(Unread::at(Refusal::NoRoom, 0, 0)),
    }
}
