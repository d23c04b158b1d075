// Judges one header of a packet. The public function takes any input; its contract is an equation in specs/Answers.antt.
#![tactic(auto)]

ghost use Rattle.std.specs.Prelude.{◌≡◌};
ghost use Rattle.header.specs.Answers.{header_of};

mod fields;
mod judged;

use fields::Bytes;
use refusal::Refusal;

/// A header that is right.
#[derive(Clone, Copy, Debug, PartialEq, Eq, Drop)]
pub struct Header {
    /// 0 is IPv4, 1 is IPv6.
    pub protocol: usize,
    /// Where what follows it begins.
    pub from: usize,
    /// Where its packet ends.
    pub to: usize,
    /// The version of the header that follows; 0 for none.
    pub after: usize,
}

// The header that starts at s, announced so (0 for the outermost), in what ends at e.
#[tactic(auto, using(crate::proofs::Lengths::room_20), unfolding(crate::specs::Answers::refusal_of, crate::specs::Answers::header_refusal))]
pub fn header_at(packet: &[u8], s: usize, announced: usize, e: usize) -> Result<Header, Refusal>
    ensures { result ≡ header_of packet.now s announced e }
{
    // Bytes that the packet does not have, or too few for any header.
    if packet.len() < e || e < s || e - s < 20 {
        return Err(Refusal::Short);
    }
    let bytes = Bytes { packet, s, e };
    bytes.judged(announced)?;
    Ok(Header {
        protocol: bytes.protocol(),
        from: s + bytes.header_length(),
        to: s + bytes.packet_length(),
        after: bytes.announces(),
    })
}
