// The chain of headers from outside to inside.
ghost use Rattle.std.specs.Prelude.{◌≡◌, [], ◌≤◌, length};
ghost use Rattle.header.specs.Answers.{header_of};
ghost use Rattle.headers.specs.Chains.{follow};
ghost use Rattle.headers.specs.Steps.{chained_of, judged_of};

use crate::Unread;
use header::{Header, header_at};
use refusal::Refusal;

// The stack's number, and where the innermost packet's part after its header begins and ends.
#[derive(Clone, Copy)]
pub(crate) struct Chained {
    pub number: usize,
    pub from: usize,
    pub to: usize,
}

// The header that starts at s, which is number k from outside. Inlined, since its answer would be handed over in memory, and read back slowly.
#[inline(always)]
fn judged(packet: &[u8], k: usize, s: usize, announced: usize, e: usize) -> Result<Header, Unread>
    ensures { result ≡ judged_of k s (header_of packet.now s announced e) }
{
    header_at(packet, s, announced, e).map_err(|refusal| Unread::at(refusal, k, s))
}

// An inner header is lower in the stack, so it counts twice as much in the number as the one around it. Protocol 0 is IPv4, 1 is IPv6.
pub(crate) fn followed(h: usize, packet: &[u8]) -> Result<Chained, Unread>
    requires { h ≤ 12 }
    ensures { result ≡ chained_of (follow packet.now h 0 0 0 (length packet.now) []) }
{
    let mut announced = 0;
    let mut s = 0;
    let mut e = packet.len();
    let mut number = 0;
    let mut weight = 1;
    for k in 0..h {
        let header = judged(packet, k, s, announced, e)?;
        number += weight * (header.protocol + 1);
        if header.after == 0 {
            return Ok(Chained {
                number,
                from: header.from,
                to: header.to,
            });
        }
        weight *= 2;
        announced = header.after;
        s = header.from;
        e = header.to;
    }
    judged(packet, h, s, announced, e)?;
    Err(Unread::at(Refusal::Higher, h, s))
}
