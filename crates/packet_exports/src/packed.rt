// A lookup's answer packed into one number, as specs/Packing.antt says.
ghost use Rattle.std.specs.Prelude.{◌≡◌};
ghost use Rattle.packet_exports.specs.Packing.{pack_forward, pack_look};
ghost use Rattle.packet_exports.specs.Ranges.{ForwardFits, LookFits};

use forward::{Hop, Look};
use packing::packed_refused;
use refusal::Refusal;

fn packed_forward(hop: Hop) -> u64
    requires { ForwardFits hop.next hop.function hop.number hop.cost }
    ensures { result ≡ pack_forward hop.next hop.function hop.number hop.cost }
{
    4611686018427387904
        + hop.next as u64 * 72057594037927936
        + hop.function as u64 * 281474976710656
        + hop.number as u64 * 4294967296
        + u64::from(hop.cost)
}

pub(crate) fn packed_look(answer: Result<Look, Refusal>) -> u64
    requires { LookFits answer }
    ensures { result ≡ pack_look answer }
{
    match answer {
        Ok(Look::Forward(hop)) => packed_forward(hop),
        Ok(Look::Delivered) => 0,
        Err(refusal) => packed_refused(u32::from(refusal)),
    }
}
