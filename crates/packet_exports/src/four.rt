// An answer of four numbers, written into a slice that the caller lends, as specs/Four.antt says.
ghost use Rattle.std.specs.Prelude.{◌≤◌, length};
ghost use Rattle.packet_exports.specs.Four.{FourExported};
ghost use Rattle.packet_exports.specs.Steps.{IsCarried, IsRead};

use carry::Carried;
use headers::{Read, Unread};
use packing::packed_end;
use refusal::Refusal;

// Four numbers, and the refusal, if there is one.
#[derive(Clone, Copy)]
pub(crate) struct Four {
    pub first: u64,
    pub second: u64,
    pub third: u64,
    pub fourth: u64,
    pub refused: Option<Refusal>,
}

impl From<Carried> for Four {
    ghost from_gives = { IsCarried };

    fn from(carried: Carried) -> Four {
        Four {
            first: carried.hops,
            second: carried.spent,
            third: carried.node as u64,
            fourth: carried.number as u64,
            refused: carried.refused,
        }
    }
}

impl From<Result<Read, Unread>> for Four {
    ghost from_gives = { IsRead };

    fn from(answer: Result<Read, Unread>) -> Four {
        match answer {
            Ok(read) => Four {
                first: read.height as u64,
                second: read.number as u64,
                third: read.from as u64,
                fourth: read.to as u64,
                refused: None,
            },
            Err(unread) => Four {
                first: unread.header as u64,
                second: unread.start as u64,
                third: 0,
                fourth: 0,
                refused: Some(unread.refusal),
            },
        }
    }
}

// The numbers go into the slice, and the refusal is the answer.
pub(crate) fn four_written(four: Four, answer: &mut [u64]) -> u64
    requires { 4 ≤ length answer.old }
    ensures { FourExported four answer.old result answer.new }
{
    answer[0] = four.first;
    answer[1] = four.second;
    answer[2] = four.third;
    answer[3] = four.fourth;
    packed_end(four.refused.map_or(0, u32::from))
}
