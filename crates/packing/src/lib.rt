// How an answer or a refusal is packed into one number for a C caller, as specs/Packing.antt says; the crates that export calls share it.
#![tactic(auto)]

ghost use Rattle.std.specs.Prelude.{◌≡◌, ℕ};
ghost use Rattle.packing.specs.Packing.{pack_end, pack_itself, pack_option, pack_refused, pack_result};

use refusal::Refusal;

/// A value that a call answers: for a C caller it is one number.
pub trait Pack {
    ghost pack: { Self → ℕ };

    fn pack(self) -> u64
        ensures { result ≡ pack self };
}

impl Pack for usize {
    ghost pack = { pack_itself };

    fn pack(self) -> u64 {
        self as u64
    }
}

impl Pack for u64 {
    ghost pack = { pack_itself };

    fn pack(self) -> u64 {
        self
    }
}

// 0 stands for none, so this suits numbers that begin at 1.
impl Pack for Option<usize> {
    ghost pack = { pack_option };

    fn pack(self) -> u64 {
        self.map_or(0, |value| value as u64)
    }
}

/// A call's answer as one number: the value's, or the refusal's with the top bit set.
pub fn packed<T: Pack>(answer: Result<T, Refusal>) -> u64
    ensures { result ≡ pack_result T.pack answer }
{
    match answer {
        Ok(value) => value.pack(),
        Err(refusal) => packed_refused(u32::from(refusal)),
    }
}

/// The refusal's number with the top bit set.
pub fn packed_refused(refusal: u32) -> u64
    ensures { result ≡ pack_refused refusal }
{
    9223372036854775808 + u64::from(refusal)
}

/// 0 where the refusal is 0, which is none.
pub fn packed_end(refusal: u32) -> u64
    ensures { result ≡ pack_end refusal }
{
    if refusal == 0 {
        return 0;
    }
    packed_refused(refusal)
}
