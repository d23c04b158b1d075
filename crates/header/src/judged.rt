// Whether the header at s is right, test by test in the order of the refusals; e is where what holds it ends.
ghost use Rattle.std.specs.Prelude.{◌≡◌, ◌+◌, ◌*◌, ◌≤◌};
ghost use Rattle.header.specs.Fields.{header_length, ok_checksum, ok_header, ok_length, ok_room, ok_version, ok_whole, sum};
ghost use Rattle.header.specs.Answers.{header_refusal};
ghost use Rattle.header.specs.Steps.{verdict};

use crate::fields::Bytes;
use refusal::Refusal;

impl<'a> Bytes<'a> {
    #[tactic(auto, unfolding(crate::specs::Fields::ok_room))]
    fn has_room(&self) -> bool
        ensures { result ≡ ok_room self.now.packet.now self.now.s self.now.e }
    {
        self.shortest() <= self.e - self.s
    }

    #[tactic(auto, unfolding(crate::specs::Fields::ok_version))]
    fn version_fits(&self, announced: usize) -> bool
        ensures { result ≡ ok_version self.now.packet.now self.now.s announced }
    {
        let version = self.version();
        if announced == 0 {
            return (version == 4) | (version == 6);
        }
        version == announced
    }

    #[tactic(auto, unfolding(crate::specs::Fields::ok_header))]
    fn header_fits(&self) -> bool
        ensures { result ≡ ok_header self.now.packet.now self.now.s }
    {
        let header = self.header_length();
        self.version() == 6 || (20 <= header && header <= self.packet_length())
    }

    #[tactic(auto, unfolding(crate::specs::Fields::ok_length))]
    fn length_fits(&self) -> bool
        ensures { result ≡ ok_length self.now.packet.now self.now.s self.now.e }
    {
        self.packet_length() <= self.e - self.s
    }

    // The one's complement sum of the first `count` 16-bit words: a carry out of the top is added at the bottom.
    #[tactic(auto, unfolding(crate::specs::Fields::plus))]
    fn sum(&self, count: usize) -> usize
        requires { self.now.s + 2 * count ≤ self.now.e }
        ensures { result ≡ sum self.now.packet.now self.now.s count }
    {
        let mut total = 0;
        for i in 0..count {
            let both = total + self.pair(2 * i);
            total = both % 65536 + both / 65536;
        }
        total
    }

    #[tactic(auto, unfolding(crate::specs::Fields::ok_checksum))]
    fn checksum_fits(&self) -> bool
        requires { self.now.s + header_length self.now.packet.now self.now.s ≤ self.now.e }
        ensures { result ≡ ok_checksum self.now.packet.now self.now.s }
    {
        self.version() == 6 || self.sum(self.header_length() / 2) == 65535
    }

    #[tactic(auto, unfolding(crate::specs::Fields::ok_whole))]
    fn is_whole(&self) -> bool
        ensures { result ≡ ok_whole self.now.packet.now self.now.s }
    {
        self.version() == 6 || self.pair(6) % 16384 == 0
    }

    #[tactic(auto, using(crate::proofs::Lengths::header_fits, crate::proofs::Lengths::length_fits), unfolding(crate::specs::Answers::header_refusal))]
    pub(crate) fn judged(&self, announced: usize) -> Result<(), Refusal>
        ensures { result ≡ verdict (header_refusal self.now.packet.now self.now.s announced self.now.e) }
    {
        if !self.has_room() {
            return Err(Refusal::Short);
        }
        if !self.version_fits(announced) {
            return Err(Refusal::WrongVersion);
        }
        if !self.header_fits() {
            return Err(Refusal::Header);
        }
        if !self.length_fits() {
            return Err(Refusal::Beyond);
        }
        if !self.checksum_fits() {
            return Err(Refusal::Checksum);
        }
        if !self.is_whole() {
            return Err(Refusal::Fragment);
        }
        Ok(())
    }
}
