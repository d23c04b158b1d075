// The fields of the header that starts at s, as specs/Fields.antt names them.
ghost use Rattle.std.specs.Prelude.{◌≡◌, cond, ◌+◌, ◌≤◌, ◌<◌, eqb, length};
ghost use Rattle.header.specs.Fields.{announces, byte, header_length, next, packet_length, pair, protocol, shortest, version};

// The bytes of a packet from s to e, as many at least as the shortest header has.
#[derive(Clone, Copy)]
pub(crate) struct Bytes<'a> {
    pub packet: &'a [u8],
    pub s: usize,
    pub e: usize,
    ghost holds_shortest: { s + 20 ≤ e },
    ghost in_packet: { e ≤ length packet.now },
}

impl<'a> Bytes<'a> {
    #[tactic(auto, unfolding(crate::specs::Fields::byte))]
    fn byte(&self, i: usize) -> usize
        requires { self.now.s + i < self.now.e }
        ensures { (result ≡ byte self.now.packet.now self.now.s i) × (result < 256) }
    {
        self.packet[self.s + i] as usize
    }

    // A 16-bit field, the higher byte first.
    #[tactic(auto, unfolding(crate::specs::Fields::pair))]
    pub(crate) fn pair(&self, i: usize) -> usize
        requires { self.now.s + i + 1 < self.now.e }
        ensures { (result ≡ pair self.now.packet.now self.now.s i) × (result < 65536) }
    {
        256 * self.byte(i) + self.byte(i + 1)
    }

    #[tactic(auto, unfolding(crate::specs::Fields::version))]
    pub(crate) fn version(&self) -> usize
        ensures { result ≡ version self.now.packet.now self.now.s }
    {
        self.byte(0) / 16
    }

    // What the header's version chooses: `six` for version 6, `four` for any other.
    fn by_version(&self, four: usize, six: usize) -> usize
        ensures { result ≡ cond (eqb (version self.now.packet.now self.now.s) 6) six four }
    {
        if self.version() == 6 { six } else { four }
    }

    // Protocol 0 is IPv4, 1 is IPv6.
    #[tactic(auto, unfolding(crate::specs::Fields::protocol))]
    pub(crate) fn protocol(&self) -> usize
        ensures { result ≡ protocol self.now.packet.now self.now.s }
    {
        self.by_version(0, 1)
    }

    // How long the header is at least.
    #[tactic(auto, unfolding(crate::specs::Fields::shortest))]
    pub(crate) fn shortest(&self) -> usize
        ensures { result ≡ shortest self.now.packet.now self.now.s }
    {
        self.by_version(20, 40)
    }

    // How long the header is.
    #[tactic(auto, unfolding(crate::specs::Fields::header_length))]
    pub(crate) fn header_length(&self) -> usize
        ensures { (result ≡ header_length self.now.packet.now self.now.s) × (result ≤ 60) }
    {
        self.by_version(4 * (self.byte(0) % 16), 40)
    }

    // How long the packet is, header and all.
    #[tactic(auto, unfolding(crate::specs::Fields::packet_length))]
    pub(crate) fn packet_length(&self) -> usize
        ensures { (result ≡ packet_length self.now.packet.now self.now.s) × (result ≤ 65575) }
    {
        if self.version() == 6 {
            return 40 + self.pair(4);
        }
        self.pair(2)
    }

    // The version of the header that follows; 0 where the chain ends here.
    #[tactic(auto, unfolding(crate::specs::Fields::next, crate::specs::Fields::announces))]
    pub(crate) fn announces(&self) -> usize
        ensures { result ≡ announces (next self.now.packet.now self.now.s) }
    {
        let next = self.byte(self.by_version(9, 6));
        if next == 4 {
            return 4;
        }
        if next == 41 {
            return 6;
        }
        0
    }
}
