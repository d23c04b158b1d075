// A waiting word: bit v is set where a message about the word's row waits for neighbour v. Every function is total.
#![tactic(auto)]

ghost use Rattle.std.specs.Prelude.{◌≡◌};
ghost use Rattle.bits.specs.Bits.{has, without, with_all, with_one, lowest, ones_of};

// Whether a message waits for neighbour v; no bit stands at 32 or above.
pub fn has(word: u32, v: usize) -> bool
    ensures { result ≡ has word v }
{
    if v < 32 { (word >> v) % 2 == 1 } else { false }
}

// The word with bit v cleared.
pub fn without(word: u32, v: usize) -> u32
    ensures { result ≡ without word v }
{
    if v < 32 {
        word - (word & (1u32 << v))
    } else {
        word
    }
}

// The word with the bits of `more` set too.
pub fn with_all(word: u32, more: u32) -> u32
    ensures { result ≡ with_all word more }
{
    word | more
}

// The word with bit v set, where the word has a bit v.
pub fn with_one(word: u32, v: usize) -> u32
    ensures { result ≡ with_one word v }
{
    if v < 32 { word | (1u32 << v) } else { word }
}

// The lowest set bit; 32 where none is.
pub fn lowest(word: u32) -> usize
    ensures { result ≡ lowest word }
{
    u32::trailing_zeros(word) as usize
}

// How many bits are set.
pub fn ones(word: u32) -> u32
    ensures { result ≡ ones_of word }
{
    u32::count_ones(word)
}
