// A slice of waiting words: its count of set bits, and the first set bit of a part of it. Every public function is total.
#![tactic(auto)]

ghost use Rattle.std.specs.Prelude.{◌≡◌, ◌≤◌, length};
ghost use Rattle.words.specs.Words.{ones_answer, first_between};

/// A set bit: the place of its word in the slice, and its number.
#[derive(Clone, Copy, Debug, PartialEq, Eq, Drop)]
pub struct Found {
    pub word: usize,
    pub bit: usize,
}

// How many bits of all the words are set; 0 where there are more words than 2^19, so that no sum can wrap.
pub fn ones_in(words: &[u32]) -> u64
    ensures { result ≡ ones_answer words.now }
{
    if 524288 < words.len() {
        return 0;
    }
    words.iter().map(|word| u64::from(bits::ones(*word))).sum()
}

// A place to start the search at: the words passed over, four at a time, are all 0.
fn skipped(words: &[u32], from: usize, end: usize) -> usize
    requires { end ≤ length words.now }
    ensures { first_between result end words.now ≡ first_between from end words.now }
{
    let stop = end.saturating_sub(3); // below it four words fit: i + 4 itself could wrap
    let mut i = from;
    while i < stop {
        if words[i] | words[i + 1] | words[i + 2] | words[i + 3] != 0 {
            break;
        }
        i += 4;
    }
    i
}

// The first word that is not 0 at the places from .. to - 1 that the slice has, and its lowest bit.
pub fn first_in(words: &[u32], from: usize, to: usize) -> Option<Found>
    ensures { result ≡ first_between from to words.now }
{
    let end = to.min(words.len());
    for i in skipped(words, from, end)..end {
        let word = words[i];
        if word != 0 {
            return Some(Found {
                word: i,
                bit: bits::lowest(word),
            });
        }
    }
    None
}
