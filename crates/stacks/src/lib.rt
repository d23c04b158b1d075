// Stacks of protocols and their numbers. Every public function takes any input; its contract is an equation in specs/Answers.antt.
#![tactic(auto)]

ghost use Rattle.std.specs.Prelude.{◌≡◌, ◌++◌, ◌+◌, ◌*◌, ◌≤◌, length, drop, true, false, MatchResult};
ghost use Rattle.stacks.specs.Stacks.{ok_size, count, height, stack_of};
ghost use Rattle.stacks.specs.Answers.{count_of, number_of, height_of, out_of};
ghost use Rattle.stacks.specs.Steps.{scan};

use refusal::Refusal;

// Numbers of protocols and a height bound that are in range.
#[derive(Clone, Copy, Drop)]
struct Sizes {
    p: usize,
    h: usize,
    ghost in_range: { (1 ≤ p) × (p ≤ 8) × (1 ≤ h) × (h ≤ 12) },
}

impl Sizes {
    #[tactic(auto, unfolding(crate::specs::Stacks::ok_size))]
    fn new(p: usize, h: usize) -> Result<Sizes, Refusal>
        ensures { MatchResult result (λ s. (s.p ≡ p) × (s.h ≡ h) × (ok_size p h ≡ true)) (λ r. (r ≡ Refusal.Range) × (ok_size p h ≡ false)) }
    {
        if (1 <= p) & (p <= 8) & (1 <= h) & (h <= 12) {
            return Ok(Sizes { p, h });
        }
        Err(Refusal::Range)
    }

    // S by Horner's rule.
    #[tactic(auto, using(crate::proofs::Count::count_suc, crate::proofs::Count::count_fits))]
    fn total(self) -> usize
        ensures { result ≡ count self.p self.h }
    {
        let mut n = 0;
        for _ in 0..self.h {
            n = self.p * n + self.p;
        }
        n
    }

    // From the bottom up; a protocol that is not below p ends it.
    #[tactic(auto, using(crate::proofs::Count::next_fits, crate::proofs::Count::step_fits, crate::proofs::Scan::scan_step))]
    fn scanned(self, stack: &[u8]) -> Result<usize, Refusal>
        requires { length stack.now ≤ self.h }
        ensures { result ≡ scan self.p 0 stack.now }
    {
        let mut n = 0;
        for q in stack {
            let q = *q as usize;
            if self.p <= q {
                return Err(Refusal::Range);
            }
            n = self.p * n + q + 1;
        }
        Ok(n)
    }

    #[tactic(auto, using(crate::proofs::Heights::height_turn))]
    fn height_of(self, number: usize) -> usize
        ensures { result ≡ height self.p self.h number }
    {
        let mut n = number;
        for i in 0..self.h {
            if n < 1 {
                return i;
            }
            n = (n - 1) / self.p;
        }
        self.h
    }

    // From the top down, so that one pass finds each protocol's place.
    fn filled(self, number: usize, high: usize, out: &mut [u8])
        requires whole { high ≡ height self.p self.h number }
        requires room { high ≤ length out.old }
        ensures { out.new ≡ stack_of self.p self.h number ++ drop high out.old }
    {
        let mut n = number;
        for i in (0..high).rev() {
            out[i] = ((n - 1) % self.p) as u8;
            n = (n - 1) / self.p;
        }
    }
}

// How many stacks of height 1 to h there are: S.
pub fn stack_count(p: usize, h: usize) -> Result<usize, Refusal>
    ensures { result ≡ count_of p h }
{
    Ok(Sizes::new(p, h)?.total())
}

// The number of a stack, bottom to top.
#[tactic(auto, unfolding(crate::specs::Stacks::ok_stack), using(crate::proofs::Scan::scan_is))]
pub fn number_of(p: usize, h: usize, stack: &[u8]) -> Result<usize, Refusal>
    ensures { result ≡ number_of p h stack.now }
{
    let sizes = Sizes::new(p, h)?;
    if stack.len() < 1 {
        return Err(Refusal::Range);
    }
    if h < stack.len() {
        return Err(Refusal::Range);
    }
    sizes.scanned(stack)
}

// The stack of a number, bottom to top, into the front of out; answers its height.
#[tactic(auto, unfolding(crate::specs::Stacks::ok_number, crate::specs::Answers::ok_out))]
pub fn stack_of(p: usize, h: usize, number: usize, out: &mut [u8]) -> Result<usize, Refusal>
    ensures { (result ≡ height_of p h number out.old) × (out.new ≡ out_of p h number out.old) }
{
    let sizes = Sizes::new(p, h)?;
    if number < 1 {
        return Err(Refusal::Range);
    }
    if sizes.total() < number {
        return Err(Refusal::Range);
    }
    let high = sizes.height_of(number);
    if out.len() < high {
        return Err(Refusal::Range);
    }
    sizes.filled(number, high, out);
    Ok(high)
}
