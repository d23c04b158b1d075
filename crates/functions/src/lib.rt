// The functions on stacks: convert, wrap and unwrap, by the numbers of stacks. Every public function takes any input; its contract is an equation in
// specs/Answers.antt.
#![tactic(auto)]

ghost use Rattle.std.specs.Prelude.{◌≡◌, ◌&&◌, ◌≤◌, ◌<◌, Ok, Err, cond, leb};
ghost use Rattle.functions.specs.Functions.{kind_of, ok_function};
ghost use Rattle.functions.specs.Answers.{applied_of, move_number, moved_of, inverse_of};
ghost use Rattle.functions.specs.Parts.{IsFunctionOf, IsKindNumber, kind_at, kind_number, function_of, inverse_by};

use refusal::Refusal;

/// The kinds of functions, by their numbers.
#[derive(Clone, Copy, Debug, PartialEq, Eq, Drop)]
pub enum Kind {
    Convert = 0,
    Wrap = 1,
    Unwrap = 2,
}

impl From<Kind> for usize {
    ghost from_gives = { IsKindNumber };

    fn from(kind: Kind) -> usize {
        kind as usize
    }
}

/// A function by its parts: convert a to b, wrap a in b, or unwrap a from b.
#[derive(Clone, Copy, Debug, PartialEq, Eq, Drop)]
pub struct Function {
    pub kind: Kind,
    pub a: usize,
    pub b: usize,
}

fn kind_of(f: usize) -> Kind
    ensures { result ≡ kind_at (kind_of f) }
{
    match f / 64 {
        0 => Kind::Convert,
        1 => Kind::Wrap,
        _ => Kind::Unwrap,
    }
}

impl TryFrom<usize> for Function {
    type Error = Refusal;

    ghost try_from_gives = { IsFunctionOf };

    fn try_from(f: usize) -> Result<Function, Refusal> {
        if f < 192 {
            return Ok(Function {
                kind: kind_of(f),
                a: f / 8 % 8,
                b: f % 8,
            });
        }
        Err(Refusal::Range)
    }
}

// The function of a number, on the protocols below p.
fn function_on(p: usize, f: usize) -> Result<Function, Refusal>
    ensures { result ≡ cond (leb 1 p && (leb p 8 && ok_function p f)) (Ok (function_of f)) (Err Refusal.Range) }
{
    let function = Function::try_from(f)?;
    if (p <= 8) & (function.a < p) & (function.b < p) {
        return Ok(function);
    }
    Err(Refusal::Range)
}

impl Function {
    // What the function makes of the stack of a number, where there are most stacks.
    fn makes(self, p: usize, most: usize, number: usize) -> Option<usize>
        requires { (1 ≤ p) × (p ≤ 8) × (self.b ≤ 7) × (1 ≤ number) × (number ≤ 78536544840) }
        ensures { Ok result ≡ move_number p most (kind_number self.kind) self.a self.b number }
    {
        let top = (number - 1) % p;
        let rest = (number - 1) / p;
        match self.kind {
            Kind::Convert => {
                if top == self.a {
                    return Some(p * rest + self.b + 1);
                }
            }
            Kind::Wrap => {
                let up = p * number + self.b + 1;
                if (top == self.a) & (up <= most) {
                    return Some(up);
                }
            }
            Kind::Unwrap => {
                if (top == self.b) & (0 < rest) {
                    if (rest - 1) % p == self.a {
                        return Some(rest);
                    }
                }
            }
        }
        None
    }

    // The number of the function that takes back what this one does.
    fn inverse(self) -> usize
        requires { (self.a ≤ 7) × (self.b ≤ 7) }
        ensures { result ≡ inverse_by self }
    {
        match self.kind {
            Kind::Convert => 8 * self.b + self.a,
            Kind::Wrap => 128 + 8 * self.a + self.b,
            Kind::Unwrap => 64 + 8 * self.a + self.b,
        }
    }
}

// As applied, where most is S, for a caller that has worked it out: no loop.
pub fn moved(p: usize, most: usize, f: usize, number: usize) -> Result<Option<usize>, Refusal>
    ensures { result ≡ moved_of p most f number }
{
    let function = function_on(p, f)?;
    if (most <= 78536544840) & (1 <= number) & (number <= most) {
        return Ok(function.makes(p, most, number));
    }
    Err(Refusal::Range)
}

// The number of the stack that the function f makes of the stack of a number; none where it is not applicable there.
pub fn applied(p: usize, h: usize, f: usize, number: usize) -> Result<Option<usize>, Refusal>
    ensures { result ≡ applied_of p h f number }
{
    moved(p, stacks::stack_count(p, h)?, f, number)
}

// The function that takes back what f does: applied to what f made of a stack, it makes that stack again.
pub fn inverse_of(p: usize, f: usize) -> Result<usize, Refusal>
    ensures { result ≡ inverse_of p f }
{
    Ok(function_on(p, f)?.inverse())
}
