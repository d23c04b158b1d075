// What the calls on stacks answer a C caller: one number, into which the answer is packed.
#![tactic(auto)]

ghost use Rattle.std.specs.Prelude.{◌≡◌};
ghost use Rattle.stacks.specs.Answers.{count_of, height_of, number_of, out_of};
ghost use Rattle.functions.specs.Answers.{applied_of, inverse_of};
ghost use Rattle.stack_exports.specs.Packing.{pack_after, pack_answer};

use packing::packed;

/// How many stacks there are.
pub fn stack_count(p: usize, h: usize) -> u64
    ensures { result ≡ pack_answer (count_of p h) }
{
    packed(stacks::stack_count(p, h))
}

/// The number of a stack, bottom to top.
pub fn number_of(p: usize, h: usize, stack: &[u8]) -> u64
    ensures { result ≡ pack_answer (number_of p h stack.now) }
{
    packed(stacks::number_of(p, h, stack))
}

/// The stack of a number, bottom to top, into the front of `out`; answers its height.
pub fn stack_of(p: usize, h: usize, number: usize, out: &mut [u8]) -> u64
    ensures { (result ≡ pack_answer (height_of p h number out.old)) × (out.new ≡ out_of p h number out.old) }
{
    packed(stacks::stack_of(p, h, number, out))
}

/// The number of the stack that a function makes of the stack of a number; 0 where it is not applicable.
pub fn applied(p: usize, h: usize, function: usize, number: usize) -> u64
    ensures { result ≡ pack_after (applied_of p h function number) }
{
    packed(functions::applied(p, h, function, number))
}

/// The function that takes back what this one does.
pub fn inverse_of(p: usize, function: usize) -> u64
    ensures { result ≡ pack_answer (inverse_of p function) }
{
    packed(functions::inverse_of(p, function))
}
