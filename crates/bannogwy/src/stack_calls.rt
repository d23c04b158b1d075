// The calls on stacks.
ghost use Rattle.std.specs.Prelude.{◌≡◌};
ghost use Rattle.stacks.specs.Answers.{count_of, height_of, number_of, out_of};
ghost use Rattle.functions.specs.Answers.{applied_of, inverse_of};
ghost use Rattle.stack_exports.specs.Packing.{pack_after, pack_answer};

// How many stacks there are.
#[unsafe(no_mangle)]
pub extern "C" fn bannogwy_stack_count(p: usize, h: usize) -> u64
    ensures { result ≡ pack_answer (count_of p h) }
{
    stack_exports::stack_count(p, h)
}

// The number of a stack, bottom to top.
#[unsafe(no_mangle)]
pub extern "C" fn bannogwy_number_of(p: usize, h: usize, stack: &[u8]) -> u64
    ensures { result ≡ pack_answer (number_of p h stack.now) }
{
    stack_exports::number_of(p, h, stack)
}

// The stack of a number, bottom to top, into the front of `out`; answers its height.
#[unsafe(no_mangle)]
pub extern "C" fn bannogwy_stack_of(p: usize, h: usize, number: usize, out: &mut [u8]) -> u64
    ensures { (result ≡ pack_answer (height_of p h number out.old)) × (out.new ≡ out_of p h number out.old) }
{
    stack_exports::stack_of(p, h, number, out)
}

// The number of the stack that a function makes of the stack of a number; 0 where it is not applicable.
#[unsafe(no_mangle)]
pub extern "C" fn bannogwy_applied(p: usize, h: usize, function: usize, number: usize) -> u64
    ensures { result ≡ pack_after (applied_of p h function number) }
{
    stack_exports::applied(p, h, function, number)
}

// The function that takes back what this one does.
#[unsafe(no_mangle)]
pub extern "C" fn bannogwy_inverse_of(p: usize, function: usize) -> u64
    ensures { result ≡ pack_answer (inverse_of p function) }
{
    stack_exports::inverse_of(p, function)
}
