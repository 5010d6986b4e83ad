//! The start stack.
ghost use Rattle.std.specs.Prelude.{◌≡◌, ◌<◌, ◌≤◌, ◌-◌, ◌^◌, min, IfOk, IfErr, length, map, string_bytes};
ghost use Rattle.start_stack.specs.Stack.{used_size as used_size_of, stack_size, stack as stack_of, stack_top, longest_stack, random_after as random_after_of, Refuses};

use crate::building::{put_strings, put_vector, put_zeros};
use crate::sizes::{END_SIZE, STACK_TOP, rounded_up, used_size};
use crate::{StartFault, TooLong};
use elf_image::Image;
use machine_state::next_random;
use std::alloc::{AllocError, Global};

/// The most bytes that stand on the stack at the start.
const LONGEST_STACK: u64 = 131_072;

/// Makes a stack that isn't too long, with so many bytes between the vector and the strings.
fn build(
    alloc: Global,
    image: &Image,
    args: &[String],
    env: &[String],
    seed: u64,
    between: usize,
) -> Result<Vec<u8>, AllocError>
    requires args { 0 < length args.now }
    requires short { used_size_of (map string_bytes args.now) (map string_bytes env.now) ≤ longest_stack }
    requires between { between ≡ stack_size (map string_bytes args.now) (map string_bytes env.now)
        - used_size_of (map string_bytes args.now) (map string_bytes env.now) }
    ensures { IfOk result (λ stack. stack.items ≡ stack_of image.now (map string_bytes args.now) (map string_bytes env.now) seed) }
{
    let mut stack = Vec::new(alloc);
    put_vector(&mut stack, image, args, env)?;
    put_zeros(&mut stack, between)?;
    put_strings(&mut stack, args, env, seed)?;
    put_zeros(&mut stack, END_SIZE as usize)?;
    Ok(stack)
}

/// The bytes from the stack pointer up to the stack's end, for a program with these arguments, of which the first is its path,
/// and this environment. The random bytes are from the stream of the seed.
pub fn stack_bytes(
    alloc: Global,
    image: &Image,
    args: &[String],
    env: &[String],
    seed: u64,
) -> Result<Vec<u8>, StartFault>
    requires { 0 < length args.now }
    ensures stack { IfOk result (λ stack. stack.items ≡ stack_of image.now (map string_bytes args.now) (map string_bytes env.now) seed) }
    ensures size { IfOk result (λ stack. length stack.items ≡ stack_size (map string_bytes args.now) (map string_bytes env.now)) }
    ensures short { IfOk result (λ stack. stack_size (map string_bytes args.now) (map string_bytes env.now) ≤ longest_stack) }
    ensures refused { IfErr result (Refuses (stack_size (map string_bytes args.now) (map string_bytes env.now))) }
{
    let used = used_size(args, env);
    let size = rounded_up(used);
    if size > LONGEST_STACK {
        return Err(StartFault::TooLong(TooLong { size }));
    }
    match build(alloc, image, args, env, seed, (size - used) as usize) {
        Ok(stack) => Ok(stack),
        Err(_) => Err(StartFault::Memory),
    }
}

/// The stack pointer of a stack.
pub fn stack_pointer(stack: &[u8]) -> u64
    requires { length stack.now ≤ longest_stack }
    ensures { result ≡ stack_top - length stack.now }
{
    STACK_TOP - stack.len() as u64
}

/// The number of the random stream behind a stack's random bytes.
pub fn random_after(seed: u64) -> u64
    ensures { result ≡ random_after_of seed }
{
    next_random(next_random(seed))
}
