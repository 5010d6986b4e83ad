//! The parts of a stack, which are appended one after the other.
ghost use Rattle.std.specs.Prelude.{◌≡◌, ◌<◌, ◌≤◌, ◌+◌, ◌^◌, OnOk, length, map, flat_map, replicate, string_bytes, ◌++◌};
ghost use Rattle.byteorder.specs.Endian.{little_bytes};
ghost use Rattle.start_stack.specs.Stack.{with_zero, text_size, addresses, pair_of, vector, strings as strings_of, used_size, longest_stack};

use crate::auxiliary::auxiliary_vector;
use crate::kinds::Auxiliary;
use crate::sizes::{PLATFORM, places};
use elf_image::Image;
use machine_state::next_random;
use std::alloc::AllocError;

/// Appends a number as 8 bytes, the lowest first.
fn put_number(stack: &mut Vec<u8>, number: u64) -> Result<(), AllocError>
    ensures { OnOk result (stack.new.items ≡ stack.old.items ++ little_bytes 8 number) }
{
    stack.extend_from_slice(&number.to_le_bytes())
}

/// Appends zeros.
pub(crate) fn put_zeros(stack: &mut Vec<u8>, count: usize) -> Result<(), AllocError>
    ensures { OnOk result (stack.new.items ≡ stack.old.items ++ replicate count 0) }
{
    for _ in 0..count {
        stack.extend_from_slice(&[0])?;
    }
    Ok(())
}

/// Appends a text with a final 0.
fn put_text(stack: &mut Vec<u8>, text: &str) -> Result<(), AllocError>
    ensures { OnOk result (stack.new.items ≡ stack.old.items ++ with_zero text.now) }
{
    stack.extend_from_slice(text.as_bytes())?;
    stack.extend_from_slice(&[0])
}

/// Appends texts, each with a final 0.
fn put_texts(stack: &mut Vec<u8>, texts: &[String]) -> Result<(), AllocError>
    ensures { OnOk result (stack.new.items ≡ stack.old.items ++ flat_map with_zero (map string_bytes texts.now)) }
{
    for text in texts {
        put_text(stack, text.as_str())?;
    }
    Ok(())
}

/// Appends the addresses of texts that stand one after the other from an address on.
fn put_addresses(stack: &mut Vec<u8>, at: u64, texts: &[String]) -> Result<(), AllocError>
    requires { at + text_size (map string_bytes texts.now) < 2 ^ 64 }
    ensures { OnOk result (stack.new.items ≡ stack.old.items ++ flat_map (little_bytes 8) (addresses at (map string_bytes texts.now))) }
{
    let mut next = at;
    for text in texts {
        put_number(stack, next)?;
        next += text.len() as u64 + 1;
    }
    Ok(())
}

/// Appends the two numbers of an entry.
fn put_pair(stack: &mut Vec<u8>, entry: &Auxiliary) -> Result<(), AllocError>
    ensures { OnOk result (stack.new.items ≡ stack.old.items ++ flat_map (little_bytes 8) (pair_of entry.now)) }
{
    put_number(stack, entry.kind)?;
    put_number(stack, entry.value)
}

/// Appends the entries of an auxiliary vector.
fn put_auxiliary(stack: &mut Vec<u8>, entries: &[Auxiliary]) -> Result<(), AllocError>
    ensures { OnOk result (stack.new.items ≡ stack.old.items ++ flat_map (little_bytes 8) (flat_map pair_of entries.now)) }
{
    for entry in entries {
        put_pair(stack, entry)?;
    }
    Ok(())
}

/// Appends the vector.
pub(crate) fn put_vector(
    stack: &mut Vec<u8>,
    image: &Image,
    args: &[String],
    env: &[String],
) -> Result<(), AllocError>
    requires args { 0 < length args.now }
    requires short { used_size (map string_bytes args.now) (map string_bytes env.now) ≤ longest_stack }
    ensures { OnOk result (stack.new.items
        ≡ stack.old.items ++ flat_map (little_bytes 8) (vector image.now (map string_bytes args.now) (map string_bytes env.now))) }
{
    let places = places(args, env);
    put_number(stack, args.len() as u64)?;
    put_addresses(stack, places.args, args)?;
    put_number(stack, 0)?;
    put_addresses(stack, places.env, env)?;
    put_number(stack, 0)?;
    put_auxiliary(stack, &auxiliary_vector(image, &places))
}

/// Appends the strings.
pub(crate) fn put_strings(
    stack: &mut Vec<u8>,
    args: &[String],
    env: &[String],
    seed: u64,
) -> Result<(), AllocError>
    requires { 0 < length args.now }
    ensures { OnOk result (stack.new.items
        ≡ stack.old.items ++ strings_of (map string_bytes args.now) (map string_bytes env.now) seed) }
{
    put_texts(stack, args)?;
    put_texts(stack, env)?;
    put_text(stack, args[0].as_str())?;
    put_text(stack, PLATFORM)?;
    let first = next_random(seed);
    put_number(stack, first)?;
    put_number(stack, next_random(first))
}
