//! How many bytes a stack has.
ghost use Rattle.std.specs.Prelude.{◌≡◌, ◌<◌, ◌≤◌, ◌+◌, ◌*◌, ◌^◌, ◌-◌, min, length, map, string_bytes, slice_index_or};
ghost use Rattle.start_stack.specs.Stack.{path_of, text_size as text_size_of, strings_size as strings_size_of, vector_size as vector_size_of, used_size as used_size_of, rounded_up as rounded_up_of, places_of, longest_stack};

use crate::auxiliary::ENTRIES;
use crate::kinds::Places;

/// Where the stack ends.
pub const STACK_TOP: u64 = 0x7FFF_FFFF_F000;

/// The name of the platform.
pub(crate) const PLATFORM: &str = "x86_64";

/// How many bytes the platform's name has with its final 0, how many random bytes there are, and how many zeros at the end.
const PLATFORM_SIZE: u64 = 7;

const RANDOM_SIZE: u64 = 16;

pub(crate) const END_SIZE: u64 = 8;

/// The numbers of the vector that aren't addresses of texts: the count, a 0 behind each list, and two an auxiliary entry.
const FIXED_NUMBERS: u64 = 3 + 2 * ENTRIES as u64;

/// How many bytes some texts have with their final 0s, at most 2^64 - 1.
pub(crate) fn text_size(texts: &[String]) -> u64
    ensures { result ≡ min (text_size_of (map string_bytes texts.now)) (2 ^ 64 - 1) }
{
    let mut size: u64 = 0;
    for text in texts {
        size = size.saturating_add(text.len() as u64).saturating_add(1);
    }
    size
}

/// How many bytes the strings have, likewise.
fn strings_size(args: &[String], env: &[String]) -> u64
    requires { 0 < length args.now }
    ensures { result ≡ min (strings_size_of (map string_bytes args.now) (map string_bytes env.now)) (2 ^ 64 - 1) }
{
    text_size(args)
        .saturating_add(text_size(env))
        .saturating_add(args[0].len() as u64)
        .saturating_add(1 + PLATFORM_SIZE + RANDOM_SIZE)
}

/// How many bytes the vector has, likewise.
fn vector_size(args: &[String], env: &[String]) -> u64
    ensures { result ≡ min (vector_size_of (map string_bytes args.now) (map string_bytes env.now)) (2 ^ 64 - 1) }
{
    let texts = (args.len() as u64).saturating_add(env.len() as u64);
    texts.saturating_add(FIXED_NUMBERS).saturating_mul(8)
}

/// How many bytes are used, likewise.
pub(crate) fn used_size(args: &[String], env: &[String]) -> u64
    requires { 0 < length args.now }
    ensures { result ≡ min (used_size_of (map string_bytes args.now) (map string_bytes env.now)) (2 ^ 64 - 1) }
{
    vector_size(args, env)
        .saturating_add(strings_size(args, env))
        .saturating_add(END_SIZE)
}

/// A size that is rounded up to 16, likewise.
pub(crate) fn rounded_up(size: u64) -> u64
    ensures value { result ≡ min (rounded_up_of size) (2 ^ 64 - 1) }
    ensures above { size ≤ result }
{
    if size <= u64::MAX - 15 {
        (size + 15) / 16 * 16
    } else {
        u64::MAX
    }
}

/// Where the parts of the strings begin.
pub(crate) fn places(args: &[String], env: &[String]) -> Places
    requires args { 0 < length args.now }
    requires short { used_size_of (map string_bytes args.now) (map string_bytes env.now) ≤ longest_stack }
    ensures { result ≡ places_of (map string_bytes args.now) (map string_bytes env.now) }
{
    let first = STACK_TOP - END_SIZE - strings_size(args, env);
    let env_at = first + text_size(args);
    let path = env_at + text_size(env);
    let platform = path + (args[0].len() as u64 + 1);
    Places {
        args: first,
        env: env_at,
        path,
        platform,
        random: platform + PLATFORM_SIZE,
    }
}
