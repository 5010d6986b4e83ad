//! Start stacks, byte for byte and by their sizes. What is expected is the System V ABI's (AMD64, 3.4.1), and this program's own
//! choice of places and of the auxiliary vector.

mod rows;

use crate::*;
use arrayvec::ArrayVec;
use elf_image::Image;
use rows::*;
use std::alloc::{AllocError, Global};
use std::process::Abort;
use std::test::Fail;

fn image((entry, phdr, phnum): (u64, u64, u16)) -> Image {
    Image {
        entry,
        phdr,
        phnum,
        heap: 0x40_1000,
        segments: ArrayVec::new(),
    }
}

fn strings(alloc: Global, texts: &[&str]) -> Result<Vec<String>, AllocError> {
    let mut strings = Vec::new(alloc);
    for text in texts {
        strings.push(String::from_str(alloc, text)?)?;
    }
    Ok(strings)
}

/// The bytes that a row tells.
fn expected(alloc: Global, row: &Row) -> Result<Vec<u8>, AllocError> {
    let mut bytes = Vec::new(alloc);
    for number in row.numbers {
        bytes.extend_from_slice(&number.to_le_bytes())?;
    }
    for _ in 0..row.between {
        bytes.push(0)?;
    }
    bytes.extend_from_slice(row.strings)?;
    bytes.extend_from_slice(&[0; 8])?;
    Ok(bytes)
}

fn expect_stack(rt: &impl Abort, alloc: Global, row: &Row) -> Result<(), Fail> {
    let args = strings(alloc, row.args)?;
    let env = strings(alloc, row.env)?;
    if args.is_empty() {
        return Ok(());
    }
    match stack_bytes(alloc, &image(row.image), &args, &env, row.seed) {
        Ok(stack) => {
            assert_eq!(rt; stack.as_slice(), expected(alloc, row)?.as_slice());
            if stack.len() <= 131_072 {
                assert_eq!(rt; stack_pointer(&stack), row.pointer);
            }
        }
        Err(fault) => assert!(rt; false, "{fault}"),
    }
    Ok(())
}

#[test]
fn stack_holds_vector_and_strings(rt: HostRuntime) -> Result<(), Fail> {
    for row in &ROWS {
        expect_stack(&rt, rt.alloc(), row)?;
    }
    Ok(())
}

/// The size of the stack of `hello` with one argument of so many bytes, or of the one that is refused; none where memory is
/// wanting.
fn size_with(alloc: Global, len: usize) -> Result<Option<Result<usize, u64>>, AllocError> {
    let args = vec![in alloc; String::from_str(alloc, "hello")?, "x".repeat(alloc, len)?]?;
    let env = Vec::new(alloc);
    match stack_bytes(alloc, &image((0x40_0078, 0x40_0040, 1)), &args, &env, 0) {
        Ok(stack) => Ok(Some(Ok(stack.len()))),
        Err(StartFault::TooLong(fault)) => Ok(Some(Err(fault.size))),
        Err(StartFault::Memory) => Ok(None),
    }
}

#[test]
fn size_is_rounded_up_and_has_a_limit(rt: HostRuntime) -> Result<(), Fail> {
    for (len, size) in LENGTHS {
        assert_eq!(rt; size_with(rt.alloc(), len)?, Some(size), "{len}");
    }
    Ok(())
}

#[test]
fn two_draws_are_taken(rt: HostRuntime) {
    for (seed, after) in SEEDS {
        assert_eq!(rt; random_after(seed), after, "{seed}");
    }
}
