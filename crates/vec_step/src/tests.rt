//! Vector instructions with registers and memory. What is expected is the SDM's, and in tables a processor's.
mod cases;
mod faults;
mod fixture;
mod rows;
mod worked;

use cases::assert_processors;
use rows::{
    BLENDS, BROADCASTS, COMPARES, LOGIC, MOVES, PARTS, PERMUTES, PRODUCTS, SHIFTS, SHUFFLES, SUMS,
    WIDTHS,
};
use std::test::Fail;

#[test]
fn sums_are_a_processors(rt: HostRuntime) -> Result<(), Fail> {
    assert_processors(&rt, rt.alloc(), &SUMS)
}

#[test]
fn logic_is_a_processors(rt: HostRuntime) -> Result<(), Fail> {
    assert_processors(&rt, rt.alloc(), &LOGIC)
}

#[test]
fn comparisons_are_a_processors(rt: HostRuntime) -> Result<(), Fail> {
    assert_processors(&rt, rt.alloc(), &COMPARES)
}

#[test]
fn shifts_are_a_processors(rt: HostRuntime) -> Result<(), Fail> {
    assert_processors(&rt, rt.alloc(), &SHIFTS)
}

#[test]
fn moves_are_a_processors(rt: HostRuntime) -> Result<(), Fail> {
    assert_processors(&rt, rt.alloc(), &MOVES)
}

#[test]
fn shuffles_are_a_processors(rt: HostRuntime) -> Result<(), Fail> {
    assert_processors(&rt, rt.alloc(), &SHUFFLES)
}

#[test]
fn permutations_are_a_processors(rt: HostRuntime) -> Result<(), Fail> {
    assert_processors(&rt, rt.alloc(), &PERMUTES)
}

#[test]
fn blends_are_a_processors(rt: HostRuntime) -> Result<(), Fail> {
    assert_processors(&rt, rt.alloc(), &BLENDS)
}

#[test]
fn broadcasts_are_a_processors(rt: HostRuntime) -> Result<(), Fail> {
    assert_processors(&rt, rt.alloc(), &BROADCASTS)
}

#[test]
fn parts_are_a_processors(rt: HostRuntime) -> Result<(), Fail> {
    assert_processors(&rt, rt.alloc(), &PARTS)
}

#[test]
fn products_are_a_processors(rt: HostRuntime) -> Result<(), Fail> {
    assert_processors(&rt, rt.alloc(), &PRODUCTS)
}

#[test]
fn changes_of_width_are_a_processors(rt: HostRuntime) -> Result<(), Fail> {
    assert_processors(&rt, rt.alloc(), &WIDTHS)
}
