//! Numbers in linked lists: each number is in one list, its home, from which it moves to another.
ghost use Rattle.std.specs.Prelude.{◌≡◌, ◌≢◌, ◌<◌, ℕ, List, ◌∷◌, None, true, false, slice_index_or, vec_len, IfOk};

use std::alloc::{AllocError, Global};

/// Lists of the numbers below some count.
#[derive(Drop)]
pub struct Lists {
    heads: Vec<Option<u32>>,
    nexts: Vec<Option<u32>>,
}

impl Lists {
    ghost use Rattle.guest_pages.specs.Lists.{among, IsList, IsIn, IsBefore, IsRemoved, AreDisjoint, AreListed, moved};

    /// So many lists, and all numbers in one of them, their home.
    pub(crate) fn new(
        alloc: Global,
        lists: usize,
        home: usize,
        numbers: u32,
    ) -> Result<Lists, AllocError>
        requires { home < lists }
        ensures heads { IfOk result (λ new. vec_len new.heads ≡ lists) }
        ensures nexts { IfOk result (λ new. vec_len new.nexts ≡ numbers) }
        ensures listed { IfOk result (λ new. AreListed new (λ _. home)) }
    {
        let heads = vacant(alloc, lists)?;
        let nexts = vacant(alloc, numbers as usize)?;
        let mut new = Lists { heads, nexts };
        for number in 0..numbers {
            new.push(home, number);
        }
        Ok(new)
    }

    /// The first number of a list.
    pub(crate) fn first(&self, list: usize) -> Option<u32>
        requires { list < vec_len self.now.heads }
        ensures { result ≡ slice_index_or self.now.heads.items list None }
    {
        self.heads[list]
    }

    /// The number after another in its list.
    pub(crate) fn next(&self, number: u32) -> Option<u32>
        requires { number < vec_len self.now.nexts }
        ensures { result ≡ slice_index_or self.now.nexts.items number None }
    {
        self.nexts[number as usize]
    }

    // Puts a number that is in no list at the front of one.
    fn push(&mut self, list: usize, number: u32)
        requires list { list < vec_len self.old.heads }
        requires number { number < vec_len self.old.nexts }
        ensures pushed { (numbers : List ℕ) → IsList self.old list numbers → among number numbers ≡ false
            → IsList self.new list (number ∷ numbers) }
        ensures others { (other : ℕ) (numbers : List ℕ) → other ≢ list → IsList self.old other numbers
            → among number numbers ≡ false → IsList self.new other numbers }
        ensures heads { vec_len self.new.heads ≡ vec_len self.old.heads }
        ensures nexts { vec_len self.new.nexts ≡ vec_len self.old.nexts }
    {
        self.nexts[number as usize] = self.heads[list];
        self.heads[list] = Some(number);
    }

    // The number before another in a list, if that isn't the first.
    fn before(&self, list: usize, number: u32) -> Option<u32>
        requires list { list < vec_len self.now.heads }
        requires listed { IsIn self.now list number }
        ensures { IsBefore self.now list number result }
    {
        let mut before = None;
        let mut at = self.heads[list];
        while let Some(here) = at {
            if here == number {
                return before;
            }
            before = at;
            at = self.nexts[here as usize];
        }
        unreachable!()
    }

    // Takes a number out of its list.
    fn remove(&mut self, list: usize, number: u32)
        requires list { list < vec_len self.old.heads }
        requires listed { IsIn self.old list number }
        ensures removed { (numbers : List ℕ) → IsList self.old list numbers → among number numbers ≡ true
            → IsRemoved self.new list number numbers }
        ensures others { (other : ℕ) (numbers mine : List ℕ) → other ≢ list → IsList self.old other numbers
            → IsList self.old list mine → AreDisjoint mine numbers → IsList self.new other numbers }
        ensures heads { vec_len self.new.heads ≡ vec_len self.old.heads }
        ensures nexts { vec_len self.new.nexts ≡ vec_len self.old.nexts }
    {
        let next = self.nexts[number as usize];
        match self.before(list, number) {
            Some(before) => self.nexts[before as usize] = next,
            None => self.heads[list] = next,
        }
    }

    /// Moves a number from its home to another list.
    pub(crate) fn shift(&mut self, number: u32, from: usize, to: usize)
        requires from { from < vec_len self.old.heads }
        requires to { to < vec_len self.old.heads }
        requires number { number < vec_len self.old.nexts }
        requires listed { IsIn self.old from number }
        ensures listed { (home : ℕ → ℕ) → home number ≡ from → AreListed self.old home
            → AreListed self.new (moved home number to) }
        ensures heads { vec_len self.new.heads ≡ vec_len self.old.heads }
        ensures nexts { vec_len self.new.nexts ≡ vec_len self.old.nexts }
    {
        self.remove(from, number);
        self.push(to, number);
    }
}

/// A vector of so many `None`.
pub(crate) fn vacant<T: Drop>(alloc: Global, count: usize) -> Result<Vec<Option<T>>, AllocError>
    ensures len { IfOk result (λ v. vec_len v ≡ count) }
    ensures none { IfOk result (λ v. (i : ℕ) → slice_index_or v.items i None ≡ None) }
{
    let mut v = Vec::with_capacity(alloc, count)?;
    for _ in 0..count {
        v.push_reserved(None);
    }
    Ok(v)
}
