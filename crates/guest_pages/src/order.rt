//! The order in which pages are brought.
ghost use Rattle.std.specs.Prelude.{◌≡◌, ◌≢◌, ◌<◌, ◌≤◌, ◌++◌, ◌∷◌, [], ◌==◌, not, vec_len, slice_index_or, IfOk};
ghost use Rattle.std.specs.List.{filter};
ghost use Rattle.std.specs.Vec.{vec_capacity};

use std::alloc::{AllocError, Global};

/// The slots of the pages that are in frames, the one brought first in front.
#[derive(Drop)]
pub struct Order {
    slots: Vec<u32>,
}

impl Order {
    /// An order with room for so many.
    pub(crate) fn new(alloc: Global, count: usize) -> Result<Order, AllocError>
        ensures empty { IfOk result (λ order. order.slots.items ≡ []) }
        ensures room { IfOk result (λ order. count ≤ vec_capacity order.slots) }
    {
        let slots = Vec::with_capacity(alloc, count)?;
        Ok(Order { slots })
    }

    /// How many there are.
    pub(crate) fn len(&self) -> usize
        ensures { result ≡ vec_len self.now.slots }
    {
        self.slots.len()
    }

    /// The one brought first.
    pub(crate) fn first(&self) -> u32
        requires { 0 < vec_len self.now.slots }
        ensures { result ≡ slice_index_or self.now.slots.items 0 result }
    {
        self.slots[0]
    }

    /// Puts a slot last.
    pub(crate) fn put(&mut self, slot: u32)
        requires { vec_len self.old.slots < vec_capacity self.old.slots }
        ensures items { self.new.slots.items ≡ self.old.slots.items ++ slot ∷ [] }
        ensures capacity { vec_capacity self.new.slots ≡ vec_capacity self.old.slots }
    {
        self.slots.push_reserved(slot);
    }

    /// Takes a slot out.
    pub(crate) fn take_out(&mut self, slot: u32)
        ensures items { self.new.slots.items ≡ filter (λ other. not (other == slot)) self.old.slots.items }
        ensures capacity { vec_capacity self.new.slots ≡ vec_capacity self.old.slots }
    {
        self.slots.retain(|other| *other != slot);
    }
}
