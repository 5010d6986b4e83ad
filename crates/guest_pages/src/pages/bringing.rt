//! What brings pages into frames.
ghost use Rattle.std.specs.Prelude.{◌≡◌, ◌<◌, ◌≤◌, ℕ, length, nat_lt, is_some, IfSome};
ghost use Rattle.guest_pages.specs.Entry.{is_in_frame};

use super::Pages;
use crate::entry::{bring_in, on_swap, put_away, unsaved};

impl Pages {
    ghost use Rattle.std.specs.Prelude.{◌≡◌, ◌<◌, ◌≤◌, ℕ, length, nat_lt, is_some, IfSome};
    ghost use Rattle.machine_state.specs.Memory.{page_size};
    ghost use Rattle.guest_pages.specs.Table.{Mapped};
    ghost use Rattle.guest_pages.specs.Pages.{mark_of, is_swapped};
    ghost use Rattle.guest_pages.specs.Changes.{AreBytesOf, is_unsaved, IsLeft, IsEntered};
    ghost use Rattle.guest_pages.specs.Order.{AreOrdered, IsSlotOf, IsResidentIn, IsAwayIn, IsFirstBrought};
    ghost use Rattle.guest_pages.specs.Laws.{AreCounted};

    /// Whether a frame holds no page. The other clauses hold of pages at any time.
    pub fn has_free(&self) -> bool
        ensures free { result ≡ nat_lt (length self.now.recent) self.now.frames }
        ensures counts { AreCounted self.now }
        ensures ordered { AreOrdered self.now }
    {
        self.order.len() < self.frames as usize
    }

    /// The slot of the page that was brought first, where no frame is free.
    pub fn first_brought(&self) -> u32
        requires { self.now.frames ≤ length self.now.recent }
        ensures { IsFirstBrought self.now.recent result }
    {
        self.order.first()
    }

    /// The bytes of the page in a frame, if it was written since it was last put or mapped. A page counts as put when it
    /// leaves, and as mapped when it is filled with zeros.
    pub fn unsaved(&self, slot: u32) -> Option<&[u8]>
        requires resident { IsResidentIn self.now slot }
        ensures bytes { (page : ℕ) (mapped : Mapped) → IsSlotOf self.now slot page mapped
            → IfSome result (λ bytes. AreBytesOf self.now page bytes.now) }
        ensures written { (page : ℕ) (mapped : Mapped) → IsSlotOf self.now slot page mapped
            → is_some result ≡ is_unsaved (mark_of self.now page) }
    {
        unsaved(&self.slots[slot as usize])
    }

    /// Takes the frame of the page, which is away then: on the swap where it was written or came from there, else as zeros.
    pub fn leave(&mut self, slot: u32)
        requires resident { IsResidentIn self.old slot }
        ensures left { (page : ℕ) (mapped : Mapped) → IsSlotOf self.old slot page mapped
            → IsLeft self.old self.new page mapped }
    {
        match put_away(&mut self.slots[slot as usize]) {
            Some(frame) => {
                self.free.push_reserved(frame);
                self.order.take_out(slot);
            }
            None => unreachable!(),
        }
    }

    /// Whether the page, which is away, is on the swap; else it is zeros.
    pub fn on_swap(&self, slot: u32) -> bool
        requires away { IsAwayIn self.now slot }
        ensures { (page : ℕ) (mapped : Mapped) → IsSlotOf self.now slot page mapped
            → result ≡ is_swapped self.now page }
    {
        on_swap(&self.slots[slot as usize])
    }

    /// Gives the page, which is away, a free frame with these bytes. It is the page brought last then.
    pub fn enter(&mut self, slot: u32, bytes: &[u8])
        requires away { IsAwayIn self.old slot }
        requires free { length self.old.recent < self.old.frames }
        requires page { length bytes.now ≡ page_size }
        ensures entered { (page : ℕ) (mapped : Mapped) → IsSlotOf self.old slot page mapped
            → IsEntered self.old self.new page mapped bytes.now }
        ensures ordered { AreOrdered self.new }
    {
        match self.free.pop() {
            Some(frame) => {
                bring_in(&mut self.slots[slot as usize], frame.filled(bytes));
                self.order.put(slot);
            }
            None => unreachable!(),
        }
    }
}
