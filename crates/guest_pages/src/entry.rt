//! A mapped page, and where its bytes are.
ghost use Rattle.std.specs.Prelude.{◌≡◌, ◌≤◌, ◌+◌, None, true, false, is_some, length, IfSome};
ghost use Rattle.std.specs.Borrow.{sem};
ghost use Rattle.std.specs.Option.{option_copied};
ghost use Rattle.machine_state.specs.Memory.{page_size};
ghost use Rattle.guest_pages.specs.Entry.{is_resident, place_marked, place_frame, holds_page, slot_permits, slot_frame, is_in_frame, IsLent, slot_protected, is_on_swap, place_unsaved, slot_unsaved, place_left, slot_left, place_entered, slot_entered, slot_swapped, HasPerms};
ghost use Rattle.guest_pages.specs.EntryLends.{LendsPlace, LendsEntry, LendsSlot};

use crate::frame::Frame;
use machine_state::{Kind, Perms};
use std::mem::replace;

/// What the bytes of a page in a frame are beside what a swap holds.
#[derive(Clone, Copy, Debug, PartialEq, Eq)]
pub enum Mark {
    /// Zeros, as the page was mapped.
    Fresh,
    /// Equal to the copy on the swap.
    Saved,
    /// Written since the page was mapped, or since it was put on the swap.
    Written,
}

/// Where a mapped page's bytes are.
#[derive(Drop)]
pub enum Place {
    /// In a frame.
    Resident(Frame, Mark),
    /// Nowhere: the page is zeros.
    Zeros,
    /// On the swap, at the number of the page's slot.
    Swapped,
}

impl Place {
    fn mark_written(&mut self)
        ensures { self.new ≡ place_marked self.old }
    {
        match self {
            Place::Resident(_, mark) => *mark = Mark::Written,
            Place::Zeros | Place::Swapped => {}
        }
    }

    fn frame(&self) -> Option<&Frame>
        ensures { option_copied result ≡ place_frame self.now }
    {
        match self {
            Place::Resident(frame, _) => Some(frame),
            Place::Zeros | Place::Swapped => None,
        }
    }

    fn into_frame(self) -> Option<Frame>
        ensures { result ≡ place_frame self }
    {
        match self {
            Place::Resident(frame, _) => Some(frame),
            Place::Zeros | Place::Swapped => None,
        }
    }

    fn unsaved(&self) -> Option<&[u8]>
        ensures bytes { option_copied result ≡ place_unsaved self.now }
        ensures whole { IfSome result (λ bytes. length bytes.now ≡ page_size) }
    {
        match self {
            Place::Resident(frame, Mark::Written) => Some(frame.all()),
            Place::Resident(_, Mark::Fresh) => None,
            Place::Resident(_, Mark::Saved) => None,
            Place::Zeros => None,
            Place::Swapped => None,
        }
    }

    fn on_swap(&self) -> bool
        ensures { result ≡ is_on_swap self.now }
    {
        match self {
            Place::Resident(_, _) => false,
            Place::Zeros => false,
            Place::Swapped => true,
        }
    }

    // Where the page is once it gave its frame up.
    fn left(&self) -> Place
        ensures { result ≡ place_left self.now }
    {
        match self {
            Place::Resident(_, Mark::Fresh) => Place::Zeros,
            Place::Resident(_, Mark::Saved) => Place::Swapped,
            Place::Resident(_, Mark::Written) => Place::Swapped,
            Place::Zeros => Place::Zeros,
            Place::Swapped => Place::Swapped,
        }
    }

    fn leave(&mut self) -> Option<Frame>
        ensures left { self.new ≡ place_left self.old }
        ensures frame { result ≡ place_frame self.old }
    {
        let left = self.left();
        replace(self, left).into_frame()
    }

    fn enter(&mut self, frame: Frame)
        requires { is_resident self.old ≡ false }
        ensures { self.new ≡ place_entered frame self.old }
    {
        match self {
            Place::Resident(_, _) => unreachable!(),
            Place::Zeros => *self = Place::Resident(frame, Mark::Fresh),
            Place::Swapped => *self = Place::Resident(frame, Mark::Saved),
        }
    }

    fn lend(&mut self, at: usize, len: usize) -> &mut [u8]
        requires resident { is_resident self.old ≡ true }
        requires fits { at + len ≤ page_size }
        ensures* writes_back { sem 𝓛 (LendsPlace self.entry at result) }
        ensures len { length result.now ≡ len }
        ensures lent { IfSome (place_frame self.old) (IsLent at len result.now) }
    {
        match self {
            Place::Resident(frame, _) => frame.lend(at, len),
            Place::Zeros => unreachable!(),
            Place::Swapped => unreachable!(),
        }
    }
}

/// A mapped page: its number, its permissions and the place of its bytes.
#[derive(Drop)]
pub struct Entry {
    pub page: u64,
    pub perms: Perms,
    pub place: Place,
}

impl Entry {
    pub(crate) fn lend(&mut self, at: usize, len: usize) -> &mut [u8]
        requires resident { is_resident self.old.place ≡ true }
        requires fits { at + len ≤ page_size }
        ensures* writes_back { sem 𝓛 (LendsEntry self.entry at result) }
        ensures len { length result.now ≡ len }
        ensures lent { IfSome (place_frame self.old.place) (IsLent at len result.now) }
    {
        self.place.mark_written();
        self.place.lend(at, len)
    }
}

pub(crate) fn holds(slot: &Option<Entry>, page: u64) -> bool
    ensures { result ≡ holds_page slot.now page }
{
    match slot {
        Some(entry) => page == entry.page,
        None => false,
    }
}

pub(crate) fn grants(slot: &Option<Entry>, kind: Kind) -> bool
    ensures { result ≡ slot_permits slot.now kind }
{
    match slot {
        Some(entry) => entry.perms.permits(kind),
        None => false,
    }
}

pub(crate) fn frame_of(slot: &Option<Entry>) -> Option<&Frame>
    ensures { option_copied result ≡ slot_frame slot.now }
{
    match slot {
        Some(entry) => entry.place.frame(),
        None => None,
    }
}

pub(crate) fn lend(slot: &mut Option<Entry>, at: usize, len: usize) -> &mut [u8]
    requires resident { is_in_frame slot.old ≡ true }
    requires fits { at + len ≤ page_size }
    ensures* writes_back { sem 𝓛 (LendsSlot slot.entry at result) }
    ensures len { length result.now ≡ len }
    ensures lent { IfSome (slot_frame slot.old) (IsLent at len result.now) }
{
    match slot {
        Some(entry) => entry.lend(at, len),
        None => unreachable!(),
    }
}

// Empties a slot, and gives the frame of its page.
pub(crate) fn release(slot: &mut Option<Entry>) -> Option<Frame>
    ensures emptied { slot.new ≡ None }
    ensures frame { result ≡ slot_frame slot.old }
{
    match slot.take() {
        Some(entry) => {
            let Entry {
                page: _,
                perms: _,
                place,
            } = entry;
            place.into_frame()
        }
        None => None,
    }
}

// Gives a slot's page these permissions.
pub(crate) fn protect(slot: &mut Option<Entry>, perms: Perms)
    ensures { slot.new ≡ slot_protected slot.old perms }
{
    match slot {
        Some(entry) => entry.perms = perms,
        None => {}
    }
}

// The permissions of a slot's page.
pub(crate) fn perms_of(slot: &Option<Entry>) -> Perms
    requires { is_some slot.now ≡ true }
    ensures { HasPerms slot.now result }
{
    match slot {
        Some(entry) => entry.perms,
        None => unreachable!(),
    }
}

// The bytes of a slot's page that was written since it was put or mapped.
pub(crate) fn unsaved(slot: &Option<Entry>) -> Option<&[u8]>
    ensures bytes { option_copied result ≡ slot_unsaved slot.now }
    ensures whole { IfSome result (λ bytes. length bytes.now ≡ page_size) }
{
    match slot {
        Some(entry) => entry.place.unsaved(),
        None => None,
    }
}

// Whether a slot's page is away on the swap.
pub(crate) fn on_swap(slot: &Option<Entry>) -> bool
    ensures { result ≡ slot_swapped slot.now }
{
    match slot {
        Some(entry) => entry.place.on_swap(),
        None => false,
    }
}

// Takes the frame of a slot's page, which is away then.
pub(crate) fn put_away(slot: &mut Option<Entry>) -> Option<Frame>
    ensures left { slot.new ≡ slot_left slot.old }
    ensures frame { result ≡ slot_frame slot.old }
{
    match slot {
        Some(entry) => entry.place.leave(),
        None => None,
    }
}

// Gives a slot's page, which is away, a frame that holds its bytes.
pub(crate) fn bring_in(slot: &mut Option<Entry>, frame: Frame)
    requires { is_in_frame slot.old ≡ false }
    ensures { slot.new ≡ slot_entered frame slot.old }
{
    match slot {
        Some(entry) => entry.place.enter(frame),
        None => {}
    }
}
