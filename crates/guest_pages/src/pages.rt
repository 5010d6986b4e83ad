//! The pages of guest memory.
ghost use Rattle.std.specs.Prelude.{◌≡◌, ◌<◌, ◌≤◌, ◌+◌, ◌-◌, ◌%◌, None, Some, true, vec_len, if◌then◌else◌};
ghost use Rattle.std.specs.Option.{option_map};
ghost use Rattle.std.specs.Vec.{vec_capacity};
ghost use Rattle.machine_state.specs.declared.kinds.Miss.TheVariants.{Away};
ghost use Rattle.machine_state.specs.Memory.{page_size, miss_at, or_else};
ghost use Rattle.guest_pages.specs.Entry.{is_in_frame};
ghost use Rattle.guest_pages.specs.Slots.{bucket_of, list_of as home_of};
ghost use Rattle.guest_pages.specs.Lists.{among};
ghost use Rattle.guest_pages.specs.Order.{without};

use crate::entry::{Entry, Place, frame_of, grants, holds, lend, perms_of, protect, release};
use crate::frame::Frame;
use crate::lists::{Lists, vacant};
use crate::order::Order;
use machine_state::{Kind, Miss, PAGE_SIZE, Perms};
use std::alloc::{AllocError, Global};
use std::marker::Model;

/// As many pages are mapped as there may be.
#[derive(Clone, Copy, Debug, PartialEq, Eq)]
pub struct Full;

/// The pages of a guest: at most as many are mapped as there are slots, and at most as many of them are in frames as
/// there are frames. All memory is taken by `new`.
#[derive(Drop)]
pub struct Pages {
    frames: u32,
    slots: Vec<Option<Entry>>,
    lists: Lists,
    free: Vec<Frame>,
    order: Order,
}

impl Model for Pages {
    ghost use Rattle.std.specs.Prelude.{vec_len, reverse};
    ghost use Rattle.std.specs.Vec.{vec_capacity};
    ghost use Rattle.guest_pages.specs.Pages.{PagesValue};
    ghost use Rattle.guest_pages.specs.Slots.{IsInOrder};

    ghost Value = { PagesValue };

    ghost view = { λ pages. record {
      frames = pages.frames;
      slots = pages.slots.items;
      recent = reverse pages.order.slots.items;
    } };

    ghost invariant = { λ pages. IsInOrder pages.slots.items pages.frames
        (vec_len pages.free) (vec_capacity pages.free) pages.lists
        pages.order.slots.items (vec_capacity pages.order.slots) };
}

impl Pages {
    ghost use Rattle.std.specs.Prelude.{◌≡◌, ◌<◌, ◌≤◌, ◌+◌, ◌/◌, ◌%◌, ◌^◌, ◌↔◌, ℕ, List, length, take, slice_range, slice_index_or, None, Some, MatchResult, MatchOption, OnOk, OnErr, IfOk, IsErr, IsSome};
    ghost use Rattle.std.specs.Borrow.{sem};
    ghost use Rattle.machine_state.specs.Memory.{Swap, first_miss, miss_at};
    ghost use Rattle.guest_pages.specs.Table.{perms_in, blocked, answer_of};
    ghost use Rattle.guest_pages.specs.Pages.{table_of, mapped_count, lent};
    ghost use Rattle.guest_pages.specs.Changes.{IsBlank, IsShown, IsWritten, IsMapped, IsUnmapped, IsProtected, IsZeroed};
    ghost use Rattle.guest_pages.specs.Order.{AreOrdered};
    ghost use Rattle.guest_pages.specs.Together.{AreClean, AreTogether};
    ghost use Rattle.guest_pages.specs.Laws.{AreCounted, HaveSlots, FitMemory};
    ghost use Rattle.guest_pages.specs.Slots.{LacksPage, IsSeatOf, IsGranted, CanTake, IsWalked};
    ghost use Rattle.guest_pages.specs.Entry.{away_slot_of};
    ghost use Rattle.guest_pages.specs.PagesLends.{LendsPages};

    /// Takes all the memory that the pages will ever have.
    pub fn new(alloc: Global, frames: u32, pages: u32) -> Result<Pages, AllocError>
        requires some { 8 ≤ frames }
        requires fit { frames ≤ pages }
        ensures blank { IfOk result (λ new. IsBlank new frames pages) }
    {
        let slots = vacant(alloc, pages as usize)?;
        let lists = Lists::new(alloc, pages as usize + 1, pages as usize, pages)?;
        let mut free = Vec::with_capacity(alloc, frames as usize)?;
        for _ in 0..frames {
            free.push_reserved(Frame::new(alloc)?);
        }
        let order = Order::new(alloc, frames as usize)?;
        Ok(Pages {
            frames,
            slots,
            lists,
            free,
            order,
        })
    }

    /// How many pages may be mapped. The other clauses hold of pages at any time; a caller that needs them calls this.
    pub fn limit(&self) -> usize
        ensures value { result ≡ length self.now.slots }
        ensures counts { AreCounted self.now }
        ensures slots { HaveSlots self.now }
        ensures memory { FitMemory self.now }
        ensures ordered { AreOrdered self.now }
        ensures together { (swap : Swap) → AreClean self.now swap → AreTogether self.now swap }
    {
        self.slots.len()
    }

    // The slot of a page.
    fn seat(&self, page: u64) -> Option<u32>
        ensures { MatchOption result (LacksPage self.now.slots page) (IsSeatOf self.now.slots page) }
    {
        let mut at = self.lists.first(bucket(page, self.slots.len()));
        while let Some(k) = at {
            if holds(&self.slots[k as usize], page) {
                return Some(k);
            }
            at = self.lists.next(k);
        }
        None
    }

    // The slot of the page at an address, where the access to that byte is allowed.
    fn locate(&self, addr: u64, kind: Kind) -> Result<u32, Miss>
        ensures { MatchResult result (IsGranted self.now kind addr)
            (λ miss. miss_at (perms_in (table_of self.now)) kind addr ≡ Some miss) }
    {
        match self.seat(addr / PAGE_SIZE) {
            Some(k) => {
                if grants(&self.slots[k as usize], kind) {
                    Ok(k)
                } else {
                    Err(Miss::Denied(addr))
                }
            }
            None => Err(absence(addr)),
        }
    }

    // The slot of a page that is away, by its own slot.
    fn away_slot(&self, k: u32) -> Option<u32>
        requires { k < length self.now.slots }
        ensures { result ≡ away_slot_of (slice_index_or self.now.slots k None) k }
    {
        match frame_of(&self.slots[k as usize]) {
            Some(_) => None,
            None => Some(k),
        }
    }

    // Crosses the pages of an access: the slot of the first page away, or why the first byte not allowed isn't.
    fn cross(&self, addr: u64, len: u64, kind: Kind) -> Result<Option<u32>, Miss>
        ensures walked { MatchResult result (IsWalked self.now kind addr len)
            (λ miss. first_miss (perms_in (table_of self.now)) kind addr len ≡ Some miss) }
        ensures low { OnOk result (0 < len → addr + len ≤ 0x800000000000) }
    {
        let mut away = None;
        let mut at = addr;
        let mut left = len;
        while left > 0 {
            let k = self.locate(at, kind)?;
            away = earlier(away, self.away_slot(k));
            let here = PAGE_SIZE - at % PAGE_SIZE;
            if left <= here {
                return Ok(away);
            }
            left -= here;
            at += here;
        }
        Ok(away)
    }

    /// Whether the bytes from `addr` on may be accessed. The answer doesn't look at residency, so it is never `Away`.
    pub fn allowed(&self, addr: u64, len: u64, kind: Kind) -> Result<(), Miss>
        ensures answer { result ≡ answer_of (first_miss (perms_in (table_of self.now)) kind addr len) }
        ensures low { OnOk result (0 < len → addr + len ≤ 0x800000000000) }
    {
        match self.cross(addr, len, kind) {
            Ok(_) => Ok(()),
            Err(miss) => Err(miss),
        }
    }

    /// Whether the bytes from `addr` on can be accessed now.
    pub fn ready(&self, addr: u64, len: u64, kind: Kind) -> Result<(), Miss>
        ensures answer { result ≡ answer_of (blocked (table_of self.now) kind addr len) }
        ensures low { OnOk result (0 < len → addr + len ≤ 0x800000000000) }
    {
        match self.cross(addr, len, kind) {
            Ok(Some(slot)) => Err(Miss::Away(slot)),
            Ok(None) => Ok(()),
            Err(miss) => Err(miss),
        }
    }

    /// The bytes from `addr` on, within one page.
    pub fn view(&self, addr: u64, len: usize, kind: Kind) -> Result<&[u8], Miss>
        requires some { 0 < len }
        requires one_page { addr % page_size + len ≤ page_size }
        ensures answer { MatchResult result (λ _. blocked (table_of self.now) kind addr len ≡ None)
            (λ miss. blocked (table_of self.now) kind addr len ≡ Some miss) }
        ensures low { OnOk result (addr + len ≤ 0x800000000000) }
        ensures bytes { IfOk result (λ shown. IsShown self.now addr len shown.now) }
    {
        let k = self.locate(addr, kind)?;
        match frame_of(&self.slots[k as usize]) {
            Some(frame) => Ok(frame.part((addr % PAGE_SIZE) as usize, len)),
            None => Err(Miss::Away(k)),
        }
    }

    /// Lends the bytes from `addr` on, within one page, to be written. The page counts as written.
    pub fn lend(&mut self, addr: u64, len: usize) -> Result<&mut [u8], Miss>
        requires some { 0 < len }
        requires one_page { addr % page_size + len ≤ page_size }
        ensures len { IfOk result (λ part. length part.now ≡ len) }
        ensures bytes { IfOk result (λ part. IsShown self.old addr len part.now) }
        ensures written { OnOk result ((bytes : List ℕ) → length bytes ≡ len
            → IsWritten self.old (lent self.old addr bytes) addr bytes) }
        ensures answer { MatchResult result (λ _. blocked (table_of self.old) Kind.Write addr len ≡ None)
            (λ miss. blocked (table_of self.old) Kind.Write addr len ≡ Some miss) }
    {
        self.ready(addr, len as u64, Kind::Write)?;
        Ok(self.lend_ready(addr, len))
    }

    /// Lends the bytes from `addr` on, within one page that is ready to be written. The page counts as written.
    pub fn lend_ready(&mut self, addr: u64, len: usize) -> &mut [u8]
        requires some { 0 < len }
        requires one_page { addr % page_size + len ≤ page_size }
        requires ready { blocked (table_of self.old) Kind.Write addr len ≡ None }
        ensures* writes_back { sem 𝓛 (LendsPages self.entry addr result) }
        ensures len { length result.now ≡ len }
        ensures bytes { IsShown self.old addr len result.now }
        ensures written { (bytes : List ℕ) → length bytes ≡ len
            → IsWritten self.old (lent self.old addr bytes) addr bytes }
    {
        match self.seat(addr / PAGE_SIZE) {
            Some(k) => {
                let slot = &mut self.slots[k as usize];
                lend(slot, (addr % PAGE_SIZE) as usize, len)
            }
            None => unreachable!(),
        }
    }

    // Writes the bytes from `done` on that lie on one page, and says how far that goes.
    fn write_chunk(&mut self, addr: u64, bytes: &[u8], done: usize) -> usize
        requires more { done < length bytes.now }
        requires ready { blocked (table_of self.old) Kind.Write addr (length bytes.now) ≡ None }
        requires low { addr + length bytes.now < 2 ^ 64 }
        ensures further { done < result }
        ensures within { result ≤ length bytes.now }
        ensures chunk { IsWritten self.old self.new (addr + done) (slice_range bytes.now done result) }
    {
        let at = addr + done as u64;
        let end = chunk_end(at, done, bytes.len());
        self.lend_ready(at, end - done)
            .copy_from_slice(&bytes[done..end]);
        end
    }

    /// Writes all bytes or none.
    pub fn write(&mut self, addr: u64, bytes: &[u8]) -> Result<(), Miss>
        ensures answer { result ≡ answer_of (blocked (table_of self.old) Kind.Write addr (length bytes.now)) }
        ensures ok { OnOk result (IsWritten self.old self.new addr bytes.now) }
        ensures err { OnErr result (self.new ≡ self.old) }
    {
        self.ready(addr, bytes.len() as u64, Kind::Write)?;
        let mut done = 0;
        while done < bytes.len() {
            done = self.write_chunk(addr, bytes, done);
        }
        Ok(())
    }

    // Reads the bytes from `done` on that lie on one page, and says how far that goes.
    fn read_chunk(&self, addr: u64, into: &mut [u8], done: usize, kind: Kind) -> usize
        requires more { done < length into.old }
        requires ready { blocked (table_of self.now) kind addr (length into.old) ≡ None }
        requires low { addr + length into.old < 2 ^ 64 }
        requires so_far { IsShown self.now addr done (take done into.old) }
        ensures further { done < result }
        ensures within { result ≤ length into.old }
        ensures shown { IsShown self.now addr result (take result into.new) }
    {
        let at = addr + done as u64;
        let end = chunk_end(at, done, into.len());
        match self.view(at, end - done, kind) {
            Ok(bytes) => into[done..end].copy_from_slice(bytes),
            Err(_) => unreachable!(),
        }
        end
    }

    /// Reads all bytes or none.
    pub fn read(&self, addr: u64, into: &mut [u8], kind: Kind) -> Result<(), Miss>
        ensures answer { result ≡ answer_of (blocked (table_of self.now) kind addr (length into.old)) }
        ensures ok { OnOk result (IsShown self.now addr (length into.old) into.new) }
        ensures err { OnErr result (into.new ≡ into.old) }
    {
        self.ready(addr, into.len() as u64, kind)?;
        let mut done = 0;
        while done < into.len() {
            done = self.read_chunk(addr, into, done, kind);
        }
        Ok(())
    }

    // The slot of a page, or else a free one.
    fn seat_for(&self, page: u64) -> Option<u32>
        ensures { MatchOption result
            ((table_of self.now page ≡ None) × (mapped_count self.now ≡ length self.now.slots))
            (CanTake self.now.slots page) }
    {
        match self.seat(page) {
            Some(k) => Some(k),
            None => self.lists.first(self.slots.len()),
        }
    }

    // Gives slot k to a page of zeros, which is away. The frame of the page that the slot held is given up.
    fn fill(&mut self, k: u32, page: u64, perms: Perms)
        requires can { CanTake self.old.slots page k }
        requires low { page < 0x800000000 }
        ensures { IsMapped self.old self.new page perms.0 }
    {
        let buckets = self.slots.len();
        let slot = &mut self.slots[k as usize];
        let from = list_of(slot, buckets);
        give_frame(slot, k, &mut self.free, &mut self.order);
        *slot = Some(Entry {
            page,
            perms,
            place: Place::Zeros,
        });
        self.lists.shift(k, from, bucket(page, buckets));
    }

    // Takes a slot's page out, and gives its frame up.
    fn empty(&mut self, k: u32, page: u64)
        requires { IsSeatOf self.old.slots page k }
        ensures { IsUnmapped self.old self.new page }
    {
        let buckets = self.slots.len();
        let slot = &mut self.slots[k as usize];
        let from = list_of(slot, buckets);
        give_frame(slot, k, &mut self.free, &mut self.order);
        self.lists.shift(k, from, buckets);
    }

    /// Maps the page at the address `addr` as zeros; what was mapped there is gone, and its frame is given up. The page takes
    /// no frame until it is entered.
    pub fn map_page(&mut self, addr: u64, perms: Perms) -> Result<(), Full>
        requires page { addr % page_size ≡ 0 }
        requires low { addr < 0x800000000000 }
        ensures ok { OnOk result (IsMapped self.old self.new (addr / page_size) perms.0) }
        ensures full { IsErr result ↔ ((table_of self.old (addr / page_size) ≡ None)
            × (mapped_count self.old ≡ length self.old.slots)) }
        ensures err { OnErr result (self.new ≡ self.old) }
    {
        match self.seat_for(addr / PAGE_SIZE) {
            Some(k) => {
                self.fill(k, addr / PAGE_SIZE, perms);
                Ok(())
            }
            None => Err(Full),
        }
    }

    /// Gives the mapped page at the address `addr` these permissions.
    pub fn set_perms(&mut self, addr: u64, perms: Perms)
        requires page { addr % page_size ≡ 0 }
        requires low { addr < 0x800000000000 }
        requires mapped { IsSome (table_of self.old (addr / page_size)) }
        ensures protected { IsProtected self.old self.new (addr / page_size) perms.0 }
    {
        match self.seat(addr / PAGE_SIZE) {
            Some(k) => protect(&mut self.slots[k as usize], perms),
            None => unreachable!(),
        }
    }

    /// Unmaps the page at the address `addr`, if it is mapped.
    pub fn unmap_page(&mut self, addr: u64)
        requires page { addr % page_size ≡ 0 }
        requires low { addr < 0x800000000000 }
        ensures unmapped { IsUnmapped self.old self.new (addr / page_size) }
        ensures absent { table_of self.old (addr / page_size) ≡ None → self.new ≡ self.old }
    {
        if let Some(k) = self.seat(addr / PAGE_SIZE) {
            self.empty(k, addr / PAGE_SIZE);
        }
    }

    /// Maps the mapped page at the address `addr` anew, as zeros, with its permissions. Its frame is given up, and it takes no
    /// other until it is entered.
    pub fn zero_page(&mut self, addr: u64)
        requires page { addr % page_size ≡ 0 }
        requires low { addr < 0x800000000000 }
        requires mapped { IsSome (table_of self.old (addr / page_size)) }
        ensures zeroed { IsZeroed self.old self.new (addr / page_size) }
    {
        match self.seat(addr / PAGE_SIZE) {
            Some(k) => {
                let perms = perms_of(&self.slots[k as usize]);
                self.fill(k, addr / PAGE_SIZE, perms);
            }
            None => unreachable!(),
        }
    }
}

// Empties slot k, puts the frame of its page, if it has one, to the free ones, where there is room for it, and takes the page
// out of the order.
fn give_frame(slot: &mut Option<Entry>, k: u32, free: &mut Vec<Frame>, order: &mut Order)
    requires room { is_in_frame slot.old ≡ true → vec_len free.old < vec_capacity free.old }
    requires listed { among k order.old.slots.items ≡ is_in_frame slot.old }
    ensures emptied { slot.new ≡ None }
    ensures count { vec_len free.new ≡ vec_len free.old + (if is_in_frame slot.old then 1 else 0) }
    ensures capacity { vec_capacity free.new ≡ vec_capacity free.old }
    ensures order { order.new.slots.items ≡ without k order.old.slots.items }
    ensures order_capacity { vec_capacity order.new.slots ≡ vec_capacity order.old.slots }
{
    match release(slot) {
        Some(frame) => {
            free.push_reserved(frame);
            order.take_out(k);
        }
        None => {}
    }
}

// The end, among `len` bytes, of those that lie on the page of the byte `done`, which has the address `at`.
fn chunk_end(at: u64, done: usize, len: usize) -> usize
    requires { done < len }
    ensures further { done < result }
    ensures within { result ≤ len }
    ensures one_page { at % page_size + (result - done) ≤ page_size }
{
    let page_left = (PAGE_SIZE - at % PAGE_SIZE) as usize;
    if len - done <= page_left {
        len
    } else {
        done + page_left
    }
}

// The first of two slots.
fn earlier(first: Option<u32>, other: Option<u32>) -> Option<u32>
    ensures { option_map Away result ≡ or_else (option_map Away first) (option_map Away other) }
{
    match first {
        Some(slot) => Some(slot),
        None => other,
    }
}

// Why the byte at an address can't be had where no page is mapped there.
fn absence(addr: u64) -> Miss
    ensures { miss_at (λ _. None) Kind.Read addr ≡ Some result }
{
    if addr >= 0x8000_0000_0000 && addr < 0xFFFF_8000_0000_0000 {
        Miss::NonCanonical(addr)
    } else {
        Miss::Unmapped(addr)
    }
}

// The bucket of a page among so many.
#[tactic(auto, unfolding(crate::specs::Slots::bucket_of))]
fn bucket(page: u64, buckets: usize) -> usize
    ensures value { result ≡ bucket_of page buckets }
    ensures within { result ≤ buckets }
{
    let hash = page.wrapping_mul(0x9E37_79B9_7F4A_7C15) >> 32;
    ((hash as u128 * buckets as u128) >> 32) as usize
}

// The list where a slot belongs.
fn list_of(slot: &Option<Entry>, buckets: usize) -> usize
    ensures value { result ≡ home_of slot.now buckets }
    ensures within { result ≤ buckets }
{
    match slot {
        Some(entry) => bucket(entry.page, buckets),
        None => buckets,
    }
}

mod bringing;
mod kernel;
#[cfg(test)]
mod tests;
