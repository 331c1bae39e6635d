//! The positions of the packets that have an address of IPv4, for each address.
//!
//! Each address has a slot, and a map in the order of addresses has that slot. A lookup there is
//! slow where addresses are many, and most addresses come again soon. So a slot that was looked up
//! is noted by the low bits of its address, and an address whose slot is noted isn't looked up.

ghost use Rattle.std.specs.Prelude.{◌≡◌, ℕ, ◌⊎◌, ◌<◌, ◌^◌, ◌%◌, length, Some, IfSome, OnOk, OnErr, IfOk, slice_get};
ghost use Rattle.std.specs.Ordering.{nat_cmp};
ghost use Rattle.std.specs.BTreeMap.{get};
ghost use Rattle.st_index.specs.NumberedLists.{with_last, without_last, list_at};
ghost use Rattle.st_index.specs.Slots.{in_slot, address_at, AreSlots};

use crate::lists::{put_last, take_last};
use std::alloc::{AllocError, Global};
use std::collections::BTreeMap;

/// How many slots are noted at most: one for each value of the low 16 bits of an address, in which
/// the addresses of a network mostly differ. They take 256 KiB.
const NOTED: usize = 65_536;

/// The list of an address.
#[derive(Drop)]
pub(crate) struct AddressList {
    pub(crate) address: u32,
    pub(crate) positions: Vec<u32>,
}

// The slot that is noted for an address, if its list is that address's. Another address with the
// same low bits may have been noted since.
fn noted_slot(noted: &[u32], lists: &[AddressList], address: u32) -> Option<usize>
    ensures { IfSome result (λ s. address_at lists.now s ≡ Some address) }
{
    let slot = *noted.get(address as usize % NOTED)? as usize;
    if lists.get(slot)?.address == address {
        return Some(slot);
    }
    None
}

// Notes the slot of an address, in place of what is noted for its low bits. Without memory for the
// notes there are none, and each address is looked up.
fn note_slot(noted: &mut Vec<u32>, address: u32, slot: usize)
    ensures { IfSome (slice_get noted.new.items (address % NOTED))
        (λ s. slot < 2 ^ 32 → s ≡ slot) }
{
    if noted.is_empty() {
        let _ = noted.resize(NOTED, 0);
    }
    if let Some(place) = noted.get_mut(address as usize % NOTED) {
        *place = u32::try_from(slot).unwrap_or(0);
    }
}

// The slot of an address; a new one with an empty list, if it has none. Each address keeps the
// positions that it had, after `AllocError` too.
fn slot_of(
    alloc: Global,
    order: &mut BTreeMap<u32, usize>,
    lists: &mut Vec<AddressList>,
    address: u32,
) -> Result<usize, AllocError>
    requires { AreSlots order.old lists.old.items }
    ensures slots { AreSlots order.new lists.new.items }
    ensures slot { IfOk result (λ s. address_at lists.new.items s ≡ Some address) }
    ensures same { (a : ℕ) → list_at (in_slot lists.new.items) nat_cmp order.new a
        ≡ list_at (in_slot lists.old.items) nat_cmp order.old a }
{
    if let Some(slot) = order.get(&address) {
        return Ok(*slot);
    }
    let slot = lists.len();
    lists.push(AddressList {
        address,
        positions: Vec::new(alloc),
    })?;
    match order.insert(address, slot) {
        Ok(_) => Ok(slot),
        Err(_) => {
            let _ = lists.pop();
            Err(AllocError)
        }
    }
}

// Puts the position at the end of a slot's list, unless it is there. After `AllocError` each slot
// has the positions that it had.
fn put_in_slot(lists: &mut Vec<AddressList>, slot: usize, position: u32) -> Result<(), AllocError>
    requires { slot < length lists.old.items }
    ensures here { OnOk result
        (in_slot lists.new.items slot ≡ with_last (in_slot lists.old.items slot) position) }
    ensures others { (s : ℕ) → (s ≡ slot)
        ⊎ (in_slot lists.new.items s ≡ in_slot lists.old.items s) }
    ensures same { OnErr result ((s : ℕ)
        → in_slot lists.new.items s ≡ in_slot lists.old.items s) }
    ensures addresses { (s : ℕ)
        → address_at lists.new.items s ≡ address_at lists.old.items s }
{
    put_last(&mut lists[slot].positions, position)
}

// Takes the position from the end of a slot's list, if it is there.
fn take_in_slot(lists: &mut Vec<AddressList>, slot: usize, position: u32)
    requires { slot < length lists.old.items }
    ensures here { in_slot lists.new.items slot
        ≡ without_last (in_slot lists.old.items slot) position }
    ensures others { (s : ℕ) → (s ≡ slot)
        ⊎ (in_slot lists.new.items s ≡ in_slot lists.old.items s) }
    ensures addresses { (s : ℕ)
        → address_at lists.new.items s ≡ address_at lists.old.items s }
{
    take_last(&mut lists[slot].positions, position);
}

/// A list of positions for each address: those of the packets that have it, as they were added.
///
/// An address without positions may have an empty list or none.
#[derive(Drop)]
pub(crate) struct AddressLists {
    /// The slot of each address that has one.
    pub(crate) order: BTreeMap<u32, usize>,
    /// By slot.
    pub(crate) lists: Vec<AddressList>,
    /// By the low bits of an address: the slot of the last one with these bits that was looked up,
    /// or 0, whatever address has that slot. Empty before the first lookup.
    noted: Vec<u32>,
    ghost slots: { AreSlots order lists.items },
}

impl AddressLists {
    ghost use Rattle.std.specs.Prelude.{◌≡◌, ℕ, ◌⊎◌, [], Some, OnOk, OnErr, IfOk};
    ghost use Rattle.st_index.specs.NumberedLists.{with_last, without_last};
    ghost use Rattle.st_index.specs.Slots.{address_at};
    ghost use Rattle.st_index.specs.AddressLists.{at_address};

    /// No positions of any address. It takes no memory.
    pub(crate) fn new(alloc: Global) -> AddressLists
        ensures { (a : ℕ) → at_address result a ≡ [] }
    {
        AddressLists {
            order: BTreeMap::new(alloc),
            lists: Vec::new(alloc),
            noted: Vec::new(alloc),
        }
    }

    // Looks an address up and notes its slot, which is a new one if it has none.
    fn look_up(&mut self, alloc: Global, address: u32) -> Result<usize, AllocError>
        ensures slot { IfOk result (λ s. address_at self.new.lists.items s ≡ Some address) }
        ensures same { (a : ℕ) → at_address self.new a ≡ at_address self.old a }
    {
        let slot = slot_of(alloc, &mut self.order, &mut self.lists, address)?;
        note_slot(&mut self.noted, address, slot);
        Ok(slot)
    }

    // Puts the position at the end of the list of an address whose slot is known.
    fn put_at(&mut self, address: u32, slot: usize, position: u32) -> Result<(), AllocError>
        requires { address_at self.old.lists.items slot ≡ Some address }
        ensures here { OnOk result
            (at_address self.new address ≡ with_last (at_address self.old address) position) }
        ensures others { (a : ℕ) → (a ≡ address)
            ⊎ (at_address self.new a ≡ at_address self.old a) }
        ensures same { OnErr result ((a : ℕ) → at_address self.new a ≡ at_address self.old a) }
    {
        put_in_slot(&mut self.lists, slot, position)
    }

    /// Puts the position at the end of an address's list, unless it is there. After `AllocError`
    /// each address has the positions that it had.
    pub(crate) fn put(
        &mut self,
        alloc: Global,
        address: u32,
        position: u32,
    ) -> Result<(), AllocError>
        ensures here { OnOk result
            (at_address self.new address ≡ with_last (at_address self.old address) position) }
        ensures others { (a : ℕ) → (a ≡ address)
            ⊎ (at_address self.new a ≡ at_address self.old a) }
        ensures same { OnErr result ((a : ℕ) → at_address self.new a ≡ at_address self.old a) }
    {
        let noted = noted_slot(self.noted.as_slice(), self.lists.as_slice(), address);
        if let Some(slot) = noted {
            return self.put_at(address, slot, position);
        }
        let slot = self.look_up(alloc, address)?;
        self.put_at(address, slot, position)
    }

    /// Takes the position from the end of an address's list, if it is there.
    #[tactic(auto, using(crate::proofs::Slotting::slot_within))]
    pub(crate) fn take(&mut self, address: u32, position: u32)
        ensures here { at_address self.new address
            ≡ without_last (at_address self.old address) position }
        ensures others { (a : ℕ) → (a ≡ address)
            ⊎ (at_address self.new a ≡ at_address self.old a) }
    {
        if let Some(slot) = self.order.get(&address) {
            let slot = *slot;
            take_in_slot(&mut self.lists, slot, position);
        }
    }
}
