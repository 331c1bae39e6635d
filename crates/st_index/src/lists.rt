//! The positions of the packets that have a key, for each key.

ghost use Rattle.std.specs.Prelude.{◌≡◌, ℕ, ◌⊎◌, ◌≤◌, ◌+◌, length, max, IsTrue, OnOk, OnErr};
ghost use Rattle.std.specs.Ordering.{is_eq};
ghost use Rattle.st_index.specs.NumberedLists.{at_number, at_key, ends_with, with_last, without_last};
ghost use Rattle.st_index.specs.declared.lists.TheConstants.{PROTOS, PORTS};

use crate::addresses::AddressLists;
use st_walk::{Key, keys};
use std::alloc::{AllocError, Global};
use std::collections::BTreeMap;

/// How many protocols there are: a protocol is one byte.
pub const PROTOS: usize = 256;

/// How many ports there are: a port is two bytes.
pub const PORTS: usize = 65_536;

// Whether the last position is this one.
fn ends_with(list: &[u32], position: u32) -> bool
    ensures { result ≡ ends_with list.now position }
{
    !list.is_empty() && list[list.len() - 1] == position
}

// Puts the position at the end of a list, unless it is there. After `AllocError` the list stays.
pub(crate) fn put_last(list: &mut Vec<u32>, position: u32) -> Result<(), AllocError>
    ensures put { OnOk result (list.new.items ≡ with_last list.old.items position) }
    ensures same { OnErr result (list.new.items ≡ list.old.items) }
{
    if ends_with(list.as_slice(), position) {
        return Ok(());
    }
    list.push(position)?;
    Ok(())
}

// Takes the position from the end of a list, if it is there.
pub(crate) fn take_last(list: &mut Vec<u32>, position: u32)
    ensures { list.new.items ≡ without_last list.old.items position }
{
    if ends_with(list.as_slice(), position) {
        let _ = list.pop();
    }
}

// Puts the position at the end of a number's list, unless it is there. After `AllocError` each
// number has the positions that it had.
fn put_numbered(
    alloc: Global,
    lists: &mut Vec<Vec<u32>>,
    number: usize,
    position: u32,
) -> Result<(), AllocError>
    ensures here { OnOk result (at_number lists.new.items number
        ≡ with_last (at_number lists.old.items number) position) }
    ensures others { (n : ℕ) → (n ≡ number)
        ⊎ (at_number lists.new.items n ≡ at_number lists.old.items n) }
    ensures same { OnErr result ((n : ℕ)
        → at_number lists.new.items n ≡ at_number lists.old.items n) }
    // How many lists there are.
    ensures few { length lists.new.items ≤ max (length lists.old.items) (number + 1) }
{
    'fill: while lists.len() <= number {
        lists.push(Vec::new(alloc))?;
    }
    put_last(&mut lists[number], position)
}

// Takes the position from the end of a number's list, if it is there.
fn take_numbered(lists: &mut Vec<Vec<u32>>, number: usize, position: u32)
    ensures here { at_number lists.new.items number
        ≡ without_last (at_number lists.old.items number) position }
    ensures others { (n : ℕ) → (n ≡ number)
        ⊎ (at_number lists.new.items n ≡ at_number lists.old.items n) }
    ensures many { length lists.new.items ≡ length lists.old.items }
{
    if let Some(list) = lists.get_mut(number) {
        take_last(list, position);
    }
}

// Puts the position at the end of a key's list, unless it is there. After `AllocError` each key
// has the positions that it had.
fn put_keyed<N: Ord + Drop>(
    alloc: Global,
    lists: &mut BTreeMap<N, Vec<u32>>,
    key: N,
    position: u32,
) -> Result<(), AllocError>
    ensures here { OnOk result (at_key N.cmp lists.new key
        ≡ with_last (at_key N.cmp lists.old key) position) }
    ensures others { (k : N) → IsTrue (is_eq (N.cmp key k))
        ⊎ (at_key N.cmp lists.new k ≡ at_key N.cmp lists.old k) }
    ensures same { OnErr result ((k : N) → at_key N.cmp lists.new k ≡ at_key N.cmp lists.old k) }
{
    if let Some(list) = lists.get_mut(&key) {
        return put_last(list, position);
    }
    let mut list = Vec::new(alloc);
    list.push(position)?;
    lists.insert(key, list)?;
    Ok(())
}

// Takes the position from the end of a key's list, if it is there.
fn take_keyed<N: Ord>(lists: &mut BTreeMap<N, Vec<u32>>, key: &N, position: u32)
    ensures here { at_key N.cmp lists.new key.now
        ≡ without_last (at_key N.cmp lists.old key.now) position }
    ensures others { (k : N) → IsTrue (is_eq (N.cmp key.now k))
        ⊎ (at_key N.cmp lists.new k ≡ at_key N.cmp lists.old k) }
{
    if let Some(list) = lists.get_mut(key) {
        take_last(list, position);
    }
}

/// A list of positions for each key: those of the packets that have it, as they were added.
///
/// Protocols and ports are looked up by their number, the other keys in the order of their values,
/// each kind by itself. A key without positions may have an empty list or none.
#[derive(Drop)]
pub(crate) struct PositionLists {
    /// By protocol, up to the greatest that was asked for.
    pub(crate) protos: Vec<Vec<u32>>,
    /// By port, up to the greatest that was asked for.
    pub(crate) ports: Vec<Vec<u32>>,
    /// By VLAN identifier.
    pub(crate) vlans: BTreeMap<u16, Vec<u32>>,
    /// By address of IPv4.
    pub(crate) v4_addresses: AddressLists,
    /// By label of MPLS.
    pub(crate) labels: BTreeMap<u32, Vec<u32>>,
    /// By address of IPv6.
    pub(crate) v6_addresses: BTreeMap<u128, Vec<u32>>,
    /// By second.
    pub(crate) seconds: BTreeMap<u32, Vec<u32>>,
    ghost few_protos: { length protos.items ≤ PROTOS },
    ghost few_ports: { length ports.items ≤ PORTS },
}

impl PositionLists {
    ghost use Rattle.std.specs.Prelude.{◌≡◌, ℕ, ◌⊎◌, ◌∷◌, ◌++◌, [], ◌<◌, ◌≤◌, ◌+◌, OnOk, OnErr, IsFalse, All, List, length};
    ghost use Rattle.st_walk.specs.declared.text.Key.{Key};
    ghost use Rattle.st_walk.specs.Walk.{HasKey, FrameHas};
    ghost use Rattle.st_walk.specs.Listing.{frame_keys};
    ghost use Rattle.st_index.specs.NumberedLists.{ends_with, with_last, without_last, Gained, MayHave};
    ghost use Rattle.st_index.specs.PositionLists.{positions_at, AreDistinct, count_in};

    /// No positions of any key. It takes no memory.
    pub(crate) fn new(alloc: Global) -> PositionLists
        ensures { (k : Key) → positions_at result k ≡ [] }
    {
        PositionLists {
            protos: Vec::new(alloc),
            ports: Vec::new(alloc),
            vlans: BTreeMap::new(alloc),
            v4_addresses: AddressLists::new(alloc),
            labels: BTreeMap::new(alloc),
            v6_addresses: BTreeMap::new(alloc),
            seconds: BTreeMap::new(alloc),
        }
    }

    /// Puts the position at the end of a key's list, unless it is there. After `AllocError` each
    /// key has the positions that it had.
    #[tactic(auto, using(crate::proofs::Ties::tied))]
    fn put(&mut self, alloc: Global, key: Key, position: u32) -> Result<(), AllocError>
        ensures here { OnOk result
            (positions_at self.new key ≡ with_last (positions_at self.old key) position) }
        ensures others { (k : Key) → (k ≡ key)
            ⊎ (positions_at self.new k ≡ positions_at self.old k) }
        ensures same { OnErr result ((k : Key)
            → positions_at self.new k ≡ positions_at self.old k) }
    {
        match key {
            Key::Proto(number) => {
                put_numbered(alloc, &mut self.protos, usize::from(number), position)
            }
            Key::Port(port) => put_numbered(alloc, &mut self.ports, usize::from(port), position),
            Key::Vlan(id) => put_keyed(alloc, &mut self.vlans, id, position),
            Key::V4(address) => self.v4_addresses.put(alloc, address, position),
            Key::Mpls(label) => put_keyed(alloc, &mut self.labels, label, position),
            Key::V6(address) => put_keyed(alloc, &mut self.v6_addresses, address, position),
            Key::Second(second) => put_keyed(alloc, &mut self.seconds, second, position),
        }
    }

    /// Takes the position from the end of a key's list, if it is there.
    #[tactic(auto, using(crate::proofs::Ties::tied))]
    fn take(&mut self, key: Key, position: u32)
        ensures here { positions_at self.new key
            ≡ without_last (positions_at self.old key) position }
        ensures others { (k : Key) → (k ≡ key)
            ⊎ (positions_at self.new k ≡ positions_at self.old k) }
    {
        match key {
            Key::Proto(number) => take_numbered(&mut self.protos, usize::from(number), position),
            Key::Port(port) => take_numbered(&mut self.ports, usize::from(port), position),
            Key::Vlan(id) => take_keyed(&mut self.vlans, &id, position),
            Key::V4(address) => self.v4_addresses.take(address, position),
            Key::Mpls(label) => take_keyed(&mut self.labels, &label, position),
            Key::V6(address) => take_keyed(&mut self.v6_addresses, &address, position),
            Key::Second(second) => take_keyed(&mut self.seconds, &second, position),
        }
    }

    /// Takes the position from the end of the list of each key of a frame, if it is there.
    fn take_all(&mut self, frame: &[u8], position: u32)
        ensures { (k : Key) (ps : List ℕ) → IsFalse (ends_with ps position)
            → MayHave (FrameHas frame.now k) ps (positions_at self.old k) position
            → positions_at self.new k ≡ ps }
    {
        for key in keys(frame) {
            self.take(key, position);
        }
    }

    /// Puts the position once at the end of the list of each key of a frame. After `AllocError`
    /// each key has the positions that it had.
    fn put_all(&mut self, alloc: Global, frame: &[u8], position: u32) -> Result<(), AllocError>
        requires { (k : Key) → IsFalse (ends_with (positions_at self.old k) position) }
        ensures same { OnErr result ((k : Key)
            → positions_at self.new k ≡ positions_at self.old k) }
        ensures gained { OnOk result ((k : Key)
            → Gained (FrameHas frame.now k) (positions_at self.old k) (positions_at self.new k)
            position) }
        // No more positions are put than the frame has keys.
        ensures count { OnOk result ((ks : List Key) → AreDistinct ks
            → count_in self.new ks ≤ count_in self.old ks + length (frame_keys frame.now)) }
    {
        for key in keys(frame) {
            if let Err(error) = self.put(alloc, key, position) {
                self.take_all(frame, position);
                return Err(error);
            }
        }
        Ok(())
    }

    /// Puts the position, which is above all so far, at the end of the list of each key of a packet
    /// with this frame and this second.
    ///
    /// After `AllocError` each key has the positions that it had.
    pub(crate) fn add(
        &mut self,
        alloc: Global,
        frame: &[u8],
        sec: u32,
        position: u32,
    ) -> Result<(), AllocError>
        requires { (k : Key) → All (λ p. p < position) (positions_at self.old k) }
        ensures same { OnErr result ((k : Key)
            → positions_at self.new k ≡ positions_at self.old k) }
        ensures gained { OnOk result ((k : Key)
            → Gained (HasKey frame.now sec k) (positions_at self.old k) (positions_at self.new k)
            position) }
        ensures count { OnOk result ((ks : List Key) → AreDistinct ks
            → count_in self.new ks ≤ count_in self.old ks + (length (frame_keys frame.now) + 1)) }
        // A frame is of bytes, as its type says.
        ensures bytes { All (λ b. b < 256) frame.now }
    {
        self.put_all(alloc, frame, position)?;
        if let Err(error) = self.put(alloc, Key::Second(sec), position) {
            self.take_all(frame, position);
            return Err(error);
        }
        Ok(())
    }
}
