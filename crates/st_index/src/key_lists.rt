//! The lists of a maker that have positions, one by one, in the order of their keys.

ghost use Rattle.std.specs.Prelude.{◌≡◌, ◌+◌, ◌<◌, ◌≤◌, length, option_map, IfSome};
ghost use Rattle.st_walk.specs.declared.text.Key.{Key};
ghost use Rattle.st_index.specs.EntryLists.{GivesList, lists_of_entries};
ghost use Rattle.st_index.specs.declared.lists.TheConstants.{PROTOS, PORTS};

use crate::addresses::AddressList;
use crate::lists::PositionLists;
use st_walk::Key;
use std::collections::btree_map::Iter;

/// The lists of the numbers from `number` on.
#[derive(Drop)]
struct Numbered<'a> {
    number: usize,
    rest: &'a [Vec<u32>],
    ghost few: { number + length rest.now ≤ PORTS },
}

impl<'a> Numbered<'a> {
    ghost use Rattle.std.specs.Prelude.{◌≡◌, ℕ, ◌+◌, ◌<◌, length, option_map, IfSome};
    ghost use Rattle.st_walk.specs.declared.text.Key.{Key};
    ghost use Rattle.st_index.specs.EntryLists.{lists_of_numbers, GivesList};

    /// The next number that has positions, and these.
    fn next(&mut self) -> Option<(usize, &'a [u32])>
        ensures list { (key : ℕ → Key)
            → GivesList (lists_of_numbers key self.old.number self.old.rest.now)
            (lists_of_numbers key self.new.number self.new.rest.now)
            (option_map (λ x. (key x.0, x.1.now)) result) }
        ensures some { IfSome result (λ x. 0 < length x.1.now) }
        // Numbers go on to the end of the lists, which stays.
        ensures below { IfSome result (λ x. x.0 < self.old.number + length self.old.rest.now) }
        ensures end { self.new.number + length self.new.rest.now
            ≡ self.old.number + length self.old.rest.now }
    {
        'lists: while let Some((list, rest)) = self.rest.split_first() {
            let number = self.number;
            self.number += 1;
            self.rest = rest;
            if !list.is_empty() {
                return Some((number, list.as_slice()));
            }
        }
        None
    }
}

// The next key of a map that has positions, and these.
fn next_keyed<'a, N: Copy>(lists: &mut Iter<'a, N, Vec<u32>>) -> Option<(N, &'a [u32])>
    ensures list { (key : N → Key) → GivesList (lists_of_entries key lists.old)
        (lists_of_entries key lists.new) (option_map (λ x. (key x.0, x.1.now)) result) }
    ensures some { IfSome result (λ x. 0 < length x.1.now) }
{
    'lists: while let Some((key, list)) = lists.next() {
        if !list.is_empty() {
            return Some((*key, list.as_slice()));
        }
    }
    None
}

/// The lists of the addresses that are still to come, in the order of addresses.
#[derive(Drop)]
struct Addressed<'a> {
    /// The slot of each address.
    order: Iter<'a, u32, usize>,
    lists: &'a [AddressList],
}

impl<'a> Addressed<'a> {
    ghost use Rattle.std.specs.Prelude.{◌≡◌, ℕ, ◌<◌, length, option_map, IfSome};
    ghost use Rattle.st_walk.specs.declared.text.Key.{Key};
    ghost use Rattle.st_index.specs.Slots.{in_slot};
    ghost use Rattle.st_index.specs.EntryLists.{lists_of_values, GivesList};

    /// The next address that has positions, and these.
    fn next(&mut self) -> Option<(u32, &'a [u32])>
        ensures list { (key : ℕ → Key)
            → GivesList (lists_of_values (in_slot self.old.lists.now) key self.old.order)
            (lists_of_values (in_slot self.new.lists.now) key self.new.order)
            (option_map (λ x. (key x.0, x.1.now)) result) }
        ensures some { IfSome result (λ x. 0 < length x.1.now) }
    {
        'lists: while let Some((address, slot)) = self.order.next() {
            if let Some(list) = self.lists.get(*slot) {
                if !list.positions.is_empty() {
                    return Some((*address, list.positions.as_slice()));
                }
            }
        }
        None
    }
}

/// The lists that have positions and are still to come, in the order of their keys.
#[derive(Drop)]
pub(crate) struct KeyLists<'a> {
    protos: Numbered<'a>,
    ports: Numbered<'a>,
    vlans: Iter<'a, u16, Vec<u32>>,
    v4_addresses: Addressed<'a>,
    labels: Iter<'a, u32, Vec<u32>>,
    v6_addresses: Iter<'a, u128, Vec<u32>>,
    seconds: Iter<'a, u32, Vec<u32>>,
    ghost few_protos: { protos.number + length protos.rest.now ≤ PROTOS },
}

impl<'a> KeyLists<'a> {
    ghost use Rattle.std.specs.Prelude.{◌≡◌, ◌<◌, length, option_map, IfSome};
    ghost use Rattle.st_walk.specs.KeyText.{Fits};
    ghost use Rattle.st_index.specs.EntryLists.{GivesList};
    ghost use Rattle.st_index.specs.KeyLists.{key_lists, lists_left, AreLists};

    /// All lists that have positions.
    pub(crate) fn new(lists: &'a PositionLists) -> KeyLists<'a>
        ensures left { lists_left result ≡ key_lists lists.now }
        ensures all { AreLists lists.now (key_lists lists.now) }
    {
        KeyLists {
            protos: Numbered {
                number: 0,
                rest: lists.protos.as_slice(),
            },
            ports: Numbered {
                number: 0,
                rest: lists.ports.as_slice(),
            },
            vlans: lists.vlans.iter(),
            v4_addresses: Addressed {
                order: lists.v4_addresses.order.iter(),
                lists: lists.v4_addresses.lists.as_slice(),
            },
            labels: lists.labels.iter(),
            v6_addresses: lists.v6_addresses.iter(),
            seconds: lists.seconds.iter(),
        }
    }

    /// The next key that has positions, and these.
    pub(crate) fn next(&mut self) -> Option<(Key, &'a [u32])>
        ensures list { GivesList (lists_left self.old) (lists_left self.new)
            (option_map (λ x. (x.0, x.1.now)) result) }
        ensures some { IfSome result (λ x. 0 < length x.1.now) }
        ensures fits { IfSome result (λ x. Fits x.0) }
    {
        if let Some((number, list)) = self.protos.next() {
            return Some((Key::Proto(number as u8), list));
        }
        if let Some((number, list)) = self.ports.next() {
            return Some((Key::Port(number as u16), list));
        }
        if let Some((id, list)) = next_keyed(&mut self.vlans) {
            return Some((Key::Vlan(id), list));
        }
        if let Some((address, list)) = self.v4_addresses.next() {
            return Some((Key::V4(address), list));
        }
        if let Some((label, list)) = next_keyed(&mut self.labels) {
            return Some((Key::Mpls(label), list));
        }
        if let Some((address, list)) = next_keyed(&mut self.v6_addresses) {
            return Some((Key::V6(address), list));
        }
        if let Some((second, list)) = next_keyed(&mut self.seconds) {
            return Some((Key::Second(second), list));
        }
        None
    }
}
