//! The keys that a primitive of a query asks for.

ghost use Rattle.std.specs.Prelude.{◌≡◌, ℕ, ◌+◌, ◌-◌, ◌*◌, ◌/◌, ◌^◌, ◌≤◌, Some};
ghost use Rattle.st_query.specs.Trees.{tree};
ghost use Rattle.st_query.specs.Meaning.{addr_key};
ghost use Rattle.st_eval.specs.Ranges.{net_low, net_high, seconds_before, seconds_from, range_in};

use st_query::{Addr, Node, addr_key, second_of};
use st_walk::Key;

/// The last second that a packet's time can have, since 1970.
const LAST_SECOND: u32 = 4_294_967_295;

/// The seconds before `moment`, the first and the last, if there are any.
fn seconds_before(moment: i64) -> Option<(Key, Key)>
    ensures { result ≡ seconds_before moment }
{
    if moment <= 0 {
        return None;
    }
    let last = (moment - 1).min(i64::from(LAST_SECOND));
    Some((Key::Second(0), Key::Second(last as u32)))
}

/// The seconds from `moment` on, the first and the last, if there are any.
fn seconds_from(moment: i64) -> Option<(Key, Key)>
    ensures { result ≡ seconds_from moment }
{
    if moment > i64::from(LAST_SECOND) {
        return None;
    }
    let first = if moment < 0 { 0 } else { moment as u32 };
    Some((Key::Second(first), Key::Second(LAST_SECOND)))
}

/// The number whose binary digits are `count` ones.
fn ones(count: u32) -> u128
    requires { count ≤ 128 }
    ensures { result + 1 ≡ 2 ^ count }
{
    if count == u128::BITS {
        return u128::MAX;
    }
    (1 << count) - 1
}

/// The number with its `count` lowest bits cleared.
fn cleared(number: u128, count: u32) -> u128
    requires { count ≤ 128 }
    ensures { result ≡ number / 2 ^ count * 2 ^ count }
{
    if count == u128::BITS {
        return 0;
    }
    (number >> count) << count
}

/// The keys of the first and of the last address whose first `bits` bits are those of `addr`.
fn net_range(addr: Addr, bits: u8) -> (Key, Key)
    ensures { result ≡ (net_low addr bits, net_high addr bits) }
{
    match addr {
        Addr::V4(number) => {
            let host = u32::BITS - u32::from(bits).min(u32::BITS);
            let low = cleared(u128::from(number), host);
            (Key::V4(low as u32), Key::V4((low + ones(host)) as u32))
        }
        Addr::V6(number) => {
            let host = u128::BITS - u32::from(bits).min(u128::BITS);
            let low = cleared(number, host);
            (Key::V6(low), Key::V6(low + ones(host)))
        }
    }
}

/// The range of one key.
fn only(key: Key) -> Option<(Key, Key)>
    ensures { result ≡ Some (key, key) }
{
    Some((key, key))
}

/// The first and the last of the keys that a primitive asks for, if there are any, where the clock
/// stands at `now` microseconds since 1970; of a joined query, none.
pub fn range_of(node: &Node, now: u64) -> Option<(Key, Key)>
    ensures { result ≡ range_in (tree node.now) now }
{
    match node {
        Node::And { .. } | Node::Or { .. } => None,
        Node::Host(addr) => only(addr_key(*addr)),
        Node::Net { addr, bits } => Some(net_range(*addr, *bits)),
        Node::Port(port) => only(Key::Port(*port)),
        Node::Proto(proto) => only(Key::Proto(*proto)),
        Node::Vlan(tag) => only(Key::Vlan(*tag)),
        Node::Mpls(label) => only(Key::Mpls(*label)),
        Node::Before(when) => seconds_before(second_of(*when, now)),
        Node::After(when) => seconds_from(second_of(*when, now)),
    }
}
