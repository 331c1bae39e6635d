//! Addresses of the two families.

/// An IPv4 or IPv6 address, as the number that its bytes make with the first byte highest.
#[derive(Clone, Copy, PartialEq, Eq, Debug)]
pub enum Addr {
    V4(u32),
    V6(u128),
}
