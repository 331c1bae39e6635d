//! The numbers of a frame, each with its highest byte first.

ghost use Rattle.std.specs.Prelude.{◌≡◌, ◌+◌, ◌≤◌, ◌↔◌, length, IsTrue};
ghost use Rattle.st_walk.specs.Layers.{field, holds};

use byteorder::{BigEndian, ByteOrder};

/// Whether `count` bytes from `at` on are captured.
#[inline]
#[tactic(auto, unfolding(crate::specs::Layers::holds))]
pub fn holds(frame: &[u8], at: usize, count: usize) -> bool
    ensures value { result ≡ holds frame.now at count }
    ensures room { IsTrue result ↔ (at + count ≤ length frame.now) }
{
    count <= frame.len() && at <= frame.len() - count
}

/// The number in two bytes from `at`.
#[inline]
#[tactic(auto, unfolding(crate::specs::Layers::field))]
pub fn u16_at(frame: &[u8], at: usize) -> u16
    requires { at + 2 ≤ length frame.now }
    ensures { result ≡ field 2 at frame.now }
{
    BigEndian::read_u16(&frame[at..])
}

/// The number in four bytes from `at`.
#[inline]
#[tactic(auto, unfolding(crate::specs::Layers::field))]
pub fn u32_at(frame: &[u8], at: usize) -> u32
    requires { at + 4 ≤ length frame.now }
    ensures { result ≡ field 4 at frame.now }
{
    BigEndian::read_u32(&frame[at..])
}

/// The number in sixteen bytes from `at`.
#[inline]
#[tactic(auto, unfolding(crate::specs::Layers::field))]
pub fn u128_at(frame: &[u8], at: usize) -> u128
    requires { at + 16 ≤ length frame.now }
    ensures { result ≡ field 16 at frame.now }
{
    BigEndian::read_u128(&frame[at..])
}
