//! The two questions to a frame: has it this key, and which keys has it.

ghost use Rattle.std.specs.Prelude.{◌≡◌, ◌↔◌, ℕ, List, IsTrue, IsFalse, Contains};
ghost use Rattle.st_walk.specs.declared.header.Layer.TheVariants.{Ether};
ghost use Rattle.st_walk.specs.declared.text.Key.{Key};
ghost use Rattle.st_walk.specs.Walk.{FrameHas, InOrder};
ghost use Rattle.st_walk.specs.KeyText.{Fits};
ghost use Rattle.st_walk.specs.Listing.{keys_left};

use crate::carried::carries;
use crate::header::{Layer, Spot, following};
use crate::iter::Keys;
use crate::text::Key;

/// Whether the walk over the frame's captured bytes reaches a layer that carries the key.
///
/// No frame has a `Second`. Source: docs/FORMAT.md, "The header walk".
pub fn has_key(frame: &[u8], key: &Key) -> bool
    ensures held { IsTrue result ↔ FrameHas frame.now key.now }
    ensures second { (s : ℕ) → key.now ≡ Key.Second s → IsFalse result }
{
    let mut spot = Spot {
        at: 0,
        layer: Layer::Ether,
    };
    'layers: loop {
        if carries(frame, spot, key) {
            return true;
        }
        let Some(next) = following(frame, spot) else {
            return false;
        };
        spot = next;
    }
}

/// The keys of the walk over the frame's captured bytes, in walk order, each as often as it is
/// there, and never a `Second`. Each fits the type of its kind.
///
/// Source: docs/FORMAT.md, "The header walk".
pub fn keys(frame: &[u8]) -> Keys<'_>
    // Which keys they are.
    ensures each { (k : Key) → Contains (keys_left result) k ↔ FrameHas frame.now k }
    ensures second { (s : ℕ) → Contains (keys_left result) (Key.Second s) → ⊥ }
    ensures fits { (k : Key) → Contains (keys_left result) k → Fits k }

    // And in which order.
    ensures order { (ks : List Key) → InOrder frame.now 0 Ether ks ↔ (ks ≡ keys_left result) }
{
    Keys::new(frame)
}
