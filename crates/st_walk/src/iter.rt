//! The keys of a frame, one by one.

ghost use Rattle.std.specs.Prelude.{◌≡◌};

use crate::carried::key_at;
use crate::header::{Layer, Spot, following};
use crate::text::Key;

/// The keys that a frame's walk has still to give, in walk order.
#[derive(Drop)]
pub struct Keys<'a> {
    frame: &'a [u8],
    spot: Spot,
    given: usize,
}

impl<'a> Keys<'a> {
    ghost use Rattle.st_walk.specs.Listing.{keys_left, frame_keys};

    /// All keys of the frame's walk.
    pub(crate) fn new(frame: &'a [u8]) -> Self
        ensures { keys_left result ≡ frame_keys frame.now }
    {
        Keys {
            frame,
            spot: Spot {
                at: 0,
                layer: Layer::Ether,
            },
            given: 0,
        }
    }
}

impl<'a> Iterator for Keys<'a> {
    ghost use Rattle.st_walk.specs.Listing.{keys_left};
    ghost use Rattle.std.specs.Iterator.{YieldsFirst, item_count};

    type Item = Key;

    ghost next_gives = { YieldsFirst keys_left };

    ghost remaining = { item_count keys_left };

    fn next(&mut self) -> Option<Key> {
        'layers: loop {
            if let Some(key) = key_at(self.frame, self.spot, self.given) {
                self.given += 1;
                return Some(key);
            }
            let Some(next) = following(self.frame, self.spot) else {
                return None;
            };
            self.spot = next;
            self.given = 0;
        }
    }
}
