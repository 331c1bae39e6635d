ghost use Rattle.std.specs.Prelude.{◌≡◌, ◌∷◌, [], Some, None, ℕ};
ghost use Rattle.shelf_threads.specs.Turns.{IsAtHome, Took, Gave};

use atomic_table::{Play, Refused, Seat, Table, TableRule};
use st_shelf::Shelf;
use std::alloc::{AllocFailed, Global};
use std::sync::Wait;
use std::thread;

/// What lies in the slot: a shelf, and how many turns it has had.
pub struct Home<D: Shelf> {
    pub shelf: D,
    pub turns: u64,
}

// The shelf is at home while the word is 0.
#[derive(Drop)]
struct Rule {}

impl<D: Shelf> TableRule<Option<Home<D>>, bool, ()> for Rule {
    ghost use Rattle.std.specs.Prelude.{false};
    ghost use Rattle.shelf_threads.specs.Turns.{IsAtHome};

    ghost holds = { λ k. IsAtHome };

    ghost first = { λ k. false };
}

struct Take {}

impl<D: Shelf> Play<Option<Home<D>>, bool> for Take {
    ghost use Rattle.shelf_threads.specs.Turns.{Took};

    ghost then = { Took };
}

struct Give {}

impl<D: Shelf> Play<Option<Home<D>>, bool> for Give {
    ghost use Rattle.shelf_threads.specs.Turns.{Gave};

    ghost then = { Gave };
}

/// The turn of a thread.
pub type Place<D> = Seat<Option<Home<D>>, bool>;

/// A shelf that threads share.
pub struct Desk<D: Shelf> {
    table: Table<Option<Home<D>>, bool, (), Rule, Global>,
    ghost counts: { (table.shared.table_id.words ≡ 1) × (table.shared.table_id.slots ≡ 1) },
}

impl<D: Shelf> Desk<D> {
    /// Lays a shelf down, for threads to share. It comes back where memory runs out.
    pub fn over(alloc: Global, home: Home<D>) -> Result<Desk<D>, Home<D>> {
        let mut slots = Vec::new(alloc);
        if let Err(AllocFailed { value }) = slots.push(Some(home)) {
            slots.destroy_empty();
            let Some(home) = value else { unreachable!() };
            return Err(home);
        }
        match Table::new(alloc, &[0], slots, &()) {
            Ok((table, _)) => Ok(Desk { table }),
            Err(Refused { mut slots }) => {
                let Some(Some(home)) = slots.pop() else {
                    unreachable!()
                };
                slots.destroy_empty();
                Err(home)
            }
        }
    }

    /// Waits for the turn, and takes the shelf.
    pub fn take<R: Wait>(&self, rt: &R) -> (Home<D>, Place<D>)
        ensures { (result.1.table_id ≡ self.now.table.shared.table_id)
            × (result.1.me.1 ≡ (0, None) ∷ []) }
    {
        let shared = &self.table.shared;
        'tries: for _ in rt.forever() {
            let (found, mut place) = shared.swap_new_seat::<Take>(0, 1);
            if found == 0 {
                let Some(home) = shared.exchange(&mut place, 0, None) else {
                    unreachable!()
                };
                return (home, place);
            }
            thread::yield_now();
        }
        unreachable!()
    }

    /// Puts the shelf back, and ends the turn.
    pub fn give(&self, mut place: Place<D>, home: Home<D>)
        requires { (place.table_id ≡ self.now.table.shared.table_id)
            × (place.me.1 ≡ (0, None) ∷ []) }
    {
        let shared = &self.table.shared;
        let old = shared.exchange(&mut place, 0, Some(home));
        let None = old else { unreachable!() };
        shared.store::<Give>(&mut place, 0, 0);
    }

    /// Takes the shelf up again, once no thread shares it. None comes where one left its turn with
    /// the shelf.
    pub fn into_home(self) -> Option<Home<D>> {
        let Desk { table } = self;
        let mut closed = table.close();
        let home = closed.take(0);
        closed.free();
        home
    }
}
