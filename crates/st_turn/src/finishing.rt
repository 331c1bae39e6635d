//! The end of sharing: all passes joined, and the spool given back.
ghost use Rattle.std.specs.Prelude.{◌≡◌, ◌≤◌, Some, map, length};
ghost use Rattle.st_turn.specs.Parts.{is_number};
ghost use Rattle.st_turn.specs.Steps.{joined};
ghost use Rattle.st_turn.specs.Passes.{AreOf, state_of};
ghost use Rattle.st_turn.specs.Ends.{AreNumbered, Ended, gathered_all};

use crate::desk::Desk;
use crate::home::Home;
use crate::meeting::Merge;
use crate::pass::Pass;
use crate::sharing::Shared;
use crate::turned::Turned;

// Joins another pass into this one, and spends it.
fn merge<S: Turned>(desk: &Desk<S>, pass: &mut Pass<S>, other: Pass<S>)
    requires table { (pass.old.table ≡ desk.now.table_id) × (other.table ≡ desk.now.table_id)
        × (desk.now.table_id.words ≡ 1) }
    requires other { is_number 0 other.state.card.number ≡ 0 }
    ensures { (pass.new.table ≡ pass.old.table) × (pass.new.id ≡ pass.old.id)
        × (pass.new.state ≡ joined pass.old.state other.state) }
{
    let Pass {
        place,
        number: _,
        files: _,
    } = other;
    desk.join_seat::<Merge<S>>(&mut pass.place, place);
}

// Joins all other passes into the first one.
fn gather<S: Turned>(desk: &Desk<S>, passes: Vec<Pass<S>>) -> Pass<S>
    requires table { AreOf desk.now.table_id passes.items × (desk.now.table_id.words ≡ 1) }
    requires numbers { AreNumbered 0 (map state_of passes.items) × (1 ≤ length passes.items) }
    ensures table { result.table ≡ desk.now.table_id }
    ensures state { result.state ≡ gathered_all (map state_of passes.items) }
{
    let mut others = passes;
    let mut lead = others.remove(0);
    while let Some(other) = others.pop() {
        merge(desk, &mut lead, other);
    }
    others.destroy_empty();
    lead
}

impl<S: Turned> Shared<S> {
    /// Gives the spool back, with no hold out and a history that begins with what each pass saw.
    /// `passes` are all passes that `share` gave, in the order of their numbers, and none holds
    /// anything.
    pub fn finish(self, passes: Vec<Pass<S>>) -> S
        // the passes
        requires table { AreOf self.table passes.items }
        requires numbers { AreNumbered 0 (map state_of passes.items) }
        requires count { (length passes.items ≡ self.passes) × (1 ≤ self.passes) }
        // the spool
        ensures ended { Ended (S.facts self.base) (S.facts result) (map state_of passes.items) }
        ensures keeps { S.keeps self.base result }
    {
        let Shared { table, passes: _ } = self;
        let lead = gather(&table.shared, passes);
        let Pass {
            place,
            number: _,
            files: _,
        } = lead;
        let mut closed = table.close_with(place);
        let slot = closed.take(0);
        closed.free();
        let Some(home) = slot else { unreachable!() };
        let Home { spool, lines: _ } = home;
        spool
    }
}
