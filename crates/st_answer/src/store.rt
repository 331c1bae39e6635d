//! What an answer needs of pairs on a disk.

ghost use Rattle.std.specs.Prelude.{Option, ◌≡◌, ◌<◌, ◌≤◌, ℕ, List, Some, IfOk, OnErr, MatchResult};
ghost use Rattle.st_disk.specs.Pairs.{Entry};
ghost use Rattle.st_disk.specs.declared.naming.Kind.TheVariants as kind;
ghost use Rattle.st_shelf.specs.Origins.{FileOrigin};
ghost use Rattle.st_shelf.specs.Loans.{LoansView, lend, take_back};
ghost use Rattle.st_shelf.specs.Ends.{TakesFaults};
ghost use Rattle.st_answer.specs.Sets.{GoesOn};
ghost use Rattle.st_answer.specs.Stores.{HoldsView, KeepsHolds, TakesHold, GivesBack, StayHeld, HoldsOneMore, HoldsOneLess, IsSameStore, IsSetOfSize, HasFailed, OfEntry, IsFresh, LendsOne};

use st_base::{Failed, NoMemory, Reader};

/// Pairs of block files and indexes, of which a file set can be held and its files lent.
///
/// `holds` is what the store knows of its holds (`specs/Stores.antt`): how many are out, the events
/// that it has seen, those that the last hold took, and the sets that are held. A hold is out
/// `times_held` times, since two holds may be equal values; it has `size` entries, those of its
/// `set` if that is known, in the order of their stamps, and no call but its release changes them.
/// `loans` counts the files that are lent, and what was read of the block files that came back;
/// `faults` counts the store's failures and never falls. `id` is the number by which a store knows
/// its files. `becomes` is what an implementation promises besides: how it is after any of these
/// calls, from how it was before.
pub trait Store {
    /// A file set that is held. It must be spent, by `release`.
    type Held;

    /// A file that is lent. It must be spent, by `close_file`.
    type File: Reader;

    ghost id: { Self → ℕ };

    ghost holds: { Self → HoldsView };

    ghost loans: { Self → LoansView };

    ghost faults: { Self → ℕ };

    ghost becomes: { Self → Self → Type 0 };

    ghost times_held: { Self → Self.Held → ℕ };

    ghost size: { Self → Self.Held → ℕ };

    ghost set: { Self → Self.Held → Option (List Entry) };

    ghost origin: { Self.File → FileOrigin };

    /// Holds a file set: that of a history which begins with all events that the store had seen.
    ///
    /// `NoMemory` takes no hold.
    fn hold(&mut self) -> Result<Self::Held, NoMemory>
        // the hold
        ensures holds { MatchResult result
            (λ h. TakesHold (set self.new h) (holds self.old) (holds self.new))
            (λ _. KeepsHolds (holds self.old) (holds self.new)) }
        ensures held { MatchResult result
            (λ h. HoldsOneMore h (times_held self.old) (times_held self.new)
            (size self.old) (size self.new) (set self.old) (set self.new))
            (λ _. StayHeld (times_held self.old) (times_held self.new)
            (size self.old) (size self.new) (set self.old) (set self.new)) }
        ensures becomes { becomes self.old self.new }
        // the counts
        ensures faults { faults self.old ≤ faults self.new }
        ensures rest { (id self.new ≡ id self.old) × (loans self.new ≡ loans self.old) };

    /// Ends a hold of this store: its file set is held once less.
    fn release(&mut self, hold: Self::Held)
        requires { 0 < times_held self.old hold }
        // the hold
        ensures holds { GivesBack (set self.old hold) (holds self.old) (holds self.new) }
        ensures held { HoldsOneLess hold (times_held self.old) (times_held self.new)
            (size self.old) (size self.new) (set self.old) (set self.new) }
        ensures becomes { becomes self.old self.new }
        // the counts
        ensures faults { faults self.old ≤ faults self.new }
        ensures rest { (id self.new ≡ id self.old) × (loans self.new ≡ loans self.old) };

    /// How many entries the held set has. They are in the order of their stamps.
    fn count(&mut self, hold: &Self::Held) -> usize
        requires { 0 < times_held self.old hold.now }
        ensures count { result ≡ size self.old hold.now }
        ensures set { IsSetOfSize (set self.old hold.now) (size self.old hold.now) }
        // what stays
        ensures stays { IsSameStore (becomes self.old self.new) (id self.old) (id self.new)
            (holds self.old) (holds self.new) (times_held self.old) (times_held self.new)
            (size self.old) (size self.new) (set self.old) (set self.new) }
        ensures faults { faults self.old ≤ faults self.new }
        ensures loans { loans self.new ≡ loans self.old };

    /// The `i`-th least stamp of the held set, counted from 0.
    fn stamp_of(&mut self, hold: &Self::Held, i: usize) -> u64
        requires held { 0 < times_held self.old hold.now }
        requires below { i < size self.old hold.now }
        ensures stamp { OfEntry (set self.old hold.now) i (λ e. result ≡ e.stamp) }
        // what stays
        ensures stays { IsSameStore (becomes self.old self.new) (id self.old) (id self.new)
            (holds self.old) (holds self.new) (times_held self.old) (times_held self.new)
            (size self.old) (size self.new) (set self.old) (set self.new) }
        ensures faults { faults self.old ≤ faults self.new }
        ensures loans { loans self.new ≡ loans self.old };

    /// Lends the block file of the entry with the `i`-th least stamp, counted from 0. The file's
    /// counts of reads and faults begin at 0.
    ///
    /// `Failed` comes only if `faults` rose.
    fn block_of(&mut self, hold: &Self::Held, i: usize) -> Result<Self::File, Failed>
        requires held { 0 < times_held self.old hold.now }
        requires below { i < size self.old hold.now }
        // the file
        ensures content { IfOk result
            (λ f. OfEntry (set self.old hold.now) i (λ e. Self.File.content f ≡ Some e.block)) }
        ensures fresh { IfOk result (λ f. IsFresh (Self.File.reads f) (Self.File.asked f)
            (Self.File.faults f) (origin f) kind.Block (id self.old)) }
        // what stays
        ensures stays { IsSameStore (becomes self.old self.new) (id self.old) (id self.new)
            (holds self.old) (holds self.new) (times_held self.old) (times_held self.new)
            (size self.old) (size self.new) (set self.old) (set self.new) }
        // the counts
        ensures cause { HasFailed (faults self.old) (faults self.new) result }
        ensures loans { LendsOne (loans self.old) (loans self.new) result };

    /// Lends the index of the entry with the `i`-th least stamp, counted from 0. The file's counts
    /// of reads and faults begin at 0.
    ///
    /// `Failed` comes only if `faults` rose.
    fn index_of(&mut self, hold: &Self::Held, i: usize) -> Result<Self::File, Failed>
        requires held { 0 < times_held self.old hold.now }
        requires below { i < size self.old hold.now }
        // the file
        ensures content { IfOk result
            (λ f. OfEntry (set self.old hold.now) i (λ e. Self.File.content f ≡ Some e.index)) }
        ensures fresh { IfOk result (λ f. IsFresh (Self.File.reads f) (Self.File.asked f)
            (Self.File.faults f) (origin f) kind.Index (id self.old)) }
        // what stays
        ensures stays { IsSameStore (becomes self.old self.new) (id self.old) (id self.new)
            (holds self.old) (holds self.new) (times_held self.old) (times_held self.new)
            (size self.old) (size self.new) (set self.old) (set self.new) }
        // the counts
        ensures cause { HasFailed (faults self.old) (faults self.new) result }
        ensures loans { LendsOne (loans self.old) (loans self.new) result };

    /// Takes back a file that this store lent. If the file's count of faults had risen, `faults`
    /// rises.
    fn close_file(&mut self, file: Self::File)
        requires home { (origin file).home ≡ id self.old }
        requires lent { 0 < (loans self.old).lent }
        // what stays
        ensures stays { IsSameStore (becomes self.old self.new) (id self.old) (id self.new)
            (holds self.old) (holds self.new) (times_held self.old) (times_held self.new)
            (size self.old) (size self.new) (set self.old) (set self.new) }
        // the counts
        ensures cause { TakesFaults (Self.File.faults file) (faults self.old) (faults self.new) }
        ensures loans { loans self.new ≡ take_back (origin file).kind
            (Self.File.reads file) (Self.File.asked file) (loans self.old) };

    // a store becomes itself, and what it becomes in two steps
    ghost becomes_same: { (s : Self) → becomes s s };

    ghost becomes_later: { (a b c : Self) → becomes a b → becomes b c → becomes a c };

    // all events that the last hold took were seen
    ghost took_seen: { (s : Self) → GoesOn (holds s).took (holds s).seen };

    // calls on a file that keep its `beside` keep its origin
    ghost keeps: { (a b : Self.File)
        → Self.File.beside a ≡ Self.File.beside b → origin a ≡ origin b };
}
