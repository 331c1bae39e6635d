ghost use Rattle.std.specs.Thread.{IsSync};

use std::sync::Wait;
use std::thread::{Threads, join_mut};

/// What threads do, each at a place of its own.
pub trait Work<P> {
    /// A place at which it may begin.
    ghost can: { Self → P → Type 0 };

    /// What it makes of the place.
    ghost did: { Self → P → P → Type 0 };

    fn run<R: Wait>(&self, rt: &R, place: &mut P)
        requires { can self.now place.old }
        ensures { did self.now place.old place.new };
}

/// Works at two places, on a thread for each.
pub fn both<P: Send, J: Work<P> + Sync, R: Threads + Wait + Sync>(
    rt: &R,
    work: &J,
    a: &mut P,
    b: &mut P,
)
    requires { J.can work.now a.old × J.can work.now b.old }
    ensures a { J.did work.now a.old a.new }
    ensures b { J.did work.now b.old b.new }
{
    join_mut(
        rt,
        &mut ||
            requires { IsSync R.row × J.can work.now a.now }
            ensures { J.did work.entry.now a.entry.now a.exit.now }
        { work.run(rt, a) },
        &mut ||
            requires { IsSync R.row × J.can work.now b.now }
            ensures { J.did work.entry.now b.entry.now b.exit.now }
        { work.run(rt, b) },
    );
}

/// Works at four places, on a thread for each.
pub fn four<P: Send, J: Work<P> + Sync, R: Threads + Wait + Sync>(
    rt: &R,
    work: &J,
    a: &mut P,
    b: &mut P,
    c: &mut P,
    d: &mut P,
)
    requires front { J.can work.now a.old × J.can work.now b.old }
    requires back { J.can work.now c.old × J.can work.now d.old }
    ensures front { J.did work.now a.old a.new × J.did work.now b.old b.new }
    ensures back { J.did work.now c.old c.new × J.did work.now d.old d.new }
{
    join_mut(
        rt,
        &mut ||
            requires { IsSync R.row × J.can work.now a.now × J.can work.now b.now }
            ensures { J.did work.entry.now a.entry.now a.exit.now
                × J.did work.entry.now b.entry.now b.exit.now }
        { both(rt, work, a, b) },
        &mut ||
            requires { IsSync R.row × J.can work.now c.now × J.can work.now d.now }
            ensures { J.did work.entry.now c.entry.now c.exit.now
                × J.did work.entry.now d.entry.now d.exit.now }
        { both(rt, work, c, d) },
    );
}
