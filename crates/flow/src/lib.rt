// The flow: a chain's rows and a run's counts and contents in one array of words, which code that fires nodes one by one
// lends from call to call. Records of this size, handed by value, would be copied at each firing. It is an array and no
// struct of arrays, since what specs/ says of a flow (`Shows`, `firing`, `shows_fired`, `shown_is`) is said of a list of words.
#![tactic(auto)]

ghost use Rattle.std.specs.Prelude.{◌≡◌, length};
ghost use Rattle.chain.specs.Sound.{Sound};
ghost use Rattle.state.specs.State.{fresh_run};
ghost use Rattle.flow.specs.Flow.{put_in, taken_out, firing, Ready, Puts, Takes, Shows};
ghost use Rattle.flow.specs.Lost.{losing, Loses};
ghost use Rattle.flow.specs.Shown.{shown};
ghost use Rattle.flow.specs.Poured.{Showing, Typed, Full};

use chain::Chain;
use state::Run;

// How many words a flow has, and where they lie: each queue's produce, threshold and consume, each node's count, what each
// queue holds, and the number of queues. The word before the last is not used, so that HELD + i is SIZE for no node i.
pub const LENGTH: usize = 83;

pub const PRODUCE: usize = 0;

pub const THRESHOLD: usize = 16;

pub const CONSUME: usize = 32;

pub const COUNTS: usize = 48;

pub const HELD: usize = 65;

pub const SIZE: usize = 82;

// A finished firing of node i.
pub fn effect(flow: &mut [u32; LENGTH], i: usize)
    requires { Ready flow.old i }
    ensures { flow.new ≡ firing flow.old i }
{
    flow[COUNTS + i] += 1;
    produce(flow, i);
    consume(flow, i);
}

// A finished firing of node i whose production is dropped whole.
pub fn loss(flow: &mut [u32; LENGTH], i: usize)
    requires { Loses flow.old i }
    ensures { flow.new ≡ losing flow.old i }
{
    flow[COUNTS + i] += 1;
    consume(flow, i);
}

// What the queue after node i gets, where there is one.
fn produce(flow: &mut [u32; LENGTH], i: usize)
    requires { Puts flow.old i }
    ensures { flow.new ≡ put_in flow.old i }
{
    let n = flow[SIZE] as usize;
    if i < n {
        flow[HELD + i] += flow[PRODUCE + i];
    }
}

// What the queue before node i loses, where there is one.
fn consume(flow: &mut [u32; LENGTH], i: usize)
    requires { Takes flow.old i }
    ensures { flow.new ≡ taken_out flow.old i }
{
    if 0 < i {
        let j = i - 1;
        flow[HELD + j] -= flow[CONSUME + j];
    }
}

// The flow of a chain at a fresh start.
pub fn started(chain: &Chain) -> [u32; LENGTH]
    requires { Sound chain.now }
    ensures { Shows result chain.now (fresh_run chain.now) }
{
    let mut flow = [0; LENGTH];
    flow[SIZE] = chain.n;
    for i in 0..chain.n as usize {
        let q = chain.queues[i];
        flow[PRODUCE + i] = q.produce;
        flow[THRESHOLD + i] = q.threshold;
        flow[CONSUME + i] = q.consume;
    }
    flow
}

// The flow of a chain at a state.
pub fn showing(chain: &Chain, run: &Run) -> [u32; LENGTH]
    requires { Sound chain.now }
    ensures { Showing result chain.now run.now }
{
    let mut flow = started(chain);
    pour(&mut flow, *run);
    flow
}

// The counts and contents of a state, poured into a flow. The state comes by value: only so are all of its slots known to
// be words.
fn pour(flow: &mut [u32; LENGTH], run: Run)
    requires { length flow.old ≡ 83 }
    ensures typed { Typed run }
    ensures full { Full flow.old run flow.new }
{
    flow[COUNTS..COUNTS + 17].copy_from_slice(&run.counts);
    flow[HELD..HELD + 16].copy_from_slice(&run.held);
}

// The state that a flow shows, clock and work done being 0.
pub fn shown(flow: &[u32; LENGTH]) -> Run
    ensures { result ≡ shown flow.now }
{
    let mut run = state::EMPTY;
    run.counts.copy_from_slice(&flow[COUNTS..COUNTS + 17]);
    run.held.copy_from_slice(&flow[HELD..HELD + 16]);
    run
}
