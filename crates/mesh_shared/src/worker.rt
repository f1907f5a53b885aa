//! A worker of a run: it has a script and a seat.
ghost use Rattle.std.specs.Prelude.{◌≡◌, ◌≤◌, ◌-◌, [], IfSome, None};
ghost use Rattle.std.specs.List.{All};
ghost use Rattle.model_words.specs.Commands.{IsInRange};
ghost use Rattle.mesh_shared.specs.Runs.{HasWorked};

use crate::stops::EarlyExit;
use mesh_lock::{CallBudget, Mutator, Seat, Shared, call_number};
use mesh_mutator::{Attempt, Command};
use mesh_search::{Actor, Gate, Point};
use std::sync::Wait;
use std::thread::Promise;

/// How a worker's script ended in a run.
#[derive(Clone, Copy)]
pub struct Worked {
    /// The number of attempts at the command that the worker gave up, or 0 if it gave up no command.
    pub tried: u32,
    /// The number of attempts that were `Blocked`: all attempts at a command that the worker gave up, and all but the
    /// last at each other command. The attempts at a command count when the last one has returned. At most `u32::MAX`
    /// attempts at a command count. A count that reaches `u64::MAX` stays there.
    pub blocked: u64,
}

/// What a worker's thread returns.
#[derive(Drop)]
pub(crate) struct Served {
    /// The seat, with the calls that were answered.
    pub seat: Seat,
    /// How the script ended.
    pub worked: Worked,
    /// The reason why the worker was stopped before its script ended. `None` if the script ended, or if the worker gave
    /// up a blocked command.
    pub stop: Option<EarlyExit>,
}

/// The promise of a worker's thread about its result: the commands of the seat's calls are a prefix of the script. They
/// are the whole script if the worker was neither stopped nor gave up a command.
#[derive(Clone, Copy)]
pub(crate) struct Works<'a> {
    pub script: &'a [Command],
    pub tries: Option<u32>,
}

impl<'a> Promise<Served> for Works<'a> {
    ghost kept_by = { λ p served. HasWorked p.tries p.script.now served.seat.calls served.worked served.stop };
}

/// Makes the calls of a script, one after another, and records them in `seat`, which must be empty. While a command is
/// `Blocked`, the worker attempts it again. If `tries` is a number, it limits the attempts at each command: the calls
/// end if the last allowed attempt is `Blocked`. They also end at a stop.
pub(crate) fn serve<R: Wait, G: Gate>(
    rt: &R,
    gate: &G,
    shared: &Shared,
    mut seat: Seat,
    script: &[Command],
    tries: Option<u32>,
) -> Served
    requires empty { seat.calls ≡ [] }
    requires range { All IsInRange script.now }
    requires tries { IfSome tries (λ tries. 1 ≤ tries) }
    ensures { HasWorked tries script.now result.seat.calls result.worked result.stop }
{
    let (worked, stop) = work(rt, gate, shared, &mut seat, script, tries);
    Served { seat, worked, stop }
}

/// Makes the calls of a script. Returns how the script ended. If a full journal or an allocation failure stopped the
/// worker, also returns this stop.
fn work<R: Wait, G: Gate>(
    rt: &R,
    gate: &G,
    shared: &Shared,
    seat: &mut Seat,
    script: &[Command],
    most: Option<u32>,
) -> (Worked, Option<EarlyExit>)
    requires empty { seat.old.calls ≡ [] }
    requires range { All IsInRange script.now }
    requires tries { IfSome most (λ tries. 1 ≤ tries) }
    ensures { HasWorked most script.now seat.new.calls result.0 result.1 }
{
    let mutator = Mutator::of(rt, gate, shared);
    let mut blocked = 0u64;
    for i in 0..script.len() {
        let mut tries = CallBudget::of(most);
        match mutator.retry_up_to(seat, &script[i], &mut tries) {
            Attempt::Done(_) => {
                blocked = blocked.saturating_add(attempts_before_last(&tries));
                gate.arrive(Actor::Worker(seat.number()), Point::Called(call_number(i)));
            }
            Attempt::Blocked => {
                let tried = tries.made;
                blocked = blocked.saturating_add(u64::from(tried));
                return (Worked { tried, blocked }, None);
            }
            Attempt::HistoryFull => {
                blocked = blocked.saturating_add(attempts_before_last(&tries));
                return (Worked { tried: 0, blocked }, Some(EarlyExit::History));
            }
            Attempt::OutOfMemory => {
                blocked = blocked.saturating_add(attempts_before_last(&tries));
                return (Worked { tried: 0, blocked }, Some(EarlyExit::Memory));
            }
        }
    }
    (Worked { tried: 0, blocked }, None)
}

fn attempts_before_last(tries: &CallBudget) -> u64
    ensures { result ≡ tries.now.made - 1 }
{
    u64::from(tries.made.saturating_sub(1))
}
