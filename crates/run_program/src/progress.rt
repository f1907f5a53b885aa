//! Progress lines of an exploration, for a person who waits.
use crate::fault_line::{Line, add};
use crate::runs::tell;
use itoa::Buffer;
use states_reach::Watch;
use std::time::{Clock, Duration, Instant};
use text_devices::Sink;

/// The number of reports between two readings of the clock.
const STATES_BETWEEN: u32 = 256;

/// The least number of seconds between two lines.
const SECONDS_BETWEEN: u64 = 1;

/// A watch that writes at most once a second how many states were found, and how many per second.
#[derive(Drop)]
pub struct Progress<'a, C: Clock, S: Sink> {
    clock: &'a C,
    sink: S,
    // The moments of the beginning and of the last line. `None` if no line is ever written.
    times: Option<Times>,
    // The number of reports since the clock was last read.
    unread: u32,
}

/// The moment when an exploration began, and the moment of the last report.
#[derive(Clone, Copy)]
struct Times {
    begun: Instant,
    told: Instant,
}

impl<'a, C: Clock, S: Sink> Progress<'a, C, S> {
    /// Creates a watch, and starts the clock. Nothing is ever written if progress isn't wanted or the clock can't be
    /// read.
    pub fn new(clock: &'a C, sink: S, is_wanted: bool) -> Progress<'a, C, S> {
        let times = match Instant::now(clock) {
            Ok(now) if is_wanted => Some(Times {
                begun: now,
                told: now,
            }),
            _ => None,
        };
        Progress {
            clock,
            sink,
            times,
            unread: 0,
        }
    }
}

impl<'a, C: Clock, S: Sink> Watch for Progress<'a, C, S> {
    fn tell(&mut self, states: usize) {
        let Some(times) = self.times else {
            return;
        };
        if self.unread < STATES_BETWEEN {
            self.unread += 1;
            return;
        }
        self.unread = 0;
        let Ok(now) = Instant::now(self.clock) else {
            return;
        };
        if now.duration_since(times.told).as_secs() < SECONDS_BETWEEN {
            return;
        }
        self.times = Some(Times {
            begun: times.begun,
            told: now,
        });
        let line = progress_line(states, now.duration_since(times.begun));
        tell(&mut self.sink, line.as_slice());
    }
}

/// The line for a number of states and the time passed, with a line end.
fn progress_line(states: usize, passed: Duration) -> Line {
    let millis = passed.as_millis().max(1);
    let a_second = (states as u128).saturating_mul(1000) / millis;
    let mut digits = Buffer::new();
    let mut line = Line::new();
    add(&mut line, b"states ");
    add(&mut line, digits.format(narrow(states as u128)).as_bytes());
    add(&mut line, b", ");
    add(&mut line, digits.format(narrow(a_second)).as_bytes());
    add(&mut line, b" a second\n");
    line
}

/// A number in 32 bits, or `u32::MAX` if the number doesn't fit.
fn narrow(number: u128) -> u32 {
    u32::try_from(number).unwrap_or(u32::MAX)
}
