//! The choice of the calls of a witness.
use crate::lines::{line_among, taken_lines};
use crate::refuting::is_refuted;
use crate::sights::{Sight, number_of, sight_of};
use crate::slices::{cell_of, is_new_or_free};
use history_overlaps::Flaw;
use history_reading::{RecordedReply, SpeltCommand, TimedCall};
use std::alloc::{AllocError, Global};

/// The most loads that are chosen one by one. If more are needed, all accesses to the object are taken.
const MOST_LOADS: usize = 255;

/// A wrong call among the first calls of a text.
#[derive(Drop)]
pub(crate) struct Wrong<'a> {
    pub alloc: Global,
    /// The lines of the text.
    pub lines: &'a [&'a [u8]],
    /// The calls that began before the wrong one ended.
    pub calls: &'a [TimedCall],
    /// The number of the wrong call.
    pub number: u32,
    /// The limit on configurations.
    pub most: usize,
}

impl<'a> Wrong<'a> {
    /// Returns which calls are chosen, or `None` if none are found that `check_calls` refutes.
    pub(crate) fn chosen(&self, flaw: &Flaw) -> Result<Option<Vec<bool>>, AllocError> {
        match flaw {
            Flaw::NoOrder(_) => self.accesses(),
            Flaw::Overlaps(_, other) => self.refuted(self.objects_of(*other)?),
            Flaw::SerialAgain => self.refuted(self.objects_of(self.with_same_serial())?),
            Flaw::NoByte(_) => self.refuted(self.objects_of(self.number)?),
            Flaw::StrangeRefusal(_) => self.refuted(self.objects_of(self.number)?),
        }
    }

    /// Returns the calls that are taken, if `check_calls` refutes them.
    fn refuted(&self, taken: Vec<bool>) -> Result<Option<Vec<bool>>, AllocError> {
        let text = taken_lines(self.alloc, self.lines, taken.as_slice())?;
        let line = line_among(taken.as_slice(), self.number);
        if is_refuted(self.alloc, text.as_slice(), line, self.most)? {
            return Ok(Some(taken));
        }
        Ok(None)
    }

    // ---- objects

    /// Takes the `new` and the `free` of the object of the wrong call, and of the object of another call.
    fn objects_of(&self, other: u32) -> Result<Vec<bool>, AllocError> {
        let own = self.cell(self.number);
        let other = self.cell(other);
        self.calls
            .iter()
            .map(|call| {
                is_new_or_free(own, &call.entry.command)
                    || is_new_or_free(other, &call.entry.command)
            })
            .collect(self.alloc)
    }

    /// Returns the number of a call that made an object with the serial of the wrong call and ended before it.
    fn with_same_serial(&self) -> u32 {
        let Some(wrong) = self.calls.get(self.number as usize) else {
            return self.number;
        };
        for (place, call) in self.calls.iter().enumerate() {
            let number = number_of(place);
            if (call.end, number) < (wrong.end, self.number) && have_same_serial(call, wrong) {
                return number;
            }
        }
        self.number
    }

    /// Returns the cell that a call names.
    fn cell(&self, number: u32) -> u32 {
        match self.calls.get(number as usize) {
            Some(call) => cell_of(&call.entry.command),
            None => 0,
        }
    }

    // ---- accesses to an object

    /// Chooses accesses to the object of the wrong call: this call, and as few loads before it as are needed.
    fn accesses(&self) -> Result<Option<Vec<bool>>, AllocError> {
        let mut sights = Vec::new(self.alloc);
        sights.push(sight_of(self.alloc, self.calls, self.number)?)?;
        let earlier = self.earlier_loads(&sights[0])?;
        let mut wanted = 1;
        for number in earlier.as_slice().iter().rev().take(MOST_LOADS) {
            if sights.len() == wanted {
                if let Some(taken) = self.refuted(self.with_all(sights.as_slice())?)? {
                    return self.fewer(sights.as_slice(), taken);
                }
                wanted = wanted.saturating_mul(2);
            }
            sights.push(sight_of(self.alloc, self.calls, number.1)?)?;
        }
        if let Some(taken) = self.refuted(self.with_all(sights.as_slice())?)? {
            return self.fewer(sights.as_slice(), taken);
        }
        self.refuted(self.whole_object()?)
    }

    /// Returns the loads of the object that end before the wrong call and meet its bytes, or those of a store whose
    /// byte it can return. Each has its end and its number, and they are sorted by these.
    fn earlier_loads(&self, sight: &Sight) -> Result<Vec<(u128, u32)>, AllocError> {
        let span = self.span_of(sight);
        let mut loads = Vec::new(self.alloc);
        for (place, call) in self.calls.iter().enumerate() {
            let number = number_of(place);
            if self.is_earlier(number, call) && span.meets(span_of(&call.entry.command)) {
                loads.push((call.end, number))?;
            }
        }
        loads.sort_unstable();
        Ok(loads)
    }

    /// Whether a call is a load of the wrong call's object and ends before the wrong call.
    fn is_earlier(&self, number: u32, call: &TimedCall) -> bool {
        let SpeltCommand::Get(cell, _, _) = &call.entry.command else {
            return false;
        };
        let Some(wrong) = self.calls.get(self.number as usize) else {
            return false;
        };
        *cell == cell_of(&wrong.entry.command) && (call.end, number) < (wrong.end, self.number)
    }

    /// The bytes from the first to the last one that a call and the stores in its sight access.
    fn span_of(&self, sight: &Sight) -> Span {
        let mut span = self.span(sight.number);
        for number in &sight.stores {
            span = span.with(self.span(*number));
        }
        span
    }

    /// The bytes that the call with this number accesses.
    fn span(&self, number: u32) -> Span {
        match self.calls.get(number as usize) {
            Some(call) => span_of(&call.entry.command),
            None => Span { from: 0, to: 0 },
        }
    }

    /// Takes these calls, the stores in their sight, and the `new` of the object.
    fn with_all(&self, sights: &[Sight]) -> Result<Vec<bool>, AllocError> {
        let mut all = Vec::new(self.alloc);
        for _ in sights {
            all.push(true)?;
        }
        self.with_some(sights, all.as_slice())
    }

    /// Takes those of these calls that are `true` in `some`, the stores in their sight, and the `new` of the object.
    fn with_some(&self, sights: &[Sight], some: &[bool]) -> Result<Vec<bool>, AllocError> {
        let mut taken = self.objects_of(self.number)?;
        for (sight, is_in) in sights.iter().zip(some) {
            if *is_in {
                take(&mut taken, sight.number);
                for store in &sight.stores {
                    take(&mut taken, *store);
                }
            }
        }
        Ok(taken)
    }

    /// Leaves out calls, 128 at once, then 64, and so on, as long as `check_calls` refutes the others. The first call
    /// stays.
    fn fewer(&self, sights: &[Sight], refuted: Vec<bool>) -> Result<Option<Vec<bool>>, AllocError> {
        let mut best = refuted;
        let mut some = Vec::new(self.alloc);
        for _ in sights {
            some.push(true)?;
        }
        let mut size = 128;
        while size > 0 {
            for from in (1..sights.len()).step_by(size) {
                let fewer = without(self.alloc, some.as_slice(), from, size)?;
                if let Some(taken) = self.refuted(self.with_some(sights, fewer.as_slice())?)? {
                    best = taken;
                    some = fewer;
                }
            }
            size /= 2;
        }
        Ok(Some(best))
    }

    /// Takes all calls on the object of the wrong call.
    fn whole_object(&self) -> Result<Vec<bool>, AllocError> {
        let cell = self.cell(self.number);
        self.calls
            .iter()
            .map(|call| cell_of(&call.entry.command) == cell)
            .collect(self.alloc)
    }
}

/// Whether two calls made objects with the same serial.
fn have_same_serial(one: &TimedCall, other: &TimedCall) -> bool {
    match (&one.entry.reply, &other.entry.reply) {
        (RecordedReply::Object(serial, _), RecordedReply::Object(again, _)) => serial == again,
        _ => false,
    }
}

/// Returns the flags, with those from `from` on `false`, `size` in number.
fn without(
    alloc: Global,
    flags: &[bool],
    from: usize,
    size: usize,
) -> Result<Vec<bool>, AllocError> {
    flags
        .iter()
        .enumerate()
        .map(|(place, flag)| *flag && (place < from || place - from >= size))
        .collect(alloc)
}

/// Takes the call with this number.
fn take(taken: &mut Vec<bool>, number: u32) {
    if let Some(flag) = taken.get_mut(number as usize) {
        *flag = true;
    }
}

/// The bytes of an object from `from` up to but not including `to`.
#[derive(Clone, Copy)]
struct Span {
    from: u64,
    to: u64,
}

impl Span {
    /// Whether the two have a byte in common.
    fn meets(self, other: Span) -> bool {
        self.from < other.to && other.from < self.to
    }

    /// The bytes from the first to the last one of both.
    fn with(self, other: Span) -> Span {
        Span {
            from: self.from.min(other.from),
            to: self.to.max(other.to),
        }
    }
}

/// The bytes that a command accesses.
fn span_of(command: &SpeltCommand) -> Span {
    match command {
        SpeltCommand::Put(_, off, bytes) => Span {
            from: *off,
            to: off.saturating_add(bytes.len() as u64),
        },
        SpeltCommand::Get(_, off, len) => Span {
            from: *off,
            to: off.saturating_add(u64::from(*len)),
        },
        _ => Span { from: 0, to: 0 },
    }
}
