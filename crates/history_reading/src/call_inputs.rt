//! Reads the calls of a history from a device.
ghost use Rattle.std.specs.Prelude.{◌≡◌, ◌+◌, ◌<◌, ◌≤◌, ◌∷◌, ◌++◌, ℕ, List, Option, Ok, Err, [], true, false, IfErr, IfOk, IfSome, IsNone, OnOk};
ghost use Rattle.model_intervals.specs.Intervals.{Call};
ghost use Rattle.model_jobs.specs.JobFiles.{fault_at};
ghost use Rattle.history_reading.specs.CallFiles.{call_head_in, call_in};
ghost use Rattle.history_reading.specs.CallInputs.{HasCome, HasEnded, HasNext, HasStopped, IsFaultIn, IsFresh, IsTaken, IsUnreadIn, lines_before};
ghost use Rattle.history_reading.specs.CallOrders.{IsOrderOf};
ghost use Rattle.history_reading.specs.CallWords.{IsReadCall, plain_call};
ghost use Rattle.history_reading.specs.declared.faults.CallError.{CallError};
ghost use Rattle.text_devices.specs.LineInputs.{line_of};

use crate::order::CallOrder;
use crate::{CallError, TimedCall, read_call, read_call_head};
use std::alloc::{AllocError, Global};
use text_devices::{LineInput, Source, fault_at};
use text_fields::faults::LineFault;

/// A history of overlapping calls that is read from a device, after a beginning of the text was read.
#[derive(Drop)]
pub struct CallInput {
    /// The lines of the text.
    lines: LineInput,
    /// What decides whether the next call is in order.
    order: CallOrder,
    alloc: Global,
}

impl CallInput {
    /// Returns a history of which nothing was read, and allocates the buffer for one read.
    pub fn new(alloc: Global) -> Result<CallInput, AllocError>
        ensures { IfOk result IsFresh }
    {
        Ok(CallInput {
            lines: LineInput::new(alloc)?,
            order: CallOrder::new(alloc),
            alloc,
        })
    }

    /// Returns the number of lines read so far. It is the line number of the last call, counted from 1.
    pub fn lines(&self) -> u32
        ensures { result ≡ lines_before self.now }
    {
        self.lines.lines()
    }

    /// Returns the next call of the history that is read from `input`, or `None` at the end of the history.
    ///
    /// Errors:
    ///
    /// - `Text`, if a line has a fault, if the text ends within a line, or if the text has no line.
    /// - `Order`, if a call is out of order.
    /// - `Read`, if and only if the input failed.
    /// - `Memory`, if an allocation failed.
    ///
    /// After an error, the history must not be used.
    pub fn next<I: Source>(&mut self, input: &mut I) -> Result<Option<TimedCall>, CallError>
        requires { I.has_failed input.old ≡ false }
        ensures ok { OnOk result (I.has_failed input.new ≡ false) }
        ensures call { (left : Option (List ℕ)) (calls : List Call)
            → HasCome self.old left (I.remaining input.old) calls
            → IfOk result (λ next. IfSome next (HasNext self.new left (I.remaining input.new) calls)) }
        ensures later { IfOk result (λ next. IfSome next (λ _. lines_before self.old < lines_before self.new)) }
        ensures is_read { IfOk result (λ next. IfSome next IsReadCall) }
        ensures ended { (left : Option (List ℕ)) (calls : List Call)
            → HasCome self.old left (I.remaining input.old) calls
            → IfOk result (λ next. IsNone next → HasEnded self.new left (I.remaining input.new) calls) }
        ensures stopped { (left : Option (List ℕ)) (calls : List Call)
            → HasCome self.old left (I.remaining input.old) calls
            → IfErr result (HasStopped left (I.remaining input.new) calls) }
        ensures read { result ≡ Err CallError.Read → I.has_failed input.new ≡ true }
        ensures failed { I.has_failed input.new ≡ true → result ≡ Err CallError.Read }
    {
        loop {
            if !self.lines.read_line(input)? {
                return Ok(None);
            }
            if let Some(call) = self.take_line()? {
                return Ok(Some(call));
            }
        }
    }

    /// Reads the call in the line that was read last. Returns `None` if this line is the first of the text. The errors
    /// are those of `next`, except `Read`.
    fn take_line(&mut self) -> Result<Option<TimedCall>, CallError>
        requires { 1 ≤ lines_before self.old }
        ensures same { self.new.lines ≡ self.old.lines }
        ensures taken { (lines : ℕ) (calls : List Call) → lines + 1 ≡ lines_before self.old
            → IsOrderOf self.old.order calls
            → IsTaken self.new lines calls (line_of self.old.lines) result }
        ensures head { IfOk result (λ next. IsNone next → lines_before self.old ≡ 1) }
        ensures call { IfOk result (λ next. IfSome next (λ _. 2 ≤ lines_before self.old)) }
        ensures is_read { IfOk result (λ next. IfSome next IsReadCall) }
        ensures unread { result ≡ Err CallError.Read → ⊥ }
    {
        let number = self.lines.lines();
        if number == 1 {
            head_at(self.lines.line())?;
            return Ok(None);
        }
        let call = call_at(self.alloc, number, self.lines.line())?;
        if !self.order.add(&call)? {
            return Err(CallError::Order(number));
        }
        Ok(Some(call))
    }
}

/// Reads the first line.
fn head_at(line: &[u8]) -> Result<(), CallError>
    ensures ok { OnOk result (call_head_in line.now ≡ Ok tt) }
    ensures fault { IfErr result (IsFaultIn 1 (call_head_in line.now)) }
{
    match read_call_head(line) {
        Ok(()) => Ok(()),
        Err(kind) => Err(CallError::Text(fault_at(1, kind))),
    }
}

/// Reads the line of a call. Its line number is `number`. The error is `Text` or `Memory`.
fn call_at(alloc: Global, number: u32, line: &[u8]) -> Result<TimedCall, CallError>
    ensures ok { IfOk result (λ call. call_in line.now ≡ Ok (plain_call call)) }
    ensures is_read { IfOk result IsReadCall }
    ensures fault { IfErr result (IsUnreadIn number (call_in line.now)) }
{
    match read_call(alloc, line) {
        Ok(call) => Ok(call),
        Err(LineFault::Kind(kind)) => Err(CallError::Text(fault_at(number, kind))),
        Err(LineFault::Memory) => Err(CallError::Memory),
    }
}
