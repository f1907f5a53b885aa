//! The program's certificates of verdicts on overlapping calls: an order that explains them, or a witness of a wrong
//! answer.
ghost use Rattle.std.specs.Prelude.{◌≡◌, ◌≤◌, ℕ, List, Some, true, false, IfErr, IfOk, IfSome, IsNone, OnOk};
ghost use Rattle.std.specs.Io.KnownBytes.{Appends};
ghost use Rattle.history_judge.specs.JudgementTexts.{judgement_text};
ghost use Rattle.history_judge.specs.Judgements.{HasJudged};
ghost use Rattle.history_judge.specs.OrderedHistories.{IsOrderedHistory};
ghost use Rattle.run_program.specs.Certificates.{EndsCertificate, HasFailedCertificate, HasNoCertificate, HasNoOrder, HasStoppedCertificate, HasStoppedCertificateOf, HasStoppedJudging, HasStoppedWriting, HasToldCertificate, HasToldCertificateOf, IsCertificate};
ghost use Rattle.run_program.specs.Checks.{judgement_status};
ghost use Rattle.run_program.specs.Runs.{IsSound};
ghost use Rattle.run_program.specs.declared.check_error.CheckError.{CheckError};
ghost use Rattle.text_devices.specs.declared.faults.ReplayError.{ReplayError};

use crate::Devices;
use crate::check::{check_line_of, status_of_check, status_of_judgement};
use crate::check_error::CheckError;
use crate::runs::tell;
use history_judge::{
    Begun, CallVerdict, Judgement, OrderFault, judge, judgement_line, ordered_history,
};
use history_witness::witness_of;
use run_command_line::CheckArgs;
use std::alloc::Global;
use text_devices::{ReplayError, Sink, Source, TextSource, read_all, write_lines};

/// Judges the history in the input, and writes the certificate of the verdict that `args` asks for: for `linearizable`,
/// the calls in an order that explains them, as a history of version 1, and for a wrong answer, a witness of it, as a
/// history of version 2. Returns the status of the verdict. If there is no such certificate, writes the line that
/// `check_run` writes, and returns the same status.
pub fn certificate_run<I: Source, O: Sink, E: Sink>(
    alloc: Global,
    args: &CheckArgs,
    devices: &mut Devices<I, O, E>,
) -> u8
    requires { IsSound devices.old }
    ensures { EndsCertificate args.now devices.old devices.new result }
{
    match write_certificate(alloc, args, &mut devices.input, &mut devices.output) {
        Ok(status) => status,
        Err(error) => {
            tell(&mut devices.errors, check_line_of(error).as_slice());
            status_of_check(error)
        }
    }
}

/// Reads the input to its end, and writes the certificate of the verdict, or the verdict if there is none. Returns the
/// exit status.
fn write_certificate<I: Source, O: Sink>(
    alloc: Global,
    args: &CheckArgs,
    input: &mut I,
    output: &mut O,
) -> Result<u8, CheckError>
    requires input { I.has_failed input.old ≡ false }
    requires output { O.has_failed output.old ≡ false }
    ensures ok { OnOk result ((I.has_failed input.new ≡ false) × (O.has_failed output.new ≡ false)) }
    ensures told { IfOk result
        (HasToldCertificate args.now (I.remaining input.old) (I.remaining input.new) (O.written output.old)
        (O.written output.new)) }
    ensures small { IfOk result (λ status. status ≤ 4) }
    ensures stopped { IfErr result
        (HasStoppedCertificate args.now (I.remaining input.old) (I.remaining input.new) (O.written output.old)
        (O.written output.new)) }
    ensures failed { IfErr result (HasFailedCertificate (I.has_failed input.new) (O.has_failed output.new)) }
{
    let text = read_all(alloc, input)?;
    write_certificate_of(alloc, args, text.as_slice(), output)
}

/// Writes the certificate of the verdict on a text, or the verdict if there is none. Returns the exit status.
fn write_certificate_of<O: Sink>(
    alloc: Global,
    args: &CheckArgs,
    text: &[u8],
    output: &mut O,
) -> Result<u8, CheckError>
    requires { O.has_failed output.old ≡ false }
    ensures ok { OnOk result (O.has_failed output.new ≡ false) }
    ensures told { IfOk result
        (HasToldCertificateOf args.now text.now (O.written output.old) (O.written output.new)) }
    ensures small { IfOk result (λ status. status ≤ 4) }
    ensures stopped { IfErr result
        (HasStoppedCertificateOf args.now text.now (O.written output.old) (O.written output.new)) }
    ensures failed { IfErr result (HasFailedCertificate false (O.has_failed output.new)) }
{
    let judgement = judged(alloc, text, args.configurations)?;
    write_certificate_for(alloc, args, &judgement, text, output)
}

/// Writes the certificate of the judgement of a text, or the verdict if there is none. Returns the exit status.
fn write_certificate_for<O: Sink>(
    alloc: Global,
    args: &CheckArgs,
    judgement: &Judgement,
    text: &[u8],
    output: &mut O,
) -> Result<u8, CheckError>
    requires output { O.has_failed output.old ≡ false }
    requires judged { (rest : List ℕ) × HasJudged args.now.configurations (Some text.now) (Some rest) judgement.now }
    ensures ok { OnOk result (O.has_failed output.new ≡ false) }
    ensures told { IfOk result
        (HasToldCertificateOf args.now text.now (O.written output.old) (O.written output.new)) }
    ensures small { IfOk result (λ status. status ≤ 4) }
    ensures stopped { IfErr result
        (HasStoppedCertificateOf args.now text.now (O.written output.old) (O.written output.new)) }
    ensures failed { IfErr result (HasFailedCertificate false (O.has_failed output.new)) }
{
    if let Some(certificate) = certificate_for(alloc, args, judgement, text)? {
        write_lines(output, certificate.as_slice())?;
        return Ok(status_of_judgement(judgement));
    }
    write_judgement(alloc, judgement, args.configurations, output)
}

/// Judges the history in a text. The error is `Memory` if an allocation failed, and otherwise a fault of the text.
fn judged(alloc: Global, text: &[u8], most: u32) -> Result<Judgement, CheckError>
    ensures judged { IfOk result
        (λ judgement. (rest : List ℕ) × HasJudged most (Some text.now) (Some rest) judgement) }
    ensures stopped { IfErr result (HasStoppedJudging text.now) }
{
    let mut source = Begun::new(TextSource { rest: text });
    let judgement = judge(alloc, &mut source, most as usize)?;
    Ok(judgement)
}

/// Writes the line of a judgement. Returns its exit status.
fn write_judgement<O: Sink>(
    alloc: Global,
    judgement: &Judgement,
    most: u32,
    output: &mut O,
) -> Result<u8, CheckError>
    requires { O.has_failed output.old ≡ false }
    ensures ok { OnOk result (O.has_failed output.new ≡ false) }
    ensures wrote { OnOk result
        (Appends (O.written output.old) (O.written output.new) (judgement_text most judgement.now)) }
    ensures status { IfOk result (λ status. status ≡ judgement_status judgement.now) }
    ensures small { IfOk result (λ status. status ≤ 4) }
    ensures stopped { IfErr result
        (HasStoppedWriting (judgement_text most judgement.now) (O.written output.old) (O.written output.new)) }
    ensures failed { IfErr result (HasFailedCertificate false (O.has_failed output.new)) }
{
    let line = judgement_line(alloc, judgement, most)?;
    write_lines(output, line.as_slice())?;
    Ok(status_of_judgement(judgement))
}

/// Returns the certificate of the judgement of a text that `args` asks for, or `None` if there is none.
fn certificate_for(
    alloc: Global,
    args: &CheckArgs,
    judgement: &Judgement,
    text: &[u8],
) -> Result<Option<Vec<u8>>, CheckError>
    ensures certifies { IfOk result
        (λ found. IfSome found (λ certificate. IsCertificate args.now text.now judgement.now certificate.items)) }
    ensures none { IfOk result (λ found. IsNone found → HasNoCertificate args.now text.now judgement.now) }
    ensures memory { IfErr result (λ error. error ≡ CheckError.Replay ReplayError.Memory) }
{
    match judgement {
        Judgement::Overlapping(CallVerdict::Linearizable(_)) if args.is_ordered => {
            order_in(alloc, text, args.configurations)
        }
        Judgement::Overlapping(CallVerdict::Flawed(line, flaw)) if args.is_witnessed => {
            let witness = witness_of(alloc, text, *line, flaw, args.configurations as usize)?;
            Ok(witness)
        }
        _ => Ok(None),
    }
}

/// Returns the calls of a text in an order that explains them, or `None` if no order is found.
fn order_in(alloc: Global, text: &[u8], most: u32) -> Result<Option<Vec<u8>>, CheckError>
    ensures ordered { IfOk result (λ found. IfSome found (λ history. IsOrderedHistory text.now history.items)) }
    ensures none { IfOk result (λ found. IsNone found → HasNoOrder text.now most) }
    ensures memory { IfErr result (λ error. error ≡ CheckError.Replay ReplayError.Memory) }
{
    match ordered_history(alloc, text, most as usize) {
        Ok(found) => Ok(found),
        Err(OrderFault::Undecided) => Ok(None),
        Err(OrderFault::Memory) => Err(CheckError::Replay(ReplayError::Memory)),
    }
}
