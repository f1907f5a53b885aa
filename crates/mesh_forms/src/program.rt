//! The functions of the program `meshrun`, in `run_program`.
ghost use Rattle.std.specs.Prelude.{◌≡◌, false};

use run_program::{
    Args, Sink, Source, Stop, ThreadsArgs, arguments, replay_run, threads_run, words,
};
use std::alloc::{AllocError, Global};
use std::sync::Wait;
use std::thread::Threads;

pub fn asked<'a>(alloc: Global, words: &'a [&'a str]) -> Result<Option<&'a str>, u8> {
    let args: Result<Args, Stop> = arguments(alloc, words);
    match args {
        Ok(Args::Replay(file)) => Ok(Some(file)),
        Ok(Args::Threads(file, _)) => Ok(Some(file)),
        Ok(_) => Ok(None),
        Err(Stop { status, text: _ }) => Err(status),
    }
}

pub fn numbers(args: ThreadsArgs) -> (u32, u32, u32, u64, u32) {
    let ThreadsArgs {
        probe,
        rounds,
        workers,
        seed,
        meshers,
    } = args;
    (probe, rounds, workers, seed, meshers)
}

pub fn seeded(alloc: Global, seed: u64, rounds: u32) -> Result<Vec<u64>, AllocError> {
    words(alloc, seed, rounds)
}

pub fn replayed<I: Source, O: Sink, E: Sink>(
    alloc: Global,
    input: &mut I,
    output: &mut O,
    errors: &mut E,
) -> u8
    requires input { I.has_failed input.old ≡ false }
    requires output { O.has_failed output.old ≡ false }
{
    let status: u8 = replay_run(alloc, input, output, errors);
    status
}

pub fn threaded<R: Threads + Wait + Sync, I: Source, O: Sink, E: Sink>(
    rt: &R,
    alloc: Global,
    input: &mut I,
    output: &mut O,
    errors: &mut E,
    args: &ThreadsArgs,
) -> u8
    requires input { I.has_failed input.old ≡ false }
    requires output { O.has_failed output.old ≡ false }
{
    let status: u8 = threads_run(rt, alloc, input, output, errors, args);
    status
}
