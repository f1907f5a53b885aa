//! Tests of the texts of a history: its answers, and its recorded form.
use crate::tests::check;
use crate::tests::replays::{check_text, history_of};
use mesh_mutator::{Command, Entry, Refusal, Reply};
use mesh_text::{history_lines, recorded_history};
use std::alloc::AllocError;

#[test]
fn a_history_is_told_worker_by_worker(rt: HostRuntime) -> Result<(), AllocError> {
    let history = [
        Entry::of(1, &Command::New(0, 16, 0), &Reply::Object(0, 0x1000)),
        Entry::of(0, &Command::Addr(0), &Reply::At(0x1000)),
        Entry::of(1, &Command::Peek(0x1000), &Reply::Byte(0)),
        Entry::of(1, &Command::Free(0), &Reply::Done),
        Entry::of(0, &Command::Get(0, 0, 1), &Reply::Refused(Refusal::Freed)),
    ];
    let text = history_lines(rt.alloc(), 3, &history)?;
    check_text(
        &rt,
        text.as_slice(),
        b"worker 0\nat\nrefused 6 FREED\nworker 1\nobject\nbyte 00\ndone\nworker 2\nhistory 5\n",
        &"three workers",
    );
    Ok(())
}

#[test]
fn an_empty_history_is_told(rt: HostRuntime) -> Result<(), AllocError> {
    let text = history_lines(rt.alloc(), 1, &[])?;
    check_text(
        &rt,
        text.as_slice(),
        b"worker 0\nhistory 0\n",
        &"one worker",
    );
    Ok(())
}

#[test]
fn a_history_is_recorded_in_its_order(rt: HostRuntime) -> Result<(), AllocError> {
    let history = [
        Entry::of(1, &Command::New(0, 16, 7), &Reply::Object(0, 0x1000)),
        Entry::of(0, &Command::Poke(0x100f, 10), &Reply::Done),
        Entry::of(
            12,
            &Command::Copy(0, 1, 2, 3, 4),
            &Reply::Refused(Refusal::Empty),
        ),
    ];
    let text = recorded_history(rt.alloc(), &history)?;
    check_text(
        &rt,
        text.as_slice(),
        b"history 1\n1 new 0 16 7 -> object 0 at 1000\n0 poke 100f 0a -> done\n12 copy 0 1 2 3 4 -> refused 5 EMPTY\n",
        &"three entries",
    );
    Ok(())
}

/// A job of two workers. One command finds the journal full, and one worker is run after the end of its script. The
/// plan has a report, which no journal contains.
const JOURNAL_FILE: &str =
    "mesh 1\npages 16\nhistory 4\nworkers 2\nworker 0\nnew 0 2048 0\nput 0 0 6869\nget 0 0 2\nworker 1\naddr 0\nfree 0\nplan\nrun 0\nrun 1\nreport\nrun 0\nrun 0\nrun 1\nrun 0\nend\n";

const JOURNAL: &str =
    "history 1\n0 new 0 2048 0 -> object 0 at 1000\n1 addr 0 -> at 1000\n0 put 0 0 6869 -> done\n0 get 0 0 2 -> bytes 6869\n";

#[test]
fn a_replay_prints_its_journal(rt: HostRuntime) {
    let run = history_of(rt.alloc(), JOURNAL_FILE.as_bytes());
    let goes = run.wrote(JOURNAL.as_bytes(), "", 0);
    check(&rt, goes, &run, "two workers");
}
