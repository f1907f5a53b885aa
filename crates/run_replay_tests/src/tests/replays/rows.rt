//! Tests with the golden files, and with long jobs.
use crate::tests::replays::replayed;
use run_tests::memory::files::{
    ABANDONED, CANCELS, MUTATORS, SEARCHES, SMALL_STEPS, VERSION_2, WHOLE_MESHES,
};
use run_tests::memory::{ROW_END, fields};
use std::alloc::Global;
use std::process::Abort;

/// Returns the name of the first row whose answers are wrong, or `None` if the answers of all rows are right.
fn wrong_row(alloc: Global, table: &'static str) -> Option<&'static str> {
    for row in table.split(ROW_END) {
        let (name, file, answers) = fields(row);
        let run = replayed(alloc, file.as_bytes());
        if !run.wrote(answers.as_bytes(), "", 0) {
            return Some(name);
        }
    }
    None
}

#[test]
fn answers_the_rows_of_each_subject(rt: HostRuntime) {
    let subjects = [
        ABANDONED,
        CANCELS,
        MUTATORS,
        SEARCHES,
        SMALL_STEPS,
        VERSION_2,
        WHOLE_MESHES,
    ];
    for table in subjects {
        if let Some(name) = wrong_row(rt.alloc(), table) {
            panic!(rt; "{name}");
        }
    }
}

/// The number of lines of the long plan. Their answers need more than one write.
const LONG_PLAN: usize = 4000;

#[test]
fn answers_a_long_plan(rt: HostRuntime) {
    let mut file = text_of(
        &rt,
        "mesh 1\npages 1\nhistory 0\nworkers 1\nworker 0\nplan\n",
    );
    let mut answers = text_of(&rt, "");
    for _ in 0..LONG_PLAN {
        add(&rt, &mut file, "run 0\n");
        add(&rt, &mut answers, "over\n");
    }
    add(&rt, &mut file, "end\n");
    check(&rt, file.as_str(), answers.as_str());
}

/// Asserts the answers to a job file.
fn check(rt: &(impl Abort + AllocGlobal), file: &str, answers: &str) {
    let run = replayed(rt.alloc(), file.as_bytes());
    assert!(rt; run.wrote(answers.as_bytes(), "", 0));
}

/// The number of spans of three pages that the long job makes. The spans use all addresses except those of three pages.
const SPANS: u32 = 21_844;

/// The number of bytes of a page. `SPAN_PAGES` is the number of pages of each of the `SPANS` spans.
const PAGE_BYTES: u32 = 4096;

const SPAN_PAGES: u32 = 3;

#[test]
fn uses_up_all_addresses(rt: HostRuntime) {
    let file = file_of_all(&rt);
    let answers = answers_of_all(&rt);
    check(&rt, file.as_str(), answers.as_str());
}

/// Returns a job that makes and frees an object in each of the `SPANS` spans, and sweeps the span before the next one
/// is made. Then an object gets the last addresses, and another object is refused.
fn file_of_all(rt: &(impl Abort + AllocGlobal)) -> String {
    let mut file = text_of(rt, "mesh 1\npages 4\nhistory 65536\nworkers 1\nworker 0\n");
    for _ in 0..SPANS {
        add(rt, &mut file, "new 0 384 0\nfree 0\n");
    }
    add(
        rt,
        &mut file,
        "new 0 384 31\npeek fffffff\nnew 1 16 0\nplan\n",
    );
    for group in 0..SPANS {
        write!(file, "run 0\nrun 0\nsweep {group}\n").expect(rt, "memory");
    }
    add(rt, &mut file, "run 0\nrun 0\nrun 0\nend\n");
    file
}

/// Returns the expected answers to the job of `file_of_all`.
fn answers_of_all(rt: &(impl Abort + AllocGlobal)) -> String {
    let mut answers = text_of(rt, "");
    for group in 0..SPANS {
        let address = (group * SPAN_PAGES + 1) * PAGE_BYTES;
        write!(answers, "object {group} at {address:x}\ndone\nswept 3\n").expect(rt, "memory");
    }
    add(
        rt,
        &mut answers,
        "object 21844 at ffffe80\nbyte 00\nrefused 4 NO_ADDRESSES\n",
    );
    answers
}

/// Returns a text that begins with `front`.
fn text_of(rt: &(impl Abort + AllocGlobal), front: &str) -> String {
    String::from_str(rt.alloc(), front).expect(rt, "memory")
}

/// Appends to a text.
fn add(rt: &impl Abort, text: &mut String, more: &str) {
    text.push_str(more).expect(rt, "memory");
}
