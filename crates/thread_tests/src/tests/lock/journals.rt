//! A test of the journal of a book, entry by entry.
ghost use Rattle.model_words.specs.Commands.{IsInRange};

use crate::tests::check_that;
use crate::tests::lock::calls::{Answer, Call, command_of, reply_of};
use mesh_mutator::{Attempt, Book, Command, Entry, Journal, Reply};
use model_words::Refusal;
use std::process::Abort;

/// A store of two bytes.
const PUT: Call = Call::Put(0, 2, &[0x68, 0x69]);

/// Commands of each kind with their answers, in the order in which they are run.
static ENTRIES: [(Call, Answer); 11] = [
    (Call::New(0, 16), Answer::Object(0, 0x1000)),
    (PUT, Answer::Done),
    (Call::Get(0, 2, 2), Answer::Bytes(&[0x68, 0x69])),
    (Call::Alias(1, 0), Answer::Done),
    (Call::Copy(1, 4, 0, 3, 1), Answer::Done),
    (Call::Addr(1), Answer::At(0x1000)),
    (Call::Peek(0x1004), Answer::Byte(0x69)),
    (Call::Poke(0x1005, 0x21), Answer::Done),
    (Call::Get(1, 4, 2), Answer::Bytes(&[0x69, 0x21])),
    (Call::Free(0), Answer::Done),
    (Call::Get(1, 0, 1), Answer::Refused(Refusal::Freed)),
];

/// Asserts that a book answers the commands of worker 7 as expected, in order, and that after each of them the last
/// entry of the journal records the command and its reply.
fn check_entries(rt: &impl Abort, book: &mut Book, entries: &[(Call, Answer)]) {
    for (call, answer) in entries {
        check_entry(rt, book, &command_of(rt, *call), &reply_of(rt, *answer));
    }
}

/// Asserts that a book answers a command of worker 7 as expected, and that its journal's last entry records both.
fn check_entry(rt: &impl Abort, book: &mut Book, command: &Command, reply: &Reply)
    requires { IsInRange command.now }
{
    let attempt = book.act(7, command);
    assert!(rt; attempt == Attempt::Done(reply.copied()), "of {command:?}");
    check_last(rt, book.journal(), command, reply);
}

/// Asserts that the last entry of a journal records a command of worker 7 and its reply.
fn check_last(rt: &impl Abort, journal: &Journal, command: &Command, reply: &Reply) {
    let last = journal.len().checked_sub(1).expect(rt, "an entry");
    let entry = Entry::of(7, command, reply);
    check_that(rt, journal.entry(last) == entry, "the last entry tells it");
}

/// Asserts that the journal has all its entries, and that the entry of the store still has the stored bytes.
fn check_store(rt: &impl Abort, journal: &Journal) {
    check_second(rt, journal, &command_of(rt, PUT));
}

/// Asserts that the journal has eleven entries, and that the second one records a store of worker 7.
fn check_second(rt: &impl Abort, journal: &Journal, put: &Command) {
    assert!(rt; journal.len() == 11, "the journal is full");
    let entry = Entry::of(7, put, &Reply::Done);
    check_that(rt, journal.entry(1) == entry, "a store's bytes stay");
}

#[test]
fn the_journal_tells_each_kind_of_entry(rt: HostRuntime) {
    let mut book = Book::open(rt.alloc(), 1, 11).expect(&rt, "memory");
    check_book(&rt, &mut book);
}

/// Asserts the answers of a book to the commands of `ENTRIES`, and the entries of its journal.
fn check_book(rt: &impl Abort, book: &mut Book) {
    check_entries(rt, book, &ENTRIES);
    check_store(rt, book.journal());
}
