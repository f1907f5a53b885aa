//! The table of all lines: for each word, the names of its fields, and their kinds and ranges.
use text_fields::lines::is_word;

/// A field of a line: its name in `docs/FORMAT.md`, or the very word that the field must be, and what the field spells.
#[derive(Clone, Copy)]
pub struct Field(pub &'static str, pub FieldKind);

/// What a field spells.
#[derive(Clone, Copy)]
pub enum FieldKind {
    /// A number from the first to the second.
    Number(u64, u64),
    /// A cell: up to 255 in a job, of 32 bits in a history.
    Cell,
    /// A length or an offset: up to 65535 in a job, up to 2^47 in a history.
    Size,
    /// A number of bytes: 1 to 32 in a job, up to 4096 in a history.
    Count,
    /// The number of a worker of the job.
    Worker,
    /// The number of the worker whose script is next.
    NextWorker,
    /// The time at which a call ended: not below the time at which it began.
    End,
    /// An address: up to fffffff in a job, of 48 bits in a history.
    Address,
    /// The size of a class.
    Class,
    /// 0 to 32 fields, each a number of 64 bits. No field is behind them.
    Words,
    /// Bytes: 1 to 32 in a job, up to 4096 in a history.
    Bytes,
    /// One byte.
    Byte,
    /// The very word that is the field's name.
    Literal,
    /// The name of the refusal whose number is the field before.
    Refusal,
}

/// A line, or the part of a line that begins with a word: this word, and the fields behind it.
#[derive(Clone, Copy)]
pub struct Form(pub &'static str, pub &'static [Field]);

/// The lines, or parts of lines, that may stand in one place: what each of them is, and their forms.
#[derive(Clone, Copy)]
pub struct Vocabulary(pub &'static str, pub &'static [Form]);

const CELL: Field = Field("CELL", FieldKind::Cell);

const FROM: Field = Field("FROM", FieldKind::Cell);

const TO: Field = Field("TO", FieldKind::Cell);

const LEN: Field = Field("LEN", FieldKind::Size);

const OFFSET: Field = Field("OFFSET", FieldKind::Size);

const COUNT: Field = Field("LEN", FieldKind::Count);

const WORD: Field = Field("WORD", FieldKind::Number(0, u64::MAX));

const HEX: Field = Field("HEX", FieldKind::Bytes);

const BYTE: Field = Field("BYTE", FieldKind::Byte);

const ADDR: Field = Field("ADDR", FieldKind::Address);

pub(crate) const VERSION: Field = Field("VERSION", FieldKind::Number(1, 2));

const PAGES: Field = Field("P", FieldKind::Number(1, 4096));

const ENTRIES: Field = Field("H", FieldKind::Number(0, 65_536));

const WORKERS: Field = Field("N", FieldKind::Number(1, 64));

const FIRST_WORKER: Field = Field("W", FieldKind::Number(0, 0));

const NEXT_WORKER: Field = Field("W", FieldKind::NextWorker);

const WORKER: Field = Field("W", FieldKind::Worker);

const CLASS: Field = Field("CLASS", FieldKind::Class);

const ROUNDS: Field = Field("T", FieldKind::Number(0, 64));

const WORDS: Field = Field("WORD ..", FieldKind::Words);

const SOURCE: Field = Field("SRC", FieldKind::Number(0, 65_535));

const DESTINATION: Field = Field("DST", FieldKind::Number(0, 65_535));

const GROUP: Field = Field("GROUP", FieldKind::Number(0, 65_535));

const CALLER: Field = Field("W", FieldKind::Number(0, 65_535));

const BEGIN: Field = Field("BEGIN", FieldKind::Number(0, u64::MAX));

const END: Field = Field("END", FieldKind::End);

const SERIAL: Field = Field("SERIAL", FieldKind::Number(0, 4_294_967_295));

const AT: Field = Field("at", FieldKind::Literal);

const NUMBER: Field = Field("NUMBER", FieldKind::Number(1, 17));

const NAME: Field = Field("NAME", FieldKind::Refusal);

// The lines that head a section of a text.
pub(crate) const MESH_LINE: Form = Form("mesh", &[VERSION]);

pub(crate) const PAGES_LINE: Form = Form("pages", &[PAGES]);

pub(crate) const JOURNAL_LINE: Form = Form("history", &[ENTRIES]);

pub(crate) const WORKERS_LINE: Form = Form("workers", &[WORKERS]);

pub(crate) const FIRST_WORKER_LINE: Form = Form("worker", &[FIRST_WORKER]);

pub(crate) const WORKER_LINE: Form = Form("worker", &[NEXT_WORKER]);

pub(crate) const PLAN_LINE: Form = Form("plan", &[]);

pub(crate) const HISTORY_LINE: Form = Form("history", &[VERSION]);

// The commands. `copy` is none of version 1.
const NEW: Form = Form("new", &[CELL, LEN, WORD]);

const PUT: Form = Form("put", &[CELL, OFFSET, HEX]);

const GET: Form = Form("get", &[CELL, OFFSET, COUNT]);

const FREE: Form = Form("free", &[CELL]);

const ALIAS: Form = Form("alias", &[CELL, FROM]);

pub(crate) const COPY: Form = Form("copy", &[TO, OFFSET, FROM, OFFSET, COUNT]);

const ADDRESS_OF: Form = Form("addr", &[CELL]);

const PEEK: Form = Form("peek", &[ADDR]);

const POKE: Form = Form("poke", &[ADDR, BYTE]);

// The lines of a plan. `step` and `cancel` name the class in version 2 alone.
const RUN: Form = Form("run", &[WORKER]);

pub(crate) const PAIR: Form = Form("pair", &[CLASS, ROUNDS, WORDS]);

const BEGIN_MESH: Form = Form("begin", &[SOURCE, DESTINATION]);

const STEP: Form = Form("step", &[]);

const CANCEL: Form = Form("cancel", &[]);

const STEP_CLASS: Form = Form("step", &[CLASS]);

const CANCEL_CLASS: Form = Form("cancel", &[CLASS]);

const WHOLE: Form = Form("whole", &[SOURCE, DESTINATION]);

const SWEEP: Form = Form("sweep", &[GROUP]);

const REPORT: Form = Form("report", &[]);

const END_LINE: Form = Form("end", &[]);

// The answers.
const OBJECT: Form = Form("object", &[SERIAL, AT, ADDR]);

const DONE: Form = Form("done", &[]);

const LOADED: Form = Form("bytes", &[HEX]);

const PLACED: Form = Form("at", &[ADDR]);

const PEEKED: Form = Form("byte", &[BYTE]);

const REFUSED: Form = Form("refused", &[NUMBER, NAME]);

pub(crate) const COMMANDS_OF_ONE: Vocabulary = Vocabulary(
    "command of a worker",
    &[NEW, PUT, GET, FREE, ALIAS, ADDRESS_OF, PEEK, POKE],
);

pub(crate) const COMMANDS_OF_TWO: Vocabulary = Vocabulary(
    "command of a worker",
    &[NEW, PUT, GET, FREE, ALIAS, COPY, ADDRESS_OF, PEEK, POKE],
);

pub(crate) const PLAN_OF_ONE: Vocabulary = Vocabulary(
    "line of a plan",
    &[
        RUN, PAIR, BEGIN_MESH, STEP, CANCEL, WHOLE, SWEEP, REPORT, END_LINE,
    ],
);

pub(crate) const PLAN_OF_TWO: Vocabulary = Vocabulary(
    "line of a plan",
    &[
        RUN,
        PAIR,
        BEGIN_MESH,
        STEP_CLASS,
        CANCEL_CLASS,
        WHOLE,
        SWEEP,
        REPORT,
        END_LINE,
    ],
);

pub(crate) const RECORDED_COMMANDS: Vocabulary = Vocabulary(
    "command of a history",
    &[NEW, PUT, GET, FREE, ALIAS, COPY, ADDRESS_OF, PEEK, POKE],
);

pub(crate) const OBJECT_COMMANDS: Vocabulary = Vocabulary(
    "command of calls that overlap",
    &[NEW, PUT, GET, FREE, ADDRESS_OF],
);

pub(crate) const ANSWERS: Vocabulary = Vocabulary(
    "answer",
    &[OBJECT, DONE, LOADED, PLACED, PEEKED, REFUSED],
);

/// The fields of an entry of version 1 before its command.
pub(crate) const BEFORE_COMMAND: [Field; 1] = [CALLER];

/// The fields of a call of version 2 before its command.
pub(crate) const BEFORE_CALL: [Field; 3] = [CALLER, BEGIN, END];

impl Vocabulary {
    /// The form whose word this is. `None` if there is none.
    pub(crate) fn form_of(&self, word: &[u8]) -> Option<Form> {
        for form in self.1 {
            if form.is_worded(word) {
                return Some(*form);
            }
        }
        None
    }
}

impl Form {
    /// Whether the word of the form is this one.
    pub(crate) fn is_worded(&self, word: &[u8]) -> bool {
        is_word(word, self.0.as_bytes())
    }

    /// The field at this place behind the word. `None` if the form has no such field.
    pub(crate) fn field_at(&self, place: usize) -> Option<Field> {
        field_at(self.1, place)
    }
}

/// The field at a place among these. `None` if there is no such field.
pub(crate) fn field_at(fields: &[Field], place: usize) -> Option<Field> {
    match fields {
        [.., Field(_, FieldKind::Words)] if place >= fields.len().saturating_sub(1) => Some(WORD),
        _ => fields.get(place).copied(),
    }
}
