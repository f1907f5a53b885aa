//! The options of the command line, and the table of its subcommands.

/// The name of the file argument. It is also the file's name in the help.
pub(crate) const FILE: &str = "FILE";

/// The name of the flag that asks for a recorded history.
pub(crate) const RECORDED: &str = "history";

/// The name of the flag that asks for the plan's lines before their answers.
pub(crate) const ECHO: &str = "echo";

/// The name of the flag that asks for text instead of a picture.
pub(crate) const TEXT: &str = "text";

/// The name of the flag that asks for a page instead of a picture.
pub(crate) const HTML: &str = "html";

/// The name of the flag that asks for a report behind the answers.
pub(crate) const REPORT: &str = "report";

/// The name of the flag that sets all words of objects to 0.
pub(crate) const FIRST_FIT: &str = "first-fit";

/// The name of the flag that asks for a plot.
pub(crate) const SVG: &str = "svg";

/// The name of the flag that asks for comma-separated values.
pub(crate) const CSV: &str = "csv";

/// The name of the flag that asks for an order of effects instead of a verdict.
pub(crate) const ORDER: &str = "order";

/// The name of the flag that asks for a witness of a wrong answer instead of a verdict.
pub(crate) const WRONG_CALLS: &str = "witness";

/// The name of the option that asks for a mesh.
pub(crate) const MESH: &str = "mesh";

/// The name of the two groups of a mesh in the help.
pub(crate) const GROUPS: &str = "SRC:DST";

/// The name of the flag that asks for the number of found states.
pub(crate) const PROGRESS: &str = "progress";

/// The name of a condition of a verdict in the help.
pub(crate) const CONDITION: &str = "COND";

/// The flag that asks for a second line about a fault of a text.
pub(crate) const EXPLAIN: &str = "explain";

/// What the flag `--explain` does.
const EXPLAIN_HELP: &str = "Say in a second line on standard error what is wrong in a text";

/// The flag that allows meshes that never begin.
pub(crate) const ALLOW_NO_MESH: &str = "allow-no-mesh";

/// The name of an option with a number, and the range of the number.
#[derive(Clone, Copy)]
pub(crate) struct NumberRange {
    pub(crate) name: &'static str,
    pub(crate) least: u64,
    pub(crate) most: u64,
}

/// An option with a number. The code that reads the number needs only its range, and each text in a constant makes the
/// proof of a function that names the constant slower.
#[derive(Clone, Copy)]
pub(crate) struct NumberOption {
    pub(crate) range: NumberRange,
    // The name of the number in the help.
    pub(crate) value: &'static str,
    pub(crate) help: &'static str,
}

pub(crate) const PROBE: NumberRange = NumberRange {
    name: "probe",
    least: 0,
    most: 64,
};

const PROBE_OPTION: NumberOption = NumberOption {
    range: PROBE,
    value: "T",
    help: "How many rounds of tries a search makes at most, 0 to 64",
};

pub(crate) const ROUNDS: NumberRange = NumberRange {
    name: "rounds",
    least: 0,
    most: 1000,
};

const ROUNDS_OPTION: NumberOption = NumberOption {
    range: ROUNDS,
    value: "R",
    help: "How many times each mesher searches and meshes, 0 to 1000",
};

pub(crate) const WORKERS: NumberRange = NumberRange {
    name: "workers",
    least: 1,
    most: 16,
};

const WORKERS_OPTION: NumberOption = NumberOption {
    range: WORKERS,
    value: "N",
    help: "How many threads make a search, 1 to 16",
};

pub(crate) const SEED: NumberRange = NumberRange {
    name: "seed",
    least: 0,
    most: u64::MAX,
};

const SEED_OPTION: NumberOption = NumberOption {
    range: SEED,
    value: "S",
    help: "The seed of the random words that shuffle, 0 to 18446744073709551615",
};

pub(crate) const MESHERS: NumberRange = NumberRange {
    name: "meshers",
    least: 1,
    most: 10,
};

const MESHERS_OPTION: NumberOption = NumberOption {
    range: MESHERS,
    value: "M",
    help: "How many threads mesh, 1 to 10",
};

pub(crate) const PACE: NumberRange = NumberRange {
    name: "pace",
    least: 1,
    most: 65536,
};

const PACE_OPTION: NumberOption = NumberOption {
    range: PACE,
    value: "N",
    help: "Let a worker wait behind each N of its calls until a mesher has made a call, 1 to 65536",
};

pub(crate) const FROM: NumberRange = NumberRange {
    name: "from",
    least: 1,
    most: 1048576,
};

const FROM_OPTION: NumberOption = NumberOption {
    range: FROM,
    value: "N",
    help: "The first line of the plan that is drawn, 1 to 1048576",
};

pub(crate) const TO: NumberRange = NumberRange {
    name: "to",
    least: 1,
    most: 1048576,
};

const TO_OPTION: NumberOption = NumberOption {
    range: TO,
    value: "N",
    help: "The last line of the plan that is drawn, 1 to 1048576",
};

pub(crate) const COLUMNS: NumberRange = NumberRange {
    name: "columns",
    least: 0,
    most: 64,
};

const COLUMNS_OPTION: NumberOption = NumberOption {
    range: COLUMNS,
    value: "N",
    help: "How many columns the picture has, 1 to 64, or 0 for as many as fit, as by default",
};

pub(crate) const PAGES: NumberRange = NumberRange {
    name: "pages",
    least: 1,
    most: 4096,
};

const PAGES_OPTION: NumberOption = NumberOption {
    range: PAGES,
    value: "P",
    help: "How many physical pages the heap has, 1 to 4096",
};

pub(crate) const HISTORY: NumberRange = NumberRange {
    name: "history",
    least: 0,
    most: 65536,
};

const HISTORY_OPTION: NumberOption = NumberOption {
    range: HISTORY,
    value: "H",
    help: "How many entries the journal has room for, 0 to 65536",
};

pub(crate) const SESSION_WORKERS: NumberRange = NumberRange {
    name: "workers",
    least: 1,
    most: 64,
};

const SESSION_WORKERS_OPTION: NumberOption = NumberOption {
    range: SESSION_WORKERS,
    value: "N",
    help: "How many workers there are, 1 to 64",
};

pub(crate) const CANCEL: NumberRange = NumberRange {
    name: "cancel",
    least: 0,
    most: 1000,
};

const CANCEL_OPTION: NumberOption = NumberOption {
    range: CANCEL,
    value: "AFTER",
    help: "Cancel each mesh after so many of its steps, 0 to 1000",
};

pub(crate) const STATES: NumberRange = NumberRange {
    name: "states",
    least: 1,
    most: 10000000,
};

const STATES_OPTION: NumberOption = NumberOption {
    range: STATES,
    value: "N",
    help: "How many states are kept at most, 1 to 10000000",
};

pub(crate) const WITNESS: NumberRange = NumberRange {
    name: "witness",
    least: 0,
    most: 4294967295,
};

const WITNESS_OPTION: NumberOption = NumberOption {
    range: WITNESS,
    value: "K",
    help: "Print a job file that leads to outcome K, 0 to 4294967295, instead of the listing",
};

/// An option with a text.
#[derive(Clone, Copy)]
pub(crate) struct TextOption {
    pub(crate) name: &'static str,
    // The name of the text in the help.
    pub(crate) value: &'static str,
    pub(crate) help: &'static str,
}

// The option `--mesh` of `draw`, which may be left out.
const MESH_OPTION: TextOption = TextOption {
    name: MESH,
    value: GROUPS,
    help: "Draw the shortest plan to what goes wrong in an exploration with a mesh of group SRC into group DST, each 0 to 65535; up to 10 times",
};

pub(crate) const SHOW: &str = "show";

const SHOW_OPTION: TextOption = TextOption {
    name: SHOW,
    value: "LINE:ANSWER:PHASE",
    help: "Print a job file in which the command at LINE of FILE gets ANSWER in PHASE of a mesh, such as 12:done:unprotect 1",
};

pub(crate) const STEPS: &str = "steps";

/// The text of `--steps` that means the steps of the heap's own meshes.
pub(crate) const RIGHT_STEPS: &str = "right";

const STEPS_OPTION: TextOption = TextOption {
    name: STEPS,
    value: "LIST",
    help: "Make each mesh by these steps instead, and report what goes wrong, such as 'copy protect remap unprotect release'",
};

pub(crate) const ANY: NumberRange = NumberRange {
    name: "any",
    least: 0,
    most: 1000,
};

const ANY_OPTION: NumberOption = NumberOption {
    range: ANY,
    value: "N",
    help: "Let a client give up to N commands of any kind instead of the job's workers, and report what goes wrong, 0 to 1000",
};

/// The name of how accesses are made in the help.
const HOW: &str = "HOW";

pub(crate) const STORE: &str = "store";

const STORE_OPTION: TextOption = TextOption {
    name: STORE,
    value: HOW,
    help: "Let a client's stores be two moves: a check, and a write through the page map (split) or to the page that was found (stale)",
};

pub(crate) const LOAD: &str = "load";

const LOAD_OPTION: TextOption = TextOption {
    name: LOAD,
    value: HOW,
    help: "Let a client's loads be two moves: a look-up, and a read of the page that was found (stale)",
};

pub(crate) const FREE: &str = "free";

const FREE_OPTION: TextOption = TextOption {
    name: FREE,
    value: HOW,
    help: "Let a client's frees be two moves: a look-up of the object's group, and the free (split)",
};

/// The text of `--store` and `--free` that means the second move uses the page map, or the groups, as they are then.
pub(crate) const SPLIT: &str = "split";

/// The text of `--store` and `--load` that means the second move uses the page that the first one found.
pub(crate) const STALE: &str = "stale";

pub(crate) const EXPECT: &str = "expect";

const EXPECT_OPTION: TextOption = TextOption {
    name: EXPECT,
    value: "OUTCOMES",
    help: "Compare the outcomes with those listed in a file, and print those that are missing or unexpected",
};

pub(crate) const NEVER: &str = "never";

const NEVER_OPTION: TextOption = TextOption {
    name: NEVER,
    value: CONDITION,
    help: "Let no outcome match COND: 'W: ANSWER | ..', or several with ' & ' between them; * is any answer; up to 10 times",
};

pub(crate) const ALWAYS: &str = "always";

const ALWAYS_OPTION: TextOption = TextOption {
    name: ALWAYS,
    value: CONDITION,
    help: "Let each outcome match COND; up to 10 times",
};

pub(crate) const EXISTS: &str = "exists";

const EXISTS_OPTION: TextOption = TextOption {
    name: EXISTS,
    value: CONDITION,
    help: "Let some outcome match COND; up to 10 times",
};

pub(crate) const CONFIGURATIONS: NumberRange = NumberRange {
    name: "configurations",
    least: 1,
    most: 4294967295,
};

const CONFIGURATIONS_OPTION: NumberOption = NumberOption {
    range: CONFIGURATIONS,
    value: "N",
    help: "The most configurations that an object of a history of overlapping calls may have, 1 to 4294967295",
};

pub(crate) const EVERY: NumberRange = NumberRange {
    name: "every",
    least: 1,
    most: 4294967295,
};

const EVERY_OPTION: NumberOption = NumberOption {
    range: EVERY,
    value: "F",
    help: "Mesh after every F frees of objects of up to 2048 bytes, 1 to 4294967295",
};

pub(crate) const SHARE: NumberRange = NumberRange {
    name: "share",
    least: 1,
    most: 1000,
};

const SHARE_OPTION: NumberOption = NumberOption {
    range: SHARE,
    value: "K",
    help: "Mesh after at least 64 frees that are a K-th of the live objects of up to 2048 bytes, 1 to 1000; 8 by default",
};

pub(crate) const MEMBERS: NumberRange = NumberRange {
    name: "members",
    least: 1,
    most: 8,
};

const MEMBERS_OPTION: NumberOption = NumberOption {
    range: MEMBERS,
    value: "M",
    help: "The most spans that meshes put on one physical span, 1 to 8; 1 meshes nothing",
};

pub(crate) const OBJECT_SEED: NumberRange = NumberRange {
    name: "seed",
    least: 0,
    most: u64::MAX,
};

const OBJECT_SEED_OPTION: NumberOption = NumberOption {
    range: OBJECT_SEED,
    value: "S",
    help: "The seed of the random words that place objects, 0 to 18446744073709551615; 1 by default",
};

pub(crate) const FIRST_CALL: NumberRange = NumberRange {
    name: "from",
    least: 1,
    most: 4294967295,
};

const FIRST_CALL_OPTION: NumberOption = NumberOption {
    range: FIRST_CALL,
    value: "CALL",
    help: "The first call that the figures count, 1 to 4294967295",
};

pub(crate) const LAST_CALL: NumberRange = NumberRange {
    name: "to",
    least: 1,
    most: 4294967295,
};

const LAST_CALL_OPTION: NumberOption = NumberOption {
    range: LAST_CALL,
    value: "CALL",
    help: "The last call that the figures count, 1 to 4294967295",
};

/// An argument that may follow the name of a subcommand.
#[derive(Clone, Copy)]
pub(crate) enum Argument {
    /// The file argument, with its help text.
    File(&'static str),
    /// The option for meshes, which must be given at least once.
    Meshes,
    /// An option with a number, which must be given.
    Required(NumberOption),
    /// An option with a number, and the text of its default.
    Default(NumberOption, &'static str),
    /// An option with a number, which may be left out.
    Optional(NumberOption),
    /// A flag: its name and its help text.
    Flag(&'static str, &'static str),
    /// An option with a text, which may be left out.
    Text(TextOption),
    /// An option with a text, which may be left out or be given several times.
    Texts(TextOption),
}

/// A subcommand: its name, its help text, an example, and its arguments.
#[derive(Clone, Copy)]
pub(crate) struct Subcommand {
    pub(crate) name: &'static str,
    pub(crate) about: &'static str,
    pub(crate) example: &'static str,
    pub(crate) arguments: &'static [Argument],
}

/// The help text of the file argument, for subcommands that read a recorded history.
const HISTORY_FILE: &str = "The recorded history, or - for standard input";

/// Examples of `replay`: the answers, and the answers behind the plan's lines.
const REPLAY_EXAMPLES: &str = "\
Examples:
  meshrun replay jobs/examples/mesh.job
  meshrun replay jobs/examples/mesh.job --echo";

/// The subcommand `replay`.
pub(crate) const REPLAY: Subcommand = Subcommand {
    name: "replay",
    about: "Run a job file's plan and print one answer a line",
    example: REPLAY_EXAMPLES,
    arguments: &[
        Argument::File("The job file to replay; - is standard input"),
        Argument::Flag(
            RECORDED,
            "Print the journal as a recorded history instead of the answers",
        ),
        Argument::Flag(
            ECHO,
            "Print each line of the plan, with the command that a worker attempts at it, before its answer",
        ),
        Argument::Flag(EXPLAIN, EXPLAIN_HELP),
    ],
};

/// Examples of `draw`: a picture, a page, the heap after one line as text, and a shortest plan to a wrong answer.
const DRAW_EXAMPLES: &str = "\
Examples:
  meshrun draw jobs/examples/mesh.job > mesh.svg
  meshrun draw jobs/examples/mesh.job --html > mesh.html
  meshrun draw jobs/examples/mesh.job --text --from 9 --to 9
  meshrun draw jobs/otherwise/setting_one.job --mesh 1:0 --any 2 --steps 'copy protect remap unprotect release' > plan.svg";

/// The subcommand `draw`.
pub(crate) const DRAW: Subcommand = Subcommand {
    name: "draw",
    about: "Draw a job file's plan as an SVG picture and print it, or print it as text or as an HTML page",
    example: DRAW_EXAMPLES,
    arguments: &[
        Argument::File("The job file to draw; - is standard input"),
        Argument::Default(FROM_OPTION, "1"),
        Argument::Default(TO_OPTION, "1048576"),
        Argument::Optional(COLUMNS_OPTION),
        Argument::Flag(
            TEXT,
            "Print each line of the plan with its answer and the heap after it as text instead of a picture",
        ),
        Argument::Flag(
            HTML,
            "Print an HTML page that steps through the same heaps with the arrow keys instead of a picture",
        ),
        Argument::Texts(MESH_OPTION),
        Argument::Text(STEPS_OPTION),
        Argument::Optional(ANY_OPTION),
        Argument::Text(STORE_OPTION),
        Argument::Text(LOAD_OPTION),
        Argument::Text(FREE_OPTION),
        Argument::Default(STATES_OPTION, "100000"),
    ],
};

/// Examples of `threads`: the answers, and the answers with a report behind them.
const THREADS_EXAMPLES: &str = "\
Examples:
  meshrun threads jobs/examples/threads.job --probe 8 --rounds 3 --workers 2 --seed 1 --meshers 2
  meshrun threads jobs/examples/mesh.job --probe 64 --rounds 10 --workers 2 --seed 1 --pace 1 --report";

/// The subcommand `threads`.
pub(crate) const THREADS: Subcommand = Subcommand {
    name: "threads",
    about: "Run each script of a job file on a thread of its own while other threads mesh, and print the answers",
    example: THREADS_EXAMPLES,
    arguments: &[
        Argument::File("The job file, whose plan is not used; - is standard input"),
        Argument::Required(PROBE_OPTION),
        Argument::Required(ROUNDS_OPTION),
        Argument::Required(WORKERS_OPTION),
        Argument::Required(SEED_OPTION),
        Argument::Default(MESHERS_OPTION, "1"),
        Argument::Optional(PACE_OPTION),
        Argument::Flag(
            RECORDED,
            "Print the history of all threads as a recorded history instead of each worker's answers",
        ),
        Argument::Flag(
            REPORT,
            "Print behind the answers what each mesher and each worker did, and the heap's report",
        ),
        Argument::Flag(EXPLAIN, EXPLAIN_HELP),
    ],
};

/// Examples of `explore`: a listing, a verdict of each kind, and a report on a list of steps.
const EXPLORE_EXAMPLES: &str = "\
Examples:
  meshrun explore jobs/explore/store_and_copy.job --mesh 1:0
  meshrun explore jobs/explore/store_and_copy.job --mesh 1:0 --expect jobs/explore/store_and_copy.out
  meshrun explore jobs/explore/store_and_copy.job --mesh 1:0 --never '0: done | bytes 00 & 1: bytes 00'
  meshrun explore jobs/explore/store_and_copy.job --mesh 1:0 --always '0: done | bytes aa'
  meshrun explore jobs/explore/store_and_copy.job --mesh 1:0 --exists '1: bytes 00'
  meshrun explore jobs/explore/store_and_copy.job --mesh 1:0 --any 2 --steps 'copy protect remap unprotect release'";

/// The subcommand `explore`.
pub(crate) const EXPLORE: Subcommand = Subcommand {
    name: "explore",
    about: "Run the commands that a job file's plan leaves in every interleaving with meshes, and print all answers or a verdict",
    example: EXPLORE_EXAMPLES,
    arguments: &[
        Argument::File("The job file, whose plan leads to the initial state; - is standard input"),
        Argument::Meshes,
        Argument::Optional(CANCEL_OPTION),
        Argument::Default(STATES_OPTION, "100000"),
        Argument::Optional(WITNESS_OPTION),
        Argument::Text(SHOW_OPTION),
        Argument::Text(EXPECT_OPTION),
        Argument::Texts(NEVER_OPTION),
        Argument::Texts(ALWAYS_OPTION),
        Argument::Texts(EXISTS_OPTION),
        Argument::Text(STEPS_OPTION),
        Argument::Optional(ANY_OPTION),
        Argument::Text(STORE_OPTION),
        Argument::Text(LOAD_OPTION),
        Argument::Text(FREE_OPTION),
        Argument::Flag(
            ALLOW_NO_MESH,
            "Let a verdict be positive although some mesh begins in no interleaving",
        ),
        Argument::Flag(
            PROGRESS,
            "Print the number of states found on standard error, once a second, even if it is no terminal",
        ),
    ],
};

/// The subcommand `savings`.
pub(crate) const SAVINGS: Subcommand = Subcommand {
    name: "savings",
    about: "Follow a recorded history on a heap that meshes and on one that doesn't, and compare their pages",
    example: "Example: meshrun savings histories/savings/shell_cache.history --every 50",
    arguments: &[
        Argument::File(HISTORY_FILE),
        Argument::Optional(EVERY_OPTION),
        Argument::Optional(SHARE_OPTION),
        Argument::Default(MEMBERS_OPTION, "8"),
        Argument::Default(PROBE_OPTION, "64"),
        Argument::Optional(OBJECT_SEED_OPTION),
        Argument::Flag(
            FIRST_FIT,
            "Put each object into the first free slot of its group instead of a random one",
        ),
        Argument::Default(FIRST_CALL_OPTION, "1"),
        Argument::Default(LAST_CALL_OPTION, "4294967295"),
        Argument::Flag(SVG, "Print a plot as an SVG picture instead of the table"),
        Argument::Flag(
            CSV,
            "Print the numbers of each interval of the plot, as comma-separated values",
        ),
    ],
};

/// The subcommands that run a heap, in the order in which the help shows them.
pub(crate) const RUNS: &[Subcommand] = &[
    REPLAY,
    THREADS,
    DRAW,
    Subcommand {
        name: "live",
        about: "Answer the lines of standard input one by one, on a new heap",
        example: "Example: printf 'run 0 new 0 16 0\\nreport\\n' | meshrun live",
        arguments: &[
            Argument::Default(PAGES_OPTION, "4096"),
            Argument::Default(HISTORY_OPTION, "65536"),
            Argument::Default(SESSION_WORKERS_OPTION, "64"),
        ],
    },
];

/// The subcommands that judge, in the order in which the help shows them, behind those that run a heap.
pub(crate) const JUDGEMENTS: &[Subcommand] = &[
    EXPLORE,
    Subcommand {
        name: "check",
        about: "Judge a recorded history, of calls in the order of their effects or of calls that overlap",
        example: "Example: meshrun check histories/overlapping/lost_store.history",
        arguments: &[
            Argument::File(HISTORY_FILE),
            Argument::Default(CONFIGURATIONS_OPTION, "100000"),
            Argument::Flag(
                ORDER,
                "Print calls that overlap in an order that explains them, as a history of version 1, instead of the verdict",
            ),
            Argument::Flag(
                WRONG_CALLS,
                "Print the few overlapping calls that show a wrong answer, as a history of version 2, instead of the verdict",
            ),
        ],
    },
];

/// The subcommands that compare heaps, in the order in which the help shows them, behind those that judge.
pub(crate) const COMPARISONS: &[Subcommand] = &[SAVINGS];
