//! The arguments of the commands, as a table.

ghost use Rattle.std.specs.Prelude.{◌≡◌};
ghost use Rattle.words.specs.Entries.{argument_rule, entry_rule};

/// An argument of a command.
#[derive(Clone, Copy)]
pub(crate) enum Argument {
    /// `--tower FILE`.
    Tower,
    /// `--each KIND`.
    Each,
    /// `--kind` of `keys`.
    Kind,
    /// `--initial` of `keys`.
    Initial,
    /// `--writers` of `keys`.
    Writers,
    /// `FILE`, a tower file.
    TowerFile,
    /// `TRACE`, one at most.
    Trace,
    /// `TRACE..`, one or more.
    Traces,
    /// `[TRACE..]`, any number of them.
    AnyTraces,
    Shards,
    Moment,
    Order,
    /// `--as` of `check`.
    Form,
    /// `--as` of `watch`.
    LineForm,
    /// `--as` of `lint`.
    LintForm,
    Only,
    Least,
    LeastEach,
    Doubt,
    UntilFail,
    Settle,
    Register,
    Svg,
    Html,
    Ascii,
    Around,
    All,
    Width,
    ThemeWord,
    Colour,
    /// `--max N`.
    Most,
    /// `--deny CODES`.
    Denied,
    Code,
    Shell,
}

/// What the help says of an argument, and what it takes.
pub(crate) struct ArgumentEntry {
    pub(crate) name: &'static str,
    pub(crate) takes: Takes,
    /// What help calls its value; an option has one such name.
    pub(crate) value_names: &'static [&'static str],
    /// Its value where it is not given; one at most.
    pub(crate) defaults: &'static [&'static str],
    pub(crate) is_required: bool,
    /// The few words that it takes; none where it takes any.
    pub(crate) words: &'static [&'static str],
    /// The flags that it does not go with.
    pub(crate) without: &'static [&'static str],
    pub(crate) help: &'static str,
}

/// What an argument takes.
pub(crate) enum Takes {
    /// A flag, `--NAME`.
    Nothing,
    /// An option, `--NAME TEXT`.
    Text,
    /// An option, `--NAME N`, from the first number to the second.
    Number(u64, u64),
    /// A word in its place.
    Place,
    /// Words in its place, one or more where there are any.
    Places,
}

impl Argument {
    pub(crate) fn entry(self) -> &'static ArgumentEntry
        ensures { entry_rule result.now ≡ argument_rule self }
    {
        match self {
            Argument::Tower => &TOWER,
            Argument::Each => &EACH,
            Argument::Kind => &KIND,
            Argument::Initial => &INITIAL,
            Argument::Writers => &WRITERS,
            Argument::TowerFile => &TOWER_FILE,
            Argument::Trace => &TRACE,
            Argument::Traces => &TRACES,
            Argument::AnyTraces => &ANY_TRACES,
            Argument::Shards => &SHARDS,
            Argument::Moment => &MOMENT,
            Argument::Order => &ORDER,
            Argument::Form => &FORM,
            Argument::LineForm => &LINE_FORM,
            Argument::LintForm => &LINT_FORM,
            Argument::Only => &ONLY,
            Argument::Least => &LEAST,
            Argument::LeastEach => &LEAST_EACH,
            Argument::Doubt => &DOUBT,
            Argument::UntilFail => &UNTIL_FAIL,
            Argument::Settle => &SETTLE,
            Argument::Register => &REGISTER,
            Argument::Svg => &SVG,
            Argument::Html => &HTML,
            Argument::Ascii => &ASCII,
            Argument::Around => &AROUND,
            Argument::All => &ALL,
            Argument::Width => &WIDTH,
            Argument::ThemeWord => &THEME,
            Argument::Colour => &COLOUR,
            Argument::Most => &MOST,
            Argument::Denied => &DENIED,
            Argument::Code => &CODE,
            Argument::Shell => &SHELL,
        }
    }
}

/// A word in its place, of which nothing else is said.
const PLACE: ArgumentEntry = ArgumentEntry {
    name: "",
    takes: Takes::Place,
    value_names: &[],
    defaults: &[],
    is_required: false,
    words: &[],
    without: &[],
    help: "",
};

/// A flag, of which nothing else is said.
const FLAG: ArgumentEntry = ArgumentEntry {
    takes: Takes::Nothing,
    ..PLACE
};

/// An option, of which nothing else is said.
const OPTION: ArgumentEntry = ArgumentEntry {
    takes: Takes::Text,
    ..PLACE
};

/// An option whose value is a number, of which nothing else is said.
const COUNT: ArgumentEntry = ArgumentEntry {
    takes: Takes::Number(0, u64::MAX),
    value_names: &["N"],
    ..PLACE
};

const TOWER_HELP: &str = "The tower file, in EDN, such as examples/tower.edn";

static TOWER: ArgumentEntry = ArgumentEntry {
    name: "tower",
    value_names: &["FILE"],
    without: &["each"],
    help: "The tower file, in EDN, such as examples/tower.edn; without it each key of the traces is a register",
    ..OPTION
};

static EACH: ArgumentEntry = ArgumentEntry {
    name: "each",
    value_names: &["KIND"],
    words: &["atomic", "regular", "safe"],
    help: "The kind of each register that the traces name, where there is no tower file: atomic where it is not said, regular or safe",
    ..OPTION
};

static KIND: ArgumentEntry = ArgumentEntry {
    name: "kind",
    value_names: &["KIND"],
    defaults: &["atomic"],
    words: &["atomic", "regular", "safe"],
    help: "What each register claims to be: atomic, regular or safe",
    ..OPTION
};

static INITIAL: ArgumentEntry = ArgumentEntry {
    name: "initial",
    value_names: &["VALUE"],
    defaults: &["nil"],
    help: "What each register holds at first: nil, an integer, or unknown where it is atomic",
    ..OPTION
};

static WRITERS: ArgumentEntry = ArgumentEntry {
    name: "writers",
    value_names: &["WHO"],
    words: &["any", "first"],
    help: "Who writes each register: any process, as of atomic ones where it is not said, or the first alone that does in the traces",
    ..OPTION
};

static TOWER_FILE: ArgumentEntry = ArgumentEntry {
    name: "FILE",
    is_required: true,
    help: TOWER_HELP,
    ..PLACE
};

static TRACE: ArgumentEntry = ArgumentEntry {
    name: "TRACE",
    help: "The trace, in EDN; standard input where none is named",
    ..PLACE
};

static TRACES: ArgumentEntry = ArgumentEntry {
    name: "TRACE",
    takes: Takes::Places,
    is_required: true,
    help: "The traces, in EDN, which are read side by side",
    ..PLACE
};

static ANY_TRACES: ArgumentEntry = ArgumentEntry {
    name: "TRACE",
    takes: Takes::Places,
    help: "The traces, in EDN, which are read in turn",
    ..PLACE
};

static SHARDS: ArgumentEntry = ArgumentEntry {
    name: "shards",
    takes: Takes::Number(1, 64),
    defaults: &["1"],
    help: "How many shards the registers are spread over, 1 to 64",
    ..COUNT
};

static MOMENT: ArgumentEntry = ArgumentEntry {
    name: "moment",
    value_names: &["FIELD"],
    defaults: &["index"],
    words: &["index", "time"],
    help: "The field that moments stand under: index or time",
    ..OPTION
};

static ORDER: ArgumentEntry = ArgumentEntry {
    name: "order",
    value_names: &["NAME"],
    help: "Prints an order of this atomic register's operations too",
    ..OPTION
};

static FORM: ArgumentEntry = ArgumentEntry {
    name: "as",
    value_names: &["FORM"],
    defaults: &["text"],
    words: &["text", "summary", "json", "edn", "github", "junit", "trace"],
    help: "What is printed: the report as text, a summary of it, records in json or edn, for CI servers github or junit, or the small trace that fails alike",
    ..OPTION
};

static LINE_FORM: ArgumentEntry = ArgumentEntry {
    name: "as",
    value_names: &["FORM"],
    defaults: &["text"],
    words: &["text", "json"],
    help: "What is written: lines as text, or a record a line in json",
    ..OPTION
};

static LINT_FORM: ArgumentEntry = ArgumentEntry {
    name: "as",
    value_names: &["FORM"],
    defaults: &["human"],
    words: &["human", "short", "github", "json"],
    help: "How it is printed: human, short, github or json",
    ..OPTION
};

static ONLY: ArgumentEntry = ArgumentEntry {
    name: "only",
    value_names: &["WHICH"],
    words: &["failing"],
    help: "Which registers have a record, in json or edn: failing, or all where it is not said",
    ..OPTION
};

static LEAST: ArgumentEntry = ArgumentEntry {
    name: "least",
    defaults: &["0"],
    help: "Ends with status 4 where fewer operations stand in all registers",
    ..COUNT
};

static LEAST_EACH: ArgumentEntry = ArgumentEntry {
    name: "least-each",
    defaults: &["0"],
    help: "Ends with status 4 where fewer operations stand in some register",
    ..COUNT
};

static DOUBT: ArgumentEntry = ArgumentEntry {
    name: "doubt",
    takes: Takes::Number(0, 255),
    value_names: &["STATUS"],
    defaults: &["1"],
    help: "The status where registers fail, and each failure rests on an element that was left out",
    ..COUNT
};

static UNTIL_FAIL: ArgumentEntry = ArgumentEntry {
    name: "until-fail",
    help: "Ends at the first register that fails",
    ..FLAG
};

static SETTLE: ArgumentEntry = ArgumentEntry {
    name: "settle",
    defaults: &["0"],
    help: "Holds a failure back until each trace has had so many more elements",
    ..COUNT
};

static REGISTER: ArgumentEntry = ArgumentEntry {
    name: "register",
    value_names: &["NAME"],
    help: "The register that is drawn; where none is named, the first to blame, else the first that fails, else the first with an operation",
    ..OPTION
};

static SVG: ArgumentEntry = ArgumentEntry {
    name: "svg",
    without: &["html", "ascii"],
    help: "One picture, as SVG",
    ..FLAG
};

static HTML: ArgumentEntry = ArgumentEntry {
    name: "html",
    without: &["ascii"],
    help: "A page with a picture of each register that fails",
    ..FLAG
};

static ASCII: ArgumentEntry = ArgumentEntry {
    name: "ascii",
    help: "Lines of ASCII alone",
    ..FLAG
};

static AROUND: ArgumentEntry = ArgumentEntry {
    name: "around",
    defaults: &["3"],
    help: "How many operations are shown before and after each that tells why",
    ..COUNT
};

static ALL: ArgumentEntry = ArgumentEntry {
    name: "all",
    help: "Shows all operations",
    ..FLAG
};

static WIDTH: ArgumentEntry = ArgumentEntry {
    name: "width",
    takes: Takes::Number(20, 1000000),
    help: "How many cells a line has, or units a row of a picture: 100 and 1000 where it is not said",
    ..COUNT
};

static THEME: ArgumentEntry = ArgumentEntry {
    name: "theme",
    value_names: &["THEME"],
    defaults: &["auto"],
    words: &["auto", "light", "dark"],
    help: "The colours of a picture: auto, light or dark",
    ..OPTION
};

static COLOUR: ArgumentEntry = ArgumentEntry {
    name: "colour",
    value_names: &["WHEN"],
    defaults: &["auto"],
    words: &["auto", "always", "never"],
    help: "When lines for people have colours: auto, on a terminal where NO_COLOR is not set, always or never",
    ..OPTION
};

static MOST: ArgumentEntry = ArgumentEntry {
    name: "max",
    defaults: &["3"],
    help: "How many of each code are shown; 0 for all",
    ..COUNT
};

static DENIED: ArgumentEntry = ArgumentEntry {
    name: "deny",
    value_names: &["CODES"],
    help: "Codes of notes that count as warnings, with commas between them, as L1,L3",
    ..OPTION
};

static CODE: ArgumentEntry = ArgumentEntry {
    name: "CODE",
    help: "A code or its name, such as X7 or ValueTaken, or a word of the report; all are listed where none is named",
    ..PLACE
};

static SHELL: ArgumentEntry = ArgumentEntry {
    name: "SHELL",
    is_required: true,
    words: &["bash", "zsh", "fish"],
    help: "The shell: bash, zsh or fish",
    ..PLACE
};
