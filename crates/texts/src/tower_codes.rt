//! What the codes of a tower file, V1 to V10, say.

use crate::entry::{ENDS_THE_RUN, Explanation, NO_EXAMPLE, NOT_PRINTED};

const NO_TOWER: &str = "refuses the tower file; nothing is judged; status 2";

/// The codes of a tower file.
pub(crate) const TOWER_CODES: [Explanation; 10] = [
    // the text has a fault E1 to E6, anywhere; V1 carries it | `{:levels []`
    Explanation {
        code: "V1",
        name: "Edn",
        message: "the text breaks: ",
        outcome: NO_TOWER,
        what: "The tower file has a fault of its text, from E1 to E6.",
        more: "The fault may stand anywhere in it, also after the map.",
        mostly: "a bracket that is missing, or one too many.",
        tower: "",
        example: "{:levels [{:name l :registers [{:name x :kind :atomic :writers :any}]}}      ; V1: no ]",
        mend: "close each bracket: `regaudit lint --tower FILE` shows which stands open, and where.",
        see: "E1, E2, E3, E4, E5, E6",
    },
    // a part is missing, stands twice or has another form; V2 names it: `File`, `Levels`, `Name`, `Registers`,
    // `Kind`, `Writers`, `Initial`, `Domain`, `Parts` (`:of`) or `Fixed` | `{}`: `Levels`
    Explanation {
        code: "V2",
        name: "Shape",
        message: "a part is missing, stands twice or has another form: ",
        outcome: NO_TOWER,
        what: "A part of the tower file is missing, stands twice or is malformed.",
        more: "The file is one map with `:levels`, a vector. A level is a map with `:name` and `:registers`, a
vector; a register is a map with `:name`, `:kind` and `:writers`.",
        mostly: "a misspelt word, as `:reguler`; `:writers 0` for `:writers [0]`; an empty file, a byte
         order mark before the map, or a trace that was named for the tower.",
        tower: "",
        example: "{:levels [{:name l :registers [{:name x :kind :linear :writers :any}]}]}      ; V2",
        mend: "compare it with examples/tower.edn. `:kind` is `:safe`, `:regular` or `:atomic`;
         `:writers` is `:any` or a vector of integers; `:initial` is `nil`, an integer or
         `:unknown`; `:domain` and `:of` are vectors; `:fixed` is `true` or `false`.",
        see: "V1",
    },
    // an earlier register has the name | two registers `x`
    Explanation {
        code: "V3",
        name: "NameTaken",
        message: "an earlier register has this name",
        outcome: NO_TOWER,
        what: "Two registers have one name.",
        more: "A name is the register's alone in the whole tower, also over several levels.",
        mostly: "a line that was copied, or levels that each name their registers in the same way.",
        tower: "",
        example: "{:levels [{:name l :registers [{:name x :kind :atomic :writers :any}
                                       {:name x :kind :atomic :writers :any}]}]}      ; V3",
        mend: "give each register a name of its own, as `a.x` and `b.x`, in the traces too.",
        see: "",
    },
    // a safe or regular register, and `:writers` is not a Vector of exactly one | `:kind :safe :writers :any`
    Explanation {
        code: "V4",
        name: "WriterCount",
        message: "a safe or regular register has not exactly one writer",
        outcome: NO_TOWER,
        what: "A safe or regular register has not exactly one writer.",
        more: "These kinds are defined for one writer.",
        mostly: "`:writers :any`, which goes with `:kind :atomic` alone, or two writers in the vector.",
        tower: "",
        example: "{:levels [{:name l :registers [{:name r :kind :safe :writers :any}]}]}      ; V4",
        mend: "name the one process that writes it, as `:writers [0]`, or claim it `:atomic`.",
        see: "X11, of a claim",
    },
    // a name in `:of` is no register of an earlier level | `:of [x]` on the lowest level
    Explanation {
        code: "V5",
        name: "UnknownPart",
        message: "a part is no register of an earlier level",
        outcome: NO_TOWER,
        what: "A name in `:of` is no register of an earlier level.",
        more: "A register is made of registers that stand in levels before its own.",
        mostly: "levels that do not have the lowest one first, a part in the same level, or a misspelt
         name: `x`, `:x` and `[x]` are three names.",
        tower: "",
        example: "{:levels [{:name l :registers [{:name x :kind :atomic :writers :any :of [y]}]}]}      ; V5",
        mend: "put the level of the parts first, and spell their names alike.",
        see: "F8, for a name in a trace",
    },
    // `:domain` is there and empty | `:domain []`
    Explanation {
        code: "V6",
        name: "EmptyDomain",
        message: "a domain without a value",
        outcome: NO_TOWER,
        what: "A `:domain` has no value.",
        more: "Such a register could not be written.",
        mostly: "`:domain []`, where every value was meant.",
        tower: "",
        example: "{:levels [{:name l :registers [{:name x :kind :atomic :writers :any :domain []}]}]}   ; V6",
        mend: "leave `:domain` out, and every value is allowed.",
        see: "X9",
    },
    // `:initial` is a value, `:domain` is there, and the one is not in the other | `:initial 3 :domain [1 2]`
    Explanation {
        code: "V7",
        name: "InitialOutOfDomain",
        message: "the initial value is not in the domain",
        outcome: NO_TOWER,
        what: "The `:initial` value is not in the `:domain`.",
        more: "A missing `:initial`, which is `nil`, is not asked for.",
        mostly: "a domain of the values that are written, without the first one.",
        tower: "",
        example: "{:levels [{:name l
            :registers [{:name r :kind :safe :writers [0] :initial 3 :domain [1 2]}]}]}      ; V7",
        mend: "put the initial value into `:domain`.",
        see: "X9",
    },
    // 65,536 registers come before this one | a tower of 65,537 registers
    Explanation {
        code: "V8",
        name: "TooMany",
        message: "65536 registers come before this one",
        outcome: NO_TOWER,
        what: "The tower has more than 65,536 registers.",
        more: "All levels count together.",
        mostly: "a register for each key of a large store.",
        tower: "",
        example: "none that is small: a tower of 65,537 registers leads here.",
        mend: "make several tower files, and give each the events of its registers alone: others are
         F8 there.",
        see: "F8",
    },
    // the system refused memory: only where the text nests more than sixteen deep, or reading has come to a level
    // with a name and a Vector of registers |
    Explanation {
        code: "V9",
        name: "Memory",
        message: "out of memory",
        outcome: ENDS_THE_RUN,
        what: "The system refused memory for the tower file.",
        more: NOT_PRINTED,
        mostly: "a limit on the memory of the process.",
        tower: "",
        example: NO_EXAMPLE,
        mend: "raise the limit, or make several tower files.",
        see: "E7",
    },
    // a safe or regular register, and `:initial` is `:unknown` | `:kind :safe :writers [0] :initial :unknown`
    Explanation {
        code: "V10",
        name: "UnknownInitial",
        message: "the initial value of a safe or regular register is unknown",
        outcome: NO_TOWER,
        what: "A safe or regular register has `:initial :unknown`.",
        more: "A read of these kinds may have to return the initial value, so it has to be known.",
        mostly: "a kind that was changed from `:atomic`, which alone may say it.",
        tower: "",
        example: "{:levels [{:name l
            :registers [{:name r :kind :safe :writers [0] :initial :unknown}]}]}      ; V10",
        mend: "say the value, or claim the register `:atomic`.",
        see: "X14, of a claim",
    },
];
