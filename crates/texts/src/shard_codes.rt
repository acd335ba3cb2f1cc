//! What the codes of a shard, S1 to S6, say.

use crate::entry::{ENDS_THE_RUN, Explanation, NO_EXAMPLE, NOT_PRINTED};

const FAULT_OF_REGAUDIT: &str = "ends the run with `regaudit: S..`; no report; status 2";

const NOT_OF_A_TEXT: &str = "No tower file and no trace leads here.";

const OF_ITSELF: &str = "a fault of regaudit itself.";

const REPORT_IT: &str = "report it, with the tower file and the traces.";

/// The codes of a shard.
pub(crate) const SHARD_CODES: [Explanation; 6] = [
    Explanation {
        code: "S1",
        name: "UnknownRegister",
        message: "",
        outcome: FAULT_OF_REGAUDIT,
        what: "A shard was asked for a register that the tower does not have.",
        more: NOT_OF_A_TEXT,
        mostly: OF_ITSELF,
        tower: "",
        example: NO_EXAMPLE,
        mend: REPORT_IT,
        see: "F8, for a name in a trace that the tower does not have",
    },
    Explanation {
        code: "S2",
        name: "Memory",
        message: "",
        outcome: ENDS_THE_RUN,
        what: "The system refused memory for an edit of a register.",
        more: NOT_PRINTED,
        mostly: "a limit on the memory of the process, or more operations than fit.",
        tower: "",
        example: NO_EXAMPLE,
        mend: "raise the limit, or judge the registers in parts: a tower file and traces for each.",
        see: "E7",
    },
    Explanation {
        code: "S3",
        name: "JournalBehind",
        message: "",
        outcome: FAULT_OF_REGAUDIT,
        what: "A shard's journal is not the one that a feeder has seen.",
        more: NOT_OF_A_TEXT,
        mostly: OF_ITSELF,
        tower: "",
        example: NO_EXAMPLE,
        mend: REPORT_IT,
        see: "",
    },
    Explanation {
        code: "S4",
        name: "PassMissing",
        message: "",
        outcome: FAULT_OF_REGAUDIT,
        what: "At the end of the run a feeder's pass is not there.",
        more: NOT_OF_A_TEXT,
        mostly: OF_ITSELF,
        tower: "",
        example: NO_EXAMPLE,
        mend: REPORT_IT,
        see: "",
    },
    Explanation {
        code: "S5",
        name: "Stranger",
        message: "",
        outcome: FAULT_OF_REGAUDIT,
        what: "A shard's journal has an entry that its feeder did not submit.",
        more: NOT_OF_A_TEXT,
        mostly: OF_ITSELF,
        tower: "",
        example: NO_EXAMPLE,
        mend: REPORT_IT,
        see: "",
    },
    Explanation {
        code: "S6",
        name: "ForeignPass",
        message: "",
        outcome: FAULT_OF_REGAUDIT,
        what: "A feeder's pass is that of another run, or there are two of it.",
        more: NOT_OF_A_TEXT,
        mostly: OF_ITSELF,
        tower: "",
        example: NO_EXAMPLE,
        mend: REPORT_IT,
        see: "",
    },
];
