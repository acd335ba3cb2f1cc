//! The sentences of messages that no code has by itself, each once: `message.rt` says which are for what, and so does
//! `specs/Message.antt`.

// What is noted.
pub const SKIPPED: &str = "an event is skipped: its :process is no integer";

pub const NO_OPERATION: &str = "no element invokes an operation";

pub const UNUSED: &str = "a register that has no operation";

pub const NO_VALUE: &str = "an event without a :value, which is taken as nil";

pub const NEAR_FIELD: &str = "a field is not read, and this one is absent: ";

pub const UNREAD: &str = "a field is not read";

pub const UNANSWERED: &str = "an invocation that has no answer";

pub const SILENT_WRITER: &str = "a writer of an atomic register that has no event: process ";

pub const SAME_MOMENT: &str = "events that have the moment of an earlier one of the trace: ";

pub const OUT_OF_PROPORTION: &str =
    "moments that are at least 1000 times those before and after them: ";

pub const RESTS: &str = "a refused element with the value for which its register fails: that of ";

pub const RESTS_ON_EDIT: &str = "a refused edit of a register that fails: shown by ";

pub const RESTS_ON_ANSWER: &str = "a refused answer of a register that fails: shown by ";

pub const RESTS_ON_UNREAD: &str =
    "a refused element of a register that fails, whose value cannot be read: shown by ";

// A fault of a tower file's text.
pub const E1_TRUNCATED: &str = "E1, it ends inside an element";

pub const E2_STRAY_CLOSE: &str = "E2, a closing bracket, and none is open";

pub const E3_WRONG_CLOSE: &str = "E3, a closing bracket that does not fit the open one";

pub const E4_TOO_DEEP: &str = "E4, more than 64 brackets, tags and discards are open";

pub const E5_ODD_MAP: &str = "E5, a map closes after an odd number of elements";

pub const E6_TAG_WITHOUT_ELEMENT: &str = "E6, a tag or discard has no element";

pub const E7_MEMORY: &str = "E7, out of memory";

// What has a value beside operations.
pub const AT_FIRST: &str = "the register at first";
