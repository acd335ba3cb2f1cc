//! What the codes of notes, L1 to L8, say: notes on what is taken as it is, and may not be meant.

use crate::entry::{ANY_WRITERS, Explanation, ONE_SAFE, ONE_WRITER};

const NOTED: &str = "a note: nothing is refused, and the status is as it was";

/// The codes of notes.
pub(crate) const NOTES: [Explanation; 8] = [
    // an element looks like a client's, with `:f` `:read` or `:write`, and is skipped: its `:process` is no integer,
    // and not `:nemesis`
    Explanation {
        code: "L1",
        name: "SkippedClient",
        message: "",
        outcome: NOTED,
        what: "An event that looks like a client's was skipped.",
        more: "Its `:f` is `:read` or `:write`, but its `:process` is no integer of 64 bits.",
        mostly: "process names that are keywords or texts, as `:p0`.",
        tower: ONE_SAFE,
        example: "{:process :p0 :type :invoke :f :read :index 0}      ; L1",
        mend: "number the processes. Of a log in which all are skipped every register holds, with 0
         operations.",
        see: "L2",
    },
    // a trace invokes no operation; or a register of the tower file that is named has none in any trace
    Explanation {
        code: "L2",
        name: "NoOperation",
        message: "",
        outcome: NOTED,
        what: "A trace, or a register of the tower, has no operation.",
        more: "A register without operations holds, so nothing is said of it.",
        mostly: "an empty file, a log that was not shipped, or names that differ.",
        tower: ONE_SAFE,
        example: "; a trace of nothing but this comment      ; L2",
        mend: "look whether the file is the one that was meant, and whether its events are skipped.",
        see: "L1, F8",
    },
    // the answer of a read or the invocation of a write has no `:value`; or a field that is not read differs by one
    // or two letters from one that is read and is not there
    Explanation {
        code: "L3",
        name: "NoValue",
        message: "",
        outcome: NOTED,
        what: "An event has no `:value`, or a field that is nearly one that is read.",
        more: "A missing `:value` is `nil`, and a field that is not known is passed over.",
        mostly: "a misspelt field, as `:vlaue`.",
        tower: ONE_SAFE,
        example: "{:process 0 :type :invoke :f :write :vlaue 1 :index 0}      ; L3",
        mend: "spell the field as it is read: `:process`, `:type`, `:f`, `:value`, `:index`, `:time`.",
        see: "F2, L4",
    },
    // a field of the tower file is not read
    Explanation {
        code: "L4",
        name: "UnreadField",
        message: "",
        outcome: NOTED,
        what: "The tower file has a field that is not read.",
        more: "It is passed over, and what it was to say is not said.",
        mostly: "a misspelt field, as `:intial`: the initial value then is `nil`.",
        tower: "",
        example: "{:levels [{:name l :registers [{:name x :kind :atomic :writers :any :intial 0}]}]}   ; L4",
        mend: "spell it as it is read: `:levels`, `:name`, `:registers`, `:kind`, `:writers`, `:initial`,
         `:domain`, `:of`, `:fixed`.",
        see: "V2, for one that is needed",
    },
    // an invocation has no answer up to the end of its trace; an element that is left out for a P code neither
    // invokes nor answers
    Explanation {
        code: "L5",
        name: "Unanswered",
        message: "",
        outcome: NOTED,
        what: "An invocation has no answer up to the end of the trace.",
        more: "The operation stays open: a read is not judged, and a write may take effect at any time.",
        mostly: "a client that crashed, or a log that was cut off.",
        tower: ONE_SAFE,
        example: "{:process 0 :type :invoke :f :write :value 1 :index 0}      ; L5",
        mend: "nothing, where the client did crash. Else log its answer.",
        see: "X7, E1",
    },
    // a process in the `:writers` of an atomic register has no event in any trace
    Explanation {
        code: "L6",
        name: "SilentWriter",
        message: "",
        outcome: NOTED,
        what: "A writer that the tower file names for an atomic register has no event in any trace.",
        more: "",
        mostly: "a trace that is missing in the line, or another process number than in the log.",
        tower: ONE_WRITER,
        example: "{:process 1 :type :invoke :f :read :index 0}      ; L6: no event of process 0",
        mend: "name all traces of the run, and the processes as they are logged.",
        see: "X6",
    },
    // once a trace: events have the moment of an earlier one, and how many; or moments are out of proportion to those
    // before and after them
    Explanation {
        code: "L7",
        name: "TiedMoments",
        message: "",
        outcome: NOTED,
        what: "Events have the moment of an earlier one, or a moment is out of proportion.",
        more: "It is said once of a trace, of the first, with how many there are. On one register a tie is
refused, as X4. On two it does no harm. A moment is out of proportion that is at least 1000 times
the ones before and after it, neither of which is 0.",
        mostly: "a clock that is too coarse, or moments in two units.",
        tower: ANY_WRITERS,
        example: "{:process 0 :type :invoke :f :write :value 1 :index 0}
         {:process 1 :type :invoke :f :write :value 2 :index 0}      ; L7, and X4",
        mend: "take the other field, where each event has one of its own (`--moment index`); else number the
         events under `:index`, in their order.",
        see: "X4",
    },
    // the failure of a register rests on this element, which was left out: it would have written what an operation that
    // shows the failure read or wrote, or a value that cannot be read; or it answers or edits such an operation; or it
    // claims a kind
    Explanation {
        code: "L8",
        name: "RestsOnARefusal",
        message: "",
        outcome: NOTED,
        what: "The failure of a register rests on an element that was left out.",
        more: "It would have written what an operation that shows the failure read or wrote, or a value that
cannot be read; or it answers or edits such an operation; or it claims a kind of the register. The
verdict may be of the log, and not of the register.",
        mostly: "a value that is written twice, a `:cas`, or a write that met X7.",
        tower: "{:levels [{:name l :registers [{:name r :kind :regular :writers [0] :initial 0}]}]}",
        example: "{:process 0 :type :invoke :f :write :value 1 :index 0}
         {:process 0 :type :info :f :write}
         {:process 0 :type :invoke :f :write :value 2 :index 2}      ; X7
         {:process 0 :type :ok :f :write :value 2 :index 3}      ; X1
         {:process 1 :type :invoke :f :read :index 4}
         {:process 1 :type :ok :f :read :value 2 :index 5}",
        mend: "mend the refusal first, and judge the trace again.",
        see: "X7, `wrong`, `unwritten`",
    },
];
