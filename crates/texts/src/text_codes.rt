//! What the codes of a text, E1 to E7, and of its reading, N1 and N2, say.

use crate::entry::{ENDS_THE_RUN, Explanation, NO_EXAMPLE, NOT_PRINTED, ONE_SAFE};

const BREAKS: &str = "ends the trace; what stands before it is judged; status 2";

/// The codes of a text and of its reading.
pub(crate) const TEXT_CODES: [Explanation; 9] = [
    // the input ends inside an element or a discard | the length of the input
    Explanation {
        code: "E1",
        name: "Truncated",
        message: "the text ends inside an element",
        outcome: BREAKS,
        what: "The text ends inside an element.",
        more: "A bracket, a text in quotes, a tag or a discard is still open at the end. The place is the length
of the text, and not that of what is open. The open element is dropped.",
        mostly: "a closing bracket is missing, often many lines further up, or the log was cut off while
         it was written.",
        tower: ONE_SAFE,
        example: "{:process 0 :type :invoke :f :read :index 0}
         {:process 1 :type :invoke :f :read :index 1      ; E1: its } is missing
         {:process 0 :type :ok :f :read :value 0 :index 2}",
        mend: "close it: look for the last element that is whole, and at the one after it. A log that
         was cut off needs nothing: all before its last element is judged.",
        see: "E3, where another bracket comes to close it",
    },
    // `)`, `]` or `}` while no bracket is open | that byte
    Explanation {
        code: "E2",
        name: "StrayClose",
        message: "a closing bracket, and none is open",
        outcome: BREAKS,
        what: "A closing bracket stands where no bracket is open.",
        more: "The place is that of the `)`, `]` or `}`, as a number of bytes from the start.",
        mostly: "a bracket too many at the end of an element, or one too few at its beginning, as in a
         log whose front was cut off.",
        tower: ONE_SAFE,
        example: "{:process 0 :type :invoke :f :read :index 0}}      ; E2
         {:process 0 :type :ok :f :read :value 0 :index 1}",
        mend: "take the bracket out, or put the one back that opens.",
        see: "E3",
    },
    // `)`, `]` or `}` that does not fit the innermost open bracket | that byte
    Explanation {
        code: "E3",
        name: "WrongClose",
        message: "a closing bracket that does not fit the open one",
        outcome: BREAKS,
        what: "A closing bracket does not fit the innermost open one.",
        more: "The place is that of the closing bracket.",
        mostly: "the bracket before it is missing: the one that was to close what is open.",
        tower: ONE_SAFE,
        example: "{:process 0 :type :invoke :f :read :value [r nil :index 0}      ; E3: [ is open",
        mend: "close first what was opened last: here `[r nil]`.",
        see: "E1, E2",
    },
    // a bracket, tag or discard begins while 64 are open | its first byte
    Explanation {
        code: "E4",
        name: "TooDeep",
        message: "more than 64 brackets, tags and discards are open",
        outcome: BREAKS,
        what: "More than 64 brackets, tags and discards are open at once.",
        more: "The place is the first byte of the one that is too many.",
        mostly: "the file is no log. An event nests two deep, so a log stays far below 64.",
        tower: ONE_SAFE,
        example: "[[[[[[[[[[[[[[[[[[[[[[[[[[[[[[[[[[[[[[[[[[[[[[[[[[[[[[[[[[[[[[[[[      ; E4: the 65th",
        mend: "leave out of the events what nests so deep: nothing of it is read.",
        see: "E1",
    },
    // a Map closes whose last key has no value | its `}`
    Explanation {
        code: "E5",
        name: "OddMap",
        message: "a map closes after an odd number of elements",
        outcome: BREAKS,
        what: "A map closes after a key that has no value.",
        more: "A map `{..}` holds pairs, each a key and its value. The place is its closing bracket.",
        mostly: "a value that was left out where there was none, or a log in JSON: there `:` stands
         alone, and is an element like any other.",
        tower: ONE_SAFE,
        example: "{:process 0 :type :invoke :f :read :value :index 0}      ; E5: 9 elements",
        mend: "write `nil` for a value that there is not, or leave its key out. Write a log in JSON
         anew in EDN.",
        see: "E6",
    },
    // a bracket closes, and fits, while a tag or a discard that began after it opened still waits for its element |
    // the `#` of the innermost that waits
    Explanation {
        code: "E6",
        name: "TagWithoutElement",
        message: "a bracket closes, and a tag or discard in it has no element",
        outcome: BREAKS,
        what: "A bracket closes while a tag or a discard waits for its element.",
        more: "A tag, as `#inst`, and a discard, `#_`, go with the element after them. The place is the `#`.",
        mostly: "what the tag stood for was left out, or a `#` that belongs to a name, as in `#1`.",
        tower: ONE_SAFE,
        example: "{:process 0 :type :invoke :f :read :value nil :index 0 :at #inst}      ; E6",
        mend: "put the element after the tag, or take the tag out.",
        see: "E5",
    },
    // the system refused memory for one more thing that opens, where sixteen or more stand open | the first byte of
    // what could not be kept open
    Explanation {
        code: "E7",
        name: "Memory",
        message: "",
        outcome: ENDS_THE_RUN,
        what: "The system refused memory while a text was read.",
        more: NOT_PRINTED,
        mostly: "a limit on the memory of the process, or more operations than fit.",
        tower: "",
        example: NO_EXAMPLE,
        mend: "raise the limit, or judge the registers in parts: a tower file and traces for each.",
        see: "P4, S2, V9, which say the same of other steps",
    },
    // a read call failed | the number of bytes that were taken
    Explanation {
        code: "N1",
        name: "ReadFailed",
        message: "the trace could not be read to its end",
        outcome: BREAKS,
        what: "Reading the trace failed before its end.",
        more: "What was read is judged, but for an unfinished last element. The place is the number of bytes
that were read.",
        mostly: "a folder was named for a file, or a disk or the network failed.",
        tower: "",
        example: "none in a text: `regaudit check --tower tower.edn FOLDER` leads here.",
        mend: "name the file, or copy it first to where it can be read.",
        see: "N2",
    },
    // there are more than 1,073,741,824 bytes, or 16,777,216 read calls have not found the end | the number of bytes
    // that were taken
    Explanation {
        code: "N2",
        name: "TooLong",
        message: "the trace is longer than 1073741824 bytes",
        outcome: BREAKS,
        what: "The trace is longer than 1,073,741,824 bytes.",
        more: "Or 16,777,216 reads have not found its end. What was read is judged, but for an unfinished last
element. The place is the number of bytes that were read.",
        mostly: "one file for a long run, or a pipe into which a few bytes are written at a time.",
        tower: "",
        example: "none that is small: a file of 1,073,741,825 bytes leads here.",
        mend: "split the log by register or by process, so that each answer stays in one trace with
         its invocation, and name all of them: `regaudit check --tower tower.edn a.edn b.edn`.
         Write to a pipe through a buffer.",
        see: "N1",
    },
];
