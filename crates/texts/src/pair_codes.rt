//! What the codes of invocations and their answers, P1 to P4, say.

use crate::entry::{ENDS_THE_RUN, Explanation, NO_EXAMPLE, NOT_PRINTED, ONE_SAFE, REFUSES};

/// The codes of invocations and answers.
pub(crate) const PAIR_CODES: [Explanation; 4] = [
    // an invocation, and the event found is an invocation too, which still waits for its answer
    Explanation {
        code: "P1",
        name: "ProcessBusy",
        message: "an invocation of a process whose last one has no answer yet",
        outcome: REFUSES,
        what: "A process invokes while its last invocation waits for an answer.",
        more: "A process does one operation at a time.",
        mostly: "an answer that the log lost, two clients under one process number, or a log that is not
         in its order, so that an answer comes after the next invocation.",
        tower: ONE_SAFE,
        example: "{:process 0 :type :invoke :f :write :value 1 :index 0}
         {:process 0 :type :invoke :f :write :value 2 :index 1}      ; P1",
        mend: "put the answer back, as `:info` where nobody knows it; or give each client a number of
         its own.",
        see: "P2 and P3, which its answer may then meet",
    },
    // `:ok`, `:fail` or `:info`, and no event is found, or one that is no invocation; an edit whose `:of` is not the
    // place of an earlier accepted invocation
    Explanation {
        code: "P2",
        name: "NoInvocation",
        message: "an answer or an edit, and no invocation that it is of",
        outcome: REFUSES,
        what: "The invocation that is answered or edited is not there.",
        more: "An answer needs an invocation of its process, in its own trace, that waits for one. An edit's `:of`
is the place of an invocation in its own trace that has no F or P code; places count from 0.",
        mostly: "a second answer to one invocation, an invocation that was refused further up, or one
         that stands in another trace. Or `:of` is the number of a line.",
        tower: ONE_SAFE,
        example: "{:process 0 :type :ok :f :read :value 0 :index 1}      ; P2",
        mend: "put the invocation before its answer, in one trace. For a place count all elements
         outside of brackets, refused and skipped ones too.",
        see: "P1, X1",
    },
    // an `:ok` that has another `:f` or another register than the invocation found, or for a write another value
    Explanation {
        code: "P3",
        name: "AnswerMismatch",
        message: "an :ok that does not fit its invocation",
        outcome: REFUSES,
        what: "An `:ok` does not fit the invocation that it answers.",
        more: "It has another `:f`, another register, or for a write another value; a missing value is `nil`. The
invocation waits for its answer as before.",
        mostly: "the `:ok` of a write that does not repeat the value, or two clients under one process
         number.",
        tower: ONE_SAFE,
        example: "{:process 0 :type :invoke :f :write :value 1 :index 0}
         {:process 0 :type :ok :f :write :value 2 :index 1}      ; P3",
        mend: "let the answer of a write say the value that was written.",
        see: "P1, which the next invocation of the process meets",
    },
    Explanation {
        code: "P4",
        name: "Memory",
        message: "out of memory",
        outcome: ENDS_THE_RUN,
        what: "The system refused memory for an invocation.",
        more: NOT_PRINTED,
        mostly: "a limit on the memory of the process, or more operations than fit.",
        tower: "",
        example: NO_EXAMPLE,
        mend: "raise the limit, or judge the registers in parts: a tower file and traces for each.",
        see: "E7",
    },
];
