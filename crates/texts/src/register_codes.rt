//! What the codes of refusals by a register, X1 to X14, say.

use crate::entry::{ANY_WRITERS, Explanation, NO_EXAMPLE, ONE_SAFE, ONE_WRITER, REFUSES};

/// The codes of refusals by a register.
pub(crate) const REGISTER_CODES: [Explanation; 14] = [
    // no operation of that invocation stands | `:ok`, `:fail`, amendments, withdrawals
    Explanation {
        code: "X1",
        name: "UnknownOp",
        message: "its operation does not stand",
        outcome: REFUSES,
        what: "The operation that is answered or edited does not stand.",
        more: "Its register refused the invocation, or it was taken back, by `:fail` or by a withdrawal.",
        mostly: "the invocation met an X code: its line `refused` comes before this one.",
        tower: ONE_SAFE,
        example: "{:process 1 :type :invoke :f :write :value 3 :index 0}      ; X6
         {:process 1 :type :ok :f :write :value 3 :index 1}      ; X1",
        mend: "mend what refused the invocation, and its answer is taken too.",
        see: "the code of the invocation, here X6; P2, where there was none",
    },
    // an operation of that name stands already | none here: ids are distinct
    Explanation {
        code: "X2",
        name: "OpTaken",
        message: "its operation stands already",
        outcome: REFUSES,
        what: "An operation of that name stands already.",
        more: "A name is the number of a trace and a place in it, so no two invocations have one name.",
        mostly: "nothing that a user does: it would be a fault of regaudit.",
        tower: "",
        example: NO_EXAMPLE,
        mend: "report it, with the tower file and the traces.",
        see: "",
    },
    // the end is not greater than the beginning | `:ok`, amendments
    Explanation {
        code: "X3",
        name: "EndNotAfterBegin",
        message: "an end that is not after the beginning",
        outcome: REFUSES,
        what: "An operation would end at the moment where it begins, or before it.",
        more: "An end has to be greater than its beginning. The operation stays as it was, often without an end.",
        mostly: "a clock that is too coarse, or one that was set back between the two.",
        tower: ONE_SAFE,
        example: "{:process 0 :type :invoke :f :write :value 1 :index 5}
         {:process 0 :type :ok :f :write :value 1 :index 5}      ; X3",
        mend: "number the events under `:index`, in their order, or log a finer clock that only rises.",
        see: "X7, which the next write may meet, since this one stays open",
    },
    // the beginning, else the end, is a beginning or end of another operation of the register | `:invoke`, `:ok`,
    // amendments
    Explanation {
        code: "X4",
        name: "MomentTaken",
        message: "a moment that another operation has: ",
        outcome: REFUSES,
        what: "Another operation of the register begins or ends at this moment.",
        more: "The moments of a register all differ, so that of any two it is known which comes first.",
        mostly: "ties under `:time`, one trace that was named twice, or traces that each count from 0.",
        tower: ONE_SAFE,
        example: "{:process 0 :type :invoke :f :write :value 1 :index 0}
         {:process 1 :type :invoke :f :read :index 0}      ; X4",
        mend: "number the events of all traces by one count, under `:index`. In a tie put beginnings
         before ends: what touches then overlaps.",
        see: "which of two operations is refused may change from run to run, if they are of two traces",
    },
    // the beginning or the end is greater than 4611686018427387903 | `:invoke`, `:ok`, amendments
    Explanation {
        code: "X5",
        name: "MomentTooLarge",
        message: "a moment past 4611686018427387903",
        outcome: REFUSES,
        what: "A moment is greater than 4611686018427387903.",
        more: "Nanoseconds since 1970 are below that until the year 2116.",
        mostly: "another number under the field of the moment, or a unit below the nanosecond.",
        tower: ONE_SAFE,
        example: "{:process 1 :type :invoke :f :read :index 4611686018427387904}      ; X5",
        mend: "count from the beginning of the run, or number the events under `:index`.",
        see: "F7, past 64 bits",
    },
    // a write by a process that is none of `:writers` | `:invoke`
    Explanation {
        code: "X6",
        name: "NotAWriter",
        message: "a write by a process that is no writer of the register",
        outcome: REFUSES,
        what: "A write by a process that is none of the register's `:writers`.",
        more: "Its answer is then refused as X1. Reads may be by any process.",
        mostly: "`:writers` that are not those of the log. In Jepsen a client has a new process number
         after each `:info`.",
        tower: ONE_SAFE,
        example: "{:process 1 :type :invoke :f :write :value 1 :index 0}      ; X6",
        mend: "name the process in `:writers`, or claim the register atomic, with `:writers :any`.",
        see: "X1",
    },
    // safe or regular: a write that overlaps another write that stands | `:invoke`, `:ok`, amendments
    Explanation {
        code: "X7",
        name: "WritesOverlap",
        message: "a write that overlaps the write ",
        outcome: REFUSES,
        what: "A write on a safe or regular register overlaps another write.",
        more: "These kinds have one writer, and its writes come one after the other.",
        mostly: "the write before it has no end. An `:info` answer leaves a write open for good, and so
         does an answer that the log lost.",
        tower: ONE_SAFE,
        example: "{:process 0 :type :invoke :f :write :value 1 :index 0}
         {:process 0 :type :info :f :write}
         {:process 0 :type :invoke :f :write :value 2 :index 2}      ; X7",
        mend: "before the second write say what became of the first one:
         {:edit :amend :of 0 :end 1}      where its end is known after all
         {:edit :withdraw :of 0}          where it never took effect
         Or claim the register atomic: there writes may overlap.",
        see: "its `:ok` is refused too, as X1. A read of its value may then be called wrong.",
    },
    // atomic: a write of the initial value, where that is known, or of a value that another write has | `:invoke`,
    // amendments
    Explanation {
        code: "X8",
        name: "ValueTaken",
        message: "a write of a value that is had by ",
        outcome: REFUSES,
        what: "An atomic register is written a value that another write has.",
        more: "Or its initial value, where that is known. A value is written once, so that a read tells which
write it saw. A write counts though it failed to answer.",
        mostly: "small or random values, a write that was tried again, or a write of the initial value,
         which is `nil` where the tower file says none.",
        tower: ANY_WRITERS,
        example: "{:process 0 :type :invoke :f :write :value 5 :index 0}
         {:process 1 :type :invoke :f :write :value 5 :index 1}      ; X8",
        mend: "write values from a counter, or such as 1000 n + p of the process p.",
        see: "X13, of a claim; `unwritten`, which a read of the value may become",
    },
    // a write, a `:domain` is given, and the value is not in it | `:invoke`, amendments
    Explanation {
        code: "X9",
        name: "OutOfDomain",
        message: "a write of a value outside the domain",
        outcome: REFUSES,
        what: "A write of a value that is not in the register's `:domain`.",
        more: "Its answer is then refused as X1. Reads may return any value.",
        mostly: "a value that the tower file forgets, or a write that names the wrong register.",
        tower: "{:levels [{:name l :registers [{:name x :kind :atomic :writers :any :domain [0 1]}]}]}",
        example: "{:process 0 :type :invoke :f :write :value 12 :index 0}      ; X9",
        mend: "put the value into `:domain`, or leave the field out, and every value is allowed.",
        see: "V6, V7",
    },
    // the register is `:fixed` | claims
    Explanation {
        code: "X10",
        name: "ClaimFixed",
        message: "a claim of a register whose kind is fixed",
        outcome: REFUSES,
        what: "A claim of a register whose kind may not change.",
        more: "The tower file says `:fixed true` of it. Also a claim of the kind that it has is refused.",
        mostly: "a trace with claims on a tower that was made to forbid them.",
        tower: "{:levels [{:name l :registers [{:name x :kind :atomic :writers :any :fixed true}]}]}",
        example: "{:edit :claim :register x :kind :atomic}      ; X10",
        mend: "take the claim out, or `:fixed true`.",
        see: "",
    },
    // to safe or regular, and `:writers` is not a Vector of exactly one | claims
    Explanation {
        code: "X11",
        name: "ClaimWriters",
        message: "a claim to be safe or regular, and not exactly one writer",
        outcome: REFUSES,
        what: "A claim to be safe or regular, without exactly one writer.",
        more: "These kinds have one writer: `:writers` has to be a vector of one process.",
        mostly: "an atomic register of `:writers :any`, or of several, in the tower file.",
        tower: ANY_WRITERS,
        example: "{:edit :claim :register x :kind :safe}      ; X11",
        mend: "name the one writer, as in `:writers [0]`, where there is but one.",
        see: "V4, of the tower file",
    },
    // to safe or regular, and two writes that stand overlap | claims
    Explanation {
        code: "X12",
        name: "ClaimOverlap",
        message: "a claim to be safe or regular, and writes overlap: ",
        outcome: REFUSES,
        what: "A claim to be safe or regular, while two writes overlap.",
        more: "The writes of these kinds come one after the other.",
        mostly: "a write without an end, which overlaps all that come after it.",
        tower: ONE_WRITER,
        example: "{:process 0 :type :invoke :f :write :value 1 :index 0}
         {:process 0 :type :info :f :write}
         {:process 0 :type :invoke :f :write :value 2 :index 2}
         {:edit :claim :register x :kind :safe}      ; X12",
        mend: "before the claim give the earlier write its end, or withdraw it:
         {:edit :amend :of 0 :end 1}
         {:edit :withdraw :of 0}",
        see: "X7",
    },
    // to atomic, and a write that stands has the initial value, where that is known, or that of a write accepted
    // before it | claims
    Explanation {
        code: "X13",
        name: "ClaimRepeats",
        message: "a claim to be atomic, and a value is had twice: by ",
        outcome: REFUSES,
        what: "A claim to be atomic, while two writes have one value.",
        more: "Or one has the initial value, where that is known. An atomic register is written each value once.",
        mostly: "a safe or regular register, which may be written a value again and again.",
        tower: ONE_SAFE,
        example: "{:process 0 :type :invoke :f :write :value 0 :index 0}
         {:edit :claim :register r :kind :atomic}      ; X13: 0 is the initial value",
        mend: "let each write have a value of its own. Where a write never took effect, withdraw it
         before the claim.",
        see: "X8",
    },
    // to safe or regular, and nobody knows the initial value | claims
    Explanation {
        code: "X14",
        name: "ClaimInitial",
        message: "a claim to be safe or regular, and the initial value is unknown",
        outcome: REFUSES,
        what: "A claim to be safe or regular, while nobody knows the initial value.",
        more: "A read of these kinds may have to return it, so it has to be known.",
        mostly: "`:initial :unknown` in the tower file.",
        tower: "{:levels [{:name l :registers [{:name x :kind :atomic :writers [0] :initial :unknown}]}]}",
        example: "{:edit :claim :register x :kind :safe}      ; X14",
        mend: "say the initial value in the tower file, or let the register stay atomic.",
        see: "V10, of the tower file",
    },
];
