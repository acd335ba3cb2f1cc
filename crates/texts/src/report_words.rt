//! What the words of a report say.

use crate::entry::{ANY_WRITERS, Explanation, ONE_SAFE};

const FAILS: &str = "the register fails; status 1";

/// The words of a report.
pub(crate) const REPORT_WORDS: [Explanation; 11] = [
    Explanation {
        code: "wrong",
        name: "a fault",
        message: "",
        outcome: FAILS,
        what: "A read of a safe or regular register returned what it may not.",
        more: "A read that no write overlaps has to return what the last write before it wrote, or else the
initial value. One that a write overlaps may return anything where the register is safe, and that
value or one of the overlapping writes' where it is regular.",
        mostly: "a read that was answered from an old copy, or moments that are not of one clock.",
        tower: ONE_SAFE,
        example: "{:process 0 :type :invoke :f :write :value 1 :index 0}
         {:process 0 :type :ok :f :write :value 1 :index 1}
         {:process 1 :type :invoke :f :read :index 2}
         {:process 1 :type :ok :f :read :value 0 :index 3}      ; wrong 0:2",
        mend: "look for the write that it should have seen, and what the two went through.",
        see: "`culprit`. If its value was refused as a write, with an X code, mend that first.",
    },
    Explanation {
        code: "unwritten",
        name: "a fault",
        message: "",
        outcome: FAILS,
        what: "A read of an atomic register returned a value that nothing wrote.",
        more: "Nor is it the initial value. Where nobody knows that one, two reads are named: they returned two
such values, and only one can be the initial one.",
        mostly: "a write that was refused or is in no trace, or a missing `:initial`, which is `nil`.",
        tower: ANY_WRITERS,
        example: "{:process 0 :type :invoke :f :read :index 0}
         {:process 0 :type :ok :f :read :value 7 :index 1}      ; unwritten 0:0",
        mend: "look for the write of the value in the lines `refused`, and in what was not logged. Say
         `:initial`, or `:initial :unknown` where nobody knows it.",
        see: "X8, which refuses a second write of a value",
    },
    Explanation {
        code: "early",
        name: "a fault",
        message: "",
        outcome: FAILS,
        what: "A read of an atomic register ended before its value was written.",
        more: "The write of that value began after the read had ended. The read is named first, then the write.",
        mostly: "clocks of two machines that differ, or an invocation that was logged after it was sent.",
        tower: ANY_WRITERS,
        example: "{:process 0 :type :invoke :f :read :index 0}
         {:process 0 :type :ok :f :read :value 1 :index 1}
         {:process 1 :type :invoke :f :write :value 1 :index 2}      ; early 0:0 before 0:2",
        mend: "log an invocation before it is sent and an answer after it came, by one clock.",
        see: "`conflict`",
    },
    Explanation {
        code: "conflict",
        name: "a fault",
        message: "",
        outcome: FAILS,
        what: "No order of an atomic register's operations explains its reads.",
        more: "Of `conflict A B C D`, A and D are of one value, and B and C of another. A ended before B began, so
the value of A is the older one; C ended before D began, so it is the newer one. Both cannot be.
`initial` is the value before any write. B and C may be one operation.",
        mostly: "a read of an old value after a newer one, as copies give that do not agree.",
        tower: ANY_WRITERS,
        example: "{:process 0 :type :invoke :f :write :value 1 :index 0}
         {:process 0 :type :ok :f :write :value 1 :index 1}
         {:process 1 :type :invoke :f :write :value 2 :index 2}
         {:process 1 :type :ok :f :write :value 2 :index 3}
         {:process 2 :type :invoke :f :read :index 4}
         {:process 2 :type :ok :f :read :value 1 :index 5}      ; conflict 0:0 0:2 0:2 0:4",
        mend: "look why D still gave the value of A, though C was done with the other one.",
        see: "`culprit`",
    },
    Explanation {
        code: "zone",
        name: "of a picture",
        message: "",
        outcome: "drawn by `show` of an atomic register",
        what: "The time from the first end to the last beginning of the operations of a value.",
        more: "These are the write of the value and the reads of it. Forward, the first end comes before the last
beginning: the register had the value all that time. Backward, it comes after: the register had the
value at some moment of it. Two forward zones must not overlap, and a backward one must not lie
inside a forward one.",
        mostly: "a `conflict`, whose two zones are drawn. A picture with `--all` has those of all values.",
        tower: ANY_WRITERS,
        example: "{:process 0 :type :invoke :f :write :value 1 :index 0}
         {:process 0 :type :ok :f :write :value 1 :index 1}
         {:process 1 :type :invoke :f :write :value 2 :index 2}
         {:process 2 :type :invoke :f :read :index 4}
         {:process 2 :type :ok :f :read :value 2 :index 5}
         {:process 2 :type :invoke :f :read :index 6}
         {:process 2 :type :ok :f :read :value 1 :index 7}
         {:process 1 :type :ok :f :write :value 2 :index 9}      ; 2, backward, inside 1",
        mend: "look at the operations at the ends of the two zones: they show why no order has room.",
        see: "`conflict`",
    },
    Explanation {
        code: "culprit",
        name: "a line",
        message: "",
        outcome: "the register is to blame",
        what: "A register that fails, though all that it is made of hold.",
        more: "Its parts are those in its `:of`; a register without parts that fails is a culprit.",
        mostly: "a fault in how this register uses its parts, and not in them.",
        tower: "{:levels [{:name a :registers [{:name r :kind :safe :writers [0]}]}
                  {:name b :registers [{:name x :kind :atomic :writers :any :of [r]}]}]}",
        example: "{:process 0 :type :invoke :f :read :value [x nil] :index 0}
         {:process 0 :type :ok :f :read :value [x 7] :index 1}      ; culprit x",
        mend: "look at this register first. One that fails over a part that fails may hold once the
         part is mended.",
        see: "`wrong`, `unwritten`, `early`, `conflict`",
    },
    Explanation {
        code: "answer",
        name: "a line",
        message: "",
        outcome: "tells how a register stood in mid-run",
        what: "What was so where a trace asked.",
        more: "All that the trace itself did before is in it. What other traces did is in it as far as they were
then.",
        mostly: "a question in the trace, `{:ask NAME}`.",
        tower: ONE_SAFE,
        example: "{:process 0 :type :invoke :f :write :value 1 :index 0}
         {:ask r}      ; answer 0:1 r holds 1",
        mend: "put questions where you want to know since when a register fails.",
        see: "F8, for a name that the tower does not have",
    },
    Explanation {
        code: "refused",
        name: "a line",
        message: "",
        outcome: "one element was left out; status 3 where no register fails",
        what: "An element of a trace was not taken.",
        more: "In `refused ID CODE` the id is TRACE:PLACE, each from 0; a place counts the elements of a trace,
not its lines. The code says why.",
        mostly: "a log that is not in the form that is read.",
        tower: ONE_SAFE,
        example: "5      ; refused 0:0 F1",
        mend: "`regaudit explain CODE` says how. Mend the first one first: others may follow from it.",
        see: "F1 to F8, P1 to P3, X1 to X14",
    },
    Explanation {
        code: "broken",
        name: "a line",
        message: "",
        outcome: "one trace was not read to its end; status 2",
        what: "A trace could not be read on from here.",
        more: "In `broken TRACE CODE at BYTE` the trace is a number, from 0, and BYTE the number of bytes before
the fault. What stands before it is judged.",
        mostly: "a bracket that is missing, or a log that was cut off.",
        tower: ONE_SAFE,
        example: "{:process 0 :type :invoke :f :read :index 0} ]      ; broken 0 E2 at 45",
        mend: "`regaudit explain CODE` says how. `head -c BYTE FILE | tail` shows what stands before it.",
        see: "E1 to E6, N1, N2",
    },
    Explanation {
        code: "order",
        name: "a line",
        message: "",
        outcome: "printed where `--order NAME` asks for it",
        what: "An order of a register's operations that explains its reads.",
        more: "Each read returns the write before it, and what ended before another began stands before it. Reads
without an end are not in it. `none` where the register fails or is not atomic.",
        mostly: "`--order NAME`: the name as `regaudit tower FILE` lists it.",
        tower: ANY_WRITERS,
        example: "{:process 0 :type :invoke :f :write :value 1 :index 0}
         {:process 1 :type :invoke :f :read :index 1}
         {:process 1 :type :ok :f :read :value 1 :index 2}      ; order x 0:0 0:1",
        mend: "claim the register atomic, to see an order of it.",
        see: "`conflict`",
    },
    Explanation {
        code: "status",
        name: "of the program",
        message: "",
        outcome: "what a script sees",
        what: "The exit status of `check`: of these the first that fits.",
        more: "2  a trace is broken, or there is no report
1  a register fails
3  an element was refused
4  fewer operations stand than `--least` or `--least-each` asks for
0  every register holds and nothing was refused",
        mostly: "`safe` has all but 4. The other commands end with 0, or with 2 where they cannot answer.",
        tower: ONE_SAFE,
        example: "5      ; status 3",
        mend: "in a script with `| tee` say `set -o pipefail`, or the status is that of `tee`.",
        see: "`refused`, `broken`",
    },
];
