//! What the codes of an element's form, F1 to F8, say.

use crate::entry::{Explanation, ONE_SAFE, REFUSES};

/// The codes of an element's form.
pub(crate) const FORM_CODES: [Explanation; 8] = [
    // the element is no Map after its tags | none
    Explanation {
        code: "F1",
        name: "NotAMap",
        message: "an element that is no map",
        outcome: REFUSES,
        what: "An element of the trace is no map.",
        more: "Events, edits and questions are maps, `{..}`. Tags before one do no harm.",
        mostly: "the whole history stands in one vector, or the file begins with a byte order mark, or
         it is no log, but a compressed one.",
        tower: ONE_SAFE,
        example: "[{:process 0 :type :invoke :f :read :index 0}]      ; F1: a vector",
        mend: "take the outer brackets off; take the mark away, as `tail -c +4` does; or unpack the
         file first, as in `<(zcat FILE)`.",
        see: "",
    },
    // a needed field is not there | that field
    Explanation {
        code: "F2",
        name: "MissingField",
        message: "a field is missing: ",
        outcome: REFUSES,
        what: "A field that is needed is not there.",
        more: "An event needs `:process`, `:type` and `:f`, and with `:type` `:invoke` or `:ok` its moment, under
`:index`, or under `:time` with `--moment time`. An amendment and a withdrawal need `:of`, and a
claim `:register` and `:kind`.",
        mostly: "moments that stand under `:time`, while `:index` is read where nothing else is said.",
        tower: ONE_SAFE,
        example: "{:process 0 :type :invoke :f :write :value 1 :time 20}      ; F2: no :index",
        mend: "say `--moment time`, or number the events under `:index`, in their order.",
        see: "F3, F7",
    },
    // a field that is read stands twice or more often | that field
    Explanation {
        code: "F3",
        name: "DuplicateField",
        message: "a field stands twice: ",
        outcome: REFUSES,
        what: "A field that is read stands twice in one map.",
        more: "It is refused also where both are the same. Fields that are not read may stand as often as they
like.",
        mostly: "a log that adds a field where it was to replace one.",
        tower: ONE_SAFE,
        example: "{:process 0 :type :invoke :f :write :value 1 :value 2 :index 0}      ; F3",
        mend: "keep one of the two.",
        see: "F2",
    },
    // none of the words that are known | `:type`, `:edit` or `:kind`
    Explanation {
        code: "F4",
        name: "BadType",
        message: "the :type, :edit or :kind is none that is known",
        outcome: REFUSES,
        what: "`:type`, `:edit` or the `:kind` of a claim is no word that is known.",
        more: "`:type` is `:invoke`, `:ok`, `:fail` or `:info`; `:edit` is `:amend`, `:withdraw` or `:claim`; and
`:kind` is `:safe`, `:regular` or `:atomic`.",
        mostly: r#"another tool's words, as `:call` and `:return`, or a text, as "ok", for a keyword."#,
        tower: ONE_SAFE,
        example: "{:process 0 :type :call :f :read :index 0}      ; F4",
        mend: "write `:invoke` where an operation begins, and `:ok` where it was answered.",
        see: "F5",
    },
    // neither `:read` nor `:write` | `:f`
    Explanation {
        code: "F5",
        name: "UnsupportedF",
        message: "the :f is neither :read nor :write",
        outcome: REFUSES,
        what: "`:f` is neither `:read` nor `:write`.",
        more: "What such an operation did to the register is not known, so the verdict on a register that met
one does not cover it.",
        mostly: "compare-and-set, the `:cas` of Jepsen's tests.",
        tower: ONE_SAFE,
        example: "{:process 0 :type :invoke :f :cas :value [1 2] :index 0}      ; F5",
        mend: "run the test without such operations, or judge only the registers that met none: leave
         the others out of the tower and their events out of the trace.",
        see: "",
    },
    // neither nil nor an integer; no integer from 0 | `:value`; `:of`
    Explanation {
        code: "F6",
        name: "BadValue",
        message: "a value that is neither nil nor an integer that fits",
        outcome: REFUSES,
        what: "A `:value` is neither `nil` nor an integer, or an `:of` none from 0.",
        more: "An integer is decimal and fits 64 bits with a sign: `1.0` and `01` are none.",
        mostly: "texts, keywords or fractions as values.",
        tower: ONE_SAFE,
        example: "{:process 0 :type :invoke :f :write :value :red :index 0}      ; F6",
        mend: "number the values, and log the numbers. An `:of` is the place of an invocation.",
        see: "F8, for a pair `[k v]`",
    },
    // no integer from 0 | `:index` or `:time`, `:begin`, `:end`
    Explanation {
        code: "F7",
        name: "BadMoment",
        message: "a moment that is no integer from 0",
        outcome: REFUSES,
        what: "A moment is no integer from 0.",
        more: "It stands under `:index`, or under `:time` with `--moment time`, and in an amendment under `:begin`
and `:end`; only an `:end` may be `nil`.",
        mostly: "seconds with a fraction, a date, a negative number, or one past 64 bits.",
        tower: ONE_SAFE,
        example: "{:process 0 :type :invoke :f :read :index 0.5}      ; F7",
        mend: "log whole numbers of one clock, as nanoseconds, or number the events under `:index`.",
        see: "X5, for a moment that is too large",
    },
    // the tower has no such register | `:value`, `:ask` or `:register`
    Explanation {
        code: "F8",
        name: "NoRegister",
        message: "the tower has no register of this name",
        outcome: REFUSES,
        what: "The tower has no such register.",
        more: r#"The name in `[k v]`, `:ask` or `:register` is compared byte by byte, without its tags: `x`, `:x` and
"x" are three names. A value that is no pair belongs to the one register of a tower that has one."#,
        mostly: "a name that the tower file spells in another way, a value without a name where the tower
         has several registers, or the tower of another system.",
        tower: ONE_SAFE,
        example: "{:process 0 :type :invoke :f :write :value [:r 5] :index 0}      ; F8: it is r",
        mend: "spell both alike: `regaudit tower FILE` lists the names.",
        see: "V5, for a name in the tower file itself",
    },
];
