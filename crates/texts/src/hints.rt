//! What the codes of hints, H1 to H4, H6 and H7, say: what may help with a file as a whole.

use crate::entry::{Explanation, ONE_SAFE};

const HINTED: &str =
    "a hint for people, before what `lint` finds in the file; the status is as it was";

/// The codes of hints.
pub(crate) const HINTS: [Explanation; 6] = [
    // the file begins with the bytes EF BB BF
    Explanation {
        code: "H1",
        name: "ByteOrderMark",
        message: "",
        outcome: HINTED,
        what: "The file begins with a byte order mark.",
        more: "Its three bytes, EF BB BF, are not seen, but are read: as an element, which is no map.",
        mostly: "an editor or a program that saves texts with one.",
        tower: "",
        example: "none that is seen: put the three bytes before the first bracket of a file.",
        mend: "`tail -c +4 FILE` leaves it out.",
        see: "F1 of a trace, V2 of a tower file",
    },
    // the file begins as `gzip` or `zstd` packs it: with the bytes 1F 8B, or 28 B5 2F FD
    Explanation {
        code: "H2",
        name: "Compressed",
        message: "",
        outcome: HINTED,
        what: "The file is compressed.",
        more: "It begins as `gzip` or `zstd` packs it, with the bytes 1F 8B, or 28 B5 2F FD.",
        mostly: "a log that was packed after the run.",
        tower: "",
        example: "none in a text: `gzip` a trace, and name what it makes.",
        mend: "give `<(zcat FILE)`, or `<(zstdcat FILE)`, for the name of the file.",
        see: "F1, E1",
    },
    // the file begins with `[` or `(`, and is not of H4
    Explanation {
        code: "H3",
        name: "OuterBrackets",
        message: "",
        outcome: HINTED,
        what: "The file is one vector or list.",
        more: "A trace has its events one after the other, so a vector around them is one element.",
        mostly: "a history that was written as a whole, by one call.",
        tower: ONE_SAFE,
        example: "[{:process 0 :type :invoke :f :read :index 0}]      ; H3, and F1",
        mend: "take the outer brackets off.",
        see: "F1",
    },
    // the file begins with an object of JSON whose first key is a text, or with an array and such an object in it
    Explanation {
        code: "H4",
        name: "Json",
        message: "",
        outcome: HINTED,
        what: "The file is JSON.",
        more: "It begins with `{\"`, maybe after a `[`. Traces and tower files are EDN.",
        mostly: "a log of a tool that writes JSON.",
        tower: ONE_SAFE,
        example: "{\"process\": 0, \"type\": \"invoke\", \"f\": \"read\", \"index\": 0}      ; H4, and F2",
        mend: "write its events as EDN maps: docs/CONVERT.md has a line of jq that does.",
        see: "E5, F1, F2",
    },
    // an earlier trace in the line has the same bytes
    Explanation {
        code: "H6",
        name: "SameBytes",
        message: "",
        outcome: HINTED,
        what: "An earlier file has the same bytes.",
        more: "So each moment of it is had by an operation of the other one.",
        mostly: "a trace that was named twice, or two copies of one.",
        tower: "",
        example: "none in one text: `regaudit lint --tower tower.edn a.edn a.edn` leads here.",
        mend: "name each trace once.",
        see: "X4",
    },
    // a trace begins with `{:levels`, or a tower file with `{:process`
    Explanation {
        code: "H7",
        name: "Exchanged",
        message: "",
        outcome: HINTED,
        what: "A tower file is given for a trace, or a trace for a tower file.",
        more: "As its first bytes show: `{:levels` begins a tower file, `{:process` an event.",
        mostly: "`--tower` before the wrong name, or none.",
        tower: ONE_SAFE,
        example: "{:levels [{:name l :registers [{:name r :kind :safe :writers [0]}]}]}      ; H7, and F2",
        mend: "name the tower file after `--tower`, and the traces without it.",
        see: "V2, F2",
    },
];
