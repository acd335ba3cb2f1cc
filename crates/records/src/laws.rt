//! Laws of this crate's words, which its users may rely on.

ghost use Rattle.std.specs.Prelude.{◌≡◌, ◌≤◌, ℕ, Bool, true, false, List, Option, All};
ghost use Rattle.edn_reader.specs.declared.element.ElementKind.TheVariants as kinds;
ghost use Rattle.edn_reader.specs.Grammar.{ElementModel, IsElement};
ghost use Rattle.intervals.specs.declared.operation.RegId.{RegId};
ghost use Rattle.tower_file.specs.Contents.{Register, TowerModel};
ghost use Rattle.shards.specs.Closing.{ClosedShard};
ghost use Rattle.logs.specs.declared.log.Log.{Log};
ghost use Rattle.logs.specs.declared.notice.Notice.{Notice};
ghost use Rattle.report.specs.Report.{IsReport};
ghost use Rattle.records.specs.Edn.{edn_text};
ghost use Rattle.records.specs.Grammar.{IsRecord, is_record_word};
ghost use Rattle.records.specs.Notice.{notice_symbols};
ghost use Rattle.records.specs.Run.{AreRecordsOfRun, RunNames};
ghost use Rattle.records.specs.Symbol.{Symbol};
ghost use Rattle.records.specs.Told.{report_of};

/// The records of a run determine the text of its report.
pub fn the_records_tell_the_report()
    ensures { (names : RunNames) (status : ℕ) (tower : TowerModel) (closed : List ClosedShard) (logs : List Log)
        → (order : Option RegId) (texts : List (List ℕ)) (records : List (List Symbol))
        → AreRecordsOfRun names false status tower closed logs order texts records
        → IsReport tower closed logs order (report_of records) }
{}

/// Each record of a run, and that of each notice, is one by the grammar: its brackets match, at most four are open at
/// once, each key has a value, and words and numbers have their characters. The field of moments is to be named by a word.
pub fn each_record_is_whole()
    ensures run { (names : RunNames) → is_record_word names.moments ≡ true → (only : Bool) (status : ℕ) (tower : TowerModel) (closed : List ClosedShard)
        → (logs : List Log) (order : Option RegId) (texts : List (List ℕ)) (records : List (List Symbol))
        → AreRecordsOfRun names only status tower closed logs order texts records → All (IsRecord 4) records }
    ensures notices { (registers : List Register) (notice : Notice) (left_out rests_on : List (ℕ × ℕ)) → IsRecord 4 (notice_symbols registers notice left_out rests_on) }
{}

/// In EDN a record in which at most 64 brackets are open at once is one element, a map, of the grammar of `edn_reader`.
pub fn a_record_is_one_element()
    ensures { (depth : ℕ) (symbols : List Symbol) → depth ≤ 64 → IsRecord depth symbols
        → (piece : ElementModel) × IsElement piece × (piece.kind ≡ kinds.Map) × (piece.text ≡ edn_text symbols) }
{}
