//! What words ask for, in cases that are written out. Each law is proved, and does nothing when it is called.

ghost use Rattle.std.specs.Prelude.{◌≡◌, ◌++◌, true, false, [], ◌∷◌, Some, None, codes, negsuc};
ghost use Rattle.clap.specs.Words.{Text, takes};
ghost use Rattle.jepsen_form.specs.declared.item.MomentField.TheVariants.{Index, Time};
ghost use Rattle.intervals.specs.declared.claim.Initial.TheVariants.{Known, Unknown};
ghost use Rattle.intervals.specs.declared.claim.Kind.TheVariants.{Regular, Atomic};
ghost use Rattle.intervals.specs.declared.claim.Kind.TheVariants as kinds;
ghost use Rattle.intervals.specs.declared.operation.Value.TheVariants.{Nil, Int};
ghost use Rattle.words.specs.declared.check.ReportForm.TheVariants.{Report, Summary, Json, Edn, GitHub, Junit, Trace};
ghost use Rattle.words.specs.declared.colour.ColourWord.TheVariants as colours;
ghost use Rattle.words.specs.declared.completion.Shell.TheVariants.{Bash, Zsh, Fish};
ghost use Rattle.words.specs.declared.lint.LintForm.TheVariants as lint_forms;
ghost use Rattle.words.specs.declared.show.Picture.TheVariants as pictures;
ghost use Rattle.words.specs.declared.show.ThemeWord.TheVariants.{Auto, Dark};
ghost use Rattle.words.specs.declared.watch.LineForm.TheVariants as line_forms;
ghost use Rattle.words.specs.Words.{Check, Completion, Explain, Keys, Lint, Manual, OfFile, OfTraces, Safe, Show, Tower, Version, Watch, asked, command_line, is_no_option, no_demand};

/// What words ask for, whatever the program's name is: after it comes the command, and then its file. A file whose
/// name begins with a hyphen comes after `--`.
pub fn words_in_turn()
    ensures input { (program : Text) → asked (program ∷ codes "safe" ∷ []) ≡ Some (Safe None) }
    ensures trace { (program name : Text) → is_no_option name ≡ true → asked (program ∷ codes "safe" ∷ name ∷ []) ≡ Some (Safe (Some name)) }
    ensures tower { (program name : Text) → is_no_option name ≡ true → asked (program ∷ codes "tower" ∷ name ∷ []) ≡ Some (Tower name) }
    ensures any_trace { (program name : Text) → asked (program ∷ codes "safe" ∷ codes "--" ∷ name ∷ []) ≡ Some (Safe (Some name)) }
    ensures any_tower { (program name : Text) → asked (program ∷ codes "tower" ∷ codes "--" ∷ name ∷ []) ≡ Some (Tower name) }
    ensures list { (program : Text) → asked (program ∷ codes "explain" ∷ []) ≡ Some (Explain None colours.Auto) }
    ensures code { (program name : Text) → is_no_option name ≡ true → asked (program ∷ codes "explain" ∷ name ∷ []) ≡ Some (Explain (Some name) colours.Auto) }
    ensures version { (program : Text) → asked (program ∷ codes "version" ∷ []) ≡ Some Version }
    ensures version_option { (program : Text) → asked (program ∷ codes "--version" ∷ []) ≡ Some Version }
    ensures version_letter { (program : Text) → asked (program ∷ codes "-V" ∷ []) ≡ Some Version }
    ensures manual { (program : Text) → asked (program ∷ codes "manual" ∷ []) ≡ Some Manual }
    ensures bash { (program : Text) → asked (program ∷ codes "completion" ∷ codes "bash" ∷ []) ≡ Some (Completion Bash) }
    ensures zsh { (program : Text) → asked (program ∷ codes "completion" ∷ codes "zsh" ∷ []) ≡ Some (Completion Zsh) }
    ensures fish { (program : Text) → asked (program ∷ codes "completion" ∷ codes "fish" ∷ []) ≡ Some (Completion Fish) }
{}

/// What `check` asks for: one shard and `index` where nothing else is said, and every trace, in order, wherever the
/// options are. All registers have a record where `--only` is not given. Names that begin with a hyphen come after `=`
/// and `--`.
pub fn checks_in_turn()
    ensures plain { (program : Text) → asked (program ∷ codes "check" ∷ codes "--tower" ∷ codes "t" ∷ codes "a" ∷ [])
        ≡ Some (Check (record { tower = OfFile (codes "t"); shards = 1; moments = Index; order = None; form = Report; only_failing = false; demand = no_demand; traces = codes "a" ∷ [] })) }
    ensures whole { (program : Text) → asked (program ∷ codes "check" ∷ codes "--tower" ∷ codes "t" ∷ codes "--shards" ∷ codes "64" ∷ codes "--moment" ∷ codes "time" ∷ codes "--order" ∷ codes "x" ∷ codes "--as" ∷ codes "summary" ∷ codes "--least" ∷ codes "7" ∷ codes "--least-each" ∷ codes "1" ∷ codes "--doubt" ∷ codes "3" ∷ codes "a" ∷ [])
        ≡ Some (Check (record { tower = OfFile (codes "t"); shards = 64; moments = Time; order = Some (codes "x"); form = Summary; only_failing = false; demand = record { least = 7; least_each = 1; doubt = 3 }; traces = codes "a" ∷ [] })) }
    ensures two { (program : Text) → asked (program ∷ codes "check" ∷ codes "--tower" ∷ codes "t" ∷ codes "a" ∷ codes "b" ∷ [])
        ≡ Some (Check (record { tower = OfFile (codes "t"); shards = 1; moments = Index; order = None; form = Report; only_failing = false; demand = no_demand; traces = codes "a" ∷ codes "b" ∷ [] })) }
    ensures between { (program : Text) → asked (program ∷ codes "check" ∷ codes "a" ∷ codes "--shards=+2" ∷ codes "b" ∷ codes "--tower=t" ∷ codes "--moment=index" ∷ codes "a" ∷ [])
        ≡ Some (Check (record { tower = OfFile (codes "t"); shards = 2; moments = Index; order = None; form = Report; only_failing = false; demand = no_demand; traces = codes "a" ∷ codes "b" ∷ codes "a" ∷ [] })) }
    ensures json { (program : Text) → asked (program ∷ codes "check" ∷ codes "--tower=t" ∷ codes "--as=json" ∷ codes "a" ∷ [])
        ≡ Some (Check (record { tower = OfFile (codes "t"); shards = 1; moments = Index; order = None; form = Json; only_failing = false; demand = no_demand; traces = codes "a" ∷ [] })) }
    ensures edn { (program : Text) → asked (program ∷ codes "check" ∷ codes "--tower=t" ∷ codes "--as" ∷ codes "edn" ∷ codes "a" ∷ [])
        ≡ Some (Check (record { tower = OfFile (codes "t"); shards = 1; moments = Index; order = None; form = Edn; only_failing = false; demand = no_demand; traces = codes "a" ∷ [] })) }
    ensures for_ci { (program : Text) → (asked (program ∷ codes "check" ∷ codes "--tower=t" ∷ codes "--as=github" ∷ codes "a" ∷ []) ≡ Some (Check (record { tower = OfFile (codes "t"); shards = 1; moments = Index; order = None; form = GitHub; only_failing = false; demand = no_demand; traces = codes "a" ∷ [] })))
        × (asked (program ∷ codes "check" ∷ codes "--tower=t" ∷ codes "--as=junit" ∷ codes "a" ∷ []) ≡ Some (Check (record { tower = OfFile (codes "t"); shards = 1; moments = Index; order = None; form = Junit; only_failing = false; demand = no_demand; traces = codes "a" ∷ [] }))) }
    ensures small_trace { (program : Text) → asked (program ∷ codes "check" ∷ codes "--tower=t" ∷ codes "--as=trace" ∷ codes "a" ∷ [])
        ≡ Some (Check (record { tower = OfFile (codes "t"); shards = 1; moments = Index; order = None; form = Trace; only_failing = false; demand = no_demand; traces = codes "a" ∷ [] })) }
    ensures failing { (program : Text) → asked (program ∷ codes "check" ∷ codes "--tower=t" ∷ codes "--as=json" ∷ codes "--only" ∷ codes "failing" ∷ codes "a" ∷ [])
        ≡ Some (Check (record { tower = OfFile (codes "t"); shards = 1; moments = Index; order = None; form = Json; only_failing = true; demand = no_demand; traces = codes "a" ∷ [] })) }
    ensures whole_records { (program : Text) → asked (program ∷ codes "check" ∷ codes "--tower" ∷ codes "t" ∷ codes "--shards" ∷ codes "64" ∷ codes "--moment" ∷ codes "time" ∷ codes "--order" ∷ codes "x" ∷ codes "--as" ∷ codes "edn" ∷ codes "--only" ∷ codes "failing" ∷ codes "--least" ∷ codes "7" ∷ codes "--least-each" ∷ codes "1" ∷ codes "--doubt" ∷ codes "3" ∷ codes "a" ∷ [])
        ≡ Some (Check (record { tower = OfFile (codes "t"); shards = 64; moments = Time; order = Some (codes "x"); form = Edn; only_failing = true; demand = record { least = 7; least_each = 1; doubt = 3 }; traces = codes "a" ∷ [] })) }
    ensures each { (program : Text) → (asked (program ∷ codes "check" ∷ codes "a" ∷ []) ≡ Some (Check (record { tower = OfTraces Atomic; shards = 1; moments = Index; order = None; form = Report; only_failing = false; demand = no_demand; traces = codes "a" ∷ [] })))
        × (asked (program ∷ codes "check" ∷ codes "--each" ∷ codes "regular" ∷ codes "a" ∷ []) ≡ Some (Check (record { tower = OfTraces Regular; shards = 1; moments = Index; order = None; form = Report; only_failing = false; demand = no_demand; traces = codes "a" ∷ [] }))) }
    ensures any_names { (program tower order trace : Text) → asked (program ∷ codes "check" ∷ (codes "--tower=" ++ tower) ∷ (codes "--order=" ++ order) ∷ codes "--" ∷ trace ∷ [])
        ≡ Some (Check (record { tower = OfFile tower; shards = 1; moments = Index; order = Some order; form = Report; only_failing = false; demand = no_demand; traces = trace ∷ [] })) }
{}

/// What `watch` asks for: `index`, one shard, lines for people, every trace to its end, and that no failure is held back,
/// where nothing else is said.
/// Its lines have no other form than these and records in JSON, and a trace is named.
pub fn watches_in_turn()
    ensures plain { (program : Text) → asked (program ∷ codes "watch" ∷ codes "--tower" ∷ codes "t" ∷ codes "a" ∷ [])
        ≡ Some (Watch (record { tower = OfFile (codes "t"); shards = 1; moments = Index; form = line_forms.Text; until_fail = false; settle = 0; demand = no_demand; traces = codes "a" ∷ [] })) }
    ensures whole { (program : Text) → asked (program ∷ codes "watch" ∷ codes "--tower=t" ∷ codes "--moment" ∷ codes "time" ∷ codes "--shards" ∷ codes "64" ∷ codes "--as" ∷ codes "json" ∷ codes "--until-fail" ∷ codes "--settle" ∷ codes "7" ∷ codes "--least" ∷ codes "5" ∷ codes "--least-each" ∷ codes "2" ∷ codes "--doubt" ∷ codes "0" ∷ codes "a" ∷ codes "b" ∷ [])
        ≡ Some (Watch (record { tower = OfFile (codes "t"); shards = 64; moments = Time; form = line_forms.Json; until_fail = true; settle = 7; demand = record { least = 5; least_each = 2; doubt = 0 }; traces = codes "a" ∷ codes "b" ∷ [] })) }
    ensures any_names { (program tower trace : Text) → asked (program ∷ codes "watch" ∷ (codes "--tower=" ++ tower) ∷ codes "--" ∷ trace ∷ [])
        ≡ Some (Watch (record { tower = OfFile tower; shards = 1; moments = Index; form = line_forms.Text; until_fail = false; settle = 0; demand = no_demand; traces = trace ∷ [] })) }
    ensures each { (program : Text) → (asked (program ∷ codes "watch" ∷ codes "a" ∷ []) ≡ Some (Watch (record { tower = OfTraces Atomic; shards = 1; moments = Index; form = line_forms.Text; until_fail = false; settle = 0; demand = no_demand; traces = codes "a" ∷ [] })))
        × (asked (program ∷ codes "watch" ∷ codes "--each=safe" ∷ codes "a" ∷ []) ≡ Some (Watch (record { tower = OfTraces kinds.Safe; shards = 1; moments = Index; form = line_forms.Text; until_fail = false; settle = 0; demand = no_demand; traces = codes "a" ∷ [] }))) }
    ensures no_trace { (program : Text) → asked (program ∷ codes "watch" ∷ codes "--tower" ∷ codes "t" ∷ []) ≡ None }
    ensures no_moment { (program : Text) → asked (program ∷ codes "watch" ∷ codes "--tower=t" ∷ codes "--moment=now" ∷ codes "a" ∷ []) ≡ None }
    ensures no_form { (program : Text) → (asked (program ∷ codes "watch" ∷ codes "--tower=t" ∷ codes "--as=summary" ∷ codes "a" ∷ []) ≡ None)
        × (asked (program ∷ codes "watch" ∷ codes "--tower=t" ∷ codes "--as=edn" ∷ codes "a" ∷ []) ≡ None) }
    ensures refused_shards { (takes command_line (codes "regaudit" ∷ codes "watch" ∷ codes "--tower=t" ∷ codes "--shards=0" ∷ codes "a" ∷ []) ≡ false)
        × (takes command_line (codes "regaudit" ∷ codes "watch" ∷ codes "--tower=t" ∷ codes "--shards=65" ∷ codes "a" ∷ []) ≡ false) }
    ensures refused_settle { (takes command_line (codes "regaudit" ∷ codes "watch" ∷ codes "--tower=t" ∷ codes "--settle=x" ∷ codes "a" ∷ []) ≡ false)
        × (takes command_line (codes "regaudit" ∷ codes "watch" ∷ codes "--tower=t" ∷ codes "--settle=18446744073709551616" ∷ codes "a" ∷ []) ≡ false) }
    ensures taken { takes command_line (codes "regaudit" ∷ codes "watch" ∷ codes "--tower=t" ∷ codes "--shards=64" ∷ codes "--until-fail" ∷ codes "--settle=+18446744073709551615" ∷ codes "a" ∷ codes "b" ∷ []) ≡ true }
{}

/// What `show` asks for: lines of a terminal, three operations around each one that shows why a register fails, and the
/// colours of the reader's machine, where nothing else is said. One flag at most asks for another picture, and a trace
/// is named.
pub fn shows_in_turn()
    ensures plain { (program : Text) → asked (program ∷ codes "show" ∷ codes "--tower" ∷ codes "t" ∷ codes "a" ∷ [])
        ≡ Some (Show (record { tower = OfFile (codes "t"); moments = Index; register = None; picture = pictures.Text; around = 3; all = false; width = None; theme = Auto; colours = colours.Auto; demand = no_demand; traces = codes "a" ∷ [] })) }
    ensures whole { (program : Text) → asked (program ∷ codes "show" ∷ codes "--tower=t" ∷ codes "--moment" ∷ codes "time" ∷ codes "--register" ∷ codes "x" ∷ codes "--html" ∷ codes "--around" ∷ codes "0" ∷ codes "--all" ∷ codes "--width" ∷ codes "72" ∷ codes "--theme" ∷ codes "dark" ∷ codes "--least" ∷ codes "5" ∷ codes "--least-each" ∷ codes "2" ∷ codes "--doubt" ∷ codes "255" ∷ codes "a" ∷ codes "b" ∷ [])
        ≡ Some (Show (record { tower = OfFile (codes "t"); moments = Time; register = Some (codes "x"); picture = pictures.Html; around = 0; all = true; width = Some 72; theme = Dark; colours = colours.Never; demand = record { least = 5; least_each = 2; doubt = 255 }; traces = codes "a" ∷ codes "b" ∷ [] })) }
    ensures svg { (program : Text) → asked (program ∷ codes "show" ∷ codes "--tower=t" ∷ codes "--svg" ∷ codes "a" ∷ [])
        ≡ Some (Show (record { tower = OfFile (codes "t"); moments = Index; register = None; picture = pictures.Svg; around = 3; all = false; width = None; theme = Auto; colours = colours.Never; demand = no_demand; traces = codes "a" ∷ [] })) }
    ensures ascii { (program : Text) → asked (program ∷ codes "show" ∷ codes "a" ∷ codes "--ascii" ∷ codes "--tower=t" ∷ [])
        ≡ Some (Show (record { tower = OfFile (codes "t"); moments = Index; register = None; picture = pictures.Ascii; around = 3; all = false; width = None; theme = Auto; colours = colours.Auto; demand = no_demand; traces = codes "a" ∷ [] })) }
    ensures any_names { (program tower register trace : Text) → asked (program ∷ codes "show" ∷ (codes "--tower=" ++ tower) ∷ (codes "--register=" ++ register) ∷ codes "--" ∷ trace ∷ [])
        ≡ Some (Show (record { tower = OfFile tower; moments = Index; register = Some register; picture = pictures.Text; around = 3; all = false; width = None; theme = Auto; colours = colours.Auto; demand = no_demand; traces = trace ∷ [] })) }
    ensures two_pictures { (program : Text) → (asked (program ∷ codes "show" ∷ codes "--tower=t" ∷ codes "--svg" ∷ codes "--html" ∷ codes "a" ∷ []) ≡ None)
        × (asked (program ∷ codes "show" ∷ codes "--tower=t" ∷ codes "--svg" ∷ codes "--ascii" ∷ codes "a" ∷ []) ≡ None)
        × (asked (program ∷ codes "show" ∷ codes "--tower=t" ∷ codes "--ascii" ∷ codes "--html" ∷ codes "a" ∷ []) ≡ None) }
    ensures three_pictures { (program : Text) → asked (program ∷ codes "show" ∷ codes "--tower=t" ∷ codes "--svg" ∷ codes "--html" ∷ codes "--ascii" ∷ codes "a" ∷ []) ≡ None }
    ensures each { (program : Text) → (asked (program ∷ codes "show" ∷ codes "a" ∷ []) ≡ Some (Show (record { tower = OfTraces Atomic; moments = Index; register = None; picture = pictures.Text; around = 3; all = false; width = None; theme = Auto; colours = colours.Auto; demand = no_demand; traces = codes "a" ∷ [] })))
        × (asked (program ∷ codes "show" ∷ codes "--each=regular" ∷ codes "a" ∷ []) ≡ Some (Show (record { tower = OfTraces Regular; moments = Index; register = None; picture = pictures.Text; around = 3; all = false; width = None; theme = Auto; colours = colours.Auto; demand = no_demand; traces = codes "a" ∷ [] }))) }
    ensures no_trace { (program : Text) → asked (program ∷ codes "show" ∷ codes "--tower" ∷ codes "t" ∷ []) ≡ None }
    ensures no_theme { (program : Text) → asked (program ∷ codes "show" ∷ codes "--tower=t" ∷ codes "--theme" ∷ codes "blue" ∷ codes "a" ∷ []) ≡ None }
    ensures refused_widths { (takes command_line (codes "regaudit" ∷ codes "show" ∷ codes "--tower=t" ∷ codes "--width=19" ∷ codes "a" ∷ []) ≡ false)
        × (takes command_line (codes "regaudit" ∷ codes "show" ∷ codes "--tower=t" ∷ codes "--width=1000001" ∷ codes "a" ∷ []) ≡ false)
        × (takes command_line (codes "regaudit" ∷ codes "show" ∷ codes "--tower=t" ∷ codes "--width=x" ∷ codes "a" ∷ []) ≡ false) }
    ensures taken { (takes command_line (codes "regaudit" ∷ codes "show" ∷ codes "--tower=t" ∷ codes "--width=20" ∷ codes "a" ∷ []) ≡ true)
        × (takes command_line (codes "regaudit" ∷ codes "show" ∷ codes "--tower=t" ∷ codes "--width=1000000" ∷ codes "--svg" ∷ codes "--all" ∷ codes "a" ∷ codes "b" ∷ []) ≡ true) }
{}

/// What `lint` asks for: a tower file, traces, or both; three findings of each code, for people, and no code denied,
/// where nothing else is said.
pub fn looks_in_turn()
    ensures tower { (program : Text) → asked (program ∷ codes "lint" ∷ codes "--tower" ∷ codes "t" ∷ [])
        ≡ Some (Lint (record { tower = OfFile (codes "t"); moments = Index; form = lint_forms.Human; most = 3; denied = None; colours = colours.Auto; traces = [] })) }
    ensures traces { (program : Text) → asked (program ∷ codes "lint" ∷ codes "a" ∷ codes "b" ∷ [])
        ≡ Some (Lint (record { tower = OfTraces Atomic; moments = Index; form = lint_forms.Human; most = 3; denied = None; colours = colours.Auto; traces = codes "a" ∷ codes "b" ∷ [] })) }
    ensures whole { (program : Text) → asked (program ∷ codes "lint" ∷ codes "--tower=t" ∷ codes "--moment" ∷ codes "time" ∷ codes "--as" ∷ codes "json" ∷ codes "--max" ∷ codes "0" ∷ codes "--deny" ∷ codes "L1,L3" ∷ codes "a" ∷ [])
        ≡ Some (Lint (record { tower = OfFile (codes "t"); moments = Time; form = lint_forms.Json; most = 0; denied = Some (codes "L1,L3"); colours = colours.Never; traces = codes "a" ∷ [] })) }
    ensures nothing { (program : Text) → asked (program ∷ codes "lint" ∷ []) ≡ None }
    ensures no_form { (program : Text) → asked (program ∷ codes "lint" ∷ codes "--as" ∷ codes "text" ∷ codes "a" ∷ []) ≡ None }
{}

/// Which colours `show`, `lint` and `explain` ask for: what is no lines for people has none, and does not go with `always`.
pub fn colours_in_turn()
    ensures shown { (program : Text) → (asked (program ∷ codes "show" ∷ codes "--colour=always" ∷ codes "a" ∷ []) ≡ Some (Show (record { tower = OfTraces Atomic; moments = Index; register = None; picture = pictures.Text; around = 3; all = false; width = None; theme = Auto; colours = colours.Always; demand = no_demand; traces = codes "a" ∷ [] })))
        × (asked (program ∷ codes "show" ∷ codes "--ascii" ∷ codes "--colour" ∷ codes "never" ∷ codes "a" ∷ []) ≡ Some (Show (record { tower = OfTraces Atomic; moments = Index; register = None; picture = pictures.Ascii; around = 3; all = false; width = None; theme = Auto; colours = colours.Never; demand = no_demand; traces = codes "a" ∷ [] }))) }
    ensures found { (program : Text) → (asked (program ∷ codes "lint" ∷ codes "--colour=always" ∷ codes "a" ∷ []) ≡ Some (Lint (record { tower = OfTraces Atomic; moments = Index; form = lint_forms.Human; most = 3; denied = None; colours = colours.Always; traces = codes "a" ∷ [] })))
        × (asked (program ∷ codes "lint" ∷ codes "--as=short" ∷ codes "--colour=auto" ∷ codes "a" ∷ []) ≡ Some (Lint (record { tower = OfTraces Atomic; moments = Index; form = lint_forms.Short; most = 3; denied = None; colours = colours.Never; traces = codes "a" ∷ [] })))
        × (asked (program ∷ codes "lint" ∷ codes "--as=json" ∷ codes "--colour=never" ∷ codes "a" ∷ []) ≡ Some (Lint (record { tower = OfTraces Atomic; moments = Index; form = lint_forms.Json; most = 3; denied = None; colours = colours.Never; traces = codes "a" ∷ [] }))) }
    ensures explained { (program : Text) → (asked (program ∷ codes "explain" ∷ codes "--colour=always" ∷ codes "X7" ∷ []) ≡ Some (Explain (Some (codes "X7")) colours.Always))
        × (asked (program ∷ codes "explain" ∷ codes "--colour=never" ∷ []) ≡ Some (Explain None colours.Never)) }
    ensures not_for_people { (program : Text) → (asked (program ∷ codes "show" ∷ codes "--svg" ∷ codes "--colour=always" ∷ codes "a" ∷ []) ≡ None)
        × (asked (program ∷ codes "show" ∷ codes "--html" ∷ codes "--colour=always" ∷ codes "a" ∷ []) ≡ None)
        × (asked (program ∷ codes "lint" ∷ codes "--as=short" ∷ codes "--colour=always" ∷ codes "a" ∷ []) ≡ None)
        × (asked (program ∷ codes "lint" ∷ codes "--as=github" ∷ codes "--colour=always" ∷ codes "a" ∷ []) ≡ None)
        × (asked (program ∷ codes "lint" ∷ codes "--as=json" ∷ codes "--colour=always" ∷ codes "a" ∷ []) ≡ None) }
    ensures no_word { (program : Text) → (asked (program ∷ codes "show" ∷ codes "--colour=yes" ∷ codes "a" ∷ []) ≡ None)
        × (asked (program ∷ codes "lint" ∷ codes "--colour=yes" ∷ codes "a" ∷ []) ≡ None)
        × (asked (program ∷ codes "explain" ∷ codes "--colour=yes" ∷ []) ≡ None) }
{}

/// What `keys` asks for: atomic registers that hold nil at first and that any process may write, where nothing else is
/// said; the first writer alone, where they are not atomic. What the kind does not allow is not taken.
pub fn keys_in_turn()
    ensures plain { (program : Text) → asked (program ∷ codes "keys" ∷ codes "a" ∷ codes "b" ∷ []) ≡ Some (Keys (record { kind = Atomic; initial = Known Nil; any_writes = true; traces = codes "a" ∷ codes "b" ∷ [] })) }
    ensures one_writer { (program : Text) → asked (program ∷ codes "keys" ∷ codes "--kind" ∷ codes "regular" ∷ codes "a" ∷ []) ≡ Some (Keys (record { kind = Regular; initial = Known Nil; any_writes = false; traces = codes "a" ∷ [] })) }
    ensures whole { (program : Text) → (asked (program ∷ codes "keys" ∷ codes "--kind=atomic" ∷ codes "--initial=unknown" ∷ codes "--writers=first" ∷ codes "a" ∷ []) ≡ Some (Keys (record { kind = Atomic; initial = Unknown; any_writes = false; traces = codes "a" ∷ [] })))
        × (asked (program ∷ codes "keys" ∷ codes "--kind=safe" ∷ codes "--initial=-7" ∷ codes "a" ∷ []) ≡ Some (Keys (record { kind = kinds.Safe; initial = Known (Int (negsuc 6)); any_writes = false; traces = codes "a" ∷ [] }))) }
    ensures no_fit { (program : Text) → (asked (program ∷ codes "keys" ∷ codes "--kind=safe" ∷ codes "--initial=unknown" ∷ codes "a" ∷ []) ≡ None)
        × (asked (program ∷ codes "keys" ∷ codes "--kind=regular" ∷ codes "--writers=any" ∷ codes "a" ∷ []) ≡ None) }
    ensures no_value { (program : Text) → (asked (program ∷ codes "keys" ∷ codes "--initial=1.5" ∷ codes "a" ∷ []) ≡ None)
        × (asked (program ∷ codes "keys" ∷ codes "--initial=9223372036854775808" ∷ codes "a" ∷ []) ≡ None)
        × (asked (program ∷ codes "keys" ∷ []) ≡ None) }
{}

/// Words that ask for nothing: no command, an unknown one, no file, two towers, no trace, an unknown kind or form, or
/// `--only` of a report that is not made of records. Words that do not fit the command line are refused by `clap`.
pub fn words_that_ask_for_nothing()
    ensures alone { (program : Text) → asked (program ∷ []) ≡ None }
    ensures other { (program : Text) → asked (program ∷ codes "list" ∷ []) ≡ None }
    ensures help { (program : Text) → asked (program ∷ codes "--help" ∷ []) ≡ None }
    ensures no_file { (program : Text) → asked (program ∷ codes "tower" ∷ []) ≡ None }
    ensures no_check { (program : Text) → asked (program ∷ codes "check" ∷ []) ≡ None }
    ensures two_towers { (program : Text) → (asked (program ∷ codes "check" ∷ codes "--tower=t" ∷ codes "--each=atomic" ∷ codes "a" ∷ []) ≡ None)
        × (asked (program ∷ codes "lint" ∷ codes "--tower=t" ∷ codes "--each=atomic" ∷ codes "a" ∷ []) ≡ None) }
    ensures no_kind { (program : Text) → asked (program ∷ codes "check" ∷ codes "--each=linear" ∷ codes "a" ∷ []) ≡ None }
    ensures no_trace { (program : Text) → asked (program ∷ codes "check" ∷ codes "--tower" ∷ codes "t" ∷ []) ≡ None }
    ensures no_moment { (program : Text) → asked (program ∷ codes "check" ∷ codes "--tower" ∷ codes "t" ∷ codes "--moment" ∷ codes "now" ∷ codes "a" ∷ []) ≡ None }
    ensures no_form { (program : Text) → asked (program ∷ codes "check" ∷ codes "--tower" ∷ codes "t" ∷ codes "--as" ∷ codes "html" ∷ codes "a" ∷ []) ≡ None }
    ensures no_only { (program : Text) → asked (program ∷ codes "check" ∷ codes "--tower=t" ∷ codes "--as=json" ∷ codes "--only=all" ∷ codes "a" ∷ []) ≡ None }
    ensures no_records { (program : Text) → (asked (program ∷ codes "check" ∷ codes "--tower=t" ∷ codes "--only=failing" ∷ codes "a" ∷ []) ≡ None)
        × (asked (program ∷ codes "check" ∷ codes "--tower=t" ∷ codes "--as=text" ∷ codes "--only=failing" ∷ codes "a" ∷ []) ≡ None)
        × (asked (program ∷ codes "check" ∷ codes "--tower=t" ∷ codes "--as=summary" ∷ codes "--only=failing" ∷ codes "a" ∷ []) ≡ None)
        × (asked (program ∷ codes "check" ∷ codes "--tower=t" ∷ codes "--as=github" ∷ codes "--only=failing" ∷ codes "a" ∷ []) ≡ None)
        × (asked (program ∷ codes "check" ∷ codes "--tower=t" ∷ codes "--as=junit" ∷ codes "--only=failing" ∷ codes "a" ∷ []) ≡ None)
        × (asked (program ∷ codes "check" ∷ codes "--tower=t" ∷ codes "--as=trace" ∷ codes "--only=failing" ∷ codes "a" ∷ []) ≡ None) }
    ensures no_shell { (program : Text) → asked (program ∷ codes "completion" ∷ codes "csh" ∷ []) ≡ None }
    ensures none { asked [] ≡ None }
    ensures refused { (takes command_line (codes "regaudit" ∷ codes "safe" ∷ codes "a" ∷ codes "b" ∷ []) ≡ false)
        × (takes command_line (codes "regaudit" ∷ codes "safe" ∷ codes "-x" ∷ []) ≡ false)
        × (takes command_line (codes "regaudit" ∷ codes "tower" ∷ []) ≡ false)
        × (takes command_line (codes "regaudit" ∷ codes "help" ∷ []) ≡ false)
        × (takes command_line (codes "regaudit" ∷ []) ≡ false) }
    ensures refused_checks { (takes command_line (codes "regaudit" ∷ codes "check" ∷ []) ≡ false)
        × (takes command_line (codes "regaudit" ∷ codes "check" ∷ codes "--tower" ∷ codes "t" ∷ []) ≡ false) }
    ensures refused_shards { (takes command_line (codes "regaudit" ∷ codes "check" ∷ codes "--tower=t" ∷ codes "--shards=0" ∷ codes "a" ∷ []) ≡ false)
        × (takes command_line (codes "regaudit" ∷ codes "check" ∷ codes "--tower=t" ∷ codes "--shards=65" ∷ codes "a" ∷ []) ≡ false)
        × (takes command_line (codes "regaudit" ∷ codes "check" ∷ codes "--tower=t" ∷ codes "--shards=x" ∷ codes "a" ∷ []) ≡ false) }
    ensures taken { (takes command_line (codes "regaudit" ∷ codes "safe" ∷ []) ≡ true)
        × (takes command_line (codes "regaudit" ∷ codes "safe" ∷ codes "a" ∷ []) ≡ true)
        × (takes command_line (codes "regaudit" ∷ codes "tower" ∷ codes "a" ∷ []) ≡ true)
        × (takes command_line (codes "regaudit" ∷ codes "tower" ∷ codes "--" ∷ codes "-x" ∷ []) ≡ true)
        × (takes command_line (codes "regaudit" ∷ codes "check" ∷ codes "--tower=t" ∷ codes "--shards=64" ∷ codes "a" ∷ codes "b" ∷ []) ≡ true) }
{}
