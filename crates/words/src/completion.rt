//! The scripts by which shells complete the words of the command line.

ghost use Rattle.std.specs.Prelude.{◌≡◌};
ghost use Rattle.words.specs.Completion.{script_for, shell_named};

/// A shell that completes words.
#[derive(Clone, Copy)]
pub enum Shell {
    Bash,
    Zsh,
    Fish,
}

impl Shell {
    /// The shell of this name.
    pub fn named(name: &str) -> Option<Shell>
        ensures { result ≡ shell_named name.now }
    {
        if name == "bash" {
            Some(Shell::Bash)
        } else if name == "zsh" {
            Some(Shell::Zsh)
        } else if name == "fish" {
            Some(Shell::Fish)
        } else {
            None
        }
    }

    /// The script that completes the words of the command line in this shell.
    pub fn script(self) -> &'static str
        ensures { result.now ≡ script_for self }
    {
        match self {
            Shell::Bash => BASH,
            Shell::Zsh => ZSH,
            Shell::Fish => FISH,
        }
    }
}

pub const BASH: &str =
    r##"# Completes the words of regaudit in bash. In ~/.bashrc: source <(regaudit completion bash)

# The tower file that the line names.
_regaudit_tower() {
    local i tower=
    for ((i = 2; i + 1 < ${#COMP_WORDS[@]}; i++)); do
        if [[ ${COMP_WORDS[i]} == --tower ]]; then
            tower=${COMP_WORDS[i + 1]}
            if [[ $tower == = ]]; then
                tower=${COMP_WORDS[i + 2]}
            fi
        fi
    done
    printf %s "${tower/#\~\//$HOME/}"
}

# The names of its registers. A name with a blank is left out, since blanks part the columns.
_regaudit_registers() {
    local program=$1 begun=$2 number level name kind more tower
    tower=$(_regaudit_tower)
    if [[ -n $tower ]]; then
        while read -r number level name kind more; do
            if [[ -z $more && $name == "$begun"* ]]; then
                COMPREPLY+=("$(printf %q "$name")")
            fi
        done < <("$program" tower -- "$tower" 2> /dev/null)
    fi
}

_regaudit() {
    local begun=${COMP_WORDS[COMP_CWORD]} before=${COMP_WORDS[COMP_CWORD - 1]} words=
    COMPREPLY=()
    if [[ $begun == = ]]; then
        begun=
    elif [[ $before == = ]]; then
        before=${COMP_WORDS[COMP_CWORD - 2]}
    fi
    if ((COMP_CWORD == 1)); then
        words='check watch show lint keys safe tower explain version manual completion --help --version'
    else
        case ${COMP_WORDS[1]}:$before in
            check:--order | show:--register)
                _regaudit_registers "$1" "$begun"
                return
                ;;
            check:--tower | watch:--tower | show:--tower | lint:--tower) ;;
            check:--each | watch:--each | show:--each | lint:--each | keys:--kind) words='atomic regular safe' ;;
            keys:--initial) words='nil unknown' ;;
            keys:--writers) words='any first' ;;
            check:--shards | watch:--shards) words='1 2 4 8 16 32 64' ;;
            check:--moment | watch:--moment | show:--moment | lint:--moment) words='index time' ;;
            check:--as) words='text summary json edn github junit trace' ;;
            check:--only) words=failing ;;
            watch:--as) words='text json' ;;
            show:--theme) words='auto light dark' ;;
            show:--colour | lint:--colour | explain:--colour) words='auto always never' ;;
            lint:--as) words='human short github json' ;;
            lint:--deny) words='L1 L2 L3 L4 L5 L6 L7 L8' ;;
            explain:explain)
                if [[ $begun == -* ]]; then
                    words='--colour --help'
                else
                    words=$("$1" explain 2> /dev/null | cut -d ' ' -f 1)
                fi
                ;;
            completion:completion) words='bash zsh fish' ;;
            check:*)
                if [[ $begun == -* ]]; then
                    words='--tower --each --shards --moment --order --as --only --least --least-each --doubt --help'
                fi
                ;;
            watch:*)
                if [[ $begun == -* ]]; then
                    words='--tower --each --moment --shards --as --until-fail --settle --least --least-each --doubt --help'
                fi
                ;;
            show:*)
                if [[ $begun == -* ]]; then
                    words='--tower --each --moment --register --svg --html --ascii --around --all --width --theme --colour --least --least-each --doubt --help'
                fi
                ;;
            lint:*)
                if [[ $begun == -* ]]; then
                    words='--tower --each --moment --as --max --deny --colour --help'
                fi
                ;;
            keys:*)
                if [[ $begun == -* ]]; then
                    words='--kind --initial --writers --help'
                fi
                ;;
            *)
                if [[ $begun == -* ]]; then
                    words=--help
                fi
                ;;
        esac
    fi
    if [[ -n $words ]]; then
        COMPREPLY=($(compgen -W "$words" -- "$begun"))
    fi
}

complete -o default -F _regaudit regaudit
"##;

pub const ZSH: &str = r##"#compdef regaudit
# Completes the words of regaudit in zsh. As a file _regaudit in a folder of $fpath; or in ~/.zshrc, after
# compinit: source <(regaudit completion zsh)

# The names of the registers of the tower file that the line names. A name with a blank is left out.
_regaudit_registers() {
    local tower=${(Q)opt_args[--tower]} number level name kind more
    local -a names
    if [[ -n $tower ]]; then
        while read -r number level name kind more; do
            if [[ -z $more ]]; then
                names+=("$name")
            fi
        done < <(_call_program registers regaudit tower -- ${(q)${tower/#\~\//$HOME/}} 2> /dev/null)
    fi
    compadd -a names
}

_regaudit_codes() {
    local -a codes
    codes=(${(f)"$(_call_program codes regaudit explain 2> /dev/null)"})
    compadd -- ${codes%% *}
}

_regaudit() {
    local curcontext=$curcontext context state line
    local -A opt_args
    local -a commands
    commands=(
        'check:judges the registers of a tower by traces'
        'watch:judges registers while traces are read'
        'show:draws a register'
        'lint:says what is amiss in a tower file and in traces'
        'keys:writes the tower file of what traces name'
        'safe:judges a trace of one safe register'
        'tower:lists the registers of a tower'
        'explain:says what a code or a word of a report means'
        'version:says which build this is'
        'manual:prints all helps and the tables of codes'
        'completion:prints a script that completes the words'
    )
    _arguments -C '(- *)'{-h,--help}'[prints help]' '(- *)'{-V,--version}'[prints the version]' '1:command:->command' '*::argument:->argument'
    case $state in
        command) _describe command commands ;;
        argument)
            case $words[1] in
                check)
                    _arguments \
                        '(--each)--tower=[the tower file]:tower file:_files' \
                        '(--tower)--each=[the kind of what the traces name]:kind:(atomic regular safe)' \
                        '--shards=[over how many shards the registers are spread]:number:(1 2 4 8 16 32 64)' \
                        '--moment=[the field that moments stand under]:field:(index time)' \
                        '--order=[prints an order of this register]:register:_regaudit_registers' \
                        '--as=[how the report is printed]:form:(text summary json edn github junit trace)' \
                        '--only=[which registers have a record]:registers:(failing)' \
                        '--least=[status 4 where fewer operations stand]:number: ' \
                        '--least-each=[status 4 where fewer stand in a register]:number: ' \
                        '--doubt=[the status where each failure rests on what was left out]:status: ' \
                        '(- *)'{-h,--help}'[prints help]' \
                        '*:trace:_files'
                    ;;
                watch)
                    _arguments \
                        '(--each)--tower=[the tower file]:tower file:_files' \
                        '(--tower)--each=[the kind of what the traces name]:kind:(atomic regular safe)' \
                        '--moment=[the field that moments stand under]:field:(index time)' \
                        '--shards=[over how many shards the registers are spread]:number:(1 2 4 8 16 32 64)' \
                        '--as=[what is written]:form:(text json)' \
                        '--until-fail[ends at the first register that fails]' \
                        '--settle=[for how many elements a failure is held back]:number: ' \
                        '--least=[status 4 where fewer operations stand]:number: ' \
                        '--least-each=[status 4 where fewer stand in a register]:number: ' \
                        '--doubt=[the status where each failure rests on what was left out]:status: ' \
                        '(- *)'{-h,--help}'[prints help]' \
                        '*:trace:_files'
                    ;;
                show)
                    _arguments \
                        '(--each)--tower=[the tower file]:tower file:_files' \
                        '(--tower)--each=[the kind of what the traces name]:kind:(atomic regular safe)' \
                        '--moment=[the field that moments stand under]:field:(index time)' \
                        '--register=[the register that is drawn]:register:_regaudit_registers' \
                        '(--html --ascii)--svg[one picture, as SVG]' \
                        '(--svg --ascii)--html[a page with a picture of each register that fails]' \
                        '(--svg --html)--ascii[lines of ASCII alone]' \
                        '--around=[how many operations are shown before and after each that tells why]:number: ' \
                        '--all[shows all operations]' \
                        '--width=[how wide lines or rows may be]:number: ' \
                        '--theme=[the colours of a picture]:theme:(auto light dark)' \
                        '--colour=[when lines for people have colours]:when:(auto always never)' \
                        '--least=[status 4 where fewer operations stand]:number: ' \
                        '--least-each=[status 4 where fewer stand in a register]:number: ' \
                        '--doubt=[the status where each failure rests on what was left out]:status: ' \
                        '(- *)'{-h,--help}'[prints help]' \
                        '*:trace:_files'
                    ;;
                lint)
                    _arguments \
                        '(--each)--tower=[the tower file]:tower file:_files' \
                        '(--tower)--each=[the kind of what the traces name]:kind:(atomic regular safe)' \
                        '--moment=[the field that moments stand under]:field:(index time)' \
                        '--as=[how it is printed]:form:(human short github json)' \
                        '--max=[how many of each code are shown]:number: ' \
                        '--deny=[codes of notes that count as warnings]:codes:(L1 L2 L3 L4 L5 L6 L7 L8)' \
                        '--colour=[when lines for people have colours]:when:(auto always never)' \
                        '(- *)'{-h,--help}'[prints help]' \
                        '*:trace:_files'
                    ;;
                keys)
                    _arguments \
                        '--kind=[what each register claims to be]:kind:(atomic regular safe)' \
                        '--initial=[what each register holds at first]:value:(nil unknown)' \
                        '--writers=[who writes each register]:writers:(any first)' \
                        '(- *)'{-h,--help}'[prints help]' \
                        '*:trace:_files'
                    ;;
                safe) _arguments '(- *)'{-h,--help}'[prints help]' '1:trace:_files' ;;
                tower) _arguments '(- *)'{-h,--help}'[prints help]' '1:tower file:_files' ;;
                explain)
                    _arguments \
                        '--colour=[when lines for people have colours]:when:(auto always never)' \
                        '(- *)'{-h,--help}'[prints help]' \
                        '1:code:_regaudit_codes'
                    ;;
                completion) _arguments '(- *)'{-h,--help}'[prints help]' '1:shell:(bash zsh fish)' ;;
                *) _arguments '(- *)'{-h,--help}'[prints help]' ;;
            esac
            ;;
    esac
}

if [[ $funcstack[1] == _regaudit ]]; then
    _regaudit "$@"
else
    compdef _regaudit regaudit
fi
"##;

pub const FISH: &str =
    r##"# Completes the words of regaudit in fish. In ~/.config/fish/config.fish: regaudit completion fish | source

# The names of the registers of the tower file that the line names. A name with a blank is left out.
function __regaudit_registers
    set -l words (commandline -opc)
    set -l tower
    for place in (seq (count $words))
        switch $words[$place]
            case --tower
                set tower $words[(math $place + 1)]
            case '--tower=*'
                set tower (string replace -- --tower= '' $words[$place])
        end
    end
    if test -n "$tower"
        regaudit tower -- $tower 2>/dev/null | string replace -rf '^\d+ \S+ (\S+) \S+$' '$1'
    end
end

function __regaudit_codes
    regaudit explain 2>/dev/null | string replace -r ' +' \t
end

function __regaudit_is
    __fish_seen_subcommand_from $argv
end

complete -c regaudit -f
complete -c regaudit -s h -l help -d 'prints help'
complete -c regaudit -n __fish_use_subcommand -s V -l version -d 'prints the version'

complete -c regaudit -n __fish_use_subcommand -a check -d 'judges the registers of a tower by traces'
complete -c regaudit -n __fish_use_subcommand -a watch -d 'judges registers while traces are read'
complete -c regaudit -n __fish_use_subcommand -a show -d 'draws a register'
complete -c regaudit -n __fish_use_subcommand -a lint -d 'says what is amiss in a tower file and in traces'
complete -c regaudit -n __fish_use_subcommand -a keys -d 'writes the tower file of what traces name'
complete -c regaudit -n __fish_use_subcommand -a safe -d 'judges a trace of one safe register'
complete -c regaudit -n __fish_use_subcommand -a tower -d 'lists the registers of a tower'
complete -c regaudit -n __fish_use_subcommand -a explain -d 'says what a code or a word of a report means'
complete -c regaudit -n __fish_use_subcommand -a version -d 'says which build this is'
complete -c regaudit -n __fish_use_subcommand -a manual -d 'prints all helps and the tables of codes'
complete -c regaudit -n __fish_use_subcommand -a completion -d 'prints a script that completes the words'

complete -c regaudit -n '__regaudit_is check watch show lint keys safe tower' -F
complete -c regaudit -n '__regaudit_is check' -l tower -rF -d 'the tower file'
complete -c regaudit -n '__regaudit_is check watch show lint' -l each -x -a 'atomic regular safe' -d 'the kind of what the traces name'
complete -c regaudit -n '__regaudit_is check' -l shards -x -a '1 2 4 8 16 32 64' -d 'over how many shards the registers are spread'
complete -c regaudit -n '__regaudit_is check' -l moment -x -a 'index time' -d 'the field that moments stand under'
complete -c regaudit -n '__regaudit_is check' -l order -x -a '(__regaudit_registers)' -d 'prints an order of this register'
complete -c regaudit -n '__regaudit_is check' -l as -x -a 'text summary json edn github junit trace' -d 'how the report is printed'
complete -c regaudit -n '__regaudit_is check' -l only -x -a failing -d 'which registers have a record'
complete -c regaudit -n '__regaudit_is check watch show' -l least -x -d 'status 4 where fewer operations stand'
complete -c regaudit -n '__regaudit_is check watch show' -l least-each -x -d 'status 4 where fewer stand in a register'
complete -c regaudit -n '__regaudit_is check watch show' -l doubt -x -d 'the status where each failure rests on what was left out'
complete -c regaudit -n '__regaudit_is watch' -l tower -rF -d 'the tower file'
complete -c regaudit -n '__regaudit_is watch' -l moment -x -a 'index time' -d 'the field that moments stand under'
complete -c regaudit -n '__regaudit_is watch' -l shards -x -a '1 2 4 8 16 32 64' -d 'over how many shards the registers are spread'
complete -c regaudit -n '__regaudit_is watch' -l as -x -a 'text json' -d 'what is written'
complete -c regaudit -n '__regaudit_is watch' -l until-fail -d 'ends at the first register that fails'
complete -c regaudit -n '__regaudit_is watch' -l settle -x -d 'for how many elements a failure is held back'
complete -c regaudit -n '__regaudit_is show' -l tower -rF -d 'the tower file'
complete -c regaudit -n '__regaudit_is show' -l moment -x -a 'index time' -d 'the field that moments stand under'
complete -c regaudit -n '__regaudit_is show' -l register -x -a '(__regaudit_registers)' -d 'the register that is drawn'
complete -c regaudit -n '__regaudit_is show' -l svg -d 'one picture, as SVG'
complete -c regaudit -n '__regaudit_is show' -l html -d 'a page with a picture of each register that fails'
complete -c regaudit -n '__regaudit_is show' -l ascii -d 'lines of ASCII alone'
complete -c regaudit -n '__regaudit_is show' -l around -x -d 'how many are shown before and after each that tells why'
complete -c regaudit -n '__regaudit_is show' -l all -d 'shows all operations'
complete -c regaudit -n '__regaudit_is show' -l width -x -d 'how wide lines or rows may be'
complete -c regaudit -n '__regaudit_is show lint explain' -l colour -x -a 'auto always never' -d 'when lines for people have colours'
complete -c regaudit -n '__regaudit_is show' -l theme -x -a 'auto light dark' -d 'the colours of a picture'
complete -c regaudit -n '__regaudit_is lint' -l tower -rF -d 'the tower file'
complete -c regaudit -n '__regaudit_is lint' -l moment -x -a 'index time' -d 'the field that moments stand under'
complete -c regaudit -n '__regaudit_is lint' -l as -x -a 'human short github json' -d 'how it is printed'
complete -c regaudit -n '__regaudit_is lint' -l max -x -d 'how many of each code are shown'
complete -c regaudit -n '__regaudit_is lint' -l deny -x -a 'L1 L2 L3 L4 L5 L6 L7 L8' -d 'notes that count as warnings'
complete -c regaudit -n '__regaudit_is keys' -l kind -x -a 'atomic regular safe' -d 'what each register claims to be'
complete -c regaudit -n '__regaudit_is keys' -l initial -x -a 'nil unknown' -d 'what each register holds at first'
complete -c regaudit -n '__regaudit_is keys' -l writers -x -a 'any first' -d 'who writes each register'
complete -c regaudit -n '__regaudit_is explain' -a '(__regaudit_codes)'
complete -c regaudit -n '__regaudit_is completion' -a 'bash zsh fish'
"##;
