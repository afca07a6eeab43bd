// The texts of `--help` and `--version`.
ghost use Rattle.std.specs.Prelude.{◌≡◌};
ghost use Rattle.command_words.specs.Help.{help_text, version_text};

const HELP: &[u8] = b"cscout renames identifiers in C programs, and preprocesses their units.

cscout WS rename PATH LINE COL NAME [strings]
    renames the name at line LINE and column COL of the file PATH, in all files of the
    workspace file WS, to NAME. Prints `edited PATH COUNT` for each file that changes.
    With the word strings, strings that a macro makes of the name by # change with it. Then prints
    `unseen PATH:LINE:COL NAME` for each place where no unit processes the old name, which stays.
cscout WS template PATH LINE COL ORDER
    puts the parameters of the function at that place into another order, in all its declarators,
    and the arguments of its calls. ORDER is numbers joined by commas: place k takes the item of
    the k-th number. Prints `edited PATH LISTS` for each file that changes, then `unseen ..` as rename does.
cscout WS macro PATH LINE COL ORDER
    puts the parameters of the macro at that place into another order, and the arguments of its
    calls, as template does. Each unit then has the tokens that it had.
cscout WS tokens UNIT
    prints the preprocessing tokens of unit UNIT of the workspace file, one a line
cscout WS skipped
    prints `PATH:FIRST-LAST` for the lines of source files that no unit processes
cscout WS check
    reads each unit by itself, and prints `unit N PATH: PATH:LINE:COL: WORDS: TOKEN from PATH:LINE:COL` for
    each that is not accepted, then `accepted N of M units`. The status is 1 where one is not.
cscout WS class PATH LINE COL
    prints `PATH:LINE:COL TEXT` for each place that must be spelled as the name at that place
cscout WS unused
    prints `PATH:LINE:COL NAME` for the first place of each name that is declared and never used
cscout WS includes
    prints `PATH:LINE:COL` for each include line that brings nothing which is used
cscout WS trim [stays]
    makes null directives of the include lines that bring nothing which is used, where each unit keeps
    all else. Prints `edited PATH LINES` for each file that changes. With the word stays, it then prints
    `stays PATH:LINE:COL WHY` for each other such line. WHY is computed, fragment, name NAME,
    definition NAME or pragma.
cscout WS calls
    prints `PATH:LINE:COL NAME -> PATH:LINE:COL NAME` for each macro or function that another one calls
cscout WS find QUERY
    prints `PATH:LINE:COL COUNT TEXT` for the first place of each class that QUERY accepts. QUERY is one
    word: name=PATTERN and attributes (macro, function, object, typedef, parameter, enumerator, tag,
    member, label, external, readonly, unused, cut), joined by |, &, ! and parentheses
cscout WS batch FILE
    runs the lines of FILE, each `rename PATH LINE COL NAME [strings]`, in order: each on the files as
    the lines before left them. A refused line changes nothing. Files are written once, at the end.
cscout --diff WS COMMAND ..
    prints what `cscout WS COMMAND ..` would print, and behind that the unified diff of each file that would
    change, and changes no file
cscout --why WORDS ..
    does what `cscout WORDS ..` would do. Behind `bad command line` and `no name` it then tells which word
    is bad, or why the place names nothing
cscout -C DIR WORDS ..
    does in the folder DIR what `cscout WORDS ..` would do there
cscout generate N
    makes a workspace of N units in memory, from 1 to 1024, analyses it and renames a name of it
cscout --help
    prints this text
cscout --version
    prints the version

Exit status: 0 done, 1 refused, 2 bad command line, 3 fault of the workspace, 4 a file could
not be read, 5 a file or the output could not be written, 6 out of memory.

Example: cscout w.cs rename a.c 1 5 count
";

#[tactic(auto, unfolding(crate::specs::Help::help_text))]
/// Every command, its words, the exit statuses and one example.
pub fn help() -> &'static [u8]
    ensures { result.now ≡ help_text }
{
    HELP
}

#[tactic(auto, unfolding(crate::specs::Help::version_text))]
/// The program and its version.
pub fn version() -> &'static [u8]
    ensures { result.now ≡ version_text }
{
    b"cscout 0.1\n"
}
