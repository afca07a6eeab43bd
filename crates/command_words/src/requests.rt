// What the words after the program's name ask for.
ghost use Rattle.std.specs.Prelude.{◌≡◌, ◌≤◌, length, map, string_bytes, IsTrue};
ghost use Rattle.std.specs.Option.{option_map};
ghost use Rattle.command_words.specs.Request.{asked, alone_of, two_words_of, over_file, command_alone, command_with_unit, command_with_word, command_at_place, class_report_of, command_with_name, command_with_strings, rename_of, template_of, macro_of, is_number, is_size, are_digits, begins_with_zero, number_of};
ghost use Rattle.command_words.specs.Asking.{ask_value, request_value, workspace_file};

/// A rename in words: the path is as written. `strings` says that strings which `#` makes may follow the renaming.
#[derive(Drop)]
pub struct Rename<'a> {
    pub path: &'a str,
    pub line: u32,
    pub column: u32,
    pub name: &'a str,
    pub strings: bool,
}

/// A new order of parameters in words: the path and the order are as written.
#[derive(Drop)]
pub struct Reordering<'a> {
    pub path: &'a str,
    pub line: u32,
    pub column: u32,
    pub order: &'a str,
}

/// A report on the class of a name, in words: the path is as written.
#[derive(Drop)]
pub struct NamedClass<'a> {
    pub path: &'a str,
    pub line: u32,
    pub column: u32,
}

/// An edit over an analysis.
#[derive(Drop)]
pub enum Edit<'a> {
    Renaming(Rename<'a>),
    Template(Reordering<'a>),
    Macro(Reordering<'a>),
}

/// A report on an analysis. `Find` has its query.
#[derive(Drop)]
pub enum Report<'a> {
    Class(NamedClass<'a>),
    Unused,
    Includes,
    Calls,
    Find(&'a str),
}

/// What is asked over a workspace. `Tokens` has the number of a unit, `Trim` whether it tells what stays, `Batch` its file.
#[derive(Drop)]
pub enum Ask<'a> {
    Tokens(u32),
    Skipped,
    Check,
    Report(Report<'a>),
    Edit(Edit<'a>),
    Trim(bool),
    Batch(&'a str),
}

/// What the program is asked for. `Generated` has the number of units, `Over` the workspace file.
#[derive(Drop)]
pub enum Request<'a> {
    Help,
    Version,
    Generated(u32),
    Over(&'a str, Ask<'a>),
}

/// The request of these words, or none where they are of no form. Takes no memory.
pub fn asked(words: &[String]) -> Option<Request<'_>>
    ensures { option_map request_value result ≡ asked (map string_bytes words.now) }
{
    if words.len() == 1 {
        return asked_alone(words[0].as_str());
    }
    if words.len() == 2 {
        return asked_by_two(words[0].as_str(), words[1].as_str());
    }
    if words.len() == 3 {
        let ask = asked_with_unit(words[1].as_str(), words[2].as_str());
        return over_file(words[0].as_str(), ask);
    }
    if words.len() == 5 {
        let ask = asked_at_place(
            words[1].as_str(),
            words[2].as_str(),
            words[3].as_str(),
            words[4].as_str(),
        );
        return over_file(words[0].as_str(), ask);
    }
    if words.len() == 6 {
        let ask = asked_with_name(
            words[1].as_str(),
            words[2].as_str(),
            words[3].as_str(),
            words[4].as_str(),
            words[5].as_str(),
        );
        return over_file(words[0].as_str(), ask);
    }
    if words.len() != 7 {
        return None;
    }
    let ask = asked_with_strings(
        words[1].as_str(),
        words[2].as_str(),
        words[3].as_str(),
        words[4].as_str(),
        words[5].as_str(),
        words[6].as_str(),
    );
    over_file(words[0].as_str(), ask)
}

fn asked_alone<'a>(word: &str) -> Option<Request<'a>>
    ensures { option_map request_value result ≡ alone_of word.now }
{
    if word == "--help" {
        Some(Request::Help)
    } else if word == "--version" {
        Some(Request::Version)
    } else {
        None
    }
}

fn asked_by_two<'a>(ws: &'a str, command: &str) -> Option<Request<'a>>
    ensures { option_map request_value result ≡ two_words_of ws.now command.now }
{
    if ws == "generate" && is_size(command.as_bytes()) {
        Some(Request::Generated(number(command.as_bytes())))
    } else {
        over_file(ws, asked_by_command(command))
    }
}

// What is asked over the workspace of this file, or none.
fn over_file<'a>(ws: &'a str, ask: Option<Ask<'a>>) -> Option<Request<'a>>
    ensures { option_map request_value result ≡ over_file ws.now (option_map ask_value ask.entry) }
{
    match ask {
        Some(ask) => Some(Request::Over(ws, ask)),
        None => None,
    }
}

fn asked_by_command<'a>(command: &str) -> Option<Ask<'a>>
    ensures { option_map ask_value result ≡ command_alone command.now }
{
    if command == "skipped" {
        Some(Ask::Skipped)
    } else if command == "check" {
        Some(Ask::Check)
    } else if command == "unused" {
        Some(Ask::Report(Report::Unused))
    } else if command == "includes" {
        Some(Ask::Report(Report::Includes))
    } else if command == "calls" {
        Some(Ask::Report(Report::Calls))
    } else if command == "trim" {
        Some(Ask::Trim(false))
    } else {
        None
    }
}

fn asked_with_unit<'a>(command: &str, unit: &'a str) -> Option<Ask<'a>>
    ensures { option_map ask_value result ≡ command_with_unit command.now unit.now }
{
    if command == "tokens" && is_number(unit.as_bytes()) {
        Some(Ask::Tokens(number(unit.as_bytes())))
    } else {
        asked_with_word(command, unit)
    }
}

fn asked_with_word<'a>(command: &str, word: &'a str) -> Option<Ask<'a>>
    ensures { option_map ask_value result ≡ command_with_word command.now word.now }
{
    if command == "find" {
        Some(Ask::Report(Report::Find(word)))
    } else if command == "batch" {
        Some(Ask::Batch(word))
    } else if command == "trim" && word == "stays" {
        Some(Ask::Trim(true))
    } else {
        None
    }
}

fn asked_at_place<'a>(command: &str, path: &'a str, line: &str, column: &str) -> Option<Ask<'a>>
    ensures { option_map ask_value result ≡ command_at_place command.now path.now line.now column.now }
{
    if command == "class" {
        asked_class(path, line, column)
    } else {
        None
    }
}

fn asked_class<'a>(path: &'a str, line: &str, column: &str) -> Option<Ask<'a>>
    ensures { option_map ask_value result ≡ class_report_of path.now line.now column.now }
{
    if is_number(line.as_bytes()) && is_number(column.as_bytes()) {
        Some(Ask::Report(Report::Class(NamedClass {
            path,
            line: number(line.as_bytes()),
            column: number(column.as_bytes()),
        })))
    } else {
        None
    }
}

fn asked_with_name<'a>(
    command: &str,
    path: &'a str,
    line: &str,
    column: &str,
    name: &'a str,
) -> Option<Ask<'a>>
    ensures { option_map ask_value result
        ≡ command_with_name command.now path.now line.now column.now name.now }
{
    if command == "rename" {
        asked_rename(path, line, column, name, false)
    } else if command == "template" {
        asked_template(path, line, column, name)
    } else if command == "macro" {
        asked_macro(path, line, column, name)
    } else {
        None
    }
}

fn asked_with_strings<'a>(
    command: &str,
    path: &'a str,
    line: &str,
    column: &str,
    name: &'a str,
    word: &str,
) -> Option<Ask<'a>>
    ensures { option_map ask_value result
        ≡ command_with_strings command.now path.now line.now column.now name.now word.now }
{
    if command == "rename" && word == "strings" {
        asked_rename(path, line, column, name, true)
    } else {
        None
    }
}

fn asked_template<'a>(path: &'a str, line: &str, column: &str, order: &'a str) -> Option<Ask<'a>>
    ensures { option_map ask_value result ≡ template_of path.now line.now column.now order.now }
{
    if is_number(line.as_bytes()) && is_number(column.as_bytes()) {
        Some(Ask::Edit(Edit::Template(Reordering {
            path,
            line: number(line.as_bytes()),
            column: number(column.as_bytes()),
            order,
        })))
    } else {
        None
    }
}

fn asked_macro<'a>(path: &'a str, line: &str, column: &str, order: &'a str) -> Option<Ask<'a>>
    ensures { option_map ask_value result ≡ macro_of path.now line.now column.now order.now }
{
    if is_number(line.as_bytes()) && is_number(column.as_bytes()) {
        Some(Ask::Edit(Edit::Macro(Reordering {
            path,
            line: number(line.as_bytes()),
            column: number(column.as_bytes()),
            order,
        })))
    } else {
        None
    }
}

fn asked_rename<'a>(
    path: &'a str,
    line: &str,
    column: &str,
    name: &'a str,
    strings: bool,
) -> Option<Ask<'a>>
    ensures { option_map ask_value result ≡ rename_of path.now line.now column.now name.now strings }
{
    if is_number(line.as_bytes()) && is_number(column.as_bytes()) {
        Some(Ask::Edit(Edit::Renaming(Rename {
            path,
            line: number(line.as_bytes()),
            column: number(column.as_bytes()),
            name,
            strings,
        })))
    } else {
        None
    }
}

/// Whether the word is a number: one to nine decimal digits, the first not 0.
pub fn is_number(word: &[u8]) -> bool
    ensures answer { result ≡ is_number word.now }
    ensures digits { IsTrue result → IsTrue (are_digits word.now) }
    ensures few { IsTrue result → length word.now ≤ 9 }
{
    are_digits(word) && !begins_with_zero(word) && 0 < word.len() && word.len() <= 9
}

// Whether the word is a number of units that a generated workspace may have.
fn is_size(word: &[u8]) -> bool
    ensures answer { result ≡ is_size word.now }
    ensures digits { IsTrue result → IsTrue (are_digits word.now) }
    ensures few { IsTrue result → length word.now ≤ 9 }
{
    is_number(word) && number(word) <= 1024
}

fn are_digits(word: &[u8]) -> bool
    ensures { result ≡ are_digits word.now }
{
    word.iter().all(|b| b.is_ascii_digit())
}

fn begins_with_zero(word: &[u8]) -> bool
    ensures { result ≡ begins_with_zero word.now }
{
    match word {
        [] => false,
        [first, ..] => *first == b'0',
    }
}

/// The number that the digits spell.
pub fn number(digits: &[u8]) -> u32
    requires digits { IsTrue (are_digits digits.now) }
    requires few { length digits.now ≤ 9 }
    ensures { result ≡ number_of digits.now }
{
    let mut n = 0u32;
    for digit in digits {
        n = 10 * n + (*digit - b'0') as u32;
    }
    n
}

/// The workspace file of a request, or nothing where it has none.
pub fn workspace_file<'a>(request: &Request<'a>) -> &'a str
    ensures { result.now ≡ workspace_file request.now }
{
    match request {
        Request::Generated(_) => "w.cs",
        Request::Over(ws, _) => ws,
        _ => "",
    }
}
