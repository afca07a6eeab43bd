// The words behind each command.
ghost use Rattle.std.specs.Prelude.{◌≡◌, option_copied};
ghost use Rattle.usage_notes.specs.Forms.{form_of, is_alone, is_edit};

/// A command with a place, and a name or an order behind it.
pub(crate) fn is_edit(command: &str) -> bool
    ensures { result ≡ is_edit command.now }
{
    command == "rename" || (command == "template" || command == "macro")
}

// A command without a word behind it.
fn is_alone(command: &str) -> bool
    ensures { result ≡ is_alone command.now }
{
    command == "skipped"
        || (command == "check"
            || (command == "unused" || (command == "includes" || command == "calls")))
}

/// What a command takes; none for a word that is no command.
pub(crate) fn form_of(command: &str) -> Option<&'static [u8]>
    ensures { option_copied result ≡ form_of command.now }
{
    if command == "rename" {
        Some(b"PATH LINE COL NAME [strings]")
    } else if is_edit(command) {
        Some(b"PATH LINE COL ORDER")
    } else if command == "class" {
        Some(b"PATH LINE COL")
    } else if command == "tokens" {
        Some(b"UNIT")
    } else if command == "trim" {
        Some(b"[stays]")
    } else if command == "find" {
        Some(b"QUERY")
    } else if command == "batch" {
        Some(b"FILE")
    } else if is_alone(command) {
        Some(b"no word behind it")
    } else {
        None
    }
}
