// Why a kept file does not get other bytes.
use lexer::LexRefusal;

/// What `Cache::edit` answers where it leaves a file as it is, in the order in which it looks.
#[derive(Drop)]
pub enum EditRefusal {
    /// All opened files would have more than 2^28 bytes.
    TooManyBytes,
    /// The new bytes are no text, or memory ran out.
    Unread(LexRefusal),
}
