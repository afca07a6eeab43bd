//! The program behind its words: it renames identifiers of C programs, preprocesses their units, and tells what must
//! be spelled alike and what no unit uses, and who calls whom.
//!
//! `run` is the whole program over an outside that is handed in: the words, files, a sink for output and one for
//! messages. It answers as `specs/Answer.antt` says over the files held, and `specs/Outcome.antt` says what stands
//! where the outside fails. `show` runs it on words behind `--diff`: the diffs of the edits stand behind the output, and
//! no file is put (`specs/Shown.antt`). `explain` tells behind either what the message does not, on words behind `--why`
//! (`specs/Noted.antt`). `HostFiles` and `HostSink` are the real files and streams, which the program `cscout_cli`
//! hands it. What words ask for, the help and the lines of messages stand in the crate `command_words`.
//!
//! What is asked over a workspace is a table: `specs/Asks.antt` has a line for each report and each edit, and for each
//! edit a line that says what it keeps; `reports.rt` and `edits.rt` have an arm for each. All that may want memory is
//! done in `preparing.rt` and what it calls, before the first put; messages are told in pieces and want none. What was
//! analysed for an ask other than a batch is not taken apart behind it: its memory goes when the process ends. Read
//! `specs/Asks.antt`, `specs/Answer.antt`, `specs/Outcome.antt`, `specs/Promise.antt`, then `top.rt`.
#![tactic(auto)]

mod analysing;
mod batches;
mod checks;
mod edits;
mod generating;
mod host;
mod laws;
mod leaving;
mod noting;
mod preparing;
mod reports;
mod showing;
mod status;
mod stops;
mod telling;
mod top;
mod trims;
mod units;
mod workspace_files;

pub use host::{HostFiles, HostSink};
pub use laws::words_and_files_decide;
pub use noting::explain;
pub use showing::show;
pub use status::Status;
pub use top::run;
