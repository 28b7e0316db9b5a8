//! What helps whoever sits at the terminal, beside what the run says.

use run_law::Status;

/// A sentence for whoever can mend what ended the run, where there is one.
pub fn advice(status: &Status) -> Option<&'static str> {
    match status {
        Status::Usage => Some("fail2ban-server --help lists the words"),
        Status::ConfRefused(error) => Some(error.kind.help()),
        Status::DiskFault => Some(
            "is another server running, and may this one write beside the socket of its configuration?",
        ),
        Status::NotAJournal { .. } => Some(
            "to begin with nothing take journal.0 and journal.1 away, beside the socket of its configuration",
        ),
        Status::GateFault => Some(
            "does anything else stand or answer at the socket of its configuration, whose path has 103 bytes at most?",
        ),
        Status::JournalFull { .. } => Some("--journal-limit BYTES lets it get longer"),
        _ => None,
    }
}
