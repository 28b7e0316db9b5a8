//! The words of an administrator as requests.
//!
//! A client sends a list of words. `command` makes of them the one request that they spell, with its values, or tells what is wrong with
//! them first: that they name no command, that they are too few or too many, that a jail can have no such name, and then which value is
//! none. `CommandError::refusal` is what the client is told. Nothing here knows a connection, which jails there are, or what a request
//! does.
//!
//! ```text
//! set sshd banip 192.0.2.7        // Request::SetBanip { jail, addrs }
//! set nojail banip 1.2.3          // Bad address: word 4, whether there is such a jail or not
//! set sshd findtime 5q            // Bad number
//! set sshd nothing                // Invalid command
//! banned 192.0.2.7                // Request::Holders { addrs }
//! ```
#![tactic(auto)]

mod commands;
mod error;
mod numbers;
mod request;
mod values;
mod verb;

pub use commands::command;
pub use error::CommandError;
pub use request::Request;
