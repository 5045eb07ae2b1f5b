//! The script language: what a script is, reading one and printing one.
//!
//! A script is a list of lines, and a line a list of words with one space between each two. Three
//! lines state the format, the frames and the frames held; the body has the commands, with forks
//! nested up to 16 deep; what follows `close` asks about the words that are left. `specs/Grammar` has
//! the grammar twice: as productions, within the limits (3 to 6 levels where they are stated, frames
//! up to the format's limit, 65,536 command lines, 256 dumps), and as a table of what may come next.
//! `specs/Text` says where a text stops being a script and why.
//!
//! It stands on the numbers of `pt_stream`, the plain data of `pt_model` and `Memory` of `pt_num`. It
//! promises:
//!
//! - The table takes to its end exactly the lists of lines that the productions make
//!   (`is_the_grammar`).
//! - `parse` answers a script whose text this is, or the line and the reason of `specs/Text`. A text
//!   has at most one of these (`one_refusal`), and is then that of no script (`bad_is_no_script`);
//!   the line is the first that no script has after the lines before it (`bad_line_is_first`).
//! - `print` answers a script's text. No two scripts have one text (`one_script`), so what is read
//!   and printed comes back, and what is printed and read (`print_again`, `read_again`).
//! - `branches` answers the places of the lines that part and end a fork.
//!
//! Want of memory is the one other answer.
#![tactic(auto)]

mod again;
mod draft;
mod error;
mod fork;
mod grammar;
mod laws;
mod line;
mod parsing;
mod printing;
mod progress;
mod reading;
mod script;
mod stage;
mod whole;

pub use again::{one_script, print_again, read_again, scripts_are_legal};
pub use error::{Reason, ScriptError};
pub use fork::{bodies_come_apart, branches};
pub use grammar::is_the_grammar;
pub use laws::{bad_is_no_script, bad_line_is_first, one_refusal, one_text};
pub use line::{Keyword, Line, Side};
pub use parsing::parse;
pub use printing::{name_text, print, push_prot};
pub use pt_model::{Ask, AskWhat, Command, Name, Prot, What};
pub use script::{Body, Tail};
pub use whole::Script;

#[cfg(test)]
mod tests;
