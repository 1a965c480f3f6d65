//! The laws of the program's input and output: of command lines, of the lines of the book's input and of
//! accounts, of plays, and of what is verified.
ghost use Rattle.rv_app.specs.Verified.{ZeroKeepsAll};

pub use rv_book::lines::laws::{
    book_fits_lines, no_bad_line, one_account, one_bad_line, written_account, written_lines,
};
pub use rv_run::play::laws::{
    headline_of_plays, one_event, one_line_each, play_is_run, texts_stay,
};
pub use rv_run::turns::laws::one_reading;
pub use rv_words::command::laws::{book_one_is_named, one_command};

/// If the status of an account and of a record beside it is 0, the account's end isn't torn, its lines are a
/// legal account whose state has had room, and each line of the record is that of a reply that this account
/// gives.
pub fn zero_keeps_all()
    ensures { ZeroKeepsAll }
{}
