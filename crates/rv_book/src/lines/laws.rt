//! What holds of the lines of accounts as such: each contract is a law, and the bodies do nothing.
ghost use Rattle.rv_book.specs.lines.Laws.{BookFitsLines, NoBadLine, OneAccount, OneBadLine};
ghost use Rattle.rv_book.specs.lines.Laws.{WrittenAccount, WrittenLines};

/// What is written for a legal account within its limits, as each book's is, is read as that account.
pub fn written_account()
    ensures { WrittenAccount }
{}

/// The same of any account within some limits of lines, which needn't be legal: so of places up to 2^53 - 1.
pub fn written_lines()
    ensures { WrittenLines }
{}

/// A legal account within its limits, as each book's is, is within those of lines, and so are the partners of
/// each entry, so its line is short.
pub fn book_fits_lines()
    ensures { BookFitsLines }
{}

/// Lines are read as one account at most.
pub fn one_account()
    ensures { OneAccount }
{}

/// Lines have one first bad line at most.
pub fn one_bad_line()
    ensures { OneBadLine }
{}

/// Lines that are read as an account have no bad one.
pub fn no_bad_line()
    ensures { NoBadLine }
{}
