//! Laws of the words of a command line: each contract is one, and no body does anything.
ghost use Rattle.rv_words.specs.command.Laws.{BookOneIsNamed, OneCommand};

/// Words name at most one command.
pub fn one_command()
    ensures { OneCommand }
{}

/// The words `rv book --epoch 1` name the book of epoch 1.
pub fn book_one_is_named()
    ensures { BookOneIsNamed }
{}
