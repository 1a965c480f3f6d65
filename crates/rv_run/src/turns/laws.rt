//! A law of the lines of the book's input: the function is its contract, over the definitions alone.
ghost use Rattle.rv_run.specs.turns.Laws.{OneReading};

/// A line of the book's input is read as one moment and one message at most.
pub fn one_reading()
    ensures { OneReading }
{
    rv_text::laws::one_message();
}
