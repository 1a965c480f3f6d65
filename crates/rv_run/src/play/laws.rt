//! Laws of plays: each function is its contract, over the definitions alone.
ghost use Rattle.rv_run.specs.play.Laws.{HeadlineOfPlays, OneEvent, OneLineEach, PlayIsRun, TextsStay};

/// A line says one event at most.
pub fn one_event()
    ensures { OneEvent }
{
    rv_text::laws::one_call();
}

/// The events that the world took in a play, those that were not refused, are a run of the world.
pub fn play_is_run()
    ensures { PlayIsRun }
{}

/// The headline holds of the world that a play leads to.
pub fn headline_of_plays()
    ensures { HeadlineOfPlays }
{
    rv_world::laws::headline_holds();
}

/// The output of a play, cut at its line ends, is one line for each turn: the turn's text.
pub fn one_line_each()
    ensures { OneLineEach }
{}

/// The text of a turn stays true until the end of the play: the answer that it shows was sent, and the reply
/// that it shows is held.
pub fn texts_stay()
    ensures { TextsStay }
{
    rv_world::laws::runs_only_grow();
}
