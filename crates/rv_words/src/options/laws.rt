//! Laws of the words of `rv host`: each contract is one, and no body does anything.
ghost use Rattle.rv_words.specs.options.Laws.{BareAlone, BareAreNamed};

/// Words that give only an address name options with all defaults.
pub fn defaults_are_named()
    ensures { BareAreNamed }
{}

/// They name no others.
pub fn defaults_alone()
    ensures { BareAlone }
{}
