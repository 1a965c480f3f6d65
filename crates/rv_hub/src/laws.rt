//! Laws of a hub's events: each contract is one, and no body does anything.
ghost use Rattle.std.specs.Prelude.{◌≡◌};
ghost use Rattle.rv_hub.specs.declared.hub.TheConstants.{DEFAULT_PATIENCE};
ghost use Rattle.rv_hub.specs.HandedOut.{EffectsTellPublicly, HandedOutIsPublic};
ghost use Rattle.rv_hub.specs.HubRuns.{AnswersByRules, BeginsAccount, EffectsLeadOn, EventsLeadOn};
ghost use Rattle.rv_hub.specs.HubRuns.{HubsAreRuns, TellsAsARepeat, TellsPublicReply};
ghost use Rattle.rv_hub.specs.Pairing.{BeginsPairs, FramesAreAnswered};
ghost use Rattle.rv_hub.specs.Pasts.{EffectsKeepPasts};

/// By default, a waiting request is told so after ten seconds.
pub fn default_patience()
    ensures { DEFAULT_PATIENCE ≡ 10000 }
{}

/// The events of a hub are effects. To the account they are one run of messages and of time alone, which
/// makes their entries in order; to each connection they are its past, so that its frames have one answer
/// each, in order. Any effects, one after another, keep each past so.
pub fn hubs_are_runs()
    ensures events { HubsAreRuns }
    ensures effects { EffectsKeepPasts }
{}

/// A new hub has the account of its machine, if that is legal. The effects of events lead from a legal
/// account to one with their entries added.
pub fn events_lead_on()
    ensures begins { BeginsAccount }
    ensures effects { EffectsLeadOn }
    ensures events { EventsLeadOn }
{}

/// A connection that waited is told what that account says of its request.
pub fn tells_public_reply()
    ensures { TellsPublicReply }
{}

/// It is told what a repeat of its request would be told by a step of that account.
pub fn tells_as_a_repeat()
    ensures { TellsAsARepeat }
{}

/// The answer to a step is that of a step of that account with the frame's message.
pub fn answers_by_rules()
    ensures { AnswersByRules }
{}

/// Each answer that a connection was given is the answer to the frame at its place: that of a step with the
/// frame's message, between two fronts of that account, except for bad text and want of memory. So what left
/// of it are the answers to its first frames, in order.
pub fn frames_are_answered()
    ensures begins { BeginsPairs }
    ensures events { FramesAreAnswered }
{}

/// Each answer that a connection was given is public, and so is what was handed out: it is within its limits,
/// and a reply is its key's reply by the entries that it rests on.
pub fn handed_out_is_public()
    ensures effects { EffectsTellPublicly }
    ensures events { HandedOutIsPublic }
{}
