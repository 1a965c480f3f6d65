//! Laws of a server that crashes and goes on, and of the world around it: each function is its contract, over
//! the definitions alone.
ghost use Rattle.rv_store.specs.servers.crashes.Laws.{EffectsKeepServers, EveryAnswerAcross};
ghost use Rattle.rv_store.specs.servers.crashes.Laws.{LegalAccountsAcross, NeverHandedOverAcross};
ghost use Rattle.rv_store.specs.servers.crashes.Laws.{NoTwoRepliesAcross, NobodyForgottenAcross};
ghost use Rattle.rv_store.specs.servers.crashes.Laws.{OnlyGrowthAcross, OrderOfArrivalAcross};
ghost use Rattle.rv_store.specs.servers.crashes.Laws.{ReceivedMeansAssignedAcross, SentIsStored};
ghost use Rattle.rv_store.specs.servers.crashes.Laws.{ServersBegin, TodayIsTheCase, TrueExchangeAcross};

/// Whatever messages came, a server begins with a legal account, and holds no answer back.
pub fn servers_begin()
    ensures { ServersBegin }
{}

/// Whatever messages came, a server's effects keep what it made legal and what it stored, and each answer
/// that it holds back is that of a step, or want of memory.
pub fn effects_keep_servers()
    ensures { EffectsKeepServers }
{}

/// Whatever messages came, an answer that may be sent is that of a step between two fronts of what is stored,
/// or want of memory.
pub fn sent_is_stored()
    ensures { SentIsStored }
{}

/// Whatever occurs, no request is answered with two replies, and each reply is its key's in what is stored.
pub fn no_two_replies_across()
    ensures { NoTwoRepliesAcross }
{
    effects_keep_servers();
    sent_is_stored();
}

/// Whatever occurs, all that servers made is legal, and each arrival in it was asked.
pub fn legal_accounts_across()
    ensures { LegalAccountsAcross }
{
    effects_keep_servers();
    sent_is_stored();
}

/// Whatever occurs, an item that is answered received was assigned to one taker, by what is stored.
pub fn received_means_assigned_across()
    ensures { ReceivedMeansAssignedAcross }
{
    effects_keep_servers();
    sent_is_stored();
}

/// Whatever occurs, a request that is answered with a no meets nobody in all that is made, then or after
/// whatever else occurs.
pub fn never_handed_over_across()
    ensures { NeverHandedOverAcross }
{
    effects_keep_servers();
    sent_is_stored();
}

/// Whatever occurs, items leave the queues of all that is made in the order of their arrival.
pub fn order_of_arrival_across()
    ensures { OrderOfArrivalAcross }
{
    effects_keep_servers();
    sent_is_stored();
}

/// Whatever occurs, a client that is answered that it swapped got its one partner's item, by what is stored.
pub fn true_exchange_across()
    ensures { TrueExchangeAcross }
{
    effects_keep_servers();
    sent_is_stored();
}

/// Whatever else occurs only adds: to what was asked and held, to the answers, and to what is stored.
pub fn only_growth_across()
    ensures { OnlyGrowthAcross }
{
    effects_keep_servers();
    sent_is_stored();
}

/// Whatever occurs, each answer that was sent is that of a step with a message of its client between two
/// fronts of what is stored, or want of memory.
pub fn every_answer_across()
    ensures { EveryAnswerAcross }
{
    effects_keep_servers();
    sent_is_stored();
}

/// Whatever occurs, no answer that was sent is a refusal by which a client that keeps the protocol was
/// forgotten.
pub fn nobody_is_forgotten_across()
    ensures { NobodyForgottenAcross }
{
    effects_keep_servers();
    sent_is_stored();
}

/// Whatever happens in the network world occurs here too, and leaves the same world, if a server stores and
/// sends at once.
pub fn today_is_the_case()
    ensures { TodayIsTheCase }
{}
