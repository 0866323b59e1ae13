//! Theorems about summaries. The functions do nothing; their contracts are proved of the definition alone.
ghost use Rattle.drf_why.specs.PassLaws.{EachIsPassedBySomebody, EachPasserPasses};
ghost use Rattle.drf_why.specs.SumLaws.{CountsAddUp, EachHasItsPassers, EachIsPassedRightly};

use drf_explain::reasons_law;

/// Proves that counts and clients of a summary are consistent. For a client that is tried on every agent on which any client is tried, the
/// counts of its outcomes and of the agents on which no client is tried add up to the number of agents, if that is below 2^64. A client is
/// counted as passed over exactly if some client passes it over. A client that is passed over on an agent is in the turn there, and the cycle
/// would grant it something if it were tried first.
pub fn summary_law()
    ensures counts { CountsAddUp }
    ensures passers { EachHasItsPassers }
    ensures rightly { EachIsPassedRightly }
{
    reasons_law();
}

/// Proves which clients pass over a client on an agent: the client is granted nothing there, and they come before it in the turn and are granted
/// a part of what it would be granted if it were tried first. The client is passed over exactly if there is such a client.
pub fn passers_law()
    ensures each { EachPasserPasses }
    ensures some { EachIsPassedBySomebody }
{
    reasons_law();
}
