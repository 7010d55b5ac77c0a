// The language: what a rule means, what its code is, what the machine does with it, and that they agree.
// No code runs here: each function's contract is a theorem.
#![tactic(auto)]

ghost use Rattle.meaning.specs.Violations.{RefusalIsLeast};
ghost use Rattle.meaning.specs.Agreement.{CodeMeans, NeverStuck, FramesServe, RunsCut, RunsEnd, MemorySuffices, PairLaw, CodeIsShort};
ghost use Rattle.meaning.specs.Pairs.{PairsLead};
ghost use Rattle.meaning.specs.Examples.{ExamplesHold};

// A rule without violations runs as its named meaning says: the same outcome at the same step, the same entries.
pub fn code_means()
    ensures { CodeMeans }
{}

// Its run is never stuck.
pub fn never_stuck()
    ensures { NeverStuck }
{}

// The frame memory never refuses it anything by 27 or 28.
pub fn frames_serve()
    ensures { FramesServe }
{}

// A run can be cut anywhere.
pub fn runs_cut()
    ensures { RunsCut }
{}

// No run has more than 1,000,000 steps.
pub fn runs_end()
    ensures { RunsEnd }
{}

// The machine's memory suffices.
pub fn memory_suffices()
    ensures { MemorySuffices }
{}

// Where frames stand for an environment, the pair of a name leads to what the name stands for.
pub fn pairs_lead()
    ensures { PairsLead }
{}

// During a run they do, at every use of a name.
pub fn pair_law()
    ensures { PairLaw }
{}

// A rule is refused by the least of its violations.
pub fn refusal_is_least()
    ensures { RefusalIsLeast }
{}

// The code has at most three instructions a node.
pub fn code_is_short()
    ensures { CodeIsShort }
{}

// The worked examples come out as they are said to.
pub fn examples_hold()
    ensures { ExamplesHold }
{}
