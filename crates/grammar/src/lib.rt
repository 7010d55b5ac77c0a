// The grammar: which words are a rule, the tree they build, and that one pass over the words decides it.
// No code runs here: each function's contract is a theorem.
#![tactic(auto)]

ghost use Rattle.grammar.specs.Answer.{ReadingDecides};
ghost use Rattle.grammar.specs.Spelling.{KindsSuffice};
ghost use Rattle.grammar.specs.Lines.{LinesHold};
ghost use Rattle.grammar.specs.Examples.{ExamplesHold};

// Reading decides the grammar: a tree, 7 or 8, each exactly where the texts that exist say so; at most one tree.
pub fn reading_decides()
    ensures { ReadingDecides }
{}

// Words of the same kinds as a text's are a text.
pub fn kinds_suffice()
    ensures { KindsSuffice }
{}

// Reading goes line by line, whatever is to come after a line.
pub fn lines_hold()
    ensures { LinesHold }
{}

// The worked examples are read as they are said to be.
pub fn examples_hold()
    ensures { ExamplesHold }
{}
