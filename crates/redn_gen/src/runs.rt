//! The law of what the generated file does. A call does nothing.

ghost use Rattle.redn_gen.specs.Runs.{EachChainReplies};

/// In whatever order the chains of a generated file take their steps, each takes 6,004 at most, and
/// where none can go on each has replied once, with 1,000 times the value that it looked up.
pub fn each_chain_replies()
    ensures { EachChainReplies }
{}
