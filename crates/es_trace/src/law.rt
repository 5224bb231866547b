ghost use Rattle.es_trace.specs.Trees.{OneTreeLaw, SomeOrNoneLaw, TreeParsesLaw};
ghost use Rattle.es_trace.specs.Tying.{OutlineLaw, TracingLaw};

/// Each tracer of what nests at most so deep follows the reader of its rule.
pub fn tracers_follow()
    ensures { TracingLaw }
{}

/// What is traced of a text is the outline of the tree that is read, and nothing where nothing is read.
pub fn outlines_are_traced()
    ensures { OutlineLaw }
{}

/// A text has one tree at most.
pub fn trees_are_one()
    ensures { OneTreeLaw }
{}

/// A text that has a tree isn't one without.
pub fn trees_are_some()
    ensures { SomeOrNoneLaw }
{}

/// The tree of a text parses by the grammar, at the goal.
pub fn trees_parse()
    ensures { TreeParsesLaw }
{}
