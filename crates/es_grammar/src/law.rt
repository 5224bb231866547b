ghost use Rattle.es_grammar.specs.Nests.{DeepLaw, GrowingLaw, TooDeepLaw};
ghost use Rattle.es_grammar.specs.Tokens.{YieldLaw};

/// The tokens of a text's tree stand in the text one behind the other: each is read, at some goal, where the one before it
/// ended, and behind the last one the text ends.
pub fn tokens_are_the_yield()
    ensures { YieldLaw }
{}

/// What stands by the rules to a nest stands by those to each greater one.
pub fn greater_nests_hold_more()
    ensures { GrowingLaw }
{}

/// A text of pairs of square brackets in one another has a tree where there are fewer than `MAX_NEST` pairs.
pub fn arrays_nest_to_the_limit()
    ensures { DeepLaw }
{}

/// A text that begins with `MAX_NEST` opening square brackets has no tree.
pub fn brackets_nest_no_deeper()
    ensures { TooDeepLaw }
{}
