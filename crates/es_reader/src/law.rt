ghost use Rattle.es_reader.specs.Tying.{DefaultLaw, ExpressionLaw, ItemLaw, ProgramLaw, ReadingLaw};

/// Each reader of what nests at most so deep reads only what stands in the text by the rule of the grammar for that nest.
pub fn reading_is_sound()
    ensures { ReadingLaw }
{}

/// An expression that is read stands in the text, and the token behind it closes it.
pub fn expressions_are_sound()
    ensures { ExpressionLaw }
{}

/// An item that is read stands in the text, and no token behind it belongs to it.
pub fn items_are_sound()
    ensures { ItemLaw }
{}

/// What is read behind `export default` as a function or a class stands in the text.
pub fn defaults_are_sound()
    ensures { DefaultLaw }
{}

/// A program that is read is a tree of the text at the goal.
pub fn programs_are_sound()
    ensures { ProgramLaw }
{}
