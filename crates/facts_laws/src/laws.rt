ghost use Rattle.std.specs.Prelude.{◌≡◌};
ghost use Rattle.std.specs.List.{All};
ghost use Rattle.es_tree.specs.declared.tokens.ProgramGoal.TheVariants.{Script};
ghost use Rattle.pk_types.specs.declared.facts.Facts.{Facts as FactsValue};
ghost use Rattle.pk_types.specs.Fitting.{AreFitting};
ghost use Rattle.pk_types.specs.Lawful.{IsLawful};
ghost use Rattle.pk_types.specs.Places.{HasPlaces, HasShortLists};
ghost use Rattle.es_scope.specs.Source.{Source};
ghost use Rattle.es_scope.specs.Faults.{HasNoFault};
ghost use Rattle.es_scope.specs.FactsOf.{AreFacts};
ghost use Rattle.facts_laws.specs.Conditions.{HasFewMarks, IsOutlined};
ghost use Rattle.facts_laws.specs.Plain.{IsPlain};

/// The numbers in the facts of a text are places in the lists that they name.
pub fn facts_have_places()
    ensures { (source : Source) (facts : FactsValue) → AreFacts source facts → HasPlaces facts }
{}

/// Places in each list of facts are numbers of 32 bits, if those of the marks are.
pub fn lists_are_short()
    ensures { (source : Source) (facts : FactsValue) → HasFewMarks source
        → AreFacts source facts → HasShortLists facts }
{}

/// The outline of a script has no mark of an import or an export.
pub fn scripts_declare_nothing()
    ensures { (source : Source) → IsOutlined source → source.goal ≡ Script → All IsPlain source.marks }
{}

/// The facts of a text are as its kind allows, if it has no fault. Of the faults this needs two: a name is exported twice,
/// or a declared name begins like those that bundles use. That the facts of a script have no import and no export is so
/// because of its outline.
pub fn facts_are_lawful()
    ensures { (source : Source) (facts : FactsValue) → IsOutlined source → HasNoFault source
        → AreFacts source facts → IsLawful facts }
{}

/// The facts of a text fit.
pub fn facts_fit()
    ensures { (source : Source) (facts : FactsValue) → IsOutlined source → HasFewMarks source
        → HasNoFault source → AreFacts source facts → AreFitting facts }
{}
