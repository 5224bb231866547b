//! The facts of a text by the kind of its name.
ghost use Rattle.std.specs.Prelude.{◌≡◌, ◌≢◌, ◌<◌, ◌^◌, ◌+◌, true, false, length, IfOk};
ghost use Rattle.std.specs.Str.{IsUtf8};
ghost use Rattle.es_trace.specs.Trees.{IsOutlineOf};
ghost use Rattle.pk_types.specs.Fitting.{AreFitting};
ghost use Rattle.es_facts.specs.Answer as spec;

use crate::answer::{ModuleFault, Parsed};
use crate::gathering::facts_of;
use es_outline::{Mark, Outline};
use es_parser::parse;
use es_reader::ParseFault;
use es_scope::Outlined;
use es_tree::ProgramGoal;
use pk_base::Steps;
use pk_types::{Facts, Kind, NameKind};
use pkg_manifest::{ManifestFault, manifest};
use std::alloc::Global;
use std::sync::ledger::Ledger;

/// The marks of an outline are fewer.
const MAX_MARKS: usize = 0xffff_fffe;

// Why a text is no manifest, if it is none.
fn manifest_fault(alloc: Global, bytes: &[u8]) -> Option<ManifestFault>
    ensures { spec.JudgesJson bytes.now result }
{
    manifest(alloc, bytes).err()
}

// Whether a text is JSON.
fn is_json(alloc: Global, bytes: &[u8]) -> Result<bool, ModuleFault>
    ensures { spec.TellsJson bytes.now result }
{
    match manifest_fault(alloc, bytes) {
        None => Ok(true),
        Some(ManifestFault::NotObject) => Ok(true),
        Some(ManifestFault::NotJson) => Ok(false),
        Some(ManifestFault::NoMemory) => Err(ModuleFault::NoMemory),
    }
}

// The facts of a JSON module: none, if the text is JSON.
fn json_facts(alloc: Global, bytes: &[u8]) -> Result<Parsed, ModuleFault>
    ensures answer { spec.Answers bytes.now NameKind.Json result }
    ensures fit { spec.FitParsed result }
{
    if !is_json(alloc, bytes)? {
        return Err(ModuleFault::BadJson);
    }
    Ok(Parsed {
        facts: Facts::none(alloc, Kind::Json),
        outline: None,
    })
}

// The outline of a text at a goal; none where it has no tree.
fn outline_at<L: Ledger>(
    alloc: Global,
    bytes: &[u8],
    goal: ProgramGoal,
    steps: &mut Steps<L>,
) -> Result<Option<Outline>, ModuleFault>
    requires short { length bytes.now < 2 ^ 32 }
    ensures outline { spec.OutlinesGoal bytes.now goal result }
    ensures steps { steps.new ≡ steps.old + (length bytes.now + 1) }
{
    match parse(alloc, bytes, goal, steps) {
        Ok(outline) => Ok(Some(outline)),
        Err(ParseFault::Syntax) => Ok(None),
        Err(ParseFault::NoMemory) => Err(ModuleFault::NoMemory),
    }
}

// The facts of a text that has these marks at a goal.
fn marked_facts(
    alloc: Global,
    bytes: &[u8],
    goal: ProgramGoal,
    marks: &[Mark],
) -> Result<Facts, ModuleFault>
    requires short { length marks.now + 2 < 2 ^ 32 }
    requires outlined { IsOutlineOf bytes.now goal marks.now }
    ensures answer { spec.AnswersAt (spec.source_of bytes.now goal marks.now) result }
    ensures fit { IfOk result AreFitting }
{
    facts_of(alloc, &Outlined::new(bytes, goal, marks))
}

// The facts of a text that has this outline at a goal.
fn facts_at(
    alloc: Global,
    bytes: &[u8],
    goal: ProgramGoal,
    outline: Outline,
) -> Result<Parsed, ModuleFault>
    requires outlined { IsOutlineOf bytes.now goal outline.marks }
    ensures answer { spec.AnswersMarks bytes.now goal outline result }
    ensures fit { spec.FitParsed result }
{
    // An outline of 2^32 marks would take 64 GiB.
    if outline.marks().len() >= MAX_MARKS {
        return Err(ModuleFault::NoMemory);
    }
    let facts = marked_facts(alloc, bytes, goal, outline.marks())?;
    Ok(Parsed {
        facts,
        outline: Some(outline),
    })
}

// The facts of a text at a goal, or none where it has no tree.
fn at_goal<L: Ledger>(
    alloc: Global,
    bytes: &[u8],
    goal: ProgramGoal,
    steps: &mut Steps<L>,
) -> Result<Option<Parsed>, ModuleFault>
    requires short { length bytes.now < 2 ^ 32 }
    ensures answer { spec.AnswersGoal bytes.now goal result }
    ensures fit { spec.FitGoal result }
    ensures steps { steps.new ≡ steps.old + (length bytes.now + 1) }
{
    match outline_at(alloc, bytes, goal, steps)? {
        Some(outline) => facts_at(alloc, bytes, goal, outline).map(Some),
        None => Ok(None),
    }
}

// Whether the answer is that the text has no tree.
fn is_treeless(answer: &Result<Option<Parsed>, ModuleFault>) -> bool
    ensures { result ≡ spec.is_treeless answer.now }
{
    matches!(answer, Ok(None))
}

// That a text has no tree is its fault.
fn or_syntax(answer: Result<Option<Parsed>, ModuleFault>) -> Result<Parsed, ModuleFault>
    ensures { result ≡ spec.or_syntax answer }
{
    match answer {
        Ok(Some(parsed)) => Ok(parsed),
        Ok(None) => Err(ModuleFault::Syntax),
        Err(fault) => Err(fault),
    }
}

// The facts of a module of ECMAScript.
fn of_module<L: Ledger>(
    alloc: Global,
    bytes: &[u8],
    steps: &mut Steps<L>,
) -> Result<Parsed, ModuleFault>
    requires short { length bytes.now < 2 ^ 32 }
    requires utf8 { IsUtf8 bytes.now }
    ensures answer { spec.Answers bytes.now NameKind.Module result }
    ensures fit { spec.FitParsed result }
    ensures steps { steps.new ≡ steps.old + (length bytes.now + 1) }
{
    or_syntax(at_goal(alloc, bytes, ProgramGoal::Module, steps))
}

// The facts of a script.
fn of_script<L: Ledger>(
    alloc: Global,
    bytes: &[u8],
    steps: &mut Steps<L>,
) -> Result<Parsed, ModuleFault>
    requires short { length bytes.now < 2 ^ 32 }
    requires utf8 { IsUtf8 bytes.now }
    ensures answer { spec.Answers bytes.now NameKind.Common result }
    ensures fit { spec.FitParsed result }
    ensures steps { steps.new ≡ steps.old + (length bytes.now + 1) }
{
    or_syntax(at_goal(alloc, bytes, ProgramGoal::Script, steps))
}

// The facts of a text whose name doesn't say what it is.
fn of_either<L: Ledger>(
    alloc: Global,
    bytes: &[u8],
    steps: &mut Steps<L>,
) -> Result<Parsed, ModuleFault>
    requires short { length bytes.now < 2 ^ 32 }
    requires utf8 { IsUtf8 bytes.now }
    ensures answer { spec.Answers bytes.now NameKind.Either result }
    ensures fit { spec.FitParsed result }
    ensures steps { spec.TakesOnceOrTwice bytes.now steps.old steps.new }
{
    let script = at_goal(alloc, bytes, ProgramGoal::Script, steps);
    if is_treeless(&script) {
        return or_syntax(at_goal(alloc, bytes, ProgramGoal::Module, steps));
    }
    or_syntax(script)
}

// Whether a text is UTF-8.
fn is_utf8(bytes: &[u8]) -> bool
    ensures yes { result ≡ true → IsUtf8 bytes.now }
    ensures no { result ≡ false → ¬ IsUtf8 bytes.now }
{
    std::str::from_utf8(bytes).is_ok()
}

// The facts of a text whose name says that it is a program.
fn program_facts<L: Ledger>(
    alloc: Global,
    name: NameKind,
    bytes: &[u8],
    steps: &mut Steps<L>,
) -> Result<Parsed, ModuleFault>
    requires short { length bytes.now < 2 ^ 32 }
    requires program { name ≢ NameKind.Json }
    ensures answer { spec.Answers bytes.now name result }
    ensures fit { spec.FitParsed result }
    ensures steps { spec.TakesProgramSteps bytes.now name steps.old steps.new }
{
    if !is_utf8(bytes) {
        return Err(ModuleFault::NotUtf8);
    }
    match name {
        NameKind::Module => of_module(alloc, bytes, steps),
        NameKind::Common => of_script(alloc, bytes, steps),
        _ => of_either(alloc, bytes, steps),
    }
}

/// The facts of a text and the outline that gave them, or its first fault. By its name it is JSON, a module, a script, or a
/// script where it has a tree as one and else a module. For each goal at which it is parsed the steps are the bytes and one
/// more.
pub fn facts<L: Ledger>(
    alloc: Global,
    name: NameKind,
    bytes: &[u8],
    steps: &mut Steps<L>,
) -> Result<Parsed, ModuleFault>
    requires short { length bytes.now < 2 ^ 32 }
    ensures answer { spec.Answers bytes.now name result }
    ensures fit { spec.FitParsed result }
    ensures steps { spec.TakesSteps bytes.now name steps.old steps.new }
{
    if name == NameKind::Json {
        return json_facts(alloc, bytes);
    }
    program_facts(alloc, name, bytes, steps)
}
