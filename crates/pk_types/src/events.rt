use crate::facts::Name;
use pk_text::Text;

/// What happens to a running bundle. Each is one line of a script.
#[derive(Debug, Drop)]
pub enum Event {
    /// A chunk arrives.
    Arrive(u32),

    /// A chunk fails to arrive.
    Fail(u32),

    /// What a call waits for is looked at, and its target evaluated.
    Settle(u32),

    /// The innermost open body ends.
    End,

    /// The innermost open body throws a value.
    Throw(u32),

    /// The module with this label takes a step.
    Do(Text, Step),
}

/// What a module does. A site is named by its place in the list of the module's sites.
#[derive(Debug, Drop)]
pub enum Step {
    /// It reads at a site.
    Read(u32),

    /// It writes a value at a site.
    Write(u32, u32),

    /// It calls `require` at a site.
    Require(u32),

    /// It calls `import()` at a site.
    Import(u32),

    /// It gives a property of its first exports object a value.
    Export(Name, u32),

    /// It gives `module.exports` a value.
    Whole(u32),
}

/// What a running bundle answers to an event. A label is named by its place in the list of labels in byte order, and so
/// is a name that is read of JSON.
#[derive(Clone, Copy, Debug, PartialEq, Eq)]
pub enum Reply {
    /// The table has no such chunk.
    NoChunk,

    /// No such call is open.
    NoCall,

    /// No module has the label.
    NoLabel,

    /// The module has no such site.
    NoSite,

    /// The step doesn't fit the site, or the module.
    WrongStep,

    /// A body is open.
    Busy,

    /// No body is open.
    Idle,

    Done,

    /// As many calls were made as may be.
    Full,

    /// A `require` returned.
    Returned,

    /// The module isn't linked, or not started.
    Unlinked,

    /// What is written is constant, or an import.
    ReadOnly,

    Undefined,

    /// The cell has no value yet.
    Uninit,

    /// The cell holds a declared function.
    Function,

    Value(u32),

    /// The call waits for a chunk.
    NotYet(u32),

    /// The number of the call that was made.
    Call(u32),

    /// The call settled.
    Settled(u32),

    /// No chunk that arrived has the module with this label.
    Lacks(u32),

    /// The body of the module with this label is open.
    Entered(u32),

    /// The exports of the module with this label, as they are.
    Whole(u32),

    /// The namespace of the module with this label.
    Namespace(u32),

    /// A name of the JSON module with this label.
    Data(u32, u32),

    /// The call is lost with a chunk that failed.
    Lost(u32),

    /// A call's evaluation failed with a value.
    Failed(u32, u32),

    /// A `require` threw a value.
    Threw(u32),
}

/// How far a module has come.
#[derive(Clone, Copy, Debug, PartialEq, Eq)]
pub enum Status {
    /// No module has the label.
    Unknown,

    /// None of what was evaluated needed it.
    Unlinked,

    /// It is linked, and its body was not entered.
    Linked,

    /// Its body is open.
    Open,

    /// Its body ended.
    Evaluated,

    /// It keeps the value with which its evaluation failed.
    Failed(u32),
}
