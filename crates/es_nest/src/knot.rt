//! The one closure that reads what nests, and the nest that is left for it.
ghost use Rattle.std.specs.Prelude.{◌≡◌, ◌≤◌, length, IfOk};
ghost use Rattle.es_trace.specs.Basics.{Traces};
ghost use Rattle.es_trace.specs.Tying.{tracers_to};
ghost use Rattle.es_cursor.specs.Standing.{Stands};
ghost use Rattle.es_nest.specs.Ties.{Ties};

use es_cursor::Cursor;
use es_grammar::{Context, Stop};
use es_outline::Outline;
use es_reader::ParseFault;
use es_trace::Rule;

/// Who is called for a part that nests, and how deep it may be. `Ties` says that the calls answer so.
#[derive(Drop)]
pub struct Knot<
    'a,
    K: Fn(&mut Cursor, &mut Outline, Rule, Context, u32) -> Result<Stop, ParseFault>,
> {
    pub call: &'a K,
    pub nest: u32,
}

impl<'a, K: Fn(&mut Cursor, &mut Outline, Rule, Context, u32) -> Result<Stop, ParseFault>> Knot<
    'a,
    K,
> {
    /// An item.
    pub fn item(
        &self,
        cursor: &mut Cursor,
        outline: &mut Outline,
        c: Context,
        at: u32,
    ) -> Result<u32, ParseFault>
        requires stands { Stands cursor.old at }
        requires ties { Ties (K.pre self.now.call.now) (K.post self.now.call.now) self.now.nest }
        ensures traces { Traces ((tracers_to cursor.old self.now.nest).item c
            outline.old.marks at) outline.new.marks result }
        ensures within { IfOk result (λ end. end ≤ length cursor.old) }
        ensures same { cursor.new ≡ cursor.old }
        ensures kept { outline.new.kept ≡ outline.old.kept }
    {
        let stop = (self.call)(cursor, outline, Rule::Item, c, at)?;
        Ok(stop.at)
    }

    /// A statement.
    pub fn stmt(
        &self,
        cursor: &mut Cursor,
        outline: &mut Outline,
        c: Context,
        at: u32,
    ) -> Result<u32, ParseFault>
        requires stands { Stands cursor.old at }
        requires ties { Ties (K.pre self.now.call.now) (K.post self.now.call.now) self.now.nest }
        ensures traces { Traces ((tracers_to cursor.old self.now.nest).stmt c
            outline.old.marks at) outline.new.marks result }
        ensures within { IfOk result (λ end. end ≤ length cursor.old) }
        ensures same { cursor.new ≡ cursor.old }
        ensures kept { outline.new.kept ≡ outline.old.kept }
    {
        let stop = (self.call)(cursor, outline, Rule::Stmt, c, at)?;
        Ok(stop.at)
    }

    /// An assignment.
    pub fn assign(
        &self,
        cursor: &mut Cursor,
        outline: &mut Outline,
        c: Context,
        at: u32,
    ) -> Result<Stop, ParseFault>
        requires stands { Stands cursor.old at }
        requires ties { Ties (K.pre self.now.call.now) (K.post self.now.call.now) self.now.nest }
        ensures traces { Traces ((tracers_to cursor.old self.now.nest).assign c
            outline.old.marks at) outline.new.marks result }
        ensures within { IfOk result (λ end. end.at ≤ length cursor.old) }
        ensures same { cursor.new ≡ cursor.old }
        ensures kept { outline.new.kept ≡ outline.old.kept }
    {
        (self.call)(cursor, outline, Rule::Assign, c, at)
    }

    /// An operand with a prefix.
    pub fn prefixed(
        &self,
        cursor: &mut Cursor,
        outline: &mut Outline,
        c: Context,
        at: u32,
    ) -> Result<Stop, ParseFault>
        requires stands { Stands cursor.old at }
        requires ties { Ties (K.pre self.now.call.now) (K.post self.now.call.now) self.now.nest }
        ensures traces { Traces ((tracers_to cursor.old self.now.nest).prefixed c
            outline.old.marks at) outline.new.marks result }
        ensures within { IfOk result (λ end. end.at ≤ length cursor.old) }
        ensures same { cursor.new ≡ cursor.old }
        ensures kept { outline.new.kept ≡ outline.old.kept }
    {
        (self.call)(cursor, outline, Rule::Prefixed, c, at)
    }

    /// A pattern of bindings.
    pub fn bind_pattern(
        &self,
        cursor: &mut Cursor,
        outline: &mut Outline,
        c: Context,
        at: u32,
    ) -> Result<u32, ParseFault>
        requires stands { Stands cursor.old at }
        requires ties { Ties (K.pre self.now.call.now) (K.post self.now.call.now) self.now.nest }
        ensures traces { Traces ((tracers_to cursor.old self.now.nest).bind_pattern c
            outline.old.marks at) outline.new.marks result }
        ensures within { IfOk result (λ end. end ≤ length cursor.old) }
        ensures same { cursor.new ≡ cursor.old }
        ensures kept { outline.new.kept ≡ outline.old.kept }
    {
        let stop = (self.call)(cursor, outline, Rule::BindPattern, c, at)?;
        Ok(stop.at)
    }

    /// A pattern of targets.
    pub fn target_pattern(
        &self,
        cursor: &mut Cursor,
        outline: &mut Outline,
        c: Context,
        at: u32,
    ) -> Result<u32, ParseFault>
        requires stands { Stands cursor.old at }
        requires ties { Ties (K.pre self.now.call.now) (K.post self.now.call.now) self.now.nest }
        ensures traces { Traces ((tracers_to cursor.old self.now.nest).target_pattern c
            outline.old.marks at) outline.new.marks result }
        ensures within { IfOk result (λ end. end ≤ length cursor.old) }
        ensures same { cursor.new ≡ cursor.old }
        ensures kept { outline.new.kept ≡ outline.old.kept }
    {
        let stop = (self.call)(cursor, outline, Rule::TargetPattern, c, at)?;
        Ok(stop.at)
    }

    /// `new` and what it makes.
    pub fn new_base(
        &self,
        cursor: &mut Cursor,
        outline: &mut Outline,
        c: Context,
        at: u32,
    ) -> Result<u32, ParseFault>
        requires stands { Stands cursor.old at }
        requires ties { Ties (K.pre self.now.call.now) (K.post self.now.call.now) self.now.nest }
        ensures traces { Traces ((tracers_to cursor.old self.now.nest).new c
            outline.old.marks at) outline.new.marks result }
        ensures within { IfOk result (λ end. end ≤ length cursor.old) }
        ensures same { cursor.new ≡ cursor.old }
        ensures kept { outline.new.kept ≡ outline.old.kept }
    {
        let stop = (self.call)(cursor, outline, Rule::New, c, at)?;
        Ok(stop.at)
    }

    /// What a class extends.
    pub fn extended(
        &self,
        cursor: &mut Cursor,
        outline: &mut Outline,
        c: Context,
        at: u32,
    ) -> Result<u32, ParseFault>
        requires stands { Stands cursor.old at }
        requires ties { Ties (K.pre self.now.call.now) (K.post self.now.call.now) self.now.nest }
        ensures traces { Traces ((tracers_to cursor.old self.now.nest).extended c
            outline.old.marks at) outline.new.marks result }
        ensures within { IfOk result (λ end. end ≤ length cursor.old) }
        ensures same { cursor.new ≡ cursor.old }
        ensures kept { outline.new.kept ≡ outline.old.kept }
    {
        let stop = (self.call)(cursor, outline, Rule::Extended, c, at)?;
        Ok(stop.at)
    }
}
