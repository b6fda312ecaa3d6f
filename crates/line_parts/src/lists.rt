//! Lists in a line: fields, arguments, what a call passes, entries of a phi.

ghost use Rattle.std.specs.Prelude.{◌≡◌, codes, map};
ghost use Rattle.sp_text.specs.Names.{seen_name};
ghost use Rattle.line_parts.specs.Gives.{Gives};
ghost use Rattle.line_tokens.specs.Marks.{is_mark, begins};
ghost use Rattle.line_parts.specs.Drops.{past};
ghost use Rattle.line_parts.specs.Parts.{allowed_type_at, is_value_type};
ghost use Rattle.line_parts.specs.Lists.{listed_at, list_to, comma, fields_at, argument_at, arguments_at, passed_at, all_passed_at, given_behind, entry_at, entries_at, begins_entry, head_at, called_at, is_task_start};
ghost use Rattle.line_parts.specs.Seen.{seen_type, seen_argument, seen_passed, seen_entry};

use crate::cursor::Cursor;
use crate::faults::Stop;
use crate::readings::{AllPassed, Argument, Arguments, Entries, Entry, Fields, Passed, TypeWord};
use line_tokens::{Dropped, is_mark, is_text};
use smallvec::SmallVec;
use sp_text::Name;
use std::alloc::Global;

impl<'t, 'a> Cursor<'t, 'a> {
    /// Passes a comma, where one stands.
    pub fn pass_comma(&mut self)
        ensures { self.new ≡ past (is_mark (codes ",")) self.old }
    {
        if self.begins_mark(b",") {
            let _ = self.token();
        }
    }

    // ---- fields

    /// The fields of a layout.
    #[tactic(auto, unfolding(crate::specs::Lists::list_to))]
    pub fn fields(&mut self, alloc: Global) -> Result<Fields, Stop>
        ensures { Gives (λ fields. map seen_type fields.items) result self.new (fields_at self.old) }
    {
        if self.begins_mark(b"}") {
            return Ok(SmallVec::new(alloc));
        }
        self.some_fields(alloc)
    }

    fn some_fields(&mut self, alloc: Global) -> Result<Fields, Stop>
        ensures { Gives (λ fields. map seen_type fields.items) result self.new (listed_at (allowed_type_at is_value_type) comma self.old) }
    {
        let mut fields = SmallVec::new(alloc);
        loop {
            let field = self.value_type()?;
            fields.push(field)?;
            if !self.begins_mark(b",") {
                return Ok(fields);
            }
            self.pass_comma();
        }
    }

    // ---- arguments of a head

    #[tactic(auto, unfolding(crate::specs::Lists::argument_at, crate::specs::Gives::after))]
    fn argument(&mut self, plain: bool) -> Result<Argument<'a>, Stop>
        ensures { Gives seen_argument result self.new (argument_at plain self.old) }
    {
        let ty = self.argument_type(plain)?;
        self.skip(Dropped::Groups);
        let name = self.name_if_any();
        Ok(Argument { ty, name })
    }

    #[tactic(auto, unfolding(crate::specs::Lists::list_to))]
    fn arguments(&mut self, alloc: Global, plain: bool) -> Result<Arguments<'a>, Stop>
        ensures { Gives (λ arguments. map seen_argument arguments.items) result self.new (arguments_at plain self.old) }
    {
        if self.begins_mark(b")") {
            return Ok(SmallVec::new(alloc));
        }
        self.some_arguments(alloc, plain)
    }

    fn some_arguments(&mut self, alloc: Global, plain: bool) -> Result<Arguments<'a>, Stop>
        ensures { Gives (λ arguments. map seen_argument arguments.items) result self.new (listed_at (argument_at plain) comma self.old) }
    {
        let mut arguments = SmallVec::new(alloc);
        loop {
            let argument = self.argument(plain)?;
            arguments.push(argument)?;
            if !self.begins_mark(b",") {
                return Ok(arguments);
            }
            self.pass_comma();
        }
    }

    /// The name and the arguments of a declaration or definition.
    #[tactic(auto, unfolding(crate::specs::Lists::head_at, crate::specs::Gives::after))]
    pub fn head(&mut self, alloc: Global, declared: bool) -> Result<(Name<'a>, Arguments<'a>), Stop>
        ensures { Gives (λ head. (seen_name head.0, map seen_argument head.1.items)) result self.new (head_at declared self.old) }
    {
        let name = self.global()?;
        self.mark(b"(")?;
        let plain = declared && is_text(name.bytes, b"task_start");
        let arguments = self.arguments(alloc, plain)?;
        self.mark(b")")?;
        Ok((name, arguments))
    }

    // ---- what a call passes

    /// What a call passes at one place.
    #[tactic(auto, unfolding(crate::specs::Lists::passed_at, crate::specs::Gives::after))]
    pub fn passed(&mut self, plain: bool) -> Result<Passed<'a>, Stop>
        ensures { Gives seen_passed result self.new (passed_at plain self.old) }
    {
        let ty = self.argument_type(plain)?;
        self.skip(Dropped::Groups);
        if ty == TypeWord::Plain {
            let name = self.global()?;
            return Ok(Passed::Function(name));
        }
        let value = self.value()?;
        Ok(Passed::Value(ty, value))
    }

    #[tactic(auto, unfolding(crate::specs::Lists::list_to))]
    fn all_passed(&mut self, alloc: Global, plain: bool) -> Result<AllPassed<'a>, Stop>
        ensures { Gives (λ passed. map seen_passed passed.items) result self.new (all_passed_at plain self.old) }
    {
        if self.begins_mark(b")") {
            return Ok(SmallVec::new(alloc));
        }
        self.some_passed(alloc, plain)
    }

    fn some_passed(&mut self, alloc: Global, plain: bool) -> Result<AllPassed<'a>, Stop>
        ensures { Gives (λ passed. map seen_passed passed.items) result self.new (listed_at (passed_at plain) comma self.old) }
    {
        let mut all = SmallVec::new(alloc);
        loop {
            let passed = self.passed(plain)?;
            all.push(passed)?;
            if !self.begins_mark(b",") {
                return Ok(all);
            }
            self.pass_comma();
        }
    }

    /// The function that a call names, and what it passes.
    #[tactic(auto, unfolding(crate::specs::Lists::called_at, crate::specs::Gives::after))]
    pub fn called(&mut self, alloc: Global) -> Result<(Name<'a>, AllPassed<'a>), Stop>
        ensures { Gives (λ call. (seen_name call.0, map seen_passed call.1.items)) result self.new (called_at self.old) }
    {
        let name = self.global()?;
        self.mark(b"(")?;
        let passed = self.all_passed(alloc, is_text(name.bytes, b"task_start"))?;
        self.mark(b")")?;
        Ok((name, passed))
    }

    // ---- entries of a phi

    /// The entries of a phi.
    pub fn entries(&mut self, alloc: Global) -> Result<Entries<'a>, Stop>
        ensures { Gives (λ entries. map seen_entry entries.items) result self.new (entries_at self.old) }
    {
        let mut entries = SmallVec::new(alloc);
        loop {
            let entry = self.entry()?;
            entries.push(entry)?;
            if !self.begins_entry() {
                return Ok(entries);
            }
            self.pass_comma();
        }
    }

    #[tactic(auto, unfolding(crate::specs::Lists::entry_at, crate::specs::Gives::after))]
    fn entry(&mut self) -> Result<Entry<'a>, Stop>
        ensures { Gives seen_entry result self.new (entry_at self.old) }
    {
        self.mark(b"[")?;
        let value = self.value()?;
        self.mark(b",")?;
        let label = self.local()?;
        self.mark(b"]")?;
        Ok(Entry { value, label })
    }

    fn begins_entry(&self) -> bool
        ensures { result ≡ begins_entry self.now }
    {
        if !self.begins_mark(b",") {
            return false;
        }
        let mut rest = self.copied();
        let Some(comma) = rest.token() else {
            return false;
        };
        let Some(bracket) = rest.token() else {
            return false;
        };
        is_mark(&comma, b",") && is_mark(&bracket, b"[")
    }
}
