//! Memories (FIRRTL spec, "Memory Instances").

use crate::lexeme::{Lexeme, Mark};
use crate::parser::Parser;
use crate::stop::Stop;
use crate::words::{FieldWord, under_write_of};
use fir_ast::{Ident, Memory, MemoryField, Place, ReadUnderWrite, Stmt};

impl<'t> Parser<'t> {
    ghost use Rattle.std.specs.Prelude.{◌<◌, ◌≤◌, ◌∷◌, ◌++◌, OnOk, map};
    ghost use Rattle.fir_ast.specs.working.Views.{memory_part_of, named_of, stmt_of};
    ghost use Rattle.fir_parse.specs.working.MemoryRules.{names_plan, number_plan};
    ghost use Rattle.fir_parse.specs.working.PartPlans.{data_type_plan, under_write_plan};
    ghost use Rattle.fir_parse.specs.working.Reads.{left, rest, Reads};
    ghost use Rattle.fir_parse.specs.working.StatementRules.{memory_rest};
    ghost use Rattle.fir_parse.specs.working.States.{wants};
    ghost use Rattle.fir_parse.specs.working.Symbols.{a_mark, a_memory_body, a_memory_field, an_under_write, more_memory_fields, more_names};

    /// A memory, behind its name.
    pub fn memory(&mut self, depth: u32, place: Place, ident: Ident) -> Result<Stmt, Stop>
        requires { depth ≤ 256 }
        ensures reads { Reads (λ k. wants (a_mark Mark.Colon) (λ r. memory_rest depth place (named_of ident) k)) stmt_of (rest self.old) (rest self.new) result }
        ensures nearer { OnOk result (left self.new < left self.old) }
    {
        self.mark(Mark::Colon)?;
        self.line_end()?;
        let fields = self.memory_body(depth)?;
        Ok(Stmt::Mem(place, Memory { ident, fields }))
    }

    /// The level of the fields, where one opens.
    fn memory_body(&mut self, depth: u32) -> Result<Vec<MemoryField>, Stop>
        requires { depth ≤ 256 }
        ensures reads { Reads (wants (a_memory_body depth)) (λ fs. map memory_part_of fs.items) (rest self.old) (rest self.new) result }
        ensures nearer { OnOk result (left self.new ≤ left self.old) }
    {
        let next = self.peek();
        match next.lexeme {
            Lexeme::LevelOpens => {
                self.pass();
                self.memory_fields(depth)
            }
            Lexeme::End => Err(next.refused()),
            _ => Ok(Vec::new(self.alloc)),
        }
    }

    /// One field or more, and the end of their level.
    fn memory_fields(&mut self, depth: u32) -> Result<Vec<MemoryField>, Stop>
        requires { depth ≤ 256 }
        ensures reads { Reads (λ k. wants (a_memory_field depth) (λ f. wants (more_memory_fields depth) (λ fs. k (f ∷ fs)))) (λ fs. map memory_part_of fs.items) (rest self.old) (rest self.new) result }
        ensures nearer { OnOk result (left self.new < left self.old) }
    {
        let first = self.memory_field(depth)?;
        let mut fields = Vec::new(self.alloc);
        fields.push(first)?;
        self.more_memory_fields(depth, fields)
    }

    /// The fields behind these, and the end of their level.
    fn more_memory_fields(
        &mut self,
        depth: u32,
        before: Vec<MemoryField>,
    ) -> Result<Vec<MemoryField>, Stop>
        requires { depth ≤ 256 }
        ensures reads { Reads (λ k. wants (more_memory_fields depth) (λ fs. k (map memory_part_of before.items ++ fs))) (λ fs. map memory_part_of fs.items) (rest self.old) (rest self.new) result }
        ensures nearer { OnOk result (left self.new < left self.old) }
    {
        let mut fields = before;
        loop {
            let next = self.peek();
            match next.lexeme {
                Lexeme::LevelCloses => {
                    self.pass();
                    return Ok(fields);
                }
                _ => {
                    let field = self.memory_field(depth)?;
                    fields.push(field)?;
                }
            }
        }
    }

    /// A field.
    fn memory_field(&mut self, depth: u32) -> Result<MemoryField, Stop>
        requires { depth ≤ 256 }
        ensures reads { Reads (wants (a_memory_field depth)) memory_part_of (rest self.old) (rest self.new) result }
        ensures nearer { OnOk result (left self.new < left self.old) }
    {
        let next = self.peek();
        match FieldWord::of(next.lexeme) {
            FieldWord::Name => Err(next.refused()),
            FieldWord::DataType => {
                self.pass();
                self.data_type_field(depth, next.place)
            }
            FieldWord::Depth => {
                self.pass();
                Ok(MemoryField::Depth(next.place, self.field_number()?))
            }
            FieldWord::ReadLatency => {
                self.pass();
                Ok(MemoryField::ReadLatency(next.place, self.field_number()?))
            }
            FieldWord::WriteLatency => {
                self.pass();
                Ok(MemoryField::WriteLatency(next.place, self.field_number()?))
            }
            FieldWord::Reader => {
                self.pass();
                Ok(MemoryField::Reader(next.place, self.field_names()?))
            }
            FieldWord::Writer => {
                self.pass();
                Ok(MemoryField::Writer(next.place, self.field_names()?))
            }
            FieldWord::Readwriter => {
                self.pass();
                Ok(MemoryField::Readwriter(next.place, self.field_names()?))
            }
            FieldWord::ReadUnderWrite => {
                self.pass();
                self.under_write_field(next.place)
            }
        }
    }

    /// `=> type` and the line's end.
    fn data_type_field(&mut self, depth: u32, place: Place) -> Result<MemoryField, Stop>
        requires { depth ≤ 256 }
        ensures reads { Reads (λ k. data_type_plan depth place k) memory_part_of (rest self.old) (rest self.new) result }
        ensures nearer { OnOk result (left self.new < left self.old) }
    {
        self.mark(Mark::Arrow)?;
        let ty = self.type_line(depth)?;
        Ok(MemoryField::DataType(place, ty.place, ty.ty))
    }

    /// What is read under a write, and the line's end.
    fn under_write_field(&mut self, place: Place) -> Result<MemoryField, Stop>
        ensures reads { Reads (λ k. under_write_plan place k) memory_part_of (rest self.old) (rest self.new) result }
        ensures nearer { OnOk result (left self.new < left self.old) }
    {
        self.mark(Mark::Arrow)?;
        let which = self.under_write()?;
        self.line_end()?;
        Ok(MemoryField::ReadUnderWrite(place, which))
    }

    /// `=> int` and the line's end.
    fn field_number(&mut self) -> Result<u128, Stop>
        ensures reads { Reads (λ k. number_plan k) (λ n. n) (rest self.old) (rest self.new) result }
        ensures nearer { OnOk result (left self.new < left self.old) }
    {
        self.mark(Mark::Arrow)?;
        let number = self.natural()?;
        self.line_end()?;
        Ok(number.number)
    }

    /// `=> name ..`, one or more, and the line's end.
    fn field_names(&mut self) -> Result<Vec<Ident>, Stop>
        ensures reads { Reads (λ k. names_plan k) (λ ns. map named_of ns.items) (rest self.old) (rest self.new) result }
        ensures nearer { OnOk result (left self.new < left self.old) }
    {
        self.mark(Mark::Arrow)?;
        let first = self.name()?;
        let mut names = Vec::new(self.alloc);
        names.push(first)?;
        self.more_names(names)
    }

    /// The names behind these, and the line's end.
    fn more_names(&mut self, before: Vec<Ident>) -> Result<Vec<Ident>, Stop>
        ensures reads { Reads (λ k. wants more_names (λ ns. k (map named_of before.items ++ ns))) (λ ns. map named_of ns.items) (rest self.old) (rest self.new) result }
        ensures nearer { OnOk result (left self.new < left self.old) }
    {
        let mut names = before;
        loop {
            let next = self.peek();
            match next.lexeme {
                Lexeme::LineEnd => {
                    self.pass();
                    return Ok(names);
                }
                _ => {
                    let name = self.name()?;
                    names.push(name)?;
                }
            }
        }
    }

    /// `old`, `new` or `undefined`.
    fn under_write(&mut self) -> Result<ReadUnderWrite, Stop>
        ensures reads { Reads (wants an_under_write) (λ u. u) (rest self.old) (rest self.new) result }
        ensures nearer { OnOk result (left self.new < left self.old) }
    {
        let next = self.peek();
        match next.lexeme {
            Lexeme::Word(word) => match under_write_of(word) {
                Some(which) => {
                    self.pass();
                    Ok(which)
                }
                None => Err(next.refused()),
            },
            _ => Err(next.refused()),
        }
    }
}
