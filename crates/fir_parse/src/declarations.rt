//! A statement behind its first word (FIRRTL spec, "Statements").

use crate::lexeme::{Lexeme, Mark};
use crate::parser::{Next, Parser};
use crate::stop::Stop;
use crate::whens::Begun;
use crate::words::{Declaration, Lead};
use fir_ast::{FirFault, Place, Reference, Stmt};
use fir_base::Name;

impl<'t> Parser<'t> {
    ghost use Rattle.std.specs.Prelude.{◌≡◌, ℕ, ◌<◌, ◌≤◌, ◌∷◌, IfOk, OnOk, codes, drop};
    ghost use Rattle.fir_ast.specs.Statements.{invalid, skip};
    ghost use Rattle.fir_ast.specs.working.Views.{sink_of, stmt_of};
    ghost use Rattle.fir_parse.specs.Lexemes.{word};
    ghost use Rattle.fir_parse.specs.working.Reads.{left, rest, Reads};
    ghost use Rattle.fir_parse.specs.working.StatementRules.{begun, connect_rest, declared, ends_line, partial_connect_rest, ref_rest};
    ghost use Rattle.fir_parse.specs.working.States.{wants};
    ghost use Rattle.fir_parse.specs.working.Symbols.{a_line_end, a_word, behind_first, behind_is, behind_sink, statement};
    ghost use Rattle.fir_parse.specs.working.StatementTrees.{begun_of, Deepens, IsBare, IsNeither};
    ghost use Rattle.fir_parse.specs.working.AtHand.{IsAtHand};

    /// A statement that begins with the word, behind it. A when is read up to where its else may stand.
    #[cycle(statements)]
    pub fn begun(&mut self, depth: u32, place: Place, name: &[u8]) -> Result<Begun, Stop>
        requires { depth ≤ 256 }
        ensures reads { Reads (wants (behind_first depth place name.now)) begun_of (rest self.old) (rest self.new) result }
        ensures deep { IfOk result (Deepens depth) }
        ensures nearer { OnOk result (left self.new < left self.old) }
    {
        let next = self.peek();
        match next.lexeme {
            Lexeme::Mark(Mark::Connect | Mark::PartialConnect | Mark::Dot | Mark::OpenSquare) => {
                self.ref_statement(depth, place, name)
            }
            Lexeme::Word(second) => self.two_words(depth, place, name, next.place, second),
            _ => self.one_word(depth, place, name, next),
        }
    }

    /// A statement of one word alone, whose line's end is at hand; or why no statement goes on so.
    fn one_word(
        &mut self,
        depth: u32,
        place: Place,
        name: &[u8],
        next: Next<'t>,
    ) -> Result<Begun, Stop>
        requires at_hand { IsAtHand (rest self.old) next }
        requires other { IsNeither next.lexeme }
        ensures reads { Reads (wants (behind_first depth place name.now)) begun_of (rest self.old) (rest self.new) result }
        ensures deep { IfOk result (Deepens depth) }
        ensures nearer { OnOk result (left self.new < left self.old) }
    {
        match next.lexeme {
            Lexeme::End => Err(next.refused()),
            _ => match Lead::of(name) {
                Lead::Missing => Err(self.unsupported(place, name)),
                Lead::Skip => self.skip(place),
                _ => Err(next.refused()),
            },
        }
    }

    /// The line's end, behind the word `skip`.
    fn skip(&mut self, place: Place) -> Result<Begun, Stop>
        ensures reads { Reads (λ k. wants a_line_end (λ q. k (statement (skip place)))) begun_of (rest self.old) (rest self.new) result }
        ensures deep { (depth : ℕ) → IfOk result (Deepens depth) }
        ensures nearer { OnOk result (left self.new < left self.old) }
    {
        self.line_end()?;
        Ok(Begun::Statement(Stmt::Skip(place)))
    }

    /// A statement that begins with a reference, behind its name.
    fn ref_statement(&mut self, depth: u32, place: Place, name: &[u8]) -> Result<Begun, Stop>
        requires { depth ≤ 256 }
        ensures reads { Reads (λ k. ref_rest depth place name.now (begun k)) begun_of (rest self.old) (rest self.new) result }
        ensures deep { IfOk result (Deepens depth) }
        ensures nearer { OnOk result (left self.new < left self.old) }
    {
        let sink = self.reference(depth, place, name)?;
        let statement = self.behind_sink(depth, sink.tree)?;
        Ok(Begun::Statement(statement))
    }

    /// What stands behind a sink.
    pub fn behind_sink(&mut self, depth: u32, sink: Reference) -> Result<Stmt, Stop>
        requires { depth ≤ 256 }
        ensures reads { Reads (wants (behind_sink depth (sink_of sink))) stmt_of (rest self.old) (rest self.new) result }
        ensures nearer { OnOk result (left self.new < left self.old) }
    {
        let next = self.peek();
        match next.lexeme {
            Lexeme::Mark(Mark::Connect) => {
                self.pass();
                self.connect(depth, sink)
            }
            Lexeme::Mark(Mark::PartialConnect) => {
                self.pass();
                self.partial_connect(depth, sink)
            }
            _ => self.invalid(sink),
        }
    }

    /// `expr`, behind a sink and `<=`.
    fn connect(&mut self, depth: u32, sink: Reference) -> Result<Stmt, Stop>
        requires { depth ≤ 256 }
        ensures reads { Reads (λ k. connect_rest depth (sink_of sink) k) stmt_of (rest self.old) (rest self.new) result }
        ensures nearer { OnOk result (left self.new < left self.old) }
    {
        let source = self.expression_line(depth)?;
        Ok(Stmt::Connect(sink.place, sink, source))
    }

    /// `expr`, behind a sink and `<-`.
    fn partial_connect(&mut self, depth: u32, sink: Reference) -> Result<Stmt, Stop>
        requires { depth ≤ 256 }
        ensures reads { Reads (λ k. partial_connect_rest depth (sink_of sink) k) stmt_of (rest self.old) (rest self.new) result }
        ensures nearer { OnOk result (left self.new < left self.old) }
    {
        let source = self.expression_line(depth)?;
        Ok(Stmt::PartialConnect(sink.place, sink, source))
    }

    /// `is invalid`, behind a sink.
    fn invalid(&mut self, sink: Reference) -> Result<Stmt, Stop>
        ensures reads { Reads (λ k. wants (a_word (codes "is")) (λ p. wants (a_word (codes "invalid")) (λ q. ends_line (invalid (sink_of sink).place (sink_of sink)) k))) stmt_of (rest self.old) (rest self.new) result }
        ensures nearer { OnOk result (left self.new < left self.old) }
    {
        self.word(b"is")?;
        self.word(b"invalid")?;
        self.line_end()?;
        Ok(Stmt::Invalid(sink.place, sink))
    }

    /// A statement of two words and more, of which the second is at hand.
    #[cycle(statements)]
    fn two_words(
        &mut self,
        depth: u32,
        place: Place,
        name: &[u8],
        second_place: Place,
        second: &[u8],
    ) -> Result<Begun, Stop>
        requires depth { depth ≤ 256 }
        requires at_hand { rest self.old ≡ record { lexeme = word second.now; place = second_place } ∷ drop 1 (rest self.old) }
        ensures reads { Reads (wants (behind_first depth place name.now)) begun_of (rest self.old) (rest self.new) result }
        ensures deep { IfOk result (Deepens depth) }
        ensures nearer { OnOk result (left self.new < left self.old) }
    {
        if second == b"is".as_slice() {
            self.pass();
            return self.behind_is(depth, place, name, second_place);
        }
        match Lead::of(name) {
            Lead::Missing => Err(self.unsupported(place, name)),
            Lead::MissingPort => {
                if second == b"mport".as_slice() {
                    Err(self.unsupported(place, name))
                } else {
                    Err(Stop::Fault(FirFault::Syntax(second_place)))
                }
            }
            Lead::Declares(what) => {
                self.pass();
                self.declared(depth, place, what, second_place, second)
            }
            _ => Err(Stop::Fault(FirFault::Syntax(second_place))),
        }
    }

    /// Behind a statement's first word and the word `is`: an `invalid` makes a statement that begins with
    /// a reference; else `is` is a name.
    #[cycle(statements)]
    fn behind_is(
        &mut self,
        depth: u32,
        place: Place,
        name: &[u8],
        is_place: Place,
    ) -> Result<Begun, Stop>
        requires depth { depth ≤ 256 }
        ensures reads { Reads (wants (behind_is depth place name.now is_place)) begun_of (rest self.old) (rest self.new) result }
        ensures deep { IfOk result (Deepens depth) }
        ensures nearer { OnOk result (left self.new < left self.old) }
    {
        let next = self.peek();
        match next.lexeme {
            Lexeme::Word(third) if third == b"invalid".as_slice() => {
                self.pass();
                self.line_end()?;
                let sink = self.bare(place, name)?;
                Ok(Begun::Statement(Stmt::Invalid(place, sink)))
            }
            _ => match Lead::of(name) {
                Lead::Declares(what) => self.declared(depth, place, what, is_place, b"is"),
                _ => Err(next.refused()),
            },
        }
    }

    /// A name alone, as a sink.
    pub fn bare(&self, place: Place, name: &[u8]) -> Result<Reference, Stop>
        ensures { IsBare place name.now result }
    {
        Ok(Reference {
            place,
            name: Name::new(self.alloc, name)?,
            parts: Vec::new(self.alloc),
        })
    }

    /// A declaration behind its name, or a when behind the first word of its condition.
    #[cycle(statements)]
    fn declared(
        &mut self,
        depth: u32,
        place: Place,
        what: Declaration,
        name_place: Place,
        name: &[u8],
    ) -> Result<Begun, Stop>
        requires { depth ≤ 256 }
        ensures reads { Reads (λ k. declared what depth place (record { place = name_place; name = name.now }) k) begun_of (rest self.old) (rest self.new) result }
        ensures deep { IfOk result (Deepens depth) }
        ensures nearer { OnOk result (left self.new < left self.old) }
    {
        match what {
            Declaration::Wire => self.wire(depth, place, name_place, name),
            Declaration::Reg => self.register_named(depth, place, name_place, name),
            Declaration::Node => self.node(depth, place, name_place, name),
            Declaration::Inst => self.instance(depth, place, name_place, name),
            Declaration::Mem => self.memory_named(depth, place, name_place, name),
            Declaration::When => {
                let condition = self.behind_word(depth, name_place, name)?;
                let when = self.when_behind(depth, place, condition.tree)?;
                Ok(Begun::When(when))
            }
        }
    }

    /// `: type`, behind a wire's name.
    fn wire(
        &mut self,
        depth: u32,
        place: Place,
        name_place: Place,
        name: &[u8],
    ) -> Result<Begun, Stop>
        requires { depth ≤ 256 }
        ensures reads { Reads (λ k. declared Declaration.Wire depth place (record { place = name_place; name = name.now }) k) begun_of (rest self.old) (rest self.new) result }
        ensures deep { IfOk result (Deepens depth) }
        ensures nearer { OnOk result (left self.new < left self.old) }
    {
        self.mark(Mark::Colon)?;
        let ident = self.ident(name_place, name)?;
        let ty = self.type_line(depth)?;
        Ok(Begun::Statement(Stmt::Wire(place, ident, ty.place, ty.ty)))
    }

    /// A register, behind its name.
    fn register_named(
        &mut self,
        depth: u32,
        place: Place,
        name_place: Place,
        name: &[u8],
    ) -> Result<Begun, Stop>
        requires { depth ≤ 256 }
        ensures reads { Reads (λ k. declared Declaration.Reg depth place (record { place = name_place; name = name.now }) k) begun_of (rest self.old) (rest self.new) result }
        ensures deep { IfOk result (Deepens depth) }
        ensures nearer { OnOk result (left self.new < left self.old) }
    {
        let ident = self.ident(name_place, name)?;
        let register = self.register(depth, place, ident)?;
        Ok(Begun::Statement(register))
    }

    /// `= expr`, behind a node's name.
    fn node(
        &mut self,
        depth: u32,
        place: Place,
        name_place: Place,
        name: &[u8],
    ) -> Result<Begun, Stop>
        requires { depth ≤ 256 }
        ensures reads { Reads (λ k. declared Declaration.Node depth place (record { place = name_place; name = name.now }) k) begun_of (rest self.old) (rest self.new) result }
        ensures deep { IfOk result (Deepens depth) }
        ensures nearer { OnOk result (left self.new < left self.old) }
    {
        self.mark(Mark::Equals)?;
        let ident = self.ident(name_place, name)?;
        let value = self.expression_line(depth)?;
        Ok(Begun::Statement(Stmt::Node(place, ident, value)))
    }

    /// `of module`, behind an instance's name.
    fn instance(
        &mut self,
        depth: u32,
        place: Place,
        name_place: Place,
        name: &[u8],
    ) -> Result<Begun, Stop>
        ensures reads { Reads (λ k. declared Declaration.Inst depth place (record { place = name_place; name = name.now }) k) begun_of (rest self.old) (rest self.new) result }
        ensures deep { IfOk result (Deepens depth) }
        ensures nearer { OnOk result (left self.new < left self.old) }
    {
        self.word(b"of")?;
        let module = self.name()?;
        self.line_end()?;
        let ident = self.ident(name_place, name)?;
        Ok(Begun::Statement(Stmt::Inst(place, ident, module)))
    }

    /// A memory, behind its name.
    fn memory_named(
        &mut self,
        depth: u32,
        place: Place,
        name_place: Place,
        name: &[u8],
    ) -> Result<Begun, Stop>
        requires { depth ≤ 256 }
        ensures reads { Reads (λ k. declared Declaration.Mem depth place (record { place = name_place; name = name.now }) k) begun_of (rest self.old) (rest self.new) result }
        ensures deep { IfOk result (Deepens depth) }
        ensures nearer { OnOk result (left self.new < left self.old) }
    {
        let ident = self.ident(name_place, name)?;
        let memory = self.memory(depth, place, ident)?;
        Ok(Begun::Statement(memory))
    }
}
