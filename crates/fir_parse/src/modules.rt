//! Modules and ports (FIRRTL spec, "Modules").

use crate::lexeme::{Lexeme, Mark};
use crate::parser::Parser;
use crate::stop::Stop;
use crate::whens::Begun;
use crate::words::{ModuleWord, direction_of};
use fir_ast::{Ident, Module, Place, Port, Stmt};
use fir_base::Direction;

/// The ports and the statements of a module.
#[derive(Drop)]
pub struct Body {
    pub ports: Vec<Port>,
    pub statements: Vec<Stmt>,
}

/// What begins with the word `input` or `output`.
#[derive(Drop)]
pub enum PortOr {
    Port(Port),
    /// A statement that begins with a name of that word.
    Statement(Begun),
}

impl<'t> Parser<'t> {
    ghost use Rattle.std.specs.Prelude.{◌≡◌, ◌<◌, ◌≤◌, ◌∷◌, ◌++◌, IfOk, OnOk, drop, map};
    ghost use Rattle.fir_ast.specs.working.Views.{module_of, named_of};
    ghost use Rattle.fir_parse.specs.working.CircuitRules.{behind_port, one_module, port_rest};
    ghost use Rattle.fir_parse.specs.Lexemes.{word};
    ghost use Rattle.fir_parse.specs.working.ModuleTrees.{body_of, port_or_of, HasRoom};
    ghost use Rattle.fir_parse.specs.working.PartPlans.{invalid_plan, no_port_plan, port_plan};
    ghost use Rattle.fir_parse.specs.working.Reads.{left, rest, Leads, Reads};
    ghost use Rattle.fir_parse.specs.working.StatementRules.{is_named};
    ghost use Rattle.fir_parse.specs.working.States.{wants};
    ghost use Rattle.fir_parse.specs.working.Symbols.{a_body, behind_direction, behind_port_is, first_module, more_modules, ports_and_statements};

    /// The modules of a circuit, one at least, up to the end of their level.
    pub fn modules(&mut self) -> Result<Vec<Module>, Stop>
        ensures reads { Reads (wants first_module) (λ ms. map module_of ms.items) (rest self.old) (rest self.new) result }
        ensures nearer { OnOk result (left self.new < left self.old) }
    {
        let first = self.module()?;
        let mut modules = Vec::new(self.alloc);
        modules.push(first)?;
        self.more_modules(modules)
    }

    /// The modules behind these, up to the end of their level.
    fn more_modules(&mut self, before: Vec<Module>) -> Result<Vec<Module>, Stop>
        ensures reads { Reads (λ k. wants more_modules (λ ms. k (map module_of before.items ++ ms))) (λ ms. map module_of ms.items) (rest self.old) (rest self.new) result }
        ensures nearer { OnOk result (left self.new < left self.old) }
    {
        let mut modules = before;
        loop {
            let next = self.peek();
            match next.lexeme {
                Lexeme::LevelCloses => {
                    self.pass();
                    return Ok(modules);
                }
                _ => {
                    let module = self.module()?;
                    modules.push(module)?;
                }
            }
        }
    }

    /// A module.
    fn module(&mut self) -> Result<Module, Stop>
        ensures reads { Leads (wants first_module) (λ m k. wants more_modules (λ ms. k (module_of m ∷ ms))) (rest self.old) (rest self.new) result }
        ensures nearer { OnOk result (left self.new < left self.old) }
    {
        let next = self.peek();
        match next.lexeme {
            Lexeme::Word(word) => match ModuleWord::of(word) {
                ModuleWord::Module => {
                    self.pass();
                    self.module_behind(next.place)
                }
                ModuleWord::Missing => Err(self.unsupported(next.place, word)),
                ModuleWord::Name => Err(next.refused()),
            },
            _ => Err(next.refused()),
        }
    }

    /// A module, behind its word at the place.
    fn module_behind(&mut self, place: Place) -> Result<Module, Stop>
        ensures reads { Reads (λ k. one_module place k) module_of (rest self.old) (rest self.new) result }
        ensures nearer { OnOk result (left self.new < left self.old) }
    {
        let ident = self.name()?;
        self.mark(Mark::Colon)?;
        self.line_end()?;
        let body = self.body()?;
        Ok(Module {
            place,
            ident,
            ports: body.ports,
            body: body.statements,
        })
    }

    /// The level of the ports and statements, where one opens.
    fn body(&mut self) -> Result<Body, Stop>
        ensures reads { Reads (wants a_body) body_of (rest self.old) (rest self.new) result }
        ensures nearer { OnOk result (left self.new ≤ left self.old) }
    {
        let next = self.peek();
        match next.lexeme {
            Lexeme::LevelOpens => {
                self.pass();
                self.ports_and_statements()
            }
            Lexeme::End => Err(next.refused()),
            _ => Ok(Body {
                ports: Vec::new(self.alloc),
                statements: Vec::new(self.alloc),
            }),
        }
    }

    /// The ports, and behind them the statements, up to the end of their level.
    fn ports_and_statements(&mut self) -> Result<Body, Stop>
        ensures reads { Reads (wants ports_and_statements) body_of (rest self.old) (rest self.new) result }
        ensures nearer { OnOk result (left self.new < left self.old) }
    {
        let mut ports = Vec::new(self.alloc);
        loop {
            let next = self.peek();
            match next.lexeme {
                Lexeme::LevelCloses => {
                    self.pass();
                    let statements = Vec::new(self.alloc);
                    return Ok(Body { ports, statements });
                }
                Lexeme::Word(word) => match self.port_or_statement(next.place, word)? {
                    PortOr::Port(port) => ports.push(port)?,
                    PortOr::Statement(begun) => {
                        let statements = self.statements_behind(0, begun)?;
                        return Ok(Body { ports, statements });
                    }
                },
                _ => return Err(next.refused()),
            }
        }
    }

    /// A port, or the statement behind which no port stands, with its first word, which is at hand.
    fn port_or_statement(&mut self, place: Place, name: &[u8]) -> Result<PortOr, Stop>
        requires at_hand { rest self.old ≡ record { lexeme = word name.now; place = place } ∷ drop 1 (rest self.old) }
        ensures reads { Leads (wants ports_and_statements) (λ x k. behind_port (port_or_of x) k) (rest self.old) (rest self.new) result }
        ensures room { IfOk result HasRoom }
        ensures nearer { OnOk result (left self.new < left self.old) }
    {
        self.pass();
        match direction_of(name) {
            Some(direction) => self.behind_direction(direction, place, name),
            None => self.no_port(place, name),
        }
    }

    /// The statement that begins with the word, behind it.
    fn no_port(&mut self, place: Place, name: &[u8]) -> Result<PortOr, Stop>
        ensures reads { Reads (λ k. no_port_plan place name.now k) port_or_of (rest self.old) (rest self.new) result }
        ensures room { IfOk result HasRoom }
        ensures nearer { OnOk result (left self.new < left self.old) }
    {
        let begun = self.begun(0, place, name)?;
        Ok(PortOr::Statement(begun))
    }

    /// What stands behind the word `input` or `output`: a port's name, or what makes the word a name.
    fn behind_direction(
        &mut self,
        direction: Direction,
        place: Place,
        name: &[u8],
    ) -> Result<PortOr, Stop>
        ensures reads { Reads (wants (behind_direction direction place name.now)) port_or_of (rest self.old) (rest self.new) result }
        ensures room { IfOk result HasRoom }
        ensures nearer { OnOk result (left self.new < left self.old) }
    {
        let next = self.peek();
        match next.lexeme {
            Lexeme::Word(second) if second == b"is".as_slice() => {
                self.pass();
                self.behind_port_is(direction, place, name, next.place)
            }
            Lexeme::Word(_) => self.named_port(direction),
            _ => self.no_port(place, name),
        }
    }

    /// The rest of a port, from its name on.
    fn named_port(&mut self, direction: Direction) -> Result<PortOr, Stop>
        ensures reads { Reads (λ k. port_plan direction k) port_or_of (rest self.old) (rest self.new) result }
        ensures room { IfOk result HasRoom }
        ensures nearer { OnOk result (left self.new < left self.old) }
    {
        let ident = self.name()?;
        self.mark(Mark::Colon)?;
        self.port_behind(direction, ident)
    }

    /// Behind `input is` or `output is`.
    fn behind_port_is(
        &mut self,
        direction: Direction,
        place: Place,
        name: &[u8],
        is_place: Place,
    ) -> Result<PortOr, Stop>
        ensures reads { Reads (wants (behind_port_is direction place name.now is_place)) port_or_of (rest self.old) (rest self.new) result }
        ensures room { IfOk result HasRoom }
        ensures nearer { OnOk result (left self.new < left self.old) }
    {
        let next = self.peek();
        match next.lexeme {
            Lexeme::Mark(Mark::Colon) => {
                self.pass();
                self.port_named_is(direction, is_place)
            }
            _ => self.invalid_name(place, name),
        }
    }

    /// The type of a port that is named `is`, behind its colon.
    fn port_named_is(&mut self, direction: Direction, place: Place) -> Result<PortOr, Stop>
        ensures reads { Reads (λ k. port_rest direction (is_named place) k) port_or_of (rest self.old) (rest self.new) result }
        ensures room { IfOk result HasRoom }
        ensures nearer { OnOk result (left self.new < left self.old) }
    {
        let ident = self.ident(place, b"is")?;
        self.port_behind(direction, ident)
    }

    /// The word `invalid` behind a name and `is`.
    fn invalid_name(&mut self, place: Place, name: &[u8]) -> Result<PortOr, Stop>
        ensures reads { Reads (λ k. invalid_plan place name.now k) port_or_of (rest self.old) (rest self.new) result }
        ensures room { IfOk result HasRoom }
        ensures nearer { OnOk result (left self.new < left self.old) }
    {
        self.word(b"invalid")?;
        self.line_end()?;
        let sink = self.bare(place, name)?;
        Ok(PortOr::Statement(Begun::Statement(Stmt::Invalid(place, sink))))
    }

    /// The type of a port, behind its colon.
    fn port_behind(&mut self, direction: Direction, ident: Ident) -> Result<PortOr, Stop>
        ensures reads { Reads (λ k. port_rest direction (named_of ident) k) port_or_of (rest self.old) (rest self.new) result }
        ensures room { IfOk result HasRoom }
        ensures nearer { OnOk result (left self.new < left self.old) }
    {
        let ty = self.type_line(0)?;
        Ok(PortOr::Port(Port {
            direction,
            ident,
            type_place: ty.place,
            ty: ty.ty,
        }))
    }
}
