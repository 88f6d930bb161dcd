//! Ports (IEEE 1364-2005, 12.3).

use crate::fixed::Fixed;
use crate::keyword::direction_of;
use crate::parser::Parser;
use crate::stop::Stop;
use fir_base::Direction;
use ver_ast::Port;
use ver_lex::Lexeme;

impl<'t> Parser<'t> {
    ghost use Rattle.std.specs.Prelude.{◌<◌, ◌≤◌, [], ◌∷◌, ◌++◌, codes, IfErr, IfOk, OnOk};
    ghost use Rattle.std.specs.List.{AllByRecursion};
    ghost use Rattle.ver_words.specs.Names.{IsName};
    ghost use Rattle.ver_ast.specs.Grammar.{direction_keyword, mark_tokens, next_port_tokens, port_tokens, ports_tokens};
    ghost use Rattle.ver_ast.specs.Tokens.{double, sign, word};
    ghost use Rattle.std.specs.Prelude.{flat_map};
    ghost use Rattle.ver_parse.specs.working.Reads.{left, Gives, Halts};
    ghost use Rattle.ver_parse.specs.working.Symbols.{a_direction, a_mark, a_name, a_range, a_token, more_ports, ports};

    /// The ports of a module, with the closing parenthesis.
    pub fn ports(&mut self) -> Result<Vec<Port>, Stop>
        ensures gives { IfOk result (λ v. Gives (ports ∷ []) (ports_tokens v.items ++ sign 41 ∷ []) self.old self.new) }
        ensures halts { IfErr result (λ s. Halts (ports ∷ []) self.old s) }
        ensures nearer { OnOk result (left self.new < left self.old) }
        ensures named { IfOk result (λ v. AllByRecursion (λ p. IsName p.name) v.items) }
    {
        if self.takes(Fixed::Sign(b')'))? {
            Ok(Vec::new(self.alloc))
        } else {
            self.some_ports()
        }
    }

    /// One port or more, with the closing parenthesis.
    fn some_ports(&mut self) -> Result<Vec<Port>, Stop>
        ensures gives { IfOk result (λ v. Gives (a_mark ∷ a_direction ∷ a_range ∷ a_name ∷ more_ports ∷ []) (ports_tokens v.items ++ sign 41 ∷ []) self.old self.new) }
        ensures halts { IfErr result (λ s. Halts (a_mark ∷ a_direction ∷ a_range ∷ a_name ∷ more_ports ∷ []) self.old s) }
        ensures nearer { OnOk result (left self.new < left self.old) }
        ensures named { IfOk result (λ v. AllByRecursion (λ p. IsName p.name) v.items) }
    {
        let mut ports = Vec::new(self.alloc);
        ports.push(self.port()?)?;
        while self.takes(Fixed::Sign(b','))? {
            ports.push(self.port()?)?;
        }
        self.token(Fixed::Sign(b')'))?;
        Ok(ports)
    }

    fn port(&mut self) -> Result<Port, Stop>
        ensures gives { IfOk result (λ p. Gives (a_mark ∷ a_direction ∷ a_range ∷ a_name ∷ []) (port_tokens p) self.old self.new) }
        ensures halts { IfErr result (λ s. Halts (a_mark ∷ a_direction ∷ a_range ∷ a_name ∷ []) self.old s) }
        ensures nearer { OnOk result (left self.new < left self.old) }
        ensures named { IfOk result (λ p. IsName p.name) }
    {
        let is_clock = self.mark()?;
        let direction = self.direction()?;
        let width = self.range()?;
        let name = self.name()?;
        Ok(Port {
            is_clock,
            direction,
            width,
            name,
        })
    }

    /// `(* clock *)`, or nothing: whether it stands there.
    fn mark(&mut self) -> Result<bool, Stop>
        ensures gives { IfOk result (λ b. Gives (a_mark ∷ []) (mark_tokens b) self.old self.new) }
        ensures halts { IfErr result (λ s. Halts (a_mark ∷ []) self.old s) }
        ensures nearer { OnOk result (left self.new ≤ left self.old) }
    {
        if self.takes(Fixed::Double(b'(', b'*'))? {
            self.token(Fixed::Word(b"clock"))?;
            self.token(Fixed::Double(b'*', b')'))?;
            Ok(true)
        } else {
            Ok(false)
        }
    }

    fn direction(&mut self) -> Result<Direction, Stop>
        ensures gives { IfOk result (λ d. Gives (a_direction ∷ []) (word (direction_keyword d) ∷ []) self.old self.new) }
        ensures halts { IfErr result (λ s. Halts (a_direction ∷ []) self.old s) }
        ensures nearer { OnOk result (left self.new < left self.old) }
    {
        match self.peek()?.lexeme {
            Lexeme::Word(spelling) => match direction_of(spelling) {
                Some(direction) => {
                    self.pass();
                    Ok(direction)
                }
                None => Err(self.unexpected()),
            },
            _ => Err(self.unexpected()),
        }
    }
}
