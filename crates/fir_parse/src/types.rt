//! Types (FIRRTL spec, "Types").

use crate::lexeme::{Lexeme, Mark};
use crate::parser::{Next, Parser, Tall};
use crate::stop::Stop;
use crate::terminals::{end_form, open_one};
use crate::words::TypeWord;
use fir_ast::{FirFault, Place, Ty};

/// A type, and where its first token stands.
#[derive(Drop)]
pub struct WrittenType {
    pub place: Place,
    pub ty: Ty,
}

impl<'t> Parser<'t> {
    ghost use Rattle.std.specs.Prelude.{◌≡◌, ◌<◌, ◌≤◌, ◌∷◌, IfOk, OnOk, drop};
    ghost use Rattle.fir_ast.specs.working.TypeViews.{type_of};
    ghost use Rattle.fir_parse.specs.Heights.{type_height};
    ghost use Rattle.fir_parse.specs.Lexemes.{mark, word};
    ghost use Rattle.fir_parse.specs.working.Reads.{left, rest, HasHeight, Leads, Reads};
    ghost use Rattle.fir_parse.specs.working.AtHand.{IsAtHand};
    ghost use Rattle.fir_parse.specs.working.StatementRules.{ends_line};
    ghost use Rattle.fir_parse.specs.working.States.{wants};
    ghost use Rattle.fir_parse.specs.working.Symbols.{a_type, a_width, dimensions};
    ghost use Rattle.fir_parse.specs.working.Trees.{placed_type, placed_type_height, tall_placed_type, tall_type, tall_type_at};

    /// A type, where so many blocks and brackets are open.
    #[cycle(types)]
    pub fn ty(&mut self, depth: u32) -> Result<Tall<WrittenType>, Stop>
        requires { depth ≤ 256 }
        ensures reads { Reads (wants (a_type depth)) tall_placed_type (rest self.old) (rest self.new) result }
        ensures high { IfOk result (HasHeight placed_type placed_type_height) }
        ensures nearer { OnOk result (left self.new < left self.old) }
    {
        let next = self.peek();
        let place = next.place;
        let ty = self.type_at_hand(depth, next)?;
        Ok(Tall {
            tree: WrittenType { place, ty: ty.tree },
            height: ty.height,
        })
    }

    /// A type and the line's end.
    pub fn type_line(&mut self, depth: u32) -> Result<WrittenType, Stop>
        requires { depth ≤ 256 }
        ensures reads { Reads (λ k. wants (a_type depth) (λ t. ends_line t k)) placed_type (rest self.old) (rest self.new) result }
        ensures nearer { OnOk result (left self.new < left self.old) }
    {
        let ty = self.ty(depth)?;
        self.line_end()?;
        Ok(ty.tree)
    }

    /// A type whose first token is at hand.
    #[cycle(types)]
    fn type_at_hand(&mut self, depth: u32, next: Next<'t>) -> Result<Tall<Ty>, Stop>
        requires depth { depth ≤ 256 }
        requires at_hand { IsAtHand (rest self.old) next }
        ensures reads { Reads (wants (a_type depth)) (tall_type_at next.entry.place) (rest self.old) (rest self.new) result }
        ensures high { IfOk result (HasHeight type_of type_height) }
        ensures nearer { OnOk result (left self.new < left self.old) }
    {
        match next.lexeme {
            Lexeme::Word(word) => self.worded_type(depth, next.place, word),
            Lexeme::Mark(Mark::OpenCurly) => self.bundle(depth, next.place),
            _ => Err(next.refused()),
        }
    }

    /// A type that begins with a word, which is at hand.
    fn worded_type(&mut self, depth: u32, place: Place, name: &[u8]) -> Result<Tall<Ty>, Stop>
        requires depth { depth ≤ 256 }
        requires at_hand { rest self.old ≡ record { lexeme = word name.now; place = place } ∷ drop 1 (rest self.old) }
        ensures reads { Reads (wants (a_type depth)) (tall_type_at place) (rest self.old) (rest self.new) result }
        ensures high { IfOk result (HasHeight type_of type_height) }
        ensures nearer { OnOk result (left self.new < left self.old) }
    {
        match TypeWord::of(name) {
            TypeWord::UInt => {
                self.pass();
                let width = self.width()?;
                self.dimensions(depth, Ty::UInt(width), 1)
            }
            TypeWord::SInt => {
                self.pass();
                let width = self.width()?;
                self.dimensions(depth, Ty::SInt(width), 1)
            }
            TypeWord::Clock => {
                self.pass();
                self.dimensions(depth, Ty::Clock, 1)
            }
            TypeWord::Reset => {
                self.pass();
                self.dimensions(depth, Ty::Reset, 1)
            }
            TypeWord::AsyncReset => {
                self.pass();
                self.dimensions(depth, Ty::AsyncReset, 1)
            }
            TypeWord::Missing => Err(self.unsupported(place, name)),
            TypeWord::Name => Err(Stop::Fault(FirFault::Syntax(place))),
        }
    }

    /// The width behind `UInt` or `SInt`, where one is written.
    fn width(&mut self) -> Result<Option<u128>, Stop>
        ensures reads { Reads (wants a_width) (λ w. w) (rest self.old) (rest self.new) result }
        ensures nearer { OnOk result (left self.new ≤ left self.old) }
    {
        let next = self.peek();
        match next.lexeme {
            Lexeme::Mark(Mark::Less) => {
                self.pass();
                let width = self.natural()?;
                self.mark(Mark::Greater)?;
                Ok(Some(width.number))
            }
            Lexeme::End => Err(next.refused()),
            _ => Ok(None),
        }
    }

    /// The lengths behind a type of that height: each makes a vector of what stands before it.
    pub fn dimensions(&mut self, depth: u32, element: Ty, height: u32) -> Result<Tall<Ty>, Stop>
        requires depth { depth ≤ 256 }
        requires high { height ≡ type_height (type_of element) }
        requires low { height ≤ 256 }
        ensures reads { Reads (wants (dimensions depth (type_of element))) tall_type (rest self.old) (rest self.new) result }
        ensures high { IfOk result (HasHeight type_of type_height) }
        ensures nearer { OnOk result (left self.new ≤ left self.old) }
    {
        let mut ty = Tall {
            tree: element,
            height,
        };
        loop {
            let next = self.peek();
            match next.lexeme {
                Lexeme::Mark(Mark::OpenSquare) => ty = self.dimension(depth, ty)?,
                Lexeme::End => return Err(next.refused()),
                _ => return Ok(ty),
            }
        }
    }

    /// One length behind a type.
    fn dimension(&mut self, depth: u32, element: Tall<Ty>) -> Result<Tall<Ty>, Stop>
        requires depth { depth ≤ 256 }
        requires high { HasHeight type_of type_height element }
        requires at_hand { (p : Place) × (rest self.old ≡ record { lexeme = mark Mark.OpenSquare; place = p } ∷ drop 1 (rest self.old)) }
        ensures reads { Leads (wants (dimensions depth (type_of element.tree))) (λ t. wants (dimensions depth (type_of t.tree))) (rest self.old) (rest self.new) result }
        ensures high { IfOk result (HasHeight type_of type_height) }
        ensures nearer { OnOk result (left self.new < left self.old) }
    {
        let open = self.mark(Mark::OpenSquare)?;
        open_one(depth, open)?;
        let length = self.natural()?;
        let close = self.mark(Mark::CloseSquare)?;
        let height = element.height + 1;
        end_form(height, close)?;
        Ok(Tall {
            tree: Ty::Vector(Box::new(self.alloc, element.tree)?, length.number),
            height,
        })
    }
}
