//! References (FIRRTL spec, "References").

use crate::lexeme::{Lexeme, Mark};
use crate::parser::{Parser, Tall};
use crate::stop::Stop;
use crate::terminals::{end_form, open_one};
use fir_ast::{Expr, Part, Place, Reference};
use fir_base::Name;

/// An index of a reference.
#[derive(Drop)]
pub enum Index {
    /// A plain number, and where it stands.
    Plain(Place, u128),
    Computed(Expr),
}

impl<'t> Parser<'t> {
    ghost use Rattle.std.specs.Prelude.{◌≡◌, ◌<◌, ◌≤◌, ◌+◌, ◌∷◌, IfErr, IfOk, OnOk, drop};
    ghost use Rattle.fir_ast.specs.Expressions.{Parts};
    ghost use Rattle.fir_ast.specs.working.Views.{sink_of};
    ghost use Rattle.fir_parse.specs.Heights.{height, height_with};
    ghost use Rattle.fir_parse.specs.Lexemes.{mark};
    ghost use Rattle.fir_parse.specs.working.Reads.{left, rest, HasHeight, Leads, Reads};
    ghost use Rattle.fir_parse.specs.working.States.{wants};
    ghost use Rattle.fir_parse.specs.working.Symbols.{parts, an_index};
    ghost use Rattle.fir_parse.specs.working.ExpressionRules.{indexed, reference_rest};
    ghost use Rattle.fir_parse.specs.working.Trees.{tall_sink, sink_height, part_of, index_tree, index_height};

    /// What stands behind a name, where so many blocks and brackets are open.
    #[cycle(expressions)]
    pub fn reference(
        &mut self,
        depth: u32,
        place: Place,
        name: &[u8],
    ) -> Result<Tall<Reference>, Stop>
        requires { depth ≤ 256 }
        ensures reads { Reads (λ k. reference_rest depth place name.now k) tall_sink (rest self.old) (rest self.new) result }
        ensures high { IfOk result (HasHeight sink_of sink_height) }
        ensures nearer { OnOk result (left self.new ≤ left self.old) }
    {
        let name = Name::new(self.alloc, name)?;
        let mut parts = Vec::new(self.alloc);
        let mut height = 1;
        loop {
            let next = self.peek();
            match next.lexeme {
                Lexeme::Mark(Mark::Dot) => {
                    parts.push(self.subfield(depth, height, next.place)?)?;
                    height += 1;
                }
                Lexeme::Mark(Mark::OpenSquare) => {
                    let part = self.subindex(depth, height, next.place)?;
                    height = part.height;
                    parts.push(part.tree)?;
                }
                Lexeme::End => return Err(next.refused()),
                _ => {
                    let tree = Reference { place, name, parts };
                    return Ok(Tall { tree, height });
                }
            }
        }
    }

    /// `.name`, behind what has that height; its dot is at hand at the place.
    fn subfield(&mut self, depth: u32, height: u32, dot: Place) -> Result<Part, Stop>
        requires low { height ≤ 256 }
        requires at_hand { rest self.old ≡ record { lexeme = mark Mark.Dot; place = dot } ∷ drop 1 (rest self.old) }
        ensures reads { Leads (wants (parts depth height)) (λ x k. wants (parts depth (height + 1)) (λ ps. k (part_of x ps))) (rest self.old) (rest self.new) result }
        ensures high { IfOk result (λ x. (ps : Parts) → height_with (part_of x ps) height ≡ height_with ps (height + 1)) }
        ensures low { OnOk result (height + 1 ≤ 256) }
        ensures nearer { OnOk result (left self.new < left self.old) }
    {
        self.pass();
        let name = self.field_name()?;
        end_form(height + 1, name.place)?;
        Ok(Part::Field(dot, name.place, name.name))
    }

    /// `[index]`, behind what has that height, with the height of both.
    #[cycle(expressions)]
    fn subindex(&mut self, depth: u32, height: u32, bracket: Place) -> Result<Tall<Part>, Stop>
        requires depth { depth ≤ 256 }
        requires low { height ≤ 256 }
        requires at_hand { rest self.old ≡ record { lexeme = mark Mark.OpenSquare; place = bracket } ∷ drop 1 (rest self.old) }
        ensures reads { Leads (wants (parts depth height)) (λ x k. wants (parts depth x.height) (λ ps. k (part_of x.tree ps))) (rest self.old) (rest self.new) result }
        ensures high { IfOk result (λ x. (ps : Parts) → height_with (part_of x.tree ps) height ≡ height_with ps x.height) }
        ensures low { IfOk result (λ x. x.height ≤ 256) }
        ensures nearer { OnOk result (left self.new < left self.old) }
    {
        self.pass();
        open_one(depth, bracket)?;
        let index = self.index(depth + 1)?;
        let close = self.mark(Mark::CloseSquare)?;
        let height = height.max(index.height) + 1;
        end_form(height, close)?;
        let tree = self.index_part(bracket, index.tree)?;
        Ok(Tall { tree, height })
    }

    /// The part that an index makes behind its bracket.
    fn index_part(&self, bracket: Place, index: Index) -> Result<Part, Stop>
        ensures part { IfOk result (λ x. part_of x ≡ indexed bracket (index_tree index)) }
        ensures why { IfErr result (λ s. s ≡ Stop.Memory) }
    {
        match index {
            Index::Plain(place, number) => Ok(Part::Index(bracket, place, number)),
            Index::Computed(expr) => Ok(Part::Access(bracket, Box::new(self.alloc, expr)?)),
        }
    }

    /// An index. A plain number has no height of its own.
    #[cycle(expressions)]
    fn index(&mut self, depth: u32) -> Result<Tall<Index>, Stop>
        requires { depth ≤ 256 }
        ensures reads { Reads (wants (an_index depth)) (λ i. index_tree i.tree) (rest self.old) (rest self.new) result }
        ensures high { IfOk result (HasHeight index_tree index_height) }
        ensures nearer { OnOk result (left self.new < left self.old) }
    {
        let next = self.peek();
        match next.lexeme {
            Lexeme::Word(_) => {
                let expr = self.expression(depth)?;
                Ok(Tall {
                    tree: Index::Computed(expr.tree),
                    height: expr.height,
                })
            }
            _ => {
                let number = self.natural()?;
                Ok(Tall {
                    tree: Index::Plain(number.place, number.number),
                    height: 0,
                })
            }
        }
    }
}
