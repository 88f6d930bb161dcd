//! Bundle types (FIRRTL spec, "Types").

use crate::lexeme::{Lexeme, Mark};
use crate::parser::{Parser, Tall};
use crate::stop::Stop;
use crate::terminals::{end_form, open_one};
use fir_ast::{Field, Ident, Place, Ty};

/// The fields of a bundle, the height of the tallest, and where the bundle is closed.
#[derive(Drop)]
pub struct BundleFields {
    pub fields: Vec<Field>,
    pub height: u32,
    pub close: Place,
}

impl<'t> Parser<'t> {
    ghost use Rattle.std.specs.Prelude.{◌≡◌, ℕ, ◌<◌, ◌≤◌, ◌∷◌, IfOk, OnOk, codes, drop};
    ghost use Rattle.fir_ast.specs.working.TypeViews.{type_of};
    ghost use Rattle.fir_parse.specs.working.BundlePlans.{some_fields, behind_field};
    ghost use Rattle.fir_parse.specs.Heights.{type_height, fields_height};
    ghost use Rattle.fir_parse.specs.Lexemes.{mark, word};
    ghost use Rattle.fir_parse.specs.working.Reads.{left, rest, HasHeight, Leads, Reads};
    ghost use Rattle.fir_parse.specs.working.States.{wants};
    ghost use Rattle.fir_parse.specs.working.Symbols.{a_type, fields, more_fields, a_field};
    ghost use Rattle.fir_parse.specs.working.Trees.{tall_type_at, tall_field, field_tree, field_height, bundle_fields};
    ghost use Rattle.fir_parse.specs.working.TypeRules.{field_rest};

    /// A bundle, whose brace is at hand at the place, and the lengths behind it.
    #[cycle(types)]
    pub fn bundle(&mut self, depth: u32, place: Place) -> Result<Tall<Ty>, Stop>
        requires depth { depth ≤ 256 }
        requires at_hand { rest self.old ≡ record { lexeme = mark Mark.OpenCurly; place = place } ∷ drop 1 (rest self.old) }
        ensures reads { Reads (wants (a_type depth)) (tall_type_at place) (rest self.old) (rest self.new) result }
        ensures high { IfOk result (HasHeight type_of type_height) }
        ensures nearer { OnOk result (left self.new < left self.old) }
    {
        self.pass();
        open_one(depth, place)?;
        let fields = self.fields(depth + 1)?;
        let height = fields.height + 1;
        end_form(height, fields.close)?;
        self.dimensions(depth, Ty::Bundle(fields.fields), height)
    }

    /// The fields of a bundle and its closing brace.
    #[cycle(types)]
    fn fields(&mut self, depth: u32) -> Result<BundleFields, Stop>
        requires { depth ≤ 256 }
        ensures reads { Reads (wants (fields depth)) bundle_fields (rest self.old) (rest self.new) result }
        ensures high { IfOk result (λ b. (b.height ≡ fields_height (bundle_fields b).fields) × (b.height ≤ 256)) }
        ensures nearer { OnOk result (left self.new < left self.old) }
    {
        let next = self.peek();
        match next.lexeme {
            Lexeme::Mark(Mark::CloseCurly) => {
                self.pass();
                Ok(BundleFields {
                    fields: Vec::new(self.alloc),
                    height: 0,
                    close: next.place,
                })
            }
            _ => self.some_fields(depth),
        }
    }

    /// A field, those behind it, and the closing brace.
    #[cycle(types)]
    fn some_fields(&mut self, depth: u32) -> Result<BundleFields, Stop>
        requires { depth ≤ 256 }
        ensures reads { Reads (some_fields depth) bundle_fields (rest self.old) (rest self.new) result }
        ensures high { IfOk result (λ b. (b.height ≡ fields_height (bundle_fields b).fields) × (b.height ≤ 256)) }
        ensures nearer { OnOk result (left self.new < left self.old) }
    {
        let mut fields = Vec::new(self.alloc);
        let mut height = 0;
        loop {
            let field = self.field(depth)?;
            height = height.max(field.height);
            fields.push(field.tree)?;
            if let Some(close) = self.behind_field()? {
                return Ok(BundleFields {
                    fields,
                    height,
                    close,
                });
            }
        }
    }

    /// What stands behind a field: a comma, or the closing brace, whose place is given.
    fn behind_field(&mut self) -> Result<Option<Place>, Stop>
        ensures reads { (d : ℕ) → Leads (wants (more_fields d)) (behind_field d) (rest self.old) (rest self.new) result }
        ensures nearer { OnOk result (left self.new < left self.old) }
    {
        let next = self.peek();
        match next.lexeme {
            Lexeme::Mark(Mark::Comma) => {
                self.pass();
                Ok(None)
            }
            Lexeme::Mark(Mark::CloseCurly) => {
                self.pass();
                Ok(Some(next.place))
            }
            _ => Err(next.refused()),
        }
    }

    /// A field of a bundle.
    #[cycle(types)]
    fn field(&mut self, depth: u32) -> Result<Tall<Field>, Stop>
        requires { depth ≤ 256 }
        ensures reads { Reads (wants (a_field depth)) tall_field (rest self.old) (rest self.new) result }
        ensures high { IfOk result (HasHeight field_tree field_height) }
        ensures nearer { OnOk result (left self.new < left self.old) }
    {
        let next = self.peek();
        match next.lexeme {
            Lexeme::Word(word) if word == b"flip".as_slice() => self.flipped_field(
                depth, next.place,
            ),
            _ => {
                let name = self.field_name()?;
                self.field_behind(depth, false, name)
            }
        }
    }

    /// A field that begins with `flip`, which is its name where a colon follows.
    #[cycle(types)]
    fn flipped_field(&mut self, depth: u32, place: Place) -> Result<Tall<Field>, Stop>
        requires depth { depth ≤ 256 }
        requires at_hand { rest self.old ≡ record { lexeme = word (codes "flip"); place = place } ∷ drop 1 (rest self.old) }
        ensures reads { Reads (wants (a_field depth)) tall_field (rest self.old) (rest self.new) result }
        ensures high { IfOk result (HasHeight field_tree field_height) }
        ensures nearer { OnOk result (left self.new < left self.old) }
    {
        self.pass();
        let next = self.peek();
        match next.lexeme {
            Lexeme::Mark(Mark::Colon) => {
                let name = self.ident(place, b"flip")?;
                self.field_behind(depth, false, name)
            }
            _ => {
                let name = self.field_name()?;
                self.field_behind(depth, true, name)
            }
        }
    }

    /// The colon and the type of a field.
    #[cycle(types)]
    fn field_behind(&mut self, depth: u32, flip: bool, name: Ident) -> Result<Tall<Field>, Stop>
        requires { depth ≤ 256 }
        ensures reads { Reads (λ k. field_rest depth name.place flip name.name k) tall_field (rest self.old) (rest self.new) result }
        ensures high { IfOk result (HasHeight field_tree field_height) }
        ensures nearer { OnOk result (left self.new < left self.old) }
    {
        self.mark(Mark::Colon)?;
        let ty = self.ty(depth)?;
        Ok(Tall {
            tree: Field {
                place: name.place,
                flip,
                name: name.name,
                type_place: ty.tree.place,
                ty: ty.tree.ty,
            },
            height: ty.height,
        })
    }
}
