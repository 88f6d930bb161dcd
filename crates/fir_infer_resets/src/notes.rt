//! The notes of expressions, which the walk over a module passes: those of operands before that of the form
//! itself, and that of an index before that of its reference.

ghost use Rattle.std.specs.Prelude.{◌++◌, List, ◌∷◌, Option, map, option_map};
ghost use Rattle.fir_ast.specs.Expressions.{Parts};
ghost use Rattle.fir_ast.specs.Types.{DataType};
ghost use Rattle.fir_ast.specs.working.Views.{expr_of, expressions_of, reset_of, sink_of};
ghost use Rattle.fir_meaning.specs.TypedScopes.{TypedScope};
ghost use Rattle.fir_names.specs.working.Parts.{part_of};
ghost use Rattle.fir_types.specs.working.ModuleNotes.{reset_notes};
ghost use Rattle.fir_types.specs.working.Notes.{expression_notes, LeafRange as RangeOfMeant, Note as Meant, notes_of_each, of_expression, of_reference, part_notes, reference_note, reference_notes};
ghost use Rattle.fir_infer_resets.specs.working.Meets.{Ahead};
ghost use Rattle.fir_infer_resets.specs.working.Passes.{Passes, PassesExpression, PassesNote, PassesRange, PassesSource, PassesType};

use crate::meet::Source;
use crate::meets::Walk;
use fir_ast::{Expr, Part, Reference, RegisterReset};
use fir_types::{Found, LeafRange, Note, place_of};

impl<'a> Walk<'a> {
    /// Passes an expression that gives a side its value.
    pub fn source(&mut self, expr: &'a Expr) -> Source<'a>
        ensures { (ts : List DataType) (scope : TypedScope) (rest : List Meant) → Ahead ts self.old.notes.now (expression_notes scope (expr_of expr.now) ++ rest) → PassesSource ts scope (expr_of expr.now) rest result self.old self.new }
    {
        match expr {
            Expr::Ref(reference) => Source::Reference(reference, self.reference(reference)),
            Expr::Literal(_)
            | Expr::Op(_, _, _, _)
            | Expr::Mux(_, _, _, _)
            | Expr::Validif(_, _, _) => Source::Value(place_of(expr), self.pass_expression(expr)),
        }
    }

    /// Passes the expressions of a reset.
    pub fn pass_reset(&mut self, reset: &Option<RegisterReset>)
        ensures { (ts : List DataType) (scope : TypedScope) (rest : List Meant) → Ahead ts self.old.notes.now (reset_notes scope (option_map reset_of reset.now) ++ rest) → Passes ts rest self.old self.new }
    {
        if let Some(reset) = reset {
            self.pass_expression(&reset.condition);
            self.pass_expression(&reset.init);
        }
    }

    /// Passes an expression. Its type is told where it is no reference.
    #[cycle(expressions)]
    pub fn pass_expression(&mut self, expr: &Expr) -> Option<Found>
        ensures { (ts : List DataType) (scope : TypedScope) (rest : List Meant) → Ahead ts self.old.notes.now (expression_notes scope (expr_of expr.now) ++ rest) → PassesExpression ts scope (expr_of expr.now) rest result self.old self.new }
    {
        match expr {
            Expr::Ref(reference) => {
                self.reference(reference);
                None
            }
            Expr::Literal(_) => self.next_type(),
            Expr::Op(_, _, operands, _) => {
                self.pass_operands(operands);
                self.next_type()
            }
            Expr::Mux(_, condition, one, other) => {
                self.pass_expression(condition);
                self.pass_expression(one);
                self.pass_expression(other);
                self.next_type()
            }
            Expr::Validif(_, condition, value) => {
                self.pass_expression(condition);
                self.pass_expression(value);
                self.next_type()
            }
        }
    }

    #[cycle(expressions)]
    fn pass_operands(&mut self, operands: &[Expr])
        ensures { (ts : List DataType) (scope : TypedScope) (rest : List Meant) → Ahead ts self.old.notes.now (notes_of_each scope (expressions_of (map expr_of operands.now)) ++ rest) → Passes ts rest self.old self.new }
    {
        for operand in operands {
            self.pass_expression(operand);
        }
    }

    /// Passes a reference, and tells what it names.
    #[cycle(expressions)]
    pub fn reference(&mut self, reference: &Reference) -> Option<&'a LeafRange>
        ensures { (ts : List DataType) (scope : TypedScope) (rest : List Meant) → Ahead ts self.old.notes.now (reference_notes scope (sink_of reference.now) ++ rest) → PassesRange ts (reference_note scope (sink_of reference.now)) rest (option_map (λ x. x.now) result) self.old self.new }
    {
        for part in &reference.parts {
            self.pass_part(part);
        }
        self.next_range()
    }

    /// Passes the expression in an index.
    #[cycle(expressions)]
    fn pass_part(&mut self, part: &Part)
        ensures { (ts : List DataType) (scope : TypedScope) (parts : Parts) (rest : List Meant) → Ahead ts self.old.notes.now (part_notes scope (part_of part.now parts) ++ rest) → Passes ts (part_notes scope parts ++ rest) self.old self.new }
    {
        match part {
            Part::Field(_, _, _) | Part::Index(_, _, _) => {}
            Part::Access(_, expr) => {
                self.pass_expression(expr);
            }
        }
    }

    /// Takes the note of a reference, and tells what it names. A note of another form names nothing.
    fn next_range(&mut self) -> Option<&'a LeafRange>
        ensures { (ts : List DataType) (range : Option RangeOfMeant) (rest : List Meant) → Ahead ts self.old.notes.now (of_reference range ∷ rest) → PassesRange ts (of_reference range) rest (option_map (λ x. x.now) result) self.old self.new }
    {
        match self.next_note()? {
            Note::Reference(range) => range.as_ref(),
            Note::Expression(_) => None,
        }
    }

    /// Takes the note of another form, and tells its type. A note of a reference has none.
    fn next_type(&mut self) -> Option<Found>
        ensures { (ts : List DataType) (t : Option DataType) (rest : List Meant) → Ahead ts self.old.notes.now (of_expression t ∷ rest) → PassesType ts t rest result self.old self.new }
    {
        match self.next_note()? {
            Note::Expression(found) => *found,
            Note::Reference(_) => None,
        }
    }

    /// Takes the note that comes, if one does.
    fn next_note(&mut self) -> Option<&'a Note>
        ensures { (ts : List DataType) (note : Meant) (rest : List Meant) → Ahead ts self.old.notes.now (note ∷ rest) → PassesNote ts note rest (option_map (λ x. x.now) result) self.old self.new }
    {
        let [note, rest @ ..] = self.notes else {
            return None;
        };
        self.notes = rest;
        Some(note)
    }
}
