//! Operators (IEEE 1364-2005, 5.1).

ghost use Rattle.std.specs.Prelude.{◌≡◌, Some, IfSome};
ghost use Rattle.ver_ast.specs.Grammar.{binary_token, unary_sign, unsigned_op};
ghost use Rattle.ver_ast.specs.Tokens.{VToken, double, sign};
ghost use Rattle.ver_lex.specs.working.Lexemes.{Sees};
ghost use Rattle.ver_parse.specs.working.Steps.{binary_double, binary_of, binary_sign, signed_op, unary_of, unary_of_sign};

use crate::parser::Parser;
use crate::stop::Stop;
use ver_ast::{BinaryOp, SignedOp, UnaryOp};
use ver_lex::Lexeme;

/// The operator before an operand that the token is.
fn unary_of(lexeme: Lexeme<'_>) -> Option<UnaryOp>
    ensures value { (t : VToken) → Sees lexeme.entry t → result ≡ unary_of t }
    ensures spelled { (t : VToken) → Sees lexeme.entry t → IfSome result (λ op. t ≡ sign (unary_sign op)) }
{
    match lexeme {
        Lexeme::Sign(mark) => unary_of_sign(mark),
        _ => None,
    }
}

fn unary_of_sign(mark: u8) -> Option<UnaryOp>
    ensures value { result ≡ unary_of_sign mark }
    ensures spelled { IfSome result (λ op. mark ≡ unary_sign op) }
{
    match mark {
        b'~' => Some(UnaryOp::Not),
        b'&' => Some(UnaryOp::And),
        b'|' => Some(UnaryOp::Or),
        b'^' => Some(UnaryOp::Xor),
        _ => None,
    }
}

/// The operator between operands that the token is.
fn binary_of(lexeme: Lexeme<'_>) -> Option<BinaryOp>
    ensures value { (t : VToken) → Sees lexeme.entry t → result ≡ binary_of t }
    ensures spelled { (t : VToken) → Sees lexeme.entry t → IfSome result (λ op. t ≡ binary_token op) }
{
    match lexeme {
        Lexeme::Sign(mark) => binary_sign(mark),
        Lexeme::Double(first, second) => binary_double(first, second),
        _ => None,
    }
}

fn binary_sign(mark: u8) -> Option<BinaryOp>
    ensures value { result ≡ binary_sign mark }
    ensures spelled { IfSome result (λ op. sign mark ≡ binary_token op) }
{
    match mark {
        b'+' => Some(BinaryOp::Add),
        b'-' => Some(BinaryOp::Sub),
        b'*' => Some(BinaryOp::Mul),
        b'/' => Some(BinaryOp::Div),
        b'%' => Some(BinaryOp::Rem),
        b'&' => Some(BinaryOp::And),
        b'|' => Some(BinaryOp::Or),
        b'^' => Some(BinaryOp::Xor),
        b'<' => Some(BinaryOp::Lt),
        b'>' => Some(BinaryOp::Gt),
        _ => None,
    }
}

fn binary_double(first: u8, second: u8) -> Option<BinaryOp>
    ensures value { result ≡ binary_double first second }
    ensures spelled { IfSome result (λ op. double first second ≡ binary_token op) }
{
    match (first, second) {
        (b'<', b'<') => Some(BinaryOp::Shl),
        (b'>', b'>') => Some(BinaryOp::Shr),
        (b'=', b'=') => Some(BinaryOp::Eq),
        (b'!', b'=') => Some(BinaryOp::Neq),
        (b'<', b'=') => Some(BinaryOp::Leq),
        (b'>', b'=') => Some(BinaryOp::Geq),
        _ => None,
    }
}

/// The operator between signed operands that is spelled as this one.
fn signed_op(op: Option<BinaryOp>) -> Option<SignedOp>
    ensures value { result ≡ signed_op op }
    ensures spelled { IfSome result (λ s. op ≡ Some (unsigned_op s)) }
{
    match op {
        Some(BinaryOp::Div) => Some(SignedOp::Div),
        Some(BinaryOp::Rem) => Some(SignedOp::Rem),
        Some(BinaryOp::Lt) => Some(SignedOp::Lt),
        Some(BinaryOp::Leq) => Some(SignedOp::Leq),
        Some(BinaryOp::Gt) => Some(SignedOp::Gt),
        Some(BinaryOp::Geq) => Some(SignedOp::Geq),
        _ => None,
    }
}

impl<'t> Parser<'t> {
    ghost use Rattle.std.specs.Prelude.{◌<◌, ◌≤◌, [], ◌∷◌, IfErr, IfOk, OnOk};
    ghost use Rattle.ver_ast.specs.Grammar.{binary_token, unsigned_op};
    ghost use Rattle.ver_parse.specs.working.Fixed.{TriesBinary, TriesUnary};
    ghost use Rattle.ver_parse.specs.working.Reads.{left, Gives, Halts};
    ghost use Rattle.ver_parse.specs.working.Symbols.{a_signed_operator};

    /// Takes the token at hand if it is an operator before an operand.
    pub fn unary(&mut self) -> Result<Option<UnaryOp>, Stop>
        ensures tries { TriesUnary self.old self.new result }
        ensures nearer { OnOk result (left self.new ≤ left self.old) }
    {
        let next = self.peek()?;
        match unary_of(next.lexeme) {
            Some(op) => {
                self.pass();
                Ok(Some(op))
            }
            None => Ok(None),
        }
    }

    /// Takes the token at hand if it is an operator between operands.
    pub fn binary(&mut self) -> Result<Option<BinaryOp>, Stop>
        ensures tries { TriesBinary self.old self.new result }
        ensures nearer { OnOk result (left self.new ≤ left self.old) }
    {
        let next = self.peek()?;
        match binary_of(next.lexeme) {
            Some(op) => {
                self.pass();
                Ok(Some(op))
            }
            None => Ok(None),
        }
    }

    /// An operator between signed operands.
    pub fn signed(&mut self) -> Result<SignedOp, Stop>
        ensures gives { IfOk result (λ op. Gives (a_signed_operator ∷ []) (binary_token (unsigned_op op) ∷ []) self.old self.new) }
        ensures halts { IfErr result (λ s. Halts (a_signed_operator ∷ []) self.old s) }
        ensures nearer { OnOk result (left self.new < left self.old) }
    {
        let next = self.peek()?;
        match signed_op(binary_of(next.lexeme)) {
            Some(op) => {
                self.pass();
                Ok(op)
            }
            None => Err(self.unexpected()),
        }
    }
}
