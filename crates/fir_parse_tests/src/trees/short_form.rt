//! A tree in a short form, for comparison: all that has a place with it, as `a@3:5`.

use fir_ast::{
    Circuit, Expr, Field, Ident, Literal, Memory, MemoryField, Module, Part, Place, Port,
    ReadUnderWrite, Reference, Register, Stmt, Ty, When,
};
use fir_base::{Direction, MemoryOut, put_decimal};
use std::alloc::Global;

/// A text that is written, and whether memory was wanted for some of it.
#[derive(Drop)]
pub struct Form {
    bytes: Vec<u8>,
    lacks_memory: bool,
}

impl Form {
    pub fn new(alloc: Global) -> Form {
        Form {
            bytes: Vec::new(alloc),
            lacks_memory: false,
        }
    }

    pub fn put(&mut self, text: &[u8]) {
        if self.bytes.extend_from_slice(text).is_err() {
            self.lacks_memory = true;
        }
    }

    /// Appends the text that many times.
    pub fn put_times(&mut self, text: &[u8], times: usize) {
        for _ in 0..times {
            self.put(text);
        }
    }

    fn put_number(&mut self, number: u128) {
        if put_decimal(&mut self.bytes, number).is_err() {
            self.lacks_memory = true;
        }
    }

    /// The text, where no memory was wanted.
    pub fn into_bytes(self) -> Result<Vec<u8>, MemoryOut> {
        let Form {
            bytes,
            lacks_memory,
        } = self;
        if lacks_memory {
            Err(MemoryOut)
        } else {
            Ok(bytes)
        }
    }
}

/// Appends a sign that stands in front of each item of a list but the first.
fn put_separator(out: &mut Form, number: usize, sign: &[u8]) {
    if number > 0 {
        out.put(sign);
    }
}

fn put_place(out: &mut Form, place: Place) {
    out.put_number(u128::from(place.line));
    out.put(b":");
    out.put_number(u128::from(place.col));
}

/// Appends what a form begins with, and where it stands.
fn put_named(out: &mut Form, name: &[u8], place: Place) {
    out.put(name);
    out.put(b"@");
    put_place(out, place);
}

fn put_ident(out: &mut Form, ident: &Ident) {
    put_named(out, ident.name.as_bytes(), ident.place);
}

/// Appends the circuit.
pub fn put_circuit(out: &mut Form, circuit: &Circuit) {
    put_ident(out, &circuit.ident);
    out.put(b"{");
    for (i, module) in circuit.modules.iter().enumerate() {
        put_separator(out, i, b" ");
        put_module(out, module);
    }
    out.put(b"}");
}

fn put_module(out: &mut Form, module: &Module) {
    put_first(out, module.place, b"");
    put_ident(out, &module.ident);
    out.put(b"(");
    put_ports(out, &module.ports);
    out.put(b")[");
    put_block(out, &module.body);
    out.put(b"]");
}

fn put_ports(out: &mut Form, ports: &[Port]) {
    for (i, port) in ports.iter().enumerate() {
        put_separator(out, i, b",");
        put_port(out, port);
    }
}

fn put_port(out: &mut Form, port: &Port) {
    match port.direction {
        Direction::Input => out.put(b"input "),
        Direction::Output => out.put(b"output "),
    }
    put_ident(out, &port.ident);
    put_typed(out, port.type_place, &port.ty);
}

/// Appends the type behind a name, and where it stands.
#[cycle(short_types)]
fn put_typed(out: &mut Form, place: Place, ty: &Ty) {
    out.put(b":");
    put_ty(out, ty);
    out.put(b"@");
    put_place(out, place);
}

#[cycle(short_types)]
fn put_ty(out: &mut Form, ty: &Ty) {
    match ty {
        Ty::UInt(width) => put_sized(out, b"UInt", *width),
        Ty::SInt(width) => put_sized(out, b"SInt", *width),
        Ty::Clock => out.put(b"Clock"),
        Ty::Reset => out.put(b"Reset"),
        Ty::AsyncReset => out.put(b"AsyncReset"),
        Ty::Bundle(fields) => put_fields(out, fields),
        Ty::Vector(element, length) => {
            put_ty(out, element);
            out.put(b"[");
            out.put_number(*length);
            out.put(b"]");
        }
    }
}

#[cycle(short_types)]
fn put_fields(out: &mut Form, fields: &[Field]) {
    out.put(b"{");
    for (i, field) in fields.iter().enumerate() {
        put_separator(out, i, b",");
        if field.flip {
            out.put(b"~");
        }
        put_named(out, field.name.as_bytes(), field.place);
        put_typed(out, field.type_place, &field.ty);
    }
    out.put(b"}");
}

fn put_sized(out: &mut Form, word: &[u8], width: Option<u128>) {
    out.put(word);
    put_width(out, width);
}

fn put_width(out: &mut Form, width: Option<u128>) {
    if let Some(bits) = width {
        out.put(b"<");
        out.put_number(bits);
        out.put(b">");
    }
}

fn put_literal(out: &mut Form, literal: &Literal) {
    let word: &[u8] = if literal.signed { b"SInt" } else { b"UInt" };
    put_named(out, word, literal.place);
    put_width(out, literal.width);
    out.put(b"(");
    if literal.negative {
        out.put(b"-");
    }
    out.put_number(literal.magnitude);
    out.put(b")");
}

#[cycle(short_expressions)]
fn put_expr(out: &mut Form, expr: &Expr) {
    match expr {
        Expr::Ref(reference) => put_reference(out, reference),
        Expr::Literal(literal) => put_literal(out, literal),
        Expr::Op(place, op, operands, integers) => {
            put_opened(out, op.word(), *place);
            put_operands(out, operands);
            put_integers(out, integers);
        }
        Expr::Mux(place, condition, one, other) => {
            put_opened(out, b"mux", *place);
            put_expr(out, condition);
            put_next(out, one);
            put_next(out, other);
            out.put(b")");
        }
        Expr::Validif(place, condition, value) => {
            put_opened(out, b"validif", *place);
            put_expr(out, condition);
            put_next(out, value);
            out.put(b")");
        }
    }
}

/// Appends what a form in parentheses begins with.
fn put_opened(out: &mut Form, name: &[u8], place: Place) {
    put_named(out, name, place);
    out.put(b"(");
}

/// Appends the integers of an operator, and what closes it.
fn put_integers(out: &mut Form, integers: &[u128]) {
    for integer in integers {
        out.put(b",");
        out.put_number(*integer);
    }
    out.put(b")");
}

/// Appends an expression that stands behind another.
#[cycle(short_expressions)]
fn put_next(out: &mut Form, expr: &Expr) {
    out.put(b",");
    put_expr(out, expr);
}

#[cycle(short_expressions)]
fn put_operands(out: &mut Form, operands: &[Expr]) {
    for (i, operand) in operands.iter().enumerate() {
        put_separator(out, i, b",");
        put_expr(out, operand);
    }
}

#[cycle(short_expressions)]
fn put_reference(out: &mut Form, reference: &Reference) {
    put_named(out, reference.name.as_bytes(), reference.place);
    for part in &reference.parts {
        put_part(out, part);
    }
}

#[cycle(short_expressions)]
fn put_part(out: &mut Form, part: &Part) {
    match part {
        Part::Field(place, name_place, name) => {
            put_named(out, b".", *place);
            out.put(b" ");
            put_named(out, name.as_bytes(), *name_place);
        }
        Part::Index(place, index_place, index) => {
            put_named(out, b"[", *place);
            out.put(b" ");
            out.put_number(*index);
            out.put(b"@");
            put_place(out, *index_place);
            out.put(b"]");
        }
        Part::Access(place, index) => {
            put_named(out, b"[", *place);
            out.put(b" ");
            put_expr(out, index);
            out.put(b"]");
        }
    }
}

#[cycle(short_statements)]
fn put_block(out: &mut Form, block: &[Stmt]) {
    for (i, statement) in block.iter().enumerate() {
        put_separator(out, i, b";");
        put_statement(out, statement);
    }
}

#[cycle(short_statements)]
fn put_statement(out: &mut Form, statement: &Stmt) {
    match statement {
        Stmt::Wire(place, ident, type_place, ty) => {
            put_declared(out, *place, b"wire ", ident);
            put_typed(out, *type_place, ty);
        }
        Stmt::Reg(place, register) => put_register(out, *place, register),
        Stmt::Node(place, ident, value) => {
            put_declared(out, *place, b"node ", ident);
            out.put(b"=");
            put_expr(out, value);
        }
        Stmt::Inst(place, ident, module) => {
            put_declared(out, *place, b"inst ", ident);
            out.put(b" of ");
            put_ident(out, module);
        }
        Stmt::Mem(place, memory) => put_memory(out, *place, memory),
        Stmt::When(place, when) => put_when(out, *place, when),
        Stmt::Connect(place, sink, source) => put_connect(out, *place, sink, b"<=", source),
        Stmt::PartialConnect(place, sink, source) => put_connect(out, *place, sink, b"<-", source),
        Stmt::Invalid(place, sink) => {
            put_first(out, *place, b"");
            put_reference(out, sink);
            out.put(b" is invalid");
        }
        Stmt::Skip(place) => put_first(out, *place, b"skip"),
    }
}

fn put_first(out: &mut Form, place: Place, word: &[u8]) {
    put_place(out, place);
    out.put(b" ");
    out.put(word);
}

/// Appends what a statement begins with that declares a name.
fn put_declared(out: &mut Form, place: Place, word: &[u8], ident: &Ident) {
    put_first(out, place, word);
    put_ident(out, ident);
}

fn put_connect(out: &mut Form, place: Place, sink: &Reference, sign: &[u8], source: &Expr) {
    put_first(out, place, b"");
    put_reference(out, sink);
    out.put(sign);
    put_expr(out, source);
}

#[cycle(short_statements)]
fn put_when(out: &mut Form, place: Place, when: &When) {
    put_first(out, place, b"when ");
    put_expr(out, &when.condition);
    out.put(b"[");
    put_block(out, &when.then_block);
    out.put(b"][");
    put_block(out, &when.else_block);
    out.put(b"]");
}

fn put_register(out: &mut Form, place: Place, register: &Register) {
    put_declared(out, place, b"reg ", &register.ident);
    put_typed(out, register.type_place, &register.ty);
    put_next(out, &register.clock);
    if let Some(reset) = &register.reset {
        out.put(b",");
        put_opened(out, b"reset", reset.place);
        put_expr(out, &reset.condition);
        put_next(out, &reset.init);
        out.put(b")");
    }
}

fn put_memory(out: &mut Form, place: Place, memory: &Memory) {
    put_declared(out, place, b"mem ", &memory.ident);
    out.put(b"{");
    for (i, field) in memory.fields.iter().enumerate() {
        put_separator(out, i, b";");
        put_field(out, field);
    }
    out.put(b"}");
}

fn put_field(out: &mut Form, field: &MemoryField) {
    match field {
        MemoryField::DataType(place, type_place, ty) => {
            put_first(out, *place, b"data-type");
            put_typed(out, *type_place, ty);
        }
        MemoryField::Depth(place, number) => put_numbered(out, *place, b"depth ", *number),
        MemoryField::ReadLatency(place, number) => put_numbered(
            out,
            *place,
            b"read-latency ",
            *number,
        ),
        MemoryField::WriteLatency(place, number) => put_numbered(
            out,
            *place,
            b"write-latency ",
            *number,
        ),
        MemoryField::Reader(place, names) => put_names(out, *place, b"reader", names),
        MemoryField::Writer(place, names) => put_names(out, *place, b"writer", names),
        MemoryField::Readwriter(place, names) => put_names(out, *place, b"readwriter", names),
        MemoryField::ReadUnderWrite(place, which) => {
            put_first(out, *place, b"read-under-write ");
            put_read(out, *which);
        }
    }
}

/// Appends what a read gives of a word that is written at the same edge.
fn put_read(out: &mut Form, which: ReadUnderWrite) {
    match which {
        ReadUnderWrite::Old => out.put(b"old"),
        ReadUnderWrite::New => out.put(b"new"),
        ReadUnderWrite::Undefined => out.put(b"undefined"),
    }
}

fn put_numbered(out: &mut Form, place: Place, word: &[u8], number: u128) {
    put_first(out, place, word);
    out.put_number(number);
}

fn put_names(out: &mut Form, place: Place, word: &[u8], names: &[Ident]) {
    put_first(out, place, word);
    for name in names {
        out.put(b" ");
        put_ident(out, name);
    }
}
