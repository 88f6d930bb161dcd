//! Texts and their trees.

mod forms_of_expressions;
mod forms_of_statements;
mod nesting;
mod short_form;
mod spellings;

use fir_ast::{Circuit, Place};
use fir_base::{MemoryOut, Refused};
use fir_lex::lex;
use fir_parse::parse;
use short_form::{Form, put_circuit};
use std::alloc::Global;
use std::process::Abort;
use std::test::Fail;

/// The tree of a text in a short form; nothing where the text has a fault.
pub fn tree_of(alloc: Global, text: &[u8]) -> Result<Vec<u8>, MemoryOut> {
    let circuit = circuit_of(alloc, text)?;
    let mut out = Form::new(alloc);
    if let Some(circuit) = &circuit {
        put_circuit(&mut out, circuit);
    }
    out.into_bytes()
}

/// The circuit of a text, unless the text has a fault.
fn circuit_of(alloc: Global, text: &[u8]) -> Result<Option<Circuit>, MemoryOut> {
    if text.len() > 16777216 {
        return Ok(None);
    }
    let tokens = match lex(alloc, text) {
        Ok(tokens) => tokens,
        Err(Refused::Fault(_fault)) => return Ok(None),
        Err(Refused::Memory) => return Err(MemoryOut),
    };
    match parse(alloc, tokens) {
        Ok(circuit) => Ok(Some(circuit)),
        Err(Refused::Fault(_fault)) => Ok(None),
        Err(Refused::Memory) => Err(MemoryOut),
    }
}

/// Each text gives the tree that stands beside it.
fn each_gives_its_tree(
    rt: &impl Abort,
    alloc: Global,
    rows: &[(&[u8], &[u8])],
) -> Result<(), Fail> {
    for (text, form) in rows {
        assert_eq!(rt; tree_of(alloc, text)?.as_slice(), *form);
    }
    Ok(())
}

#[test]
fn each_form_of_a_statement_gives_its_tree(rt: HostRuntime) -> Result<(), Fail> {
    each_gives_its_tree(&rt, rt.alloc(), forms_of_statements::ROWS)
}

#[test]
fn each_form_of_an_expression_gives_its_tree(rt: HostRuntime) -> Result<(), Fail> {
    each_gives_its_tree(&rt, rt.alloc(), forms_of_expressions::ROWS)
}

#[test]
fn numbers_blanks_and_versions_are_read_in_each_spelling(rt: HostRuntime) -> Result<(), Fail> {
    each_gives_its_tree(&rt, rt.alloc(), spellings::ROWS)
}

/// Where the fault stands, how many tokens are handed back with it, and where the second of them stands.
fn handed_back(alloc: Global, text: &[u8]) -> Option<(Place, usize, Option<Place>)> {
    if text.len() > 16777216 {
        return None;
    }
    let tokens = match lex(alloc, text) {
        Ok(tokens) => tokens,
        Err(_fault) => return None,
    };
    match parse(alloc, tokens) {
        Ok(_circuit) => None,
        Err(Refused::Fault((fault, back))) => {
            let second = back.get(1).map(|token| token.place);
            Some((fault.place(), back.len(), second))
        }
        Err(Refused::Memory) => None,
    }
}

#[test]
fn the_tokens_come_back_with_a_fault(rt: HostRuntime) -> Result<(), Fail> {
    let back = handed_back(rt.alloc(), b"circuit T :\n  modul M :\n");
    let fault = Place { line: 2, col: 3 };
    let second = Place { line: 1, col: 9 };
    assert!(rt; back == Some((fault, 10, Some(second))));
    Ok(())
}
