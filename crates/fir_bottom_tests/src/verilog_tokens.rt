//! The tokens of texts in the Verilog subset, in a short form, against what was worked out by hand from IEEE 1364-2005, 3.1 to
//! 3.8. What `lex` gives for every text its contract says, and that this is one thing a law; here stand worked texts.

use std::alloc::{AllocError, Global};
use std::test::Fail;
use ver_lex::{Lexeme, Next, Tokens, lex};

/// Texts, with their tokens, the byte at which they stop, and the place of the end.
const ROWS: &[(&[u8], &str)] = &[
    (b"", "end 1:1"),
    (b"abc _a$1", "word abc 1:1, word _a$1 1:5, end 1:9"),
    (b"0 00 7", "zero 1:1, number 0 1:3, number 7 1:6, end 1:7"),
    (
        b"4294967293 4294967294 4294967295",
        "number 4294967293 1:1, number 4294967294 1:12, number 4294967294 1:23, end 1:33",
    ),
    (
        b"99999999999999999999999999999999999999999 1",
        "number 4294967294 1:1, number 1 1:43, end 1:44",
    ),
    (b"4'g", "number 4 1:1, stop 27 1:2, end 1:4"),
    (b"4'", "number 4 1:1, stop 27 1:2, end 1:3"),
    (b"4'b2", "number 4 1:1, stop 27 1:2, end 1:5"),
    (b"4'b", "number 4 1:1, stop 27 1:2, end 1:4"),
    (b"0'", "zero 1:1, stop 27 1:2, end 1:3"),
    (b"8'h5_5", "constant 8 5 1:1, word _5 1:5, end 1:7"),
    (b"4'b102", "constant 4 2 1:1, number 2 1:6, end 1:7"),
    (b"16'hAbcD", "constant 16 43981 1:1, end 1:9"),
    (b"9'd0012;", "constant 9 12 1:1, sign ; 1:8, end 1:9"),
    (
        b"128'hffffffffffffffffffffffffffffffff",
        "constant 128 340282366920938463463374607431768211455 1:1, end 1:38",
    ),
    (
        b"129'h100000000000000000000000000000000",
        "constant 129 none 1:1, end 1:39",
    ),
    (b"4294967297'd1", "constant 4294967294 1 1:1, end 1:14"),
    (
        b"1'h0?a",
        "constant 1 0 1:1, question 1:5, word a 1:6, end 1:7",
    ),
    (
        b"1'h0 ?a",
        "constant 1 0 1:1, sign ? 1:6, word a 1:7, end 1:8",
    ),
    (
        b"1'h0??",
        "constant 1 0 1:1, question 1:5, sign ? 1:6, end 1:7",
    ),
    (b"1 'h0", "number 1 1:1, stop 27 1:3, end 1:6"),
    (b"/* x", "stop 2f 1:1, end 1:5"),
    (b"a // c", "word a 1:1, end 1:7"),
    (
        b"a // c */ \xff\n/b",
        "word a 1:1, sign / 2:1, word b 2:2, end 2:3",
    ),
    (b"/*/", "stop 2f 1:1, end 1:4"),
    (b"/*/*/ a", "word a 1:7, end 1:8"),
    (b"/**/a/***/b", "word a 1:5, word b 1:11, end 1:12"),
    (b"/* *\n */c", "word c 2:4, end 2:5"),
    (b"a /* * /", "word a 1:1, stop 2f 1:3, end 1:9"),
    (b"(*)", "double (* 1:1, sign ) 1:3, end 1:4"),
    (b"@(*)", "sign @ 1:1, double (* 1:2, sign ) 1:4, end 1:5"),
    (b"**)", "sign * 1:1, double *) 1:2, end 1:4"),
    (
        b">>> >> > > >>>= >=",
        "signed shift 1:1, double >> 1:5, sign > 1:8, sign > 1:10, signed shift 1:12, sign = 1:15, double >= 1:17, end 1:19",
    ),
    (b">>>>", "signed shift 1:1, sign > 1:4, end 1:5"),
    (
        b"<=<<==!===",
        "double <= 1:1, double << 1:3, double == 1:5, double != 1:7, double == 1:9, end 1:11",
    ),
    (b"$signed(", "signed word 1:1, sign ( 1:8, end 1:9"),
    (b"$signeda", "signed word 1:1, word a 1:8, end 1:9"),
    (b"$sign", "stop 24 1:1, end 1:6"),
    (b".", "stop 2e 1:1, end 1:2"),
    (b"a\x0cb", "word a 1:1, stop 0c 1:2, end 1:4"),
    (b"\xef\xbb\xbfmodule", "stop ef 1:1, end 1:10"),
    (b"a\r\nb\tc", "word a 1:1, word b 2:1, word c 2:3, end 2:4"),
    (b"!", "stop 21 1:1, end 1:2"),
    (b"! =", "stop 21 1:1, end 1:4"),
    (
        b"();,:[]{}=~&|^@+-%?<>",
        "sign ( 1:1, sign ) 1:2, sign ; 1:3, sign , 1:4, sign : 1:5, sign [ 1:6, sign ] 1:7, sign { 1:8, sign } 1:9, sign = 1:10, sign ~ 1:11, sign & 1:12, sign | 1:13, sign ^ 1:14, sign @ 1:15, sign + 1:16, sign - 1:17, sign % 1:18, sign ? 1:19, sign < 1:20, sign > 1:21, end 1:22",
    ),
];

#[test]
fn texts_have_the_tokens_of_the_standard(rt: HostRuntime) -> Result<(), Fail> {
    let alloc = rt.alloc();
    for (text, wanted) in ROWS {
        let told = told_text(alloc, text)?;
        assert_eq!(rt; told.as_str(), *wanted);
    }
    Ok(())
}

fn told_text(alloc: Global, text: &[u8]) -> Result<String, AllocError> {
    if text.len() > 16777216 {
        return Ok(String::new(alloc));
    }
    match lex(alloc, text) {
        Ok(tokens) => told(alloc, &tokens),
        Err(_out) => Err(AllocError),
    }
}

fn told(alloc: Global, tokens: &Tokens) -> Result<String, AllocError> {
    let mut out = String::new(alloc);
    for index in 0..tokens.len() {
        if let Some(next) = tokens.get(index) {
            let token = told_token(alloc, &next)?;
            let (line, col) = (next.place.line, next.place.col);
            out.push_str(format!(in alloc; "{token} {line}:{col}, ")?.as_str())?;
        }
    }
    if let Some(bad) = tokens.stop() {
        let (byte, line, col) = (bad.byte, bad.place.line, bad.place.col);
        out.push_str(format!(in alloc; "stop {byte:02x} {line}:{col}, ")?.as_str())?;
    }
    let (line, col) = (tokens.end().line, tokens.end().col);
    out.push_str(format!(in alloc; "end {line}:{col}")?.as_str())?;
    Ok(out)
}

fn told_token(alloc: Global, next: &Next<'_>) -> Result<String, AllocError> {
    match next.lexeme {
        Lexeme::Word(name) => {
            let name = String::from_utf8_lossy(alloc, name)?;
            format!(in alloc; "word {name}")
        }
        Lexeme::Zero => format!(in alloc; "zero"),
        Lexeme::Number(number) => format!(in alloc; "number {number}"),
        Lexeme::Constant(constant) => {
            let width = constant.width;
            match constant.number {
                Some(number) => format!(in alloc; "constant {width} {number}"),
                None => format!(in alloc; "constant {width} none"),
            }
        }
        Lexeme::Sign(byte) => {
            let sign = char::from(byte);
            format!(in alloc; "sign {sign}")
        }
        Lexeme::Double(first, second) => {
            let (first, second) = (char::from(first), char::from(second));
            format!(in alloc; "double {first}{second}")
        }
        Lexeme::SignedShift => format!(in alloc; "signed shift"),
        Lexeme::SignedWord => format!(in alloc; "signed word"),
        Lexeme::QuestionDigit => format!(in alloc; "question"),
    }
}
