//! Reads rows such as `r0 a = 1`, a goal, a place and a text, and prints behind each the token that stands there.
//!
//! The goals are `r` for Operand, `d` for Operator and `t` for Template. In a text `|` is LF, and `~` and two digits
//! are a byte. The table of cases is in `stdin`, and what must be printed in `stdout`.
#![tactic(auto)]

mod rows;

use es_lexer::{LexFault, next_token};
use rows::Row;
use std::io;

fn show(rt: &impl Print, line: &str, row: &Row) -> io::Result<()> {
    let bytes = row.bytes.as_slice();
    if bytes.len() > 1000 || row.at as usize > bytes.len() {
        return println!(rt; "{line}\tno row");
    }
    match next_token(bytes, row.at, row.goal) {
        Ok(token) => {
            let newline = if token.newline { " newline" } else { "" };
            println!(rt;
                "{line}\t{:?} {} {}{newline}",
                token.kind, token.start, token.end
            )
        }
        Err(LexFault::NotUtf8(place)) => println!(rt; "{line}\tNotUtf8 {place}"),
        Err(LexFault::NoToken(place)) => println!(rt; "{line}\tNoToken {place}"),
    }
}

fn main(rt: HostRuntime) -> io::Result<()> {
    for line in rt.lines(rt.alloc()) {
        let line = line?;
        match Row::read(rt.alloc(), line.as_bytes())? {
            Some(row) => show(&rt, line.as_str(), &row)?,
            None => println!(rt; "{line}\tno row")?,
        }
    }
    Ok(())
}
