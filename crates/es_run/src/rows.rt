use es_tree::Goal;
use std::alloc::{AllocError, Global};

/// A text that is read from a place at a goal.
#[derive(Drop)]
pub struct Row {
    pub goal: Goal,
    pub at: u32,
    pub bytes: Vec<u8>,
}

/// How much of an escaped byte was read.
#[derive(Clone, Copy)]
enum Escape {
    None,
    Begun,
    High(u8),
}

fn hex_value(c: u8) -> u8 {
    match c {
        b'0'..=b'9' => c - b'0',
        b'A'..=b'F' => c - b'A' + 10,
        _ => 0,
    }
}

fn bytes_of(alloc: Global, text: &[u8]) -> Result<Vec<u8>, AllocError> {
    let mut bytes = Vec::new(alloc);
    let mut escape = Escape::None;
    for c in text {
        match (escape, *c) {
            (Escape::None, b'~') => escape = Escape::Begun,
            (Escape::None, b'|') => {
                bytes.push(b'\n')?;
                escape = Escape::None;
            }
            (Escape::None, c) => {
                bytes.push(c)?;
                escape = Escape::None;
            }
            (Escape::Begun, c) => escape = Escape::High(hex_value(c).wrapping_mul(16)),
            (Escape::High(high), c) => {
                bytes.push(high | hex_value(c))?;
                escape = Escape::None;
            }
        }
    }
    Ok(bytes)
}

fn goal_of(c: u8) -> Option<Goal> {
    match c {
        b'r' => Some(Goal::Operand),
        b'd' => Some(Goal::Operator),
        b't' => Some(Goal::Template),
        _ => None,
    }
}

impl Row {
    /// Reads a goal, a digit, a space and a text.
    pub fn read(alloc: Global, line: &[u8]) -> Result<Option<Row>, AllocError> {
        let [goal, at, b' ', text @ ..] = line else {
            return Ok(None);
        };
        let Some(goal) = goal_of(*goal) else {
            return Ok(None);
        };
        let at = hex_value(*at) as u32;
        let bytes = bytes_of(alloc, text)?;
        Ok(Some(Row { goal, at, bytes }))
    }
}
