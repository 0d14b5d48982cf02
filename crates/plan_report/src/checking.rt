//! How a report can be checked.

use std::alloc::{AllocError, Global};

/// The commands that solve a plan again and check the answer; with fixed departments, `check` alone knows the plan.
pub fn commands(alloc: Global, plan: &str, is_fixed: bool) -> Result<String, AllocError> {
    let plan = shell_word(alloc, plan)?;
    let verify = if is_fixed {
        String::new(alloc)
    } else {
        format!(in alloc; "qapverify {plan} answer.proof\n")?
    };
    format!(in alloc;
        "qapplan solve {plan} --json answer.json --proof answer.proof\nqapplan check {plan} answer.json answer.proof\n{verify}"
    )
}

/// A word of a shell's command line: in quotes, unless it has only letters, digits and some signs.
fn shell_word(alloc: Global, word: &str) -> Result<String, AllocError> {
    if word.bytes().all(is_plain) {
        return String::from_str(alloc, word);
    }
    let mut quoted = String::from_str(alloc, "'")?;
    for letter in word.chars() {
        if letter == '\'' {
            quoted.push_str("'\\''")?;
        } else {
            quoted.push(letter)?;
        }
    }
    quoted.push('\'')?;
    Ok(quoted)
}

/// Whether a byte means itself in a shell.
fn is_plain(byte: u8) -> bool {
    byte.is_ascii_alphanumeric() || byte == b'/' || byte == b'.' || byte == b'-' || byte == b'_'
}
