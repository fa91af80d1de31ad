// Lines that say a call and its answer.
use std::alloc::AllocError;

/// The call of a line `CALL -> ANSWER`. Of a line with no answer it is the whole line.
pub fn call(line: &str) -> &str {
    line.split_once(" -> ").unwrap_or((line, "")).0
}

/// Notes the line and what its call gives, where that is not the answer that the line says.
pub fn check(wrong: &mut String, line: &str, given: &str) -> Result<(), AllocError> {
    let wanted = line.split_once(" -> ").unwrap_or((line, "")).1;
    if given == wanted {
        return Ok(());
    }
    note(wrong, line, given)
}

/// Notes a line and what it gives.
pub fn note(wrong: &mut String, line: &str, given: &str) -> Result<(), AllocError> {
    wrong.push_str(line)?;
    wrong.push_str("\ngives: ")?;
    wrong.push_str(given)?;
    wrong.push_str("\n")
}
