// What takes calls that are lines, and a run of such lines.
use fs_words::{call, check};
use std::alloc::{AllocError, Global};

/// What takes calls that are lines.
pub(crate) trait Called {
    /// What a call gives, in words.
    fn called(&mut self, alloc: Global, call: &str) -> Result<String, AllocError>;
}

fn check_line<C: Called>(
    alloc: Global,
    on: &mut C,
    line: &str,
    wrong: &mut String,
) -> Result<(), AllocError> {
    let given = on.called(alloc, call(line))?;
    check(wrong, line, given.as_str())
}

/// The lines that do not give what they should, with what they give.
pub(crate) fn wrong_lines<C: Called>(
    alloc: Global,
    on: &mut C,
    lines: &str,
) -> Result<String, AllocError> {
    let mut wrong = String::new(alloc);
    for line in lines.lines() {
        check_line(alloc, on, line, &mut wrong)?;
    }
    Ok(wrong)
}
