// Rows of a stream beside results.
use std::alloc::{AllocError, Global};

/// Results without the op and the line of each row, as a stream prints its rows.
pub fn without_op(alloc: Global, results: &str) -> Result<String, AllocError> {
    let mut text = String::new(alloc);
    for row in results.lines() {
        for (i, field) in row.split(',').enumerate() {
            if i >= 3 {
                text.push(',')?;
            }
            if i == 0 || i >= 3 {
                text.push_str(field)?;
            }
        }
        text.push('\n')?;
    }
    Ok(text)
}

/// Whether a stream printed exactly these rows, in whatever order; no two of them are the same.
pub fn are_same(rows: &str, streamed: &str) -> bool {
    rows.lines().count() == streamed.lines().count()
        && rows.lines().all(|row| streamed.lines().any(|it| it == row))
}
