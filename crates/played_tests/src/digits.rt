// Short forms of long digits: `[ab]` stands for the digits of a line whose bytes are all 0xab, `[ee 11]` for 0xee and then
// 0x11 everywhere, `[ee ..]` for 0xee as the only byte given, `[0 * 70]` for seventy characters `0`. `[cr]` is a carriage return,
// `[nul]` the character 0, `[bom]` a byte order mark, and `[-]` ends a text there.
use std::alloc::{AllocError, Global};

/// A line of text with the digits that its short forms stand for.
pub fn written_out(alloc: Global, line: &str, line_bytes: usize) -> Result<String, AllocError> {
    let mut text = String::new(alloc);
    for (i, part) in line.split('[').enumerate() {
        let Some((form, rest)) = part.split_once(']') else {
            if i > 0 {
                text.push('[')?;
            }
            text.push_str(part)?;
            continue;
        };
        push_digits(&mut text, form, line_bytes)?;
        text.push_str(rest)?;
    }
    Ok(text)
}

// Appends what a short form stands for.
fn push_digits(text: &mut String, form: &str, line_bytes: usize) -> Result<(), AllocError> {
    match form {
        "cr" => text.push('\r'),
        "nul" => text.push('\0'),
        "bom" => text.push('\u{feff}'),
        "-" => Ok(()),
        _ => match form.split_once(" * ") {
            Some((repeated, times)) => {
                push_times(text, repeated, times.parse::<usize>().unwrap_or(0))
            }
            None => {
                let (first, other) = form.split_once(' ').unwrap_or((form, form));
                text.push_str(first)?;
                push_times(text, other, line_bytes.saturating_sub(1))
            }
        },
    }
}

fn push_times(text: &mut String, part: &str, times: usize) -> Result<(), AllocError> {
    for _ in 0..times {
        text.push_str(part)?;
    }
    Ok(())
}

/// A field of a row, in its short form where it has one.
pub fn in_short(alloc: Global, field: &str, line_bytes: usize) -> Result<String, AllocError> {
    match field.as_bytes() {
        [a, b, others @ ..] if field.len() / 2 == line_bytes => {
            let (Some(c), Some(d)) = (others.first(), others.get(1)) else {
                return String::from_str(alloc, field);
            };
            let pair = [*c, *d];
            if others.chunks(2).any(|digits| digits != pair.as_slice()) {
                return String::from_str(alloc, field);
            }
            let (a, b, c, d) = (
                char::from(*a),
                char::from(*b),
                char::from(*c),
                char::from(*d),
            );
            if (a, b) == (c, d) {
                format!(in alloc; "[{a}{b}]")
            } else {
                format!(in alloc; "[{a}{b} {c}{d}]")
            }
        }
        _ => String::from_str(alloc, field),
    }
}
