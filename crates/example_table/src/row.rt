//! A row of a table, and what its fields are.

/// What stands between what is given and what is wanted.
const ARROW: &str = "=>";

/// The word with which a row begins, and the text behind it. `None`: the line says nothing.
pub fn named_row(line: &str) -> Option<(&str, &str)> {
    let line = line.trim();
    if line.is_empty() || line.starts_with('#') {
        return None;
    }
    match line.split_once(' ') {
        None => Some((line, "")),
        Some((word, text)) => Some((word, text.trim_start())),
    }
}

/// What is given before a `=>`, and what is wanted behind it. `None`: there is no `=>`.
pub fn sides_of(text: &str) -> Option<(&str, &str)> {
    let (given, wanted) = text.split_once(ARROW)?;
    Some((given.trim(), wanted.trim()))
}

/// The number that a field writes.
pub fn number_in(field: &str) -> Option<u64> {
    field.parse::<u64>().ok()
}

/// The number that a field writes, maybe below zero.
pub fn signed_of(field: &str) -> Option<i64> {
    field.parse::<i64>().ok()
}
