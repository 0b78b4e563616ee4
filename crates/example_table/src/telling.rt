//! What a program says of its examples.
ghost use Rattle.std.specs.Prelude.{◌≡◌, IfOk, is_none};

use std::io;

/// Prints the name of an example that differs in nothing, and tells a difference on standard error.
/// True: the next example may run.
pub fn is_told<R: Print + Eprint>(
    rt: &R,
    name: &str,
    difference: Option<String>,
) -> io::Result<bool>
    ensures told { IfOk result (λ told. told ≡ is_none difference) }
{
    match difference {
        None => {
            println!(rt; "{name}")?;
            Ok(true)
        }
        Some(text) => {
            eprintln!(rt; "{name}: {text}")?;
            Ok(false)
        }
    }
}

/// Tells on standard error that a line is no row of its table.
pub fn refuse_row<R: Eprint>(rt: &R, line: &str) -> io::Result<()> {
    eprintln!(rt; "no row: {line}")
}
