//! The answers to the lines of a table.

use std::alloc::AllocError;
use std::io;

/// Prints the answer to each line of a table. Prints a line that begins with `#` as it is, and skips an empty one.
pub fn print_answers<F: FnMut(&str) -> Result<String, AllocError>>(
    rt: &HostRuntime,
    table: &str,
    mut answer: F,
) -> io::Result<()>
    requires { F.IsAlwaysCallable answer }
{
    for line in table.lines() {
        if line.starts_with('#') {
            println!(rt; "{line}")?;
        } else if !line.is_empty() {
            let told = answer(line)?;
            println!(rt; "{told}")?;
        }
    }
    Ok(())
}
